// The labels that `absent` and `absent_over_time` of a selector give.
ghost use Rattle.std.specs.Prelude.{◌≡◌, [], fold, IfOk, OnOk};
ghost use Rattle.ql_eval.specs.Absent as spec;
ghost use Rattle.ql_eval.specs.Holding.{given_as};

use op_base::{Labels, METRIC_NAME, MatchOp, Matcher, NoMemory, Table};
use std::alloc::Global;

// The names on which an equality came, and the labels.
#[derive(Drop)]
struct Given {
    names: Table<()>,
    labels: Labels,
}

/// The labels that matchers give, with no ambient labels.
pub(crate) fn absent_labels(alloc: Global, asked: &[Matcher]) -> Result<Labels, NoMemory>
    ensures { IfOk result (λ labels. labels ≡ spec.absent_labels [] asked.now) }
{
    let mut given = Given {
        names: Table::new(alloc),
        labels: Labels::new(alloc),
    };
    for matcher in asked {
        take(&mut given, matcher)?;
    }
    let Given { names: _, labels } = given;
    Ok(labels)
}

fn take(given: &mut Given, matcher: &Matcher) -> Result<(), NoMemory>
    ensures { OnOk result (given_as given.new ≡ spec.after_matcher (given_as given.old) matcher.now) }
{
    let name = matcher.name.as_str();
    if name.as_bytes() == METRIC_NAME.as_bytes() {
        return Ok(());
    }
    if gives(given, matcher) {
        put_label(given, matcher)
    } else {
        given.labels.remove(name);
        Ok(())
    }
}

// The first equality on a label.
fn gives(given: &Given, matcher: &Matcher) -> bool
    ensures { result ≡ spec.gives (given_as given.now) matcher.now }
{
    matcher.op == MatchOp::Eq && !is_given(&given.names, matcher.name.as_str())
}

fn is_given(names: &Table<()>, name: &str) -> bool
    ensures { result ≡ spec.is_given name.now names.now }
{
    names.get(name).is_some()
}

fn put_label(given: &mut Given, matcher: &Matcher) -> Result<(), NoMemory>
    ensures { OnOk result (given_as given.new ≡ spec.with_label (given_as given.old) matcher.now) }
{
    given.names.insert(matcher.name.clone()?, ())?;
    given
        .labels
        .set(matcher.name.as_str(), matcher.value.as_str())
}
