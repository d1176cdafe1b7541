// What a selector gives at a moment, with no ambient labels.
ghost use Rattle.std.specs.Prelude.{◌≡◌, [], ◌++◌, ◌-ℤ◌, map, IfOk, OnOk};
ghost use Rattle.std.specs.List.{flat_map};
ghost use Rattle.ql_eval.specs.Selected as spec;

use crate::absent::absent_labels;
use op_base::{Labels, List, METRIC_NAME, MatchOp, Matcher, Moment, NoMemory, Span, Text};
use ql_call::Operand;
use srv_store::{Entry, Store};
use std::alloc::Global;

// How long an entry counts as the newest one, in milliseconds.
const LOOKBACK: i128 = 300_000;

pub(crate) fn selected(
    alloc: Global,
    store: &Store,
    t: &Moment,
    name: &Option<Text>,
    matchers: &[Matcher],
    range: &Option<Span>,
    offset: &Option<Span>,
) -> Result<Operand, NoMemory>
    ensures { IfOk result (λ operand. operand
        ≡ spec.selected [] store.now t.now name.now matchers.now range.now offset.now) }
{
    let asked = asked_of(alloc, name, matchers)?;
    let labels = absent_labels(alloc, asked.as_slice())?;
    let end = moment_before(t, offset);
    selected_at(alloc, store, &asked, &end, range, labels)
}

// No matcher is passed over.
fn asked_of(
    alloc: Global,
    name: &Option<Text>,
    matchers: &[Matcher],
) -> Result<List<Matcher>, NoMemory>
    ensures { IfOk result (λ asked. asked ≡ spec.asked_of [] name.now matchers.now) }
{
    let mut asked = List::new(alloc);
    push_name(alloc, &mut asked, name)?;
    for matcher in matchers {
        asked.push(matcher.clone()?)?;
    }
    Ok(asked)
}

fn push_name(alloc: Global, asked: &mut List<Matcher>, name: &Option<Text>) -> Result<(), NoMemory>
    ensures { OnOk result (asked.new ≡ asked.old ++ spec.with_name name.now []) }
{
    match name {
        Some(name) => asked.push(name_matcher(alloc, name.as_str())?),
        None => Ok(()),
    }
}

fn name_matcher(alloc: Global, name: &str) -> Result<Matcher, NoMemory>
    ensures { IfOk result (λ matcher. matcher ≡ spec.name_matcher name.now) }
{
    Ok(Matcher {
        name: Text::from_str(alloc, METRIC_NAME)?,
        op: MatchOp::Eq,
        value: Text::from_str(alloc, name)?,
    })
}

// The moment less the offset.
fn moment_before(t: &Moment, offset: &Option<Span>) -> i128
    ensures value { result ≡ spec.moment_before t.now offset.now }
    ensures near { spec.IsNear result }
{
    match offset {
        Some(offset) => less(&t.0, &offset.0),
        None => i128::from(t.0),
    }
}

fn less(t: &i64, offset: &i64) -> i128
    ensures value { result ≡ t.now -ℤ offset.now }
    ensures near { spec.IsNear result }
{
    i128::from(*t) - i128::from(*offset)
}

fn selected_at(
    alloc: Global,
    store: &Store,
    asked: &List<Matcher>,
    t: &i128,
    range: &Option<Span>,
    labels: Labels,
) -> Result<Operand, NoMemory>
    requires near { spec.IsNear t.now }
    ensures { IfOk result (λ operand. operand ≡ spec.selected_at store.now asked.now t.now range.now labels) }
{
    match range {
        Some(range) => range_before(store, asked, t, range, labels),
        None => newest(alloc, store, asked, t, labels),
    }
}

fn range_before(
    store: &Store,
    asked: &List<Matcher>,
    t: &i128,
    range: &Span,
    labels: Labels,
) -> Result<Operand, NoMemory>
    requires near { spec.IsNear t.now }
    ensures { IfOk result (λ operand. operand ≡ spec.range_before store.now asked.now t.now range.now labels) }
{
    let from = *t - i128::from(range.0);
    Ok(Operand::Ranged(store.ranged(asked, &from, t)?, *range, labels))
}

fn newest(
    alloc: Global,
    store: &Store,
    asked: &List<Matcher>,
    t: &i128,
    labels: Labels,
) -> Result<Operand, NoMemory>
    requires near { spec.IsNear t.now }
    ensures { IfOk result (λ operand. operand ≡ spec.selected_at store.now asked.now t.now None labels) }
{
    let from = *t - LOOKBACK;
    let entries = store.newest(asked, &from, t)?;
    instant(alloc, entries, labels)
}

// The elements of the entries, and their moments.
fn instant(alloc: Global, entries: List<Entry>, labels: Labels) -> Result<Operand, NoMemory>
    ensures { IfOk result (λ operand. operand ≡ spec.instant entries labels) }
{
    let moments = moments_in(alloc, entries.as_slice())?;
    let elements = elements_in(alloc, entries)?;
    Ok(Operand::Selected(elements, moments, labels))
}

fn moments_in(alloc: Global, entries: &[Entry]) -> Result<List<Moment>, NoMemory>
    ensures { IfOk result (λ moments. moments ≡ spec.moments_in entries.now) }
{
    let mut moments = List::new(alloc);
    for entry in entries {
        moments.push(entry.at)?;
    }
    Ok(moments)
}

fn elements_in(alloc: Global, entries: List<Entry>) -> Result<List<(Labels, i64)>, NoMemory>
    ensures { IfOk result (λ elements. elements ≡ spec.elements_in entries) }
{
    let mut elements = List::new(alloc);
    for entry in entries.into_vec() {
        push_element(&mut elements, entry)?;
    }
    Ok(elements)
}

fn push_element(elements: &mut List<(Labels, i64)>, entry: Entry) -> Result<(), NoMemory>
    ensures { OnOk result (elements.new ≡ elements.old ++ spec.element_of entry.labels entry.value) }
{
    let Entry {
        labels,
        at: _,
        value,
    } = entry;
    match value {
        Some(value) => elements.push((labels, value)),
        None => Ok(()),
    }
}
