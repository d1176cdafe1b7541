ghost use Rattle.std.specs.Prelude.{◌≡◌};
ghost use Rattle.std.specs.List.{filter, flat_map};
ghost use Rattle.std.specs.Option.{option_copied};
ghost use Rattle.ql_tree.specs.Enforced as spec;

use op_base::{MatchOp, Matcher};
use ql_tree::Expr;

/// The first matcher on the label, in text order, that isn't `name="value"`.
#[cycle(finding)]
pub(crate) fn first_conflict<'e>(expr: &'e Expr, name: &str, value: &str) -> Option<&'e Matcher>
    ensures { option_copied result ≡ spec.first_conflict name.now value.now expr.now }
{
    match expr {
        Expr::Number(_) => None,
        Expr::Str(_) => None,
        Expr::Select { matchers, .. } => first_in(matchers.as_slice(), name, value),
        Expr::Unary { of, .. } => first_below(of.as_slice(), name, value),
        Expr::Binary { left, right, .. } => match first_below(left.as_slice(), name, value) {
            Some(m) => Some(m),
            None => first_below(right.as_slice(), name, value),
        },
        Expr::Call { args, .. } => first_below(args.as_slice(), name, value),
        Expr::Aggregate { param, of, .. } => match first_below(param.as_slice(), name, value) {
            Some(m) => Some(m),
            None => first_below(of.as_slice(), name, value),
        },
    }
}

#[cycle(finding)]
fn first_below<'e>(exprs: &'e [Expr], name: &str, value: &str) -> Option<&'e Matcher>
    ensures { option_copied result ≡ spec.first_of (filter (spec.conflicts name.now value.now) (flat_map spec.matchers_of exprs.now)) }
{
    for expr in exprs {
        if let Some(m) = first_conflict(expr, name, value) {
            return Some(m);
        }
    }
    None
}

fn first_in<'e>(matchers: &'e [Matcher], name: &str, value: &str) -> Option<&'e Matcher>
    ensures { option_copied result ≡ spec.first_of (filter (spec.conflicts name.now value.now) matchers.now) }
{
    for m in matchers {
        if conflicts(m, name, value) {
            return Some(m);
        }
    }
    None
}

fn conflicts(m: &Matcher, name: &str, value: &str) -> bool
    ensures { result ≡ spec.conflicts name.now value.now m.now }
{
    is_on(m, name) && !(is_equality(m.op) && m.value.as_bytes() == value.as_bytes())
}

fn is_equality(op: MatchOp) -> bool
    ensures { result ≡ spec.is_equality op }
{
    match op {
        MatchOp::Eq => true,
        MatchOp::Ne => false,
        MatchOp::Re => false,
        MatchOp::Nr => false,
    }
}

pub(crate) fn is_on(m: &Matcher, name: &str) -> bool
    ensures { result ≡ spec.is_on name.now m.now }
{
    m.name.as_bytes() == name.as_bytes()
}
