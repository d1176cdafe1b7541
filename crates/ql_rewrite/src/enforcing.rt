ghost use Rattle.std.specs.Prelude.{◌≡◌, ℕ, true, false, List, Err, None, Some, IfOk, OnOk, IsTrue, map, not, bytes_eq};
ghost use Rattle.std.specs.List.{filter};
ghost use Rattle.op_base.specs.declared.label_names.TheConstants.{METRIC_NAME};
ghost use Rattle.op_base.specs.declared.matcher.Matcher.{Matcher as BaseMatcher};
ghost use Rattle.op_base.specs.Names.{is_label_name};
ghost use Rattle.ql_tree.specs.Enforced as spec;
ghost use Rattle.ql_tree.specs.Spells.{Spells};

use crate::conflicts::{first_conflict, is_on};
use op_base::{List, MatchOp, Matcher, NoMemory, Text};
use ql_tree::Expr;
use std::alloc::{AllocError, Global};

/// Why a label isn't enforced.
#[derive(Debug, PartialEq, Eq, Drop)]
pub enum EnforceFault {
    /// A selector has this matcher on the label, which isn't the enforced one.
    Conflict(Matcher),
    NoMemory,
}

impl From<NoMemory> for EnforceFault {
    ghost use Rattle.std.specs.Prelude.{◌≡◌};
    ghost use Rattle.ql_rewrite.specs.declared.enforcing.EnforceFault.TheVariants.{NoMemory as no_memory};

    ghost from_gives = { λ _ fault. fault ≡ no_memory };

    fn from(_refused: NoMemory) -> Self {
        EnforceFault::NoMemory
    }
}

/// The tree with, in every selector, the matchers on the label removed and `name="value"` put
/// behind the others. `Conflict` comes exactly where `strict` is set and some matcher on the label
/// isn't that one; it carries the first in text order. Some text spells the answer where one spells
/// the tree and the name is a label name other than `__name__`.
pub fn enforce(
    alloc: Global,
    expr: &Expr,
    name: &str,
    value: &str,
    strict: bool,
) -> Result<Expr, EnforceFault>
    ensures enforced { IfOk result (λ e. e ≡ spec.enforced name.now value.now expr.now) }
    ensures no_conflict { OnOk result (IsTrue strict → spec.first_conflict name.now value.now expr.now ≡ None) }
    ensures conflict { (m : BaseMatcher) → result ≡ Err (EnforceFault.Conflict m)
        → IsTrue strict × (spec.first_conflict name.now value.now expr.now ≡ Some m) }
    ensures spelled { (text : List ℕ) → is_label_name name.now ≡ true
        → bytes_eq name.now METRIC_NAME.now ≡ false → Spells expr.now text
        → (again : List ℕ) × Spells (spec.enforced name.now value.now expr.now) again }
{
    if strict {
        if let Some(m) = first_conflict(expr, name, value) {
            return Err(conflict(m));
        }
    }
    match enforced_copy(alloc, expr, name, value) {
        Ok(enforced) => Ok(enforced),
        Err(_) => Err(EnforceFault::NoMemory),
    }
}

fn conflict(m: &Matcher) -> EnforceFault
    ensures { (found : BaseMatcher) → result ≡ EnforceFault.Conflict found → found ≡ m.now }
{
    match copy(m) {
        Ok(copy) => EnforceFault::Conflict(copy),
        Err(_) => EnforceFault::NoMemory,
    }
}

fn copy(m: &Matcher) -> Result<Matcher, AllocError>
    ensures { IfOk result (λ copy. copy ≡ m.now) }
{
    m.clone()
}

fn enforced_copy(alloc: Global, expr: &Expr, name: &str, value: &str) -> Result<Expr, NoMemory>
    ensures { IfOk result (λ e. e ≡ spec.enforced name.now value.now expr.now) }
{
    in_tree(alloc, expr.copy(alloc)?, name, value)
}

#[cycle(enforcing)]
fn in_tree(alloc: Global, expr: Expr, name: &str, value: &str) -> Result<Expr, NoMemory>
    ensures { IfOk result (λ e. e ≡ spec.enforced name.now value.now expr) }
{
    match expr {
        Expr::Number(n) => Ok(Expr::Number(n)),
        Expr::Str(text) => Ok(Expr::Str(text)),
        Expr::Select {
            name: metric,
            matchers,
            range,
            offset,
        } => Ok(Expr::Select {
            name: metric,
            matchers: in_matchers(alloc, matchers, name, value)?,
            range,
            offset,
        }),
        Expr::Unary { minus, of } => Ok(Expr::Unary {
            minus,
            of: in_all(alloc, of, name, value)?,
        }),
        Expr::Binary {
            op,
            boolean,
            matching,
            left,
            right,
        } => Ok(Expr::Binary {
            op,
            boolean,
            matching,
            left: in_all(alloc, left, name, value)?,
            right: in_all(alloc, right, name, value)?,
        }),
        Expr::Call { function, args } => Ok(Expr::Call {
            function,
            args: in_all(alloc, args, name, value)?,
        }),
        Expr::Aggregate {
            op,
            grouping,
            param,
            of,
        } => Ok(Expr::Aggregate {
            op,
            grouping,
            param: in_all(alloc, param, name, value)?,
            of: in_all(alloc, of, name, value)?,
        }),
    }
}

#[cycle(enforcing)]
fn in_all(alloc: Global, exprs: List<Expr>, name: &str, value: &str) -> Result<List<Expr>, NoMemory>
    ensures { IfOk result (λ changed. changed ≡ map (spec.enforced name.now value.now) exprs) }
{
    let mut changed = List::new(alloc);
    for expr in exprs.into_vec() {
        changed.push(in_tree(alloc, expr, name, value)?)?;
    }
    Ok(changed)
}

fn in_matchers(
    alloc: Global,
    matchers: List<Matcher>,
    name: &str,
    value: &str,
) -> Result<List<Matcher>, NoMemory>
    ensures { IfOk result (λ changed. changed ≡ spec.enforced_matchers name.now value.now matchers) }
{
    let mut changed = others(alloc, matchers, name)?;
    changed.push(matcher_of(alloc, name, value)?)?;
    Ok(changed)
}

/// The matchers on other labels.
fn others(alloc: Global, matchers: List<Matcher>, name: &str) -> Result<List<Matcher>, NoMemory>
    ensures { IfOk result (λ kept. kept ≡ filter (λ m. not (spec.is_on name.now m)) matchers) }
{
    let mut kept = List::new(alloc);
    for m in matchers.into_vec() {
        if !is_on(&m, name) {
            kept.push(m)?;
        }
    }
    Ok(kept)
}

fn matcher_of(alloc: Global, name: &str, value: &str) -> Result<Matcher, NoMemory>
    ensures { IfOk result (λ m. m ≡ spec.matcher_of name.now value.now) }
{
    Ok(Matcher {
        name: Text::from_str(alloc, name)?,
        op: MatchOp::Eq,
        value: Text::from_str(alloc, value)?,
    })
}
