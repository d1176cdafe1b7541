ghost use Rattle.std.specs.Prelude.{◌≡◌, ◌≤◌, ◌<◌, ◌++◌, ℕ, IfOk, IfErr, length, slice_get};
ghost use Rattle.std.specs.List.{list_all};
ghost use Rattle.std.specs.Option.{option_copied};
ghost use Rattle.std.specs.Prelude.{codes, decimal};
ghost use Rattle.std.specs.Prelude as seen;
ghost use Rattle.ql_tree.specs.declared.types.ExprType.{ExprType};
ghost use Rattle.ql_tree.specs.Children.{children_of};
ghost use Rattle.ql_tree.specs.Faults.{IsFault, IsFaultAbove, IsFaultOf};
ghost use Rattle.ql_tree.specs.Typed as spec;
ghost use Rattle.ql_tree.specs.Untyped as untyped;
ghost use Rattle.ql_tree.specs.declared.tree.Expr.TheViews.{out-Expr};

use crate::calls::{call, is_pattern};
use crate::rules::{aggregate, binary, sign};
use crate::shapes::type_of_shape;
use crate::tree::Expr;
use crate::types::{ExprType, Shape, TypeFault};
use op_base::{List, MatchOp, Matcher, NoMemory, Span, Text};
use std::alloc::Global;

/// The child with that number, children being numbered from 0 in the order of the text.
pub fn child(expr: &Expr, number: usize) -> Option<&Expr>
    ensures { option_copied result ≡ slice_get (children_of (out-Expr expr.now)) number }
{
    match expr {
        Expr::Unary { of, .. } => of.get(number),
        Expr::Binary { left, right, .. } => item(left.as_slice(), right.as_slice(), number),
        Expr::Call { args, .. } => args.get(number),
        Expr::Aggregate { param, of, .. } => item(param.as_slice(), of.as_slice(), number),
        _ => None,
    }
}

fn item<'e>(first: &'e [Expr], second: &'e [Expr], number: usize) -> Option<&'e Expr>
    ensures { option_copied result ≡ slice_get (first.now ++ second.now) number }
{
    if number < first.len() {
        first.get(number)
    } else {
        second.get(number - first.len())
    }
}

enum Trouble {
    Here,
    Below(Text),
    NoMemory,
}

impl From<NoMemory> for Trouble {
    ghost use Rattle.std.specs.Prelude.{◌≡◌};
    ghost use Rattle.ql_tree.specs.declared.typing.Trouble.TheVariants.{NoMemory as no_memory};

    ghost from_gives = { λ _ e. e ≡ no_memory };

    fn from(_refused: NoMemory) -> Self {
        Trouble::NoMemory
    }
}

/// The type of the tree. `IllTyped` comes exactly where it has none, with the path of child numbers
/// joined by `.` to the first node in post-order that has none; the path to the tree itself is the
/// empty text.
pub fn type_of(alloc: Global, expr: &Expr) -> Result<ExprType, TypeFault>
    ensures typed { IfOk result (spec.Typed expr.now) }
    ensures ill_typed { (path : seen.List ℕ) → result ≡ Err (TypeFault.IllTyped path)
        → untyped.IsUntypedAt expr.now path }
    ensures no_type { (path : seen.List ℕ) (t : ExprType) → result ≡ Err (TypeFault.IllTyped path)
        → ¬ (spec.Typed expr.now t) }
{
    match shape(alloc, expr) {
        Ok(found) => Ok(type_of_shape(&found)),
        Err(Trouble::Here) => Err(TypeFault::IllTyped(Text::new(alloc))),
        Err(Trouble::Below(path)) => Err(TypeFault::IllTyped(path)),
        Err(Trouble::NoMemory) => Err(TypeFault::NoMemory),
    }
}

fn shape(alloc: Global, expr: &Expr) -> Result<Shape, Trouble>
    ensures shape { IfOk result (λ found. untyped.verdict_of expr.now ≡ Ok found) }
    ensures fault { IfErr result (IsFault (untyped.verdict_of expr.now)) }
{
    let mut shapes = List::new(alloc);
    while let Some(next) = child(expr, shapes.len()) {
        match shape(alloc, next) {
            Ok(found) => shapes.push(found)?,
            Err(inner) => return Err(above(alloc, shapes.len(), inner)),
        }
    }
    here(rule(alloc, expr, shapes.as_slice())?)
}

fn here(found: Option<Shape>) -> Result<Shape, Trouble>
    ensures shape { IfOk result (λ shape. untyped.here found ≡ Ok shape) }
    ensures fault { IfErr result (IsFault (untyped.here found)) }
{
    match found {
        Some(shape) => Ok(shape),
        None => Err(Trouble::Here),
    }
}

/// The fault of the child with that number, as its parent's.
fn above(alloc: Global, number: usize, inner: Trouble) -> Trouble
    ensures { IsFaultAbove number inner result }
{
    match inner {
        Trouble::Here => below(number_text(alloc, number)),
        Trouble::Below(path) => below(joined(alloc, number, path)),
        Trouble::NoMemory => Trouble::NoMemory,
    }
}

fn below(path: Result<Text, NoMemory>) -> Trouble
    ensures { IsFaultOf path result }
{
    match path {
        Ok(path) => Trouble::Below(path),
        Err(_) => Trouble::NoMemory,
    }
}

fn number_text(alloc: Global, number: usize) -> Result<Text, NoMemory>
    ensures { IfOk result (λ text. text ≡ decimal number) }
{
    Ok(Text::from_string(format!(in alloc; "{number}")?))
}

fn joined(alloc: Global, number: usize, path: Text) -> Result<Text, NoMemory>
    ensures { IfOk result (λ text. text ≡ decimal number ++ codes "." ++ path) }
{
    let mut text = number_text(alloc, number)?;
    text.push_str(".")?;
    text.push_str(path.as_str())?;
    Ok(text)
}

/// What the rule of the node gives for its children.
fn rule(alloc: Global, expr: &Expr, shapes: &[Shape]) -> Result<Option<Shape>, NoMemory>
    requires { length shapes.now ≡ length (children_of (out-Expr expr.now)) }
    ensures { IfOk result (λ found. found ≡ spec.rule_of (out-Expr expr.now) shapes.now) }
{
    match expr {
        Expr::Number(_) => Ok(Some(Shape::Scalar)),
        Expr::Str(text) => Ok(Some(Shape::Str(Text::from_str(alloc, text.as_str())?))),
        Expr::Select {
            matchers,
            range,
            ..
        } => select(alloc, matchers.as_slice(), range),
        Expr::Unary { .. } => Ok(sign(shapes)),
        Expr::Binary {
            op,
            boolean,
            matching,
            left,
            right,
        } => {
            if left.len() == 1 && right.len() == 1 {
                binary(alloc, *op, *boolean, matching, shapes)
            } else {
                Ok(None)
            }
        }
        Expr::Call { function, .. } => call(alloc, function.as_str(), shapes),
        Expr::Aggregate { op, param, .. } => Ok(aggregate(
            *op,
            &shapes[..param.len()],
            &shapes[param.len()..],
        )),
    }
}

fn select(
    alloc: Global,
    matchers: &[Matcher],
    range: &Option<Span>,
) -> Result<Option<Shape>, NoMemory>
    ensures { IfOk result (λ found. found ≡ spec.select_shape matchers.now range.now) }
{
    if all_sound(alloc, matchers)? {
        Ok(Some(window(range)))
    } else {
        Ok(None)
    }
}

fn window(range: &Option<Span>) -> Shape
    ensures { result ≡ spec.window_shape range.now }
{
    match range {
        Some(_) => Shape::Range,
        None => Shape::Vector,
    }
}

fn all_sound(alloc: Global, matchers: &[Matcher]) -> Result<bool, NoMemory>
    ensures { IfOk result (λ sound. sound ≡ list_all spec.is_sound matchers.now) }
{
    for m in matchers {
        if !is_sound(alloc, m)? {
            return Ok(false);
        }
    }
    Ok(true)
}

fn is_sound(alloc: Global, m: &Matcher) -> Result<bool, NoMemory>
    ensures { IfOk result (λ sound. sound ≡ spec.is_sound m.now) }
{
    match m.op {
        MatchOp::Eq => Ok(true),
        MatchOp::Ne => Ok(true),
        MatchOp::Re => is_pattern(alloc, m.value.as_str()),
        MatchOp::Nr => is_pattern(alloc, m.value.as_str()),
    }
}
