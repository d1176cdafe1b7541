ghost use Rattle.std.specs.Prelude.{◌≡◌, ◌≤◌, ◌<◌, ◌+◌, max, [], ◌∷◌, map, IfOk};
ghost use Rattle.ql_tree.specs.Children.{depth_of, greatest};
ghost use Rattle.ql_tree.specs.declared.tree.Expr.TheVariants as expr;
ghost use Rattle.ql_parse.specs.Climbing.{IsDepth};
ghost use Rattle.ql_parse.specs.Gives.{Gives};
ghost use Rattle.ql_parse.specs.Found.{fitting};
ghost use Rattle.ql_parse.specs.ReadSelectors as selectors;

use crate::fault::ParseFault;
use crate::selectors::selector;
use op_base::{List, NoMemory, Text};
use ql_tree::{AggregateOp, BinaryOp, Expr, Grouping, Matching, Word};
use std::alloc::Global;

/// Drops a tree that is of no use. Callers that would drop it themselves have longer proofs.
pub(crate) fn discard(_expr: Expr) {}

/// A list of one tree.
pub(crate) fn one(alloc: Global, expr: Expr) -> Result<List<Expr>, NoMemory>
    ensures { IfOk result (λ list. list ≡ expr ∷ []) }
{
    let mut list = List::new(alloc);
    list.push(expr)?;
    Ok(list)
}

/// A number, with its depth.
#[tactic(auto, using(crate::proofs::NodeDepths::depths_of_nodes))]
pub(crate) fn number(n: i64) -> (Expr, u8)
    ensures expr { result.0 ≡ expr.Number n }
    ensures depth { result.1 ≡ depth_of result.0 }
    ensures least { result.1 ≡ 1 }
{
    (Expr::Number(n), 1)
}

/// A string, with its depth.
#[tactic(auto, using(crate::proofs::NodeDepths::depths_of_nodes))]
pub(crate) fn string(alloc: Global, text: &Text) -> Result<(Expr, u8), NoMemory>
    ensures expr { IfOk result (λ x. x.0 ≡ expr.Str text.now) }
    ensures depth { IfOk result (λ x. x.1 ≡ depth_of x.0) }
    ensures least { IfOk result (λ x. x.1 ≡ 1) }
{
    let text = Text::from_str(alloc, text.as_str())?;
    Ok((Expr::Str(text), 1))
}

/// A selector, with its depth.
pub(crate) fn select(alloc: Global, words: &[Word]) -> Result<(Expr, u8, &[Word]), ParseFault>
    ensures read { Gives (λ x. (x.0, x.2.now)) result (selectors.selector words.now) }
    ensures depth { IfOk result (λ x. x.1 ≡ depth_of x.0) }
    ensures least { IfOk result (λ x. x.1 ≡ 1) }
{
    match selector(alloc, words) {
        Ok((expr, behind)) => Ok((expr, 1, behind)),
        Err(fault) => Err(fault),
    }
}

/// The sign before a tree, with the depth of both.
#[tactic(auto, using(crate::proofs::NodeDepths::depths_of_nodes))]
pub(crate) fn unary(alloc: Global, minus: bool, of: Expr, depth: u8) -> Result<(Expr, u8), NoMemory>
    requires depth { depth ≡ depth_of of }
    requires below { depth < 255 }
    ensures expr { IfOk result (λ x. x.0 ≡ expr.Unary minus (of ∷ [])) }
    ensures depth { IfOk result (λ x. x.1 ≡ depth_of x.0) }
    ensures more { IfOk result (λ x. x.1 ≡ depth + 1) }
{
    let of = one(alloc, of)?;
    Ok((Expr::Unary { minus, of }, depth + 1))
}

/// An operator between two trees, where both are no deeper than `limit`.
#[tactic(auto, using(crate::proofs::NodeDepths::depths_of_nodes))]
pub(crate) fn binary<'a>(
    alloc: Global,
    limit: u8,
    op: BinaryOp,
    boolean: bool,
    matching: Option<Matching>,
    left: (Expr, u8),
    right: (Expr, u8),
    behind: &'a [Word],
) -> Result<(Expr, u8, &'a [Word]), ParseFault>
    requires left { left.1 ≡ depth_of left.0 }
    requires right { right.1 ≡ depth_of right.0 }
    ensures read { Gives (λ x. (x.0, x.2.now)) result
        (fitting limit (expr.Binary op boolean matching (left.0 ∷ []) (right.0 ∷ [])) behind.now) }
    ensures depth { IfOk result (λ x. IsDepth limit x.0 x.1) }
{
    let (left, left_depth) = left;
    let (right, right_depth) = right;
    let depth = left_depth.max(right_depth);
    if depth >= limit {
        discard(left);
        discard(right);
        return Err(ParseFault::NotExpr);
    }
    let expr = operated(alloc, op, boolean, matching, left, right)?;
    Ok((expr, depth + 1, behind))
}

fn operated(
    alloc: Global,
    op: BinaryOp,
    boolean: bool,
    matching: Option<Matching>,
    left: Expr,
    right: Expr,
) -> Result<Expr, NoMemory>
    ensures { IfOk result (λ e. e
        ≡ expr.Binary op boolean matching (left ∷ []) (right ∷ [])) }
{
    let (left, right) = one_each(alloc, left, right)?;
    Ok(Expr::Binary {
        op,
        boolean,
        matching,
        left,
        right,
    })
}

fn one_each(alloc: Global, left: Expr, right: Expr) -> Result<(List<Expr>, List<Expr>), NoMemory>
    ensures { IfOk result (λ lists. lists ≡ (left ∷ [], right ∷ [])) }
{
    match one(alloc, left) {
        Ok(left) => Ok((left, one(alloc, right)?)),
        Err(refused) => {
            discard(right);
            Err(refused)
        }
    }
}

/// A call, where it is no deeper than `limit`.
#[tactic(auto, using(crate::proofs::NodeDepths::depths_of_nodes))]
pub(crate) fn called<'a>(
    alloc: Global,
    limit: u8,
    function: &Text,
    args: (List<Expr>, u8),
    behind: &'a [Word],
) -> Result<(Expr, u8, &'a [Word]), ParseFault>
    requires { args.1 ≡ greatest (map depth_of args.0) }
    ensures read { Gives (λ x. (x.0, x.2.now)) result
        (fitting limit (expr.Call function.now args.0) behind.now) }
    ensures depth { IfOk result (λ x. IsDepth limit x.0 x.1) }
{
    let (args, depth) = args;
    if depth >= limit {
        return Err(ParseFault::NotExpr);
    }
    let function = Text::from_str(alloc, function.as_str())?;
    Ok((Expr::Call { function, args }, depth + 1, behind))
}

/// An aggregate, where it is no deeper than `limit`.
#[tactic(auto, using(crate::proofs::NodeDepths::depths_of_nodes))]
pub(crate) fn aggregated<'a>(
    alloc: Global,
    limit: u8,
    op: AggregateOp,
    grouping: Option<Grouping>,
    operands: (List<Expr>, Expr, u8),
    behind: &'a [Word],
) -> Result<(Expr, u8, &'a [Word]), ParseFault>
    requires { operands.2 ≡ max (greatest (map depth_of operands.0)) (depth_of operands.1) }
    ensures read { Gives (λ x. (x.0, x.2.now)) result
        (fitting limit (expr.Aggregate op grouping operands.0 (operands.1 ∷ [])) behind.now) }
    ensures depth { IfOk result (λ x. IsDepth limit x.0 x.1) }
{
    let (param, of, depth) = operands;
    if depth >= limit {
        discard(of);
        return Err(ParseFault::NotExpr);
    }
    let expr = aggregate(alloc, op, grouping, param, of)?;
    Ok((expr, depth + 1, behind))
}

fn aggregate(
    alloc: Global,
    op: AggregateOp,
    grouping: Option<Grouping>,
    param: List<Expr>,
    of: Expr,
) -> Result<Expr, NoMemory>
    ensures { IfOk result (λ e. e ≡ expr.Aggregate op grouping param (of ∷ [])) }
{
    let of = one(alloc, of)?;
    Ok(Expr::Aggregate {
        op,
        grouping,
        param,
        of,
    })
}
