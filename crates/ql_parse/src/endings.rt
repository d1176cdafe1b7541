// What stands behind trees that were read: the bracket that closes, and the clause of an aggregate.
ghost use Rattle.std.specs.Prelude.{◌≡◌, ℕ, ◌∷◌, max, map, IfOk};
ghost use Rattle.ql_tree.specs.Children.{depth_of, greatest};
ghost use Rattle.ql_parse.specs.Climbing as climbing;
ghost use Rattle.ql_parse.specs.Climbing.{IsDepth};
ghost use Rattle.ql_parse.specs.Gives.{Gives};
ghost use Rattle.ql_parse.specs.ReadTerms as terms;

use crate::clauses::grouping;
use crate::fault::ParseFault;
use crate::fronts::close;
use crate::nodes::{aggregated, discard, one};
use op_base::List;
use ql_tree::{AggregateOp, Expr, Grouping, Word};
use std::alloc::Global;

/// A tree, where its bracket closes behind it.
pub(crate) fn closed(
    expr: Expr,
    depth: u8,
    words: &[Word],
) -> Result<(Expr, u8, &[Word]), ParseFault>
    ensures read { Gives (λ x. (x.0, x.2.now)) result (terms.closed expr words.now) }
    ensures depth { (limit : ℕ) → IsDepth limit expr depth → IfOk result (λ x. IsDepth limit x.0 x.1) }
{
    match close(words) {
        Some(behind) => Ok((expr, depth, behind)),
        None => {
            discard(expr);
            Err(ParseFault::NotExpr)
        }
    }
}

/// What an aggregate without a parameter is of, where its bracket closes behind it.
pub(crate) fn alone(
    alloc: Global,
    of: Expr,
    depth: u8,
    words: &[Word],
) -> Result<((List<Expr>, Expr, u8), &[Word]), ParseFault>
    requires { depth ≡ depth_of of }
    ensures read { Gives (λ x. ((x.0.0, x.0.1), x.1.now)) result
        (climbing.alone_in of words.now) }
    ensures depth { IfOk result
        (λ x. x.0.2 ≡ max (greatest (map depth_of x.0.0)) (depth_of x.0.1)) }
{
    match close(words) {
        Some(behind) => Ok(((List::new(alloc), of, depth), behind)),
        None => {
            discard(of);
            Err(ParseFault::NotExpr)
        }
    }
}

/// An aggregate's parameter and what it is of, with the words behind their bracket.
pub(crate) fn both(
    alloc: Global,
    param: Expr,
    of: Expr,
    depth: u8,
    words: &[Word],
) -> Result<((List<Expr>, Expr, u8), &[Word]), ParseFault>
    requires { depth ≡ max (depth_of param) (depth_of of) }
    ensures read { Gives (λ x. ((x.0.0, x.0.1), x.1.now)) result
        (climbing.both_in param of words.now) }
    ensures depth { IfOk result
        (λ x. x.0.2 ≡ max (greatest (map depth_of x.0.0)) (depth_of x.0.1)) }
{
    match one(alloc, param) {
        Ok(param) => Ok(((param, of, depth), words)),
        Err(_refused) => {
            discard(of);
            Err(ParseFault::NoMemory)
        }
    }
}

/// An aggregate, behind its operands.
pub(crate) fn grouped<'a>(
    alloc: Global,
    room: usize,
    limit: u8,
    op: AggregateOp,
    before: Option<Grouping>,
    operands: (List<Expr>, Expr, u8),
    words: &'a [Word],
) -> Result<(Expr, u8, &'a [Word]), ParseFault>
    requires { operands.2 ≡ max (greatest (map depth_of operands.0)) (depth_of operands.1) }
    ensures read { Gives (λ x. (x.0, x.2.now)) result
        (climbing.grouped_in room limit op (operands.0, operands.1) before words.now) }
    ensures depth { IfOk result (λ x. IsDepth limit x.0 x.1) }
{
    let (param, of, depth) = operands;
    match grouping_behind(alloc, room, before, words) {
        Ok((grouping, behind)) => {
            aggregated(alloc, limit, op, grouping, (param, of, depth), behind)
        }
        Err(fault) => {
            discard(of);
            Err(fault)
        }
    }
}

/// A grouping clause behind an aggregate's operands, where none stood before.
#[tactic(auto, unfolding(crate::specs::ReadTerms::grouping_behind))]
fn grouping_behind(
    alloc: Global,
    room: usize,
    before: Option<Grouping>,
    words: &[Word],
) -> Result<(Option<Grouping>, &[Word]), ParseFault>
    ensures { Gives (λ x. (x.0, x.1.now)) result (terms.grouping_behind room before words.now) }
{
    match before {
        Some(before) => Ok((Some(before), words)),
        None => grouping(alloc, room, words),
    }
}
