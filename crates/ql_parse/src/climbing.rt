ghost use Rattle.std.specs.Prelude.{◌≡◌, ◌≤◌, ◌<◌, ◌∷◌, max, length, map, Some, IfOk};
ghost use Rattle.ql_tree.specs.Children.{depth_of, greatest};
ghost use Rattle.ql_tree.specs.Operators as operators;
ghost use Rattle.ql_tree.specs.declared.word.Keyword.TheVariants as keyword;
ghost use Rattle.ql_tree.specs.declared.word.Word.TheVariants as word;
ghost use Rattle.ql_parse.specs.Climbing as climbing;
ghost use Rattle.ql_parse.specs.Climbing.{IsDepth};
ghost use Rattle.ql_parse.specs.Gives.{Gives};
ghost use Rattle.ql_parse.specs.ReadClauses as clauses;
ghost use Rattle.ql_parse.specs.Reading as reading;

use crate::clauses::{boolean, grouping, matching};
use crate::endings::{alone, both, closed, grouped};
use crate::fault::ParseFault;
use crate::fronts::{Next, behind_item, close, comma, open, sign};
use crate::nodes::{binary, called, discard, number, select, string, unary};
use crate::operators::operator;
use op_base::{List, Text};
use ql_tree::{AggregateOp, BinaryOp, Expr, Keyword, Word};
use std::alloc::Global;

/// The tree that the words spell.
pub(crate) fn read(alloc: Global, words: &[Word]) -> Result<Expr, ParseFault>
    ensures { Gives (λ e. e) result (reading.read words.now) }
{
    match within(alloc, 401, 200, words) {
        Ok((expr, _, behind)) => whole(expr, behind),
        Err(fault) => Err(fault),
    }
}

fn whole(expr: Expr, behind: &[Word]) -> Result<Expr, ParseFault>
    ensures { Gives (λ e. e) result (reading.whole (Some (expr, behind.now))) }
{
    match behind {
        [] => Ok(expr),
        [_word, _more @ ..] => {
            discard(expr);
            Err(ParseFault::NotExpr)
        }
    }
}

/// A tree no deeper than `limit`, with its depth and the words behind it. `room` is one more than
/// how many brackets may be opened in it.
#[cycle(climbing)]
fn within(
    alloc: Global,
    room: usize,
    limit: u8,
    words: &[Word],
) -> Result<(Expr, u8, &[Word]), ParseFault>
    ensures read { Gives (λ x. (x.0, x.2.now)) result (reading.within room limit words.now) }
    ensures depth { IfOk result (λ x. IsDepth limit x.0 x.1) }
{
    if room == 0 {
        return Err(ParseFault::NotExpr);
    }
    level(alloc, 5, room - 1, limit, words)
}

/// Operators of the levels up to `top` and what stands between them. Here and below, `room` is how
/// many brackets may be opened.
#[cycle(climbing)]
fn level(
    alloc: Global,
    top: usize,
    room: usize,
    limit: u8,
    words: &[Word],
) -> Result<(Expr, u8, &[Word]), ParseFault>
    requires top { top ≤ 5 }
    ensures read { Gives (λ x. (x.0, x.2.now)) result
        (climbing.operand top room limit words.now) }
    ensures depth { IfOk result (λ x. IsDepth limit x.0 x.1) }
{
    match signed(alloc, room, limit, words) {
        Err(fault) => Err(fault),
        Ok((expr, depth, after)) => {
            let mut found = (expr, depth);
            let mut behind = after;
            for k in 0..top {
                match chain(alloc, k, room, limit, found, behind) {
                    Ok((expr, depth, next)) => {
                        found = (expr, depth);
                        behind = next;
                    }
                    Err(fault) => return Err(fault),
                }
            }
            Ok((found.0, found.1, behind))
        }
    }
}

/// Operators of the one level above `below` with their right operands, from left to right.
#[cycle(climbing)]
fn chain<'a>(
    alloc: Global,
    below: usize,
    room: usize,
    limit: u8,
    left: (Expr, u8),
    words: &'a [Word],
) -> Result<(Expr, u8, &'a [Word]), ParseFault>
    requires below { below < 5 }
    requires left { IsDepth limit left.0 left.1 }
    ensures read { Gives (λ x. (x.0, x.2.now)) result
        (climbing.chained below room limit (length words.now) left.0 words.now) }
    ensures depth { IfOk result (λ x. IsDepth limit x.0 x.1) }
{
    let mut found = left;
    let mut behind = words;
    for step in 0..words.len() {
        match operator(below + 1, behind) {
            None => return Ok((found.0, found.1, behind)),
            Some((op, operand)) => match right(alloc, below, room, limit, found, op, operand) {
                Ok((expr, depth, next)) => {
                    found = (expr, depth);
                    behind = next;
                }
                Err(fault) => return Err(fault),
            },
        }
    }
    Ok((found.0, found.1, behind))
}

/// What stands behind a binary operator, and the tree of both sides.
#[cycle(climbing)]
fn right<'a>(
    alloc: Global,
    below: usize,
    room: usize,
    limit: u8,
    left: (Expr, u8),
    op: BinaryOp,
    words: &'a [Word],
) -> Result<(Expr, u8, &'a [Word]), ParseFault>
    requires below { below < 5 }
    requires left { IsDepth limit left.0 left.1 }
    ensures read { Gives (λ x. (x.0, x.2.now)) result
        (reading.right room limit (climbing.operand below room limit) left.0 op
        (clauses.boolean (operators.is_comparison op) words.now)) }
    ensures depth { IfOk result (λ x. IsDepth limit x.0 x.1) }
{
    let (boolean, behind) = boolean(op.is_comparison(), words);
    let (left, own) = left;
    match matching(alloc, room, behind) {
        Ok((matching, behind)) => match level(alloc, below, room, limit, behind) {
            Ok((of, depth, behind)) => {
                let (left, of) = ((left, own), (of, depth));
                binary(alloc, limit, op, boolean, matching, left, of, behind)
            }
            Err(fault) => {
                discard(left);
                Err(fault)
            }
        },
        Err(fault) => {
            discard(left);
            Err(fault)
        }
    }
}

/// Signs before an atom; each makes the tree deeper by one.
#[cycle(climbing)]
fn signed(
    alloc: Global,
    room: usize,
    limit: u8,
    words: &[Word],
) -> Result<(Expr, u8, &[Word]), ParseFault>
    ensures read { Gives (λ x. (x.0, x.2.now)) result
        (climbing.operand 0 room limit words.now) }
    ensures depth { IfOk result (λ x. IsDepth limit x.0 x.1) }
{
    if limit == 0 {
        return Err(ParseFault::NotExpr);
    }
    match sign(words) {
        None => atom(alloc, room, limit, words),
        Some((minus, behind)) => match signed(alloc, room, limit - 1, behind) {
            Ok((of, depth, behind)) => {
                let (expr, depth) = unary(alloc, minus, of, depth)?;
                Ok((expr, depth, behind))
            }
            Err(fault) => Err(fault),
        },
    }
}

/// What stands between operators and signs.
#[cycle(climbing)]
#[tactic(auto, unfolding(crate::specs::ReadTerms::atom))]
fn atom(
    alloc: Global,
    room: usize,
    limit: u8,
    words: &[Word],
) -> Result<(Expr, u8, &[Word]), ParseFault>
    requires least { 0 < limit }
    ensures read { Gives (λ x. (x.0, x.2.now)) result (climbing.atom_in room limit words.now) }
    ensures depth { IfOk result (λ x. IsDepth limit x.0 x.1) }
{
    match words {
        [Word::Number(n), behind @ ..] => {
            let (expr, depth) = number(*n);
            Ok((expr, depth, behind))
        }
        [Word::Quoted(text), behind @ ..] => {
            let (expr, depth) = string(alloc, text)?;
            Ok((expr, depth, behind))
        }
        [Word::Open, behind @ ..] => bracketed(alloc, room, limit, behind),
        [Word::OpenBrace, _behind @ ..] => select(alloc, words),
        [Word::Name(Keyword::Unreserved, text), behind @ ..] => {
            named(alloc, room, limit, text, words, behind)
        }
        [Word::Name(Keyword::Aggregate(op), _), behind @ ..] => {
            aggregate(alloc, room, limit, *op, behind)
        }
        _ => Err(ParseFault::NotExpr),
    }
}

/// A tree, and the bracket that closes it.
#[cycle(climbing)]
fn bracketed(
    alloc: Global,
    room: usize,
    limit: u8,
    words: &[Word],
) -> Result<(Expr, u8, &[Word]), ParseFault>
    ensures read { Gives (λ x. (x.0, x.2.now)) result (climbing.bracketed room limit words.now) }
    ensures depth { IfOk result (λ x. IsDepth limit x.0 x.1) }
{
    match within(alloc, room, limit, words) {
        Ok((expr, depth, behind)) => closed(expr, depth, behind),
        Err(fault) => Err(fault),
    }
}

/// What begins with a name that isn't reserved: a call where a bracket follows, else a selector.
#[cycle(climbing)]
fn named<'a>(
    alloc: Global,
    room: usize,
    limit: u8,
    name: &Text,
    words: &'a [Word],
    behind: &'a [Word],
) -> Result<(Expr, u8, &'a [Word]), ParseFault>
    requires least { 0 < limit }
    requires words { words.now ≡ word.Name keyword.Unreserved name.now ∷ behind.now }
    ensures read { Gives (λ x. (x.0, x.2.now)) result
        (climbing.name_in room limit name.now behind.now) }
    ensures depth { IfOk result (λ x. IsDepth limit x.0 x.1) }
{
    match open(behind) {
        Some(inside) => call(alloc, room, limit, name, inside),
        None => select(alloc, words),
    }
}

/// A call, behind its bracket.
#[cycle(climbing)]
#[tactic(auto, unfolding(crate::specs::ReadTerms::call))]
fn call<'a>(
    alloc: Global,
    room: usize,
    limit: u8,
    function: &Text,
    words: &'a [Word],
) -> Result<(Expr, u8, &'a [Word]), ParseFault>
    ensures read { Gives (λ x. (x.0, x.2.now)) result
        (climbing.call_of room limit function.now words.now) }
    ensures depth { IfOk result (λ x. IsDepth limit x.0 x.1) }
{
    if room == 0 {
        return Err(ParseFault::NotExpr);
    }
    let (args, depth, behind) = arguments(alloc, room, limit, words)?;
    called(alloc, limit, function, (args, depth), behind)
}

/// A call's arguments, or none, and the bracket that closes them; with the greatest depth.
#[cycle(climbing)]
fn arguments(
    alloc: Global,
    room: usize,
    limit: u8,
    words: &[Word],
) -> Result<(List<Expr>, u8, &[Word]), ParseFault>
    ensures read { Gives (λ x. (x.0, x.2.now)) result
        (climbing.arguments_in room limit words.now) }
    ensures depth { IfOk result (λ x. x.1 ≡ greatest (map depth_of x.0)) }
{
    let mut args = List::new(alloc);
    match close(words) {
        Some(behind) => return Ok((args, 0, behind)),
        None => {}
    }
    let mut depth: u8 = 0;
    let mut behind = words;
    for step in 0..words.len() {
        match within(alloc, room, limit, behind) {
            Ok((expr, own, after)) => {
                args.push(expr)?;
                depth = depth.max(own);
                match behind_item(close(after), after) {
                    Next::End(end) => return Ok((args, depth, end)),
                    Next::More(next) => behind = next,
                    Next::Broken => return Err(ParseFault::NotExpr),
                }
            }
            Err(fault) => return Err(fault),
        }
    }
    Err(ParseFault::NotExpr)
}

/// An aggregate, behind its word.
#[cycle(climbing)]
#[tactic(auto, unfolding(crate::specs::ReadTerms::aggregate))]
fn aggregate(
    alloc: Global,
    room: usize,
    limit: u8,
    op: AggregateOp,
    words: &[Word],
) -> Result<(Expr, u8, &[Word]), ParseFault>
    ensures read { Gives (λ x. (x.0, x.2.now)) result
        (climbing.aggregate_in room limit op words.now) }
    ensures depth { IfOk result (λ x. IsDepth limit x.0 x.1) }
{
    let (before, behind) = grouping(alloc, room, words)?;
    match open(behind) {
        None => Err(ParseFault::NotExpr),
        Some(behind) => {
            let (operands, behind) = operands(alloc, room, limit, behind)?;
            grouped(alloc, room, limit, op, before, operands, behind)
        }
    }
}

/// An aggregate's parameter, if it has one, and what it is of, with the greater depth; and the
/// bracket that closes them.
#[cycle(climbing)]
fn operands(
    alloc: Global,
    room: usize,
    limit: u8,
    words: &[Word],
) -> Result<((List<Expr>, Expr, u8), &[Word]), ParseFault>
    ensures read { Gives (λ x. ((x.0.0, x.0.1), x.1.now)) result
        (climbing.operands_in room limit words.now) }
    ensures depth { IfOk result
        (λ x. x.0.2 ≡ max (greatest (map depth_of x.0.0)) (depth_of x.0.1)) }
{
    match within(alloc, room, limit, words) {
        Ok((first, depth, behind)) => match comma(behind) {
            None => alone(alloc, first, depth, behind),
            Some(second) => match bracketed(alloc, room, limit, second) {
                Ok((of, own, end)) => both(alloc, first, of, depth.max(own), end),
                Err(fault) => {
                    discard(first);
                    Err(fault)
                }
            },
        },
        Err(fault) => Err(fault),
    }
}
