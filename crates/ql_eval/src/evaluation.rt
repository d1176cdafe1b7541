// The value of an expression, node by node.
ghost use Rattle.std.specs.Prelude.{◌≡◌, ◌++◌, map, drop, true, IfOk};
ghost use Rattle.ql_call.specs.Aggregates as aggregates;
ghost use Rattle.ql_call.specs.Calls as calls;
ghost use Rattle.ql_call.specs.Operands.{elements_at, number_at, scalar_at, text_at, failure_in};
ghost use Rattle.ql_call.specs.Operators as operators;
ghost use Rattle.ql_call.specs.Ordered.{is_ordered};
ghost use Rattle.ql_call.specs.Sets as sets;
ghost use Rattle.ql_eval.specs.Values as spec;

use crate::selector::selected;
use op_base::{List, Moment, NoMemory, Text};
use ql_call::{
    Operand, Outcome, aggregate, binary, call, elements_at, failure_in, outcome_of, scalar_at,
    signed, text_at,
};
use ql_tree::{AggregateOp, BinaryOp, Expr, Grouping, Matching};
use srv_store::Store;
use std::alloc::Global;

/// What the expression comes to over the store at the moment: a vector in label order, a scalar, or a
/// failure, that of the first failing node in the order of the text, a node after its operands. An
/// expression that is neither a vector nor a scalar comes to the empty vector.
#[tactic(auto, unfolding(crate::specs::Values::value_of))]
pub fn eval(alloc: Global, expr: &Expr, store: &Store, t: Moment) -> Result<Outcome, NoMemory>
    ensures value { IfOk result (λ outcome. outcome ≡ spec.value_of (spec.whole store.now t) expr.now) }
    ensures ordered { IfOk result (λ outcome. is_ordered outcome ≡ true) }
{
    let operand = operand(alloc, expr, store, &t)?;
    Ok(outcome_of(alloc, operand))
}

#[cycle(evaluation)]
fn operand(alloc: Global, expr: &Expr, store: &Store, t: &Moment) -> Result<Operand, NoMemory>
    ensures { IfOk result (λ operand. operand ≡ spec.operand_of (spec.whole store.now t.now) expr.now) }
{
    match expr {
        Expr::Number(number) => Ok(Operand::Value(Outcome::Scalar(*number))),
        Expr::Str(text) => Ok(Operand::Text(Text::from_str(alloc, text.as_str())?)),
        Expr::Select {
            name,
            matchers,
            range,
            offset,
        } => selected(alloc, store, t, name, matchers.as_slice(), range, offset),
        Expr::Unary { minus, of } => {
            let of = operands(alloc, of.as_slice(), store, t)?;
            sign_node(alloc, *minus, of.as_slice())
        }
        Expr::Binary {
            op,
            boolean,
            matching,
            left,
            right,
        } => {
            let left = operands(alloc, left.as_slice(), store, t)?;
            let right = operands(alloc, right.as_slice(), store, t)?;
            binary_node(
                alloc,
                *op,
                *boolean,
                matching,
                left.as_slice(),
                right.as_slice(),
            )
        }
        Expr::Call { function, args } => {
            let args = operands(alloc, args.as_slice(), store, t)?;
            call_node(alloc, function.as_str(), t, args.as_slice())
        }
        Expr::Aggregate {
            op,
            grouping,
            param,
            of,
        } => {
            let param = operands(alloc, param.as_slice(), store, t)?;
            let of = operands(alloc, of.as_slice(), store, t)?;
            aggregate_node(alloc, *op, grouping, param.as_slice(), of.as_slice())
        }
    }
}

#[cycle(evaluation)]
fn operands(
    alloc: Global,
    exprs: &[Expr],
    store: &Store,
    t: &Moment,
) -> Result<List<Operand>, NoMemory>
    ensures { IfOk result (λ operands. operands
        ≡ map (spec.operand_of (spec.whole store.now t.now)) exprs.now) }
{
    let mut operands = List::new(alloc);
    for expr in exprs {
        operands.push(operand(alloc, expr, store, t)?)?;
    }
    Ok(operands)
}

fn sign_node(alloc: Global, minus: bool, of: &[Operand]) -> Result<Operand, NoMemory>
    ensures { IfOk result (λ operand. operand
        ≡ spec.node_of of.now (operators.signed minus (number_at 0 of.now) (elements_at 0 of.now))) }
{
    match failure_in(of)? {
        Some(failure) => Ok(Operand::Value(failure)),
        None => Ok(Operand::Value(signed(alloc, minus, of)?)),
    }
}

fn binary_node(
    alloc: Global,
    op: BinaryOp,
    boolean: bool,
    matching: &Option<Matching>,
    left: &[Operand],
    right: &[Operand],
) -> Result<Operand, NoMemory>
    ensures { IfOk result (λ operand. operand ≡ spec.node_of (left.now ++ right.now)
        (sets.binary op boolean matching.now (number_at 0 left.now) (number_at 0 right.now)
        (elements_at 0 left.now) (elements_at 0 right.now))) }
{
    match failure_in_both(left, right)? {
        Some(failure) => Ok(Operand::Value(failure)),
        None => Ok(Operand::Value(binary(alloc, op, boolean, matching, left, right)?)),
    }
}

fn call_node(
    alloc: Global,
    function: &str,
    t: &Moment,
    args: &[Operand],
) -> Result<Operand, NoMemory>
    ensures { IfOk result (λ operand. operand
        ≡ spec.node_of args.now (calls.call_of function.now t.now args.now)) }
{
    match failure_in(args)? {
        Some(failure) => Ok(Operand::Value(failure)),
        None => Ok(Operand::Value(call(alloc, function, t, args)?)),
    }
}

fn aggregate_node(
    alloc: Global,
    op: AggregateOp,
    grouping: &Option<Grouping>,
    param: &[Operand],
    of: &[Operand],
) -> Result<Operand, NoMemory>
    ensures { IfOk result (λ operand. operand ≡ spec.node_of (param.now ++ of.now)
        (aggregates.aggregate op grouping.now (text_at 0 param.now) (scalar_at 0 param.now) (elements_at 0 of.now))) }
{
    match failure_in_both(param, of)? {
        Some(failure) => Ok(Operand::Value(failure)),
        None => Ok(Operand::Value(aggregate(
            alloc,
            op,
            grouping,
            text_at(param, 0),
            &scalar_at(param, 0),
            elements_at(of, 0),
        )?)),
    }
}

// The first failure among operands, and then others.
fn failure_in_both(first: &[Operand], second: &[Operand]) -> Result<Option<Outcome>, NoMemory>
    ensures { IfOk result (λ failure. failure ≡ failure_in (first.now ++ second.now)) }
{
    match failure_in(first)? {
        Some(failure) => Ok(Some(failure)),
        None => failure_in(second),
    }
}
