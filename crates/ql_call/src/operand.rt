ghost use Rattle.std.specs.Prelude.{◌≡◌, Some, [], IfOk};
ghost use Rattle.std.specs.Option.{option_copied};
ghost use Rattle.ql_call.specs.Operands as spec;

use crate::outcome::Outcome;
use op_base::{Labels, List, Moment, NoMemory, Span, Text};
use std::alloc::Global;

/// What a node gives to the node above it.
#[derive(Debug, PartialEq, Eq, Drop)]
pub enum Operand {
    /// A string.
    Text(Text),
    /// A selector without a range: its elements in label order, the moment of each one's sample, and
    /// the labels that `absent` of it has.
    Selected(List<(Labels, i64)>, List<Moment>, Labels),
    /// A selector with a range: of each label set in label order its samples in the order of their
    /// moments, how long the range is, and the labels that `absent_over_time` of it has.
    Ranged(List<(Labels, List<(Moment, i64)>)>, Span, Labels),
    /// Any other node.
    Value(Outcome),
}

/// The elements of an operand, which has none where it is no vector.
pub(crate) fn elements_of(operand: &Operand) -> &[(Labels, i64)]
    ensures { result.now ≡ spec.elements_of operand.now }
{
    match operand {
        Operand::Selected(elements, _, _) => elements.as_slice(),
        Operand::Value(Outcome::Vector(elements)) => elements.as_slice(),
        _ => &[],
    }
}

/// The number, where the operand is a scalar.
pub(crate) fn scalar_of(operand: &Operand) -> Option<i64>
    ensures { result ≡ spec.scalar_of operand.now }
{
    match operand {
        Operand::Value(Outcome::Scalar(number)) => Some(*number),
        _ => None,
    }
}

/// The text of a string; the empty one of all else.
pub(crate) fn text_of(operand: &Operand) -> &str
    ensures { result.now ≡ spec.text_of operand.now }
{
    match operand {
        Operand::Text(text) => text.as_str(),
        _ => "",
    }
}

/// The elements of the operand with that number, from 0 on.
pub fn elements_at(operands: &[Operand], number: usize) -> &[(Labels, i64)]
    ensures { result.now ≡ spec.elements_at number operands.now }
{
    match operands.get(number) {
        Some(operand) => elements_of(operand),
        None => &[],
    }
}

/// The number of the operand with that number, where it is a scalar.
pub fn number_at(operands: &[Operand], number: usize) -> Option<i64>
    ensures { result ≡ spec.number_at number operands.now }
{
    match operands.get(number) {
        Some(operand) => scalar_of(operand),
        None => None,
    }
}

/// The scalar that the operand with that number is, or 0.
pub fn scalar_at(operands: &[Operand], number: usize) -> i64
    ensures { result ≡ spec.scalar_at number operands.now }
{
    number_at(operands, number).unwrap_or(0)
}

/// The text that the operand with that number is, or the empty one.
pub fn text_at(operands: &[Operand], number: usize) -> &str
    ensures { result.now ≡ spec.text_at number operands.now }
{
    match operands.get(number) {
        Some(operand) => text_of(operand),
        None => "",
    }
}

/// The failure of the first operand that failed.
pub fn failure_in(operands: &[Operand]) -> Result<Option<Outcome>, NoMemory>
    ensures { IfOk result (λ failure. failure ≡ spec.failure_in operands.now) }
{
    for operand in operands {
        if let Some(failure) = failure_of(operand)? {
            return Ok(Some(failure));
        }
    }
    Ok(None)
}

fn failure_of(operand: &Operand) -> Result<Option<Outcome>, NoMemory>
    ensures { IfOk result (λ failure. failure ≡ spec.failure_of operand.now) }
{
    match operand {
        Operand::Value(Outcome::Clash(these, those)) => {
            Ok(Some(Outcome::Clash(these.copy()?, those.copy()?)))
        }
        Operand::Value(Outcome::ZeroScalar) => Ok(Some(Outcome::ZeroScalar)),
        _ => Ok(None),
    }
}

/// What an operand is as a whole expression.
pub fn outcome_of(alloc: Global, operand: Operand) -> Outcome
    ensures { result ≡ spec.outcome_of operand }
{
    match operand {
        Operand::Selected(elements, _, _) => Outcome::Vector(elements),
        Operand::Value(outcome) => outcome,
        _ => Outcome::Vector(List::new(alloc)),
    }
}
