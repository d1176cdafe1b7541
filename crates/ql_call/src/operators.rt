// Signs, and the operators on two scalars and on a vector with a scalar.
ghost use Rattle.std.specs.Prelude.{◌≡◌, true, ◌++◌, map, IfOk, OnOk};
ghost use Rattle.ql_call.specs.Operands as given;
ghost use Rattle.ql_call.specs.Operators as spec;
ghost use Rattle.ql_call.specs.Ordered.{in_label_order, is_ordered};

use crate::arithmetic::{negative, number_of};
use crate::changed::Changed;
use crate::clashes::gathered;
use crate::labels::without_name;
use crate::operand::{Operand, elements_at, number_at};
use crate::outcome::Outcome;
use op_base::{Labels, List, METRIC_NAME, NoMemory};
use ql_tree::BinaryOp;
use std::alloc::Global;

/// A sign of an operand. Minus drops the name of each element, and plus changes nothing.
pub fn signed(alloc: Global, minus: bool, operands: &[Operand]) -> Result<Outcome, NoMemory>
    ensures value { IfOk result (λ o. o
        ≡ spec.signed minus (given.number_at 0 operands.now) (given.elements_at 0 operands.now)) }
    ensures ordered { in_label_order (given.elements_at 0 operands.now) ≡ true
        → IfOk result (λ o. is_ordered o ≡ true) }
{
    match number_at(operands, 0) {
        Some(number) => Ok(signed_scalar(minus, &number)),
        None => signed_vector(alloc, minus, elements_at(operands, 0)),
    }
}

fn signed_scalar(minus: bool, number: &i64) -> Outcome
    ensures { result ≡ spec.signed_scalar minus number.now }
{
    if minus {
        Outcome::Scalar(negative(number))
    } else {
        Outcome::Scalar(*number)
    }
}

fn signed_vector(
    alloc: Global,
    minus: bool,
    elements: &[(Labels, i64)],
) -> Result<Outcome, NoMemory>
    ensures { IfOk result (λ o. o ≡ spec.signed_vector minus elements.now) }
{
    if minus {
        gathered(alloc, negated_all(alloc, elements)?)
    } else {
        Ok(Outcome::Vector(copied(alloc, elements)?))
    }
}

fn negated_all(alloc: Global, elements: &[(Labels, i64)]) -> Result<List<Changed>, NoMemory>
    ensures { IfOk result (λ changed. changed ≡ map spec.negated elements.now) }
{
    let mut changed = List::new(alloc);
    for element in elements {
        changed.push(negated(element)?)?;
    }
    Ok(changed)
}

fn negated(element: &(Labels, i64)) -> Result<Changed, NoMemory>
    ensures { IfOk result (λ changed. changed ≡ spec.negated element.now) }
{
    changed_to(&element.0, without_name(&element.0)?, &negative(&element.1))
}

/// An element with new labels and this value.
pub(crate) fn changed_to(from: &Labels, to: Labels, value: &i64) -> Result<Changed, NoMemory>
    ensures { IfOk result (λ changed. changed ≡ spec.changed_to from.now to value.now) }
{
    Ok(Changed {
        from: from.copy()?,
        to,
        value: *value,
    })
}

/// The same elements once more.
pub(crate) fn copied(
    alloc: Global,
    elements: &[(Labels, i64)],
) -> Result<List<(Labels, i64)>, NoMemory>
    ensures { IfOk result (λ copies. copies ≡ elements.now) }
{
    let mut copies = List::new(alloc);
    for element in elements {
        copies.push(copy_of(element)?)?;
    }
    Ok(copies)
}

/// The same element once more.
pub(crate) fn copy_of(element: &(Labels, i64)) -> Result<(Labels, i64), NoMemory>
    ensures { IfOk result (λ copy. copy ≡ element.now) }
{
    Ok((element.0.copy()?, element.1))
}

/// An operator on two scalars, where a comparison has `bool`.
pub(crate) fn of_scalars(op: BinaryOp, a: &i64, b: &i64) -> Outcome
    ensures { result ≡ spec.of_scalars op a.now b.now }
{
    match number_of(op, true, &0, a, b) {
        Some(number) => Outcome::Scalar(number),
        None => Outcome::ZeroScalar,
    }
}

// Arithmetic and `bool` drop the name.
fn drops_name(op: BinaryOp, boolean: bool) -> bool
    ensures { result ≡ spec.drops_name op boolean }
{
    match op {
        BinaryOp::Arith(_) => true,
        _ => boolean,
    }
}

/// The labels that an operator leaves.
pub(crate) fn named_by(op: BinaryOp, boolean: bool, mut labels: Labels) -> Labels
    ensures { result ≡ spec.named_by op boolean labels }
{
    if drops_name(op, boolean) {
        labels.remove(METRIC_NAME);
    }
    labels
}

// Puts the element with its new labels and value at the end, where the operator gives one.
fn push_changed(
    changed: &mut List<Changed>,
    op: BinaryOp,
    boolean: bool,
    labels: &Labels,
    number: Option<i64>,
) -> Result<(), NoMemory>
    ensures { OnOk result (changed.new
        ≡ changed.old ++ spec.changed_by labels.now (spec.named_by op boolean labels.now) number) }
{
    match number {
        Some(value) => {
            let to = named_by(op, boolean, labels.copy()?);
            changed.push(changed_to(labels, to, &value)?)
        }
        None => Ok(()),
    }
}

/// An operator on a vector and a scalar at its right.
pub(crate) fn of_left_vector(
    alloc: Global,
    op: BinaryOp,
    boolean: bool,
    elements: &[(Labels, i64)],
    number: &i64,
) -> Result<Outcome, NoMemory>
    ensures { IfOk result (λ o. o ≡ spec.of_left_vector op boolean elements.now number.now) }
{
    let mut changed = List::new(alloc);
    for element in elements {
        push_left(&mut changed, op, boolean, element, number)?;
    }
    gathered(alloc, changed)
}

fn push_left(
    changed: &mut List<Changed>,
    op: BinaryOp,
    boolean: bool,
    element: &(Labels, i64),
    number: &i64,
) -> Result<(), NoMemory>
    ensures { OnOk result (changed.new
        ≡ changed.old ++ spec.left_element op boolean number.now element.now) }
{
    let value = number_of(op, boolean, &element.1, &element.1, number);
    push_changed(changed, op, boolean, &element.0, value)
}

/// An operator on a vector and a scalar at its left.
pub(crate) fn of_right_vector(
    alloc: Global,
    op: BinaryOp,
    boolean: bool,
    number: &i64,
    elements: &[(Labels, i64)],
) -> Result<Outcome, NoMemory>
    ensures { IfOk result (λ o. o ≡ spec.of_right_vector op boolean number.now elements.now) }
{
    let mut changed = List::new(alloc);
    for element in elements {
        push_right(&mut changed, op, boolean, number, element)?;
    }
    gathered(alloc, changed)
}

fn push_right(
    changed: &mut List<Changed>,
    op: BinaryOp,
    boolean: bool,
    number: &i64,
    element: &(Labels, i64),
) -> Result<(), NoMemory>
    ensures { OnOk result (changed.new
        ≡ changed.old ++ spec.right_element op boolean number.now element.now) }
{
    let value = number_of(op, boolean, &element.1, number, &element.1);
    push_changed(changed, op, boolean, &element.0, value)
}
