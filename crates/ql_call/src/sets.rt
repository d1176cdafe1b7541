// `and`, `unless` and `or`, which compare keys alone, and all operators on two operands.
ghost use Rattle.std.specs.Prelude.{◌≡◌, true, [], ◌∷◌, ◌++◌, filter, IfOk, OnOk, if◌then◌else◌};
ghost use Rattle.op_base.specs.Labels.{labels_cmp};
ghost use Rattle.op_base.specs.Maps.{in_order as ordered};
ghost use Rattle.ql_call.specs.Keyed as steps;
ghost use Rattle.ql_call.specs.Operands as given;
ghost use Rattle.ql_call.specs.Ordered.{in_label_order, is_ordered};
ghost use Rattle.ql_call.specs.Sets as spec;

use crate::keys::{is_keyed, ones_by_key};
use crate::matching::matched;
use crate::operand::{Operand, elements_at, number_at};
use crate::operators::{copied, copy_of, of_left_vector, of_right_vector, of_scalars};
use crate::outcome::Outcome;
use op_base::{Labels, List, NoMemory, in_order};
use ql_tree::{BinaryOp, Matching};
use srv_store::LabelMap;
use std::alloc::Global;

/// An operator on two operands, each a scalar or a vector.
pub fn binary(
    alloc: Global,
    op: BinaryOp,
    boolean: bool,
    matching: &Option<Matching>,
    left: &[Operand],
    right: &[Operand],
) -> Result<Outcome, NoMemory>
    ensures value { IfOk result (λ o. o ≡ spec.binary op boolean matching.now
        (given.number_at 0 left.now) (given.number_at 0 right.now)
        (given.elements_at 0 left.now) (given.elements_at 0 right.now)) }
    ensures ordered { in_label_order (given.elements_at 0 left.now) ≡ true
        → IfOk result (λ o. is_ordered o ≡ true) }
{
    let (these, those) = (elements_at(left, 0), elements_at(right, 0));
    match (number_at(left, 0), number_at(right, 0)) {
        (Some(a), Some(b)) => Ok(of_scalars(op, &a, &b)),
        (Some(a), None) => of_right_vector(alloc, op, boolean, &a, those),
        (None, Some(b)) => of_left_vector(alloc, op, boolean, these, &b),
        (None, None) => of_vectors(alloc, op, boolean, matching, these, those),
    }
}

fn of_vectors(
    alloc: Global,
    op: BinaryOp,
    boolean: bool,
    matching: &Option<Matching>,
    left: &[(Labels, i64)],
    right: &[(Labels, i64)],
) -> Result<Outcome, NoMemory>
    ensures { IfOk result (λ o. o ≡ spec.of_vectors op boolean matching.now left.now right.now) }
{
    match op {
        BinaryOp::And => Ok(Outcome::Vector(shared(alloc, matching, left, right)?)),
        BinaryOp::Unless => Ok(Outcome::Vector(unshared(alloc, matching, left, right)?)),
        BinaryOp::Or => Ok(Outcome::Vector(united(alloc, matching, left, right)?)),
        _ => matched(alloc, op, boolean, matching, left, right),
    }
}

// The elements whose key another vector has.
fn shared(
    alloc: Global,
    matching: &Option<Matching>,
    elements: &[(Labels, i64)],
    others: &[(Labels, i64)],
) -> Result<List<(Labels, i64)>, NoMemory>
    ensures { IfOk result (λ kept. kept ≡ spec.shared matching.now elements.now others.now) }
{
    let by_key = ones_by_key(alloc, matching, others)?;
    keyed_in(alloc, matching, &by_key, elements)
}

// The elements whose key another vector hasn't.
fn unshared(
    alloc: Global,
    matching: &Option<Matching>,
    elements: &[(Labels, i64)],
    others: &[(Labels, i64)],
) -> Result<List<(Labels, i64)>, NoMemory>
    ensures { IfOk result (λ kept. kept ≡ spec.unshared matching.now elements.now others.now) }
{
    let by_key = ones_by_key(alloc, matching, others)?;
    unkeyed_in(alloc, matching, &by_key, elements)
}

// All elements of the left vector, and those of the right one whose key the left one hasn't.
fn united(
    alloc: Global,
    matching: &Option<Matching>,
    left: &[(Labels, i64)],
    right: &[(Labels, i64)],
) -> Result<List<(Labels, i64)>, NoMemory>
    ensures { IfOk result (λ all. all
        ≡ ordered labels_cmp (left.now ++ spec.unshared matching.now right.now left.now)) }
{
    let mut all = copied(alloc, left)?;
    all.append(unshared(alloc, matching, right, left)?)?;
    in_order(alloc, all)
}

fn keyed_in(
    alloc: Global,
    matching: &Option<Matching>,
    by_key: &LabelMap<List<(Labels, i64)>>,
    elements: &[(Labels, i64)],
) -> Result<List<(Labels, i64)>, NoMemory>
    ensures { IfOk result (λ kept. kept
        ≡ filter (steps.is_keyed matching.now by_key.now) elements.now) }
{
    let mut kept = List::new(alloc);
    for element in elements {
        let wanted = is_keyed(alloc, matching, by_key, element)?;
        push_if(&mut kept, wanted, element)?;
    }
    Ok(kept)
}

fn unkeyed_in(
    alloc: Global,
    matching: &Option<Matching>,
    by_key: &LabelMap<List<(Labels, i64)>>,
    elements: &[(Labels, i64)],
) -> Result<List<(Labels, i64)>, NoMemory>
    ensures { IfOk result (λ kept. kept
        ≡ filter (steps.is_unkeyed matching.now by_key.now) elements.now) }
{
    let mut kept = List::new(alloc);
    for element in elements {
        let wanted = !is_keyed(alloc, matching, by_key, element)?;
        push_if(&mut kept, wanted, element)?;
    }
    Ok(kept)
}

fn push_if(
    kept: &mut List<(Labels, i64)>,
    wanted: bool,
    element: &(Labels, i64),
) -> Result<(), NoMemory>
    ensures { OnOk result (kept.new ≡ kept.old ++ (if wanted then element.now ∷ [] else [])) }
{
    if wanted {
        kept.push(copy_of(element)?)?;
    }
    Ok(())
}
