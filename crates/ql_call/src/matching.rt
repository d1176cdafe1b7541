// Operators on two vectors whose elements are matched by their keys.
ghost use Rattle.std.specs.Prelude.{◌≡◌, ◌++◌, Some, IfOk, OnOk};
ghost use Rattle.std.specs.List.{flat_map};
ghost use Rattle.ql_call.specs.Matched as spec;
ghost use Rattle.ql_call.specs.Operators as operators;

use crate::arithmetic::number_of;
use crate::changed::Changed;
use crate::clashes::{Pair, first_clash, lesser, vector_unless};
use crate::keys::{keyed, ones_by_key, partner_of, rekeyed};
use crate::labels::{include, only, without};
use crate::operators::{changed_to, named_by};
use crate::outcome::Outcome;
use op_base::{Labels, List, NoMemory, Text};
use ql_tree::{BinaryOp, Matching};
use srv_store::LabelMap;
use std::alloc::Global;

/// An operator on two vectors, but for `and`, `unless` and `or`. It takes n log n steps.
pub(crate) fn matched(
    alloc: Global,
    op: BinaryOp,
    boolean: bool,
    matching: &Option<Matching>,
    left: &[(Labels, i64)],
    right: &[(Labels, i64)],
) -> Result<Outcome, NoMemory>
    ensures { IfOk result (λ o. o ≡ spec.matched op boolean matching.now left.now right.now) }
{
    if is_swapped(matching) {
        matched_sides(alloc, op, boolean, matching, left, right)
    } else {
        matched_sides(alloc, op, boolean, matching, right, left)
    }
}

fn matched_sides(
    alloc: Global,
    op: BinaryOp,
    boolean: bool,
    matching: &Option<Matching>,
    ones: &[(Labels, i64)],
    manys: &[(Labels, i64)],
) -> Result<Outcome, NoMemory>
    ensures { IfOk result (λ o. o ≡ spec.matched_sides op boolean matching.now ones.now manys.now) }
{
    let results = results_of(alloc, op, boolean, matching, ones, manys)?;
    let clash = least_clash(alloc, matching, ones, results.as_slice())?;
    vector_unless(alloc, clash, results)
}

// There is `group_right`.
fn is_swapped(matching: &Option<Matching>) -> bool
    ensures { result ≡ spec.is_swapped (spec.side_of matching.now) }
{
    match matching {
        Some(matching) => match &matching.side {
            Some(side) => !side.left,
            None => false,
        },
        None => false,
    }
}

// There is `group_left` or `group_right`.
fn is_grouped(matching: &Option<Matching>) -> bool
    ensures { result ≡ spec.is_grouped (spec.side_of matching.now) }
{
    match matching {
        Some(matching) => matching.side.is_some(),
        None => false,
    }
}

// The results of all elements of the many side.
fn results_of(
    alloc: Global,
    op: BinaryOp,
    boolean: bool,
    matching: &Option<Matching>,
    ones: &[(Labels, i64)],
    manys: &[(Labels, i64)],
) -> Result<List<Changed>, NoMemory>
    ensures { IfOk result (λ results. results
        ≡ spec.results_of op boolean matching.now ones.now manys.now) }
{
    let by_key = ones_by_key(alloc, matching, ones)?;
    results_with(alloc, op, boolean, matching, &by_key, manys)
}

fn results_with(
    alloc: Global,
    op: BinaryOp,
    boolean: bool,
    matching: &Option<Matching>,
    ones: &LabelMap<List<(Labels, i64)>>,
    manys: &[(Labels, i64)],
) -> Result<List<Changed>, NoMemory>
    ensures { IfOk result (λ results. results
        ≡ flat_map (spec.result_of op boolean matching.now ones.now) manys.now) }
{
    let mut results = List::new(alloc);
    for many in manys {
        push_result(alloc, &mut results, op, boolean, matching, ones, many)?;
    }
    Ok(results)
}

// Puts the result of an element of the many side at the end, where it has a partner.
fn push_result(
    alloc: Global,
    results: &mut List<Changed>,
    op: BinaryOp,
    boolean: bool,
    matching: &Option<Matching>,
    ones: &LabelMap<List<(Labels, i64)>>,
    many: &(Labels, i64),
) -> Result<(), NoMemory>
    ensures { OnOk result (results.new
        ≡ results.old ++ spec.result_of op boolean matching.now ones.now many.now) }
{
    match partner_of(alloc, matching, ones, &many.0)? {
        Some(one) => push_pair(alloc, results, op, boolean, matching, one, many),
        None => Ok(()),
    }
}

// Puts the result of two elements at the end, where the operator gives one.
fn push_pair(
    alloc: Global,
    results: &mut List<Changed>,
    op: BinaryOp,
    boolean: bool,
    matching: &Option<Matching>,
    one: &(Labels, i64),
    many: &(Labels, i64),
) -> Result<(), NoMemory>
    ensures { OnOk result (results.new
        ≡ results.old ++ spec.pair_result op boolean matching.now many.now (Some one.now)) }
{
    match pair_number(op, boolean, is_swapped(matching), &one.1, &many.1) {
        Some(value) => {
            let to = result_labels(alloc, op, boolean, matching, &one.0, &many.0)?;
            results.push(changed_to(&many.0, to, &value)?)
        }
        None => Ok(()),
    }
}

// What the operator gives of two elements. A comparison that holds keeps the value of the left one.
fn pair_number(op: BinaryOp, boolean: bool, swapped: bool, one: &i64, many: &i64) -> Option<i64>
    ensures { result ≡ spec.pair_number op boolean swapped one.now many.now }
{
    if swapped {
        number_of(op, boolean, one, one, many)
    } else {
        number_of(op, boolean, many, many, one)
    }
}

// The labels of the result of two elements.
fn result_labels(
    alloc: Global,
    op: BinaryOp,
    boolean: bool,
    matching: &Option<Matching>,
    one: &Labels,
    many: &Labels,
) -> Result<Labels, NoMemory>
    ensures { IfOk result (λ labels. labels
        ≡ operators.named_by op boolean (spec.pair_labels matching.now one.now many.now)) }
{
    let labels = pair_labels(alloc, matching, one, many)?;
    Ok(named_by(op, boolean, labels))
}

// The same, before the name may be dropped.
fn pair_labels(
    alloc: Global,
    matching: &Option<Matching>,
    one: &Labels,
    many: &Labels,
) -> Result<Labels, NoMemory>
    ensures { IfOk result (λ labels. labels ≡ spec.pair_labels matching.now one.now many.now) }
{
    let Some(matching) = matching else {
        return many.copy();
    };
    match &matching.side {
        Some(side) => with_included(side.include.as_slice(), one, many),
        None => left_by(alloc, matching.on, matching.labels.as_slice(), many),
    }
}

fn left_by(alloc: Global, on: bool, names: &[Text], labels: &Labels) -> Result<Labels, NoMemory>
    ensures { IfOk result (λ kept. kept ≡ spec.left_by on names.now labels.now) }
{
    if on {
        only(alloc, names, labels)
    } else {
        without(names, labels)
    }
}

// The labels of the many side, with each of these names taken from the one side.
fn with_included(names: &[Text], one: &Labels, many: &Labels) -> Result<Labels, NoMemory>
    ensures { IfOk result (λ labels. labels ≡ spec.with_included names.now one.now many.now) }
{
    let mut labels = many.copy()?;
    for name in names {
        include(&mut labels, name.as_str(), one)?;
    }
    Ok(labels)
}

// The least pair of elements that clash: on the one side, on the other, or by their results.
fn least_clash(
    alloc: Global,
    matching: &Option<Matching>,
    ones: &[(Labels, i64)],
    results: &[Changed],
) -> Result<Option<Pair>, NoMemory>
    ensures { IfOk result (λ clash. clash ≡ spec.least_clash matching.now ones.now results.now) }
{
    let of_ones = first_clash(alloc, keyed(alloc, matching, ones)?.as_slice())?;
    let of_manys = many_clash(alloc, matching, results)?;
    let of_results = first_clash(alloc, results)?;
    Ok(lesser(of_ones, lesser(of_manys, of_results)))
}

// Without a `group_` clause, two elements that each give a result have different keys.
fn many_clash(
    alloc: Global,
    matching: &Option<Matching>,
    results: &[Changed],
) -> Result<Option<Pair>, NoMemory>
    ensures { IfOk result (λ clash. clash
        ≡ spec.many_clash (spec.is_grouped (spec.side_of matching.now)) matching.now results.now) }
{
    if is_grouped(matching) {
        return Ok(None);
    }
    first_clash(alloc, rekeyed(alloc, matching, results)?.as_slice())
}
