// The elements that `topk` and `bottomk` keep.
ghost use Rattle.std.specs.Prelude.{◌≡◌, ◌++◌, ◌∷◌, [], map, IfOk, OnOk};
ghost use Rattle.std.specs.List.{flat_map};
ghost use Rattle.ql_call.specs.Kept.{kept_of as kept_of_group};
ghost use Rattle.ql_call.specs.Ranked as spec;

use op_base::{Labels, List, NoMemory, in_order};
use srv_store::LabelMap;
use std::alloc::Global;

// A weight and labels: of two ranks the lesser one goes first.
type Rank = (i128, Labels);

/// What is kept of all groups, in label order.
pub(crate) fn best_of(
    alloc: Global,
    top: bool,
    k: &i64,
    groups: LabelMap<List<(Labels, i64)>>,
) -> Result<List<(Labels, i64)>, NoMemory>
    ensures { IfOk result (λ kept. kept ≡ spec.best_of top k.now groups) }
{
    let groups = groups.into_entries(alloc)?;
    in_order(alloc, kept_of(alloc, top, k, groups.as_slice())?)
}

// What is kept of each group, one group after the other.
fn kept_of(
    alloc: Global,
    top: bool,
    k: &i64,
    groups: &[(Labels, List<(Labels, i64)>)],
) -> Result<List<(Labels, i64)>, NoMemory>
    ensures { IfOk result (λ kept. kept ≡ flat_map (kept_of_group top k.now) groups.now) }
{
    let mut kept = List::new(alloc);
    for group in groups {
        keep_first(alloc, &mut kept, top, k, group)?;
    }
    Ok(kept)
}

fn keep_first(
    alloc: Global,
    kept: &mut List<(Labels, i64)>,
    top: bool,
    k: &i64,
    group: &(Labels, List<(Labels, i64)>),
) -> Result<(), NoMemory>
    ensures { OnOk result (kept.new ≡ kept.old ++ kept_of_group top k.now group.now) }
{
    kept.append(first_ranked(alloc, top, k, group.1.as_slice())?)
}

// The first elements of a group, of which that number is kept.
fn first_ranked(
    alloc: Global,
    top: bool,
    k: &i64,
    elements: &[(Labels, i64)],
) -> Result<List<(Labels, i64)>, NoMemory>
    ensures { IfOk result (λ first. first ≡ spec.first_ranked top k.now elements.now) }
{
    let mut first = ranked(alloc, top, elements)?.into_vec();
    first.truncate(count_of(k));
    Ok(List::from_vec(first))
}

fn count_of(k: &i64) -> usize
    ensures { result ≡ spec.count_of k.now }
{
    if *k < 0 { 0 } else { *k as usize }
}

// The elements of a group, the first ones first.
fn ranked(
    alloc: Global,
    top: bool,
    elements: &[(Labels, i64)],
) -> Result<List<(Labels, i64)>, NoMemory>
    ensures { IfOk result (λ ranked. ranked ≡ spec.ranked top elements.now) }
{
    let sorted = in_order(alloc, at_ranks(alloc, top, elements)?)?;
    elements_of(alloc, sorted)
}

fn at_ranks(
    alloc: Global,
    top: bool,
    elements: &[(Labels, i64)],
) -> Result<List<(Rank, i64)>, NoMemory>
    ensures { IfOk result (λ placed. placed ≡ map (spec.rank_of top) elements.now) }
{
    let mut placed = List::new(alloc);
    for element in elements {
        push_at_rank(&mut placed, top, element)?;
    }
    Ok(placed)
}

fn push_at_rank(
    placed: &mut List<(Rank, i64)>,
    top: bool,
    element: &(Labels, i64),
) -> Result<(), NoMemory>
    ensures { OnOk result (placed.new ≡ placed.old ++ spec.rank_of top element.now ∷ []) }
{
    placed.push(((weight(top, &element.1), element.0.copy()?), element.1))
}

// The greater a value, the lighter it is for `topk`.
fn weight(top: bool, value: &i64) -> i128
    ensures { result ≡ spec.weight top value.now }
{
    let value = i128::from(*value);
    if top { -value } else { value }
}

fn elements_of(alloc: Global, placed: List<(Rank, i64)>) -> Result<List<(Labels, i64)>, NoMemory>
    ensures { IfOk result (λ elements. elements ≡ map spec.ranked_element placed) }
{
    let mut elements = List::new(alloc);
    for ((_weight, labels), value) in placed.into_vec() {
        elements.push((labels, value))?;
    }
    Ok(elements)
}
