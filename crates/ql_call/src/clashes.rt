// When the elements of a step clash, and the vector that they are else.
ghost use Rattle.std.specs.Prelude.{◌≡◌, [], ◌∷◌, ◌++◌, Some, None, fold, IfOk, OnOk};
ghost use Rattle.std.specs.Option.{option_copied, option_map};
ghost use Rattle.srv_store.specs.LabelMaps.{with_value};
ghost use Rattle.ql_call.specs.Clashes as spec;
ghost use Rattle.ql_call.specs.Walks as walks;

use crate::changed::Changed;
use crate::outcome::Outcome;
use op_base::{Labels, List, NoMemory};
use srv_store::LabelMap;
use std::alloc::Global;
use std::cmp::Ordering;

/// Two label sets that clash, the lesser one first.
pub(crate) type Pair = (Labels, Labels);

// What was found of the last elements: their least clash, and which labels they have after the step, each
// with the labels before of the first element that has them.
#[derive(Drop)]
struct Walk {
    clash: Option<Pair>,
    nearest: LabelMap<Labels>,
}

/// The least pair of elements that clash, of elements in label order. It takes n log n steps: the
/// elements are walked from the last to the first.
pub(crate) fn first_clash(alloc: Global, changed: &[Changed]) -> Result<Option<Pair>, NoMemory>
    ensures { IfOk result (λ clash. clash ≡ spec.first_clash changed.now) }
{
    let mut walk = Walk {
        clash: None,
        nearest: LabelMap::new(alloc),
    };
    for index in 0..changed.len() {
        step(&mut walk, &changed[changed.len() - 1 - index])?;
    }
    Ok(walk.clash)
}

fn step(walk: &mut Walk, element: &Changed) -> Result<(), NoMemory>
    ensures { OnOk result (walk.new ≡ walks.stepped walk.old element.now) }
{
    if let Some(other) = walk.nearest.get(&element.to) {
        walk.clash = Some((element.from.copy()?, other.copy()?));
    }
    walk.nearest
        .insert(element.to.copy()?, element.from.copy()?)
}

/// The lesser of two clashes.
pub(crate) fn lesser(these: Option<Pair>, those: Option<Pair>) -> Option<Pair>
    ensures { result ≡ spec.lesser these those }
{
    match (these, those) {
        (Some(these), Some(those)) => Some(lesser_pair(these, those)),
        (Some(these), None) => Some(these),
        (None, those) => those,
    }
}

fn lesser_pair(these: Pair, those: Pair) -> Pair
    ensures { Some result ≡ spec.lesser (Some these) (Some those) }
{
    if is_before(&these, &those) {
        these
    } else {
        those
    }
}

fn is_before(these: &Pair, those: &Pair) -> bool
    ensures { result ≡ walks.is_before these.now those.now }
{
    match these.0.cmp(&those.0) {
        Ordering::Less => true,
        Ordering::Equal => these.1 <= those.1,
        Ordering::Greater => false,
    }
}

/// The vector of the elements with their new labels.
pub(crate) fn placed(alloc: Global, changed: List<Changed>) -> Result<List<(Labels, i64)>, NoMemory>
    ensures { IfOk result (λ vector. vector ≡ spec.placed changed) }
{
    map_of(alloc, changed)?.into_entries(alloc)
}

fn map_of(alloc: Global, changed: List<Changed>) -> Result<LabelMap<i64>, NoMemory>
    ensures { IfOk result (λ vector. vector ≡ spec.placed changed) }
{
    let mut vector = LabelMap::new(alloc);
    for element in changed.into_vec() {
        place(&mut vector, element)?;
    }
    Ok(vector)
}

fn place(vector: &mut LabelMap<i64>, element: Changed) -> Result<(), NoMemory>
    ensures { OnOk result (vector.new ≡ with_value vector.old element.to element.value) }
{
    let Changed { from: _, to, value } = element;
    vector.insert(to, value)
}

/// The clash, or else the vector of the elements.
pub(crate) fn vector_unless(
    alloc: Global,
    clash: Option<Pair>,
    changed: List<Changed>,
) -> Result<Outcome, NoMemory>
    ensures { IfOk result (λ outcome. outcome ≡ spec.vector_unless clash (spec.placed changed)) }
{
    match clash {
        Some((these, those)) => Ok(Outcome::Clash(these, those)),
        None => Ok(Outcome::Vector(placed(alloc, changed)?)),
    }
}

/// What elements whose labels changed come to, of elements in label order.
pub(crate) fn gathered(alloc: Global, changed: List<Changed>) -> Result<Outcome, NoMemory>
    ensures { IfOk result (λ outcome. outcome ≡ spec.gathered changed) }
{
    let clash = first_clash(alloc, changed.as_slice())?;
    vector_unless(alloc, clash, changed)
}
