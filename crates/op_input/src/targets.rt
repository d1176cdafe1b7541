// Targets.
ghost use Rattle.std.specs.Prelude.{◌≡◌, [], IfOk, codes, unwrap_or};
ghost use Rattle.op_manifest.specs.Trees.{data_of, items_in};
ghost use Rattle.op_manifest.specs.Shapes.{Adds};
ghost use Rattle.op_manifest.specs.Checks as check;
ghost use Rattle.op_manifest.specs.Values as value;
ghost use Rattle.op_input.specs.Events.{HasTime, event_of, targets, refused_targets, judged, refusal};
ghost use Rattle.op_input.specs.Targets as spec;

use crate::breach::is_unbroken;
use crate::entry::noted_entry;
use crate::event::InputEvent;
use crate::texts::text_or_empty;
use op_base::{List, NoMemory, Text};
use op_manifest::{
    NamespaceName, Shape, ShapeRule, Tree, given, noted_known, path_at, required_worded, tell,
};
use srv_scrape::Found;
use std::alloc::Global;

/// The targets that the value is. A breach of the namespace is noted apart: it leaves the line without an owner.
pub fn read_targets(alloc: Global, tree: &Tree) -> Result<InputEvent, NoMemory>
    ensures event { IfOk result (λ event. event_of event ≡ spec.targets_of (data_of tree.now)) }
    ensures time { IfOk result HasTime }
{
    let mut stray = None;
    noted_known(&mut stray, alloc, tree, &["namespace", "set"], "")?;
    let mut misnamed = None;
    let namespace = noted_namespace(&mut misnamed, alloc, tree)?;
    let is_named = is_unbroken(&misnamed);
    let mut found = stray.or(misnamed);
    let set = noted_set(&mut found, alloc, tree)?;
    Ok(replacement(namespace, set, is_named, found))
}

fn replacement(
    namespace: Text,
    set: List<Found>,
    is_named: bool,
    found: Option<Shape>,
) -> InputEvent
    ensures event { event_of result ≡ judged (targets namespace set) (refused_targets namespace) is_named found }
    ensures time { HasTime result }
{
    match found {
        Some(shape) => refused(namespace, is_named, shape),
        None => InputEvent::Targets(namespace, set),
    }
}

fn refused(namespace: Text, is_named: bool, shape: Shape) -> InputEvent
    ensures event { event_of result ≡ refusal (refused_targets namespace) is_named shape }
    ensures time { HasTime result }
{
    if is_named {
        InputEvent::RefusedTargets(namespace, shape)
    } else {
        InputEvent::Bad(shape)
    }
}

fn noted_namespace(found: &mut Option<Shape>, alloc: Global, tree: &Tree) -> Result<Text, NoMemory>
    ensures { Adds (λ namespace. namespace) found.old found.new result
        (spec.namespace_row.wrongs [] (data_of tree.now)) (spec.targets_namespace (data_of tree.now)) }
{
    let namespace = required_worded::<NamespaceName>(found, alloc, tree, "namespace", "")?;
    Ok(text_or_empty(alloc, namespace))
}

#[tactic(auto, unfolding(op_manifest::specs::Checks::required, op_manifest::specs::Checks::list, op_manifest::specs::Values::items_in))]
fn noted_set(found: &mut Option<Shape>, alloc: Global, tree: &Tree) -> Result<List<Found>, NoMemory>
    ensures { Adds (λ set. set) found.old found.new result
        (check.required (check.list spec.entry) (codes "set") [] (data_of tree.now)) (spec.targets_found (data_of tree.now)) }
{
    match given(tree, "set") {
        Some(list) => match list.as_items() {
            Some(items) => read_entries(found, alloc, items, "set"),
            None => {
                tell(found, ShapeRule::WRONG_TYPE, Text::from_str(alloc, "set")?);
                Ok(List::new(alloc))
            }
        },
        None => {
            tell(found, ShapeRule::MISSING, Text::from_str(alloc, "set")?);
            Ok(List::new(alloc))
        }
    }
}

fn read_entries(
    found: &mut Option<Shape>,
    alloc: Global,
    items: &[Tree],
    path: &str,
) -> Result<List<Found>, NoMemory>
    ensures { Adds (λ set. set) found.old found.new result
        (check.items_from spec.entry path.now 0 (items_in items.now))
        (value.each_of spec.entry_of (items_in items.now)) }
{
    let mut all = List::new(alloc);
    for index in 0..items.len() {
        let path = path_at(alloc, path, index)?;
        all.push(noted_entry(found, alloc, &items[index], path.as_str())?)?;
    }
    Ok(all)
}
