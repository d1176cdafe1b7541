// Deletions.
ghost use Rattle.std.specs.Prelude.{◌≡◌, [], IfOk};
ghost use Rattle.op_manifest.specs.Trees.{data_of};
ghost use Rattle.op_manifest.specs.Shapes.{Adds};
ghost use Rattle.op_manifest.specs.Checks as check;
ghost use Rattle.op_manifest.specs.Heads as heads;
ghost use Rattle.op_input.specs.Events.{HasTime, event_of, delete, refused_delete, judged, refusal};
ghost use Rattle.op_input.specs.Deletes as spec;

use crate::breach::is_unbroken;
use crate::event::InputEvent;
use crate::kind::noted_kind;
use crate::texts::{text_or, text_or_empty};
use op_base::{Key, Kind, NoMemory, Text};
use op_manifest::{
    NamespaceName, ObjectName, Shape, Tree, noted_known, noted_worded, required_worded,
};
use std::alloc::Global;

/// The deletion that the value is. Breaches of the key are noted apart: they leave the line without an owner.
pub fn read_delete(alloc: Global, tree: &Tree) -> Result<InputEvent, NoMemory>
    ensures event { IfOk result (λ event. event_of event ≡ spec.delete_of (data_of tree.now)) }
    ensures time { IfOk result HasTime }
{
    let mut stray = None;
    noted_known(&mut stray, alloc, tree, &["kind", "namespace", "name"], "")?;
    let mut misnamed = None;
    let key = noted_key(&mut misnamed, alloc, tree)?;
    let is_named = is_unbroken(&misnamed);
    Ok(deletion(key, is_named, stray.or(misnamed)))
}

fn deletion(key: Key, is_named: bool, found: Option<Shape>) -> InputEvent
    ensures event { event_of result ≡ judged (delete key) (refused_delete key) is_named found }
    ensures time { HasTime result }
{
    match found {
        Some(shape) => refused(key, is_named, shape),
        None => InputEvent::Delete(key),
    }
}

fn refused(key: Key, is_named: bool, shape: Shape) -> InputEvent
    ensures event { event_of result ≡ refusal (refused_delete key) is_named shape }
    ensures time { HasTime result }
{
    if is_named {
        InputEvent::RefusedDelete(key, shape)
    } else {
        InputEvent::Bad(shape)
    }
}

#[tactic(auto, using(op_manifest::proofs::ShapeLemmas::later_both, op_manifest::proofs::ShapeLemmas::later_none))]
fn noted_key(found: &mut Option<Shape>, alloc: Global, tree: &Tree) -> Result<Key, NoMemory>
    ensures { Adds (λ key. key) found.old found.new result
        (check.rows_wrongs spec.delete_rows [] (data_of tree.now)) (spec.deleted_key (data_of tree.now)) }
{
    let kind = noted_kind(found, alloc, tree)?;
    let namespace = noted_namespace(found, alloc, tree, kind)?;
    let name = required_worded::<ObjectName>(found, alloc, tree, "name", "")?;
    Ok(Key {
        kind,
        namespace,
        name: text_or_empty(alloc, name),
    })
}

#[tactic(auto, using(op_manifest::proofs::ShapeLemmas::later_none))]
fn noted_namespace(
    found: &mut Option<Shape>,
    alloc: Global,
    tree: &Tree,
    kind: Kind,
) -> Result<Text, NoMemory>
    ensures { Adds (λ namespace. namespace) found.old found.new result
        (heads.namespace_wrongs kind [] (data_of tree.now)) (heads.namespace_in kind (data_of tree.now)) }
{
    if is_namespaced(kind) {
        let namespace = noted_worded::<NamespaceName>(found, alloc, tree, "namespace", "")?;
        text_or(alloc, namespace, "default")
    } else {
        Ok(Text::new(alloc))
    }
}

fn is_namespaced(kind: Kind) -> bool
    ensures { result ≡ heads.is_namespaced kind }
{
    match kind {
        Kind::Namespace => false,
        _ => true,
    }
}
