// Manifests that lines put.
ghost use Rattle.std.specs.Prelude.{◌≡◌, IfOk, unwrap_or};
ghost use Rattle.serde_json.specs.Data.{null};
ghost use Rattle.serde_json.specs.Find.{get_member};
ghost use Rattle.op_manifest.specs.Checks.{field};
ghost use Rattle.op_manifest.specs.Trees.{data_of, members_in};
ghost use Rattle.op_input.specs.Events.{HasTime, event_of};
ghost use Rattle.op_input.specs.Puts as spec;

use crate::event::InputEvent;
use op_base::{List, NoMemory, Text};
use op_manifest::{ShapeFault, Tree, key_of};
use std::alloc::Global;
use std::cmp::Ordering;

/// The manifest with its key, or the first breach of what names it.
pub fn read_put(alloc: Global, manifest: Tree) -> Result<InputEvent, NoMemory>
    ensures event { IfOk result (λ event. event_of event ≡ spec.put_of (data_of manifest)) }
    ensures time { IfOk result HasTime }
{
    match key_of(alloc, &manifest) {
        Ok(key) => Ok(InputEvent::Put(key, manifest)),
        Err(ShapeFault::Broken(shape)) => Ok(InputEvent::Bad(shape)),
        Err(ShapeFault::NoMemory) => Err(NoMemory),
    }
}

/// The value of the field, taken out of the tree; null where it isn't there.
#[tactic(auto, using(crate::proofs::FieldLemmas::null_or_field))]
pub fn taken_out(tree: Tree, name: &str) -> Tree
    ensures { data_of result ≡ unwrap_or (field name.now (data_of tree)) null }
{
    match tree {
        Tree::Fields(fields) => member_out(fields, name),
        _ => Tree::Null,
    }
}

fn member_out(fields: List<(Text, Tree)>, name: &str) -> Tree
    ensures { data_of result ≡ unwrap_or (get_member name.now (members_in fields)) null }
{
    for (other, value) in fields.into_vec() {
        match name.cmp(other.as_str()) {
            Ordering::Equal => return value,
            _ => {}
        }
    }
    Tree::Null
}
