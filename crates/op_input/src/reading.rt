// Lines of the input.
ghost use Rattle.std.specs.Prelude.{◌≡◌, IfOk, codes, is_some};
ghost use Rattle.op_manifest.specs.Trees.{data_of};
ghost use Rattle.op_input.specs.Events.{HasTime, event_of};
ghost use Rattle.op_input.specs.InputLines as spec;
ghost use Rattle.op_input.specs.Keys as keys;

use crate::delete::read_delete;
use crate::event::InputEvent;
use crate::keys::only_field;
use crate::page::read_page;
use crate::put::{read_put, taken_out};
use crate::targets::read_targets;
use crate::tick::read_tick;
use op_base::{NoMemory, Text};
use op_manifest::{Shape, ShapeFault, ShapeRule, Tree};
use std::alloc::Global;

/// What the bytes of a line ask for. They have no newline; a blank line is no JSON.
#[tactic(auto, unfolding(crate::specs::InputLines::line_event))]
pub fn read_input_line(alloc: Global, bytes: &[u8]) -> Result<InputEvent, NoMemory>
    ensures event { IfOk result (λ event. event_of event ≡ spec.line_event bytes.now) }
    ensures time { IfOk result HasTime }
{
    match Tree::read(alloc, bytes) {
        Ok(tree) => event_in(alloc, tree),
        Err(ShapeFault::Broken(shape)) => Ok(InputEvent::Bad(shape)),
        Err(ShapeFault::NoMemory) => Err(NoMemory),
    }
}

/// What the bytes of a line ask for where manifests and deletions alone are known: another key is none there, whatever
/// stands at it.
#[tactic(auto, unfolding(crate::specs::InputLines::line_change))]
pub fn read_change_line(alloc: Global, bytes: &[u8]) -> Result<InputEvent, NoMemory>
    ensures event { IfOk result (λ event. event_of event ≡ spec.line_change bytes.now) }
    ensures time { IfOk result HasTime }
{
    match Tree::read(alloc, bytes) {
        Ok(tree) => change_in(alloc, tree),
        Err(ShapeFault::Broken(shape)) => Ok(InputEvent::Bad(shape)),
        Err(ShapeFault::NoMemory) => Err(NoMemory),
    }
}

fn change_in(alloc: Global, tree: Tree) -> Result<InputEvent, NoMemory>
    ensures event { IfOk result (λ event. event_of event ≡ spec.value_change (data_of tree)) }
    ensures time { IfOk result HasTime }
{
    if is_put(&tree) {
        read_put(alloc, taken_out(tree, "put"))
    } else {
        deleted(alloc, &tree)
    }
}

// A deletion, or no key that is known.
fn deleted(alloc: Global, tree: &Tree) -> Result<InputEvent, NoMemory>
    ensures event { IfOk result (λ event. event_of event ≡ spec.deleted (data_of tree.now)) }
    ensures time { IfOk result HasTime }
{
    match only_field(tree, "delete") {
        Some(value) => read_delete(alloc, value),
        None => Ok(unknown(alloc)),
    }
}

fn unknown(alloc: Global) -> InputEvent
    ensures event { event_of result ≡ spec.unknown }
    ensures time { HasTime result }
{
    InputEvent::Bad(Shape {
        rule: ShapeRule::UNKNOWN_KIND,
        path: Text::new(alloc),
    })
}

// A manifest is taken out of its line; of another line the values are read in their place.
fn event_in(alloc: Global, tree: Tree) -> Result<InputEvent, NoMemory>
    ensures event { IfOk result (λ event. event_of event ≡ spec.value_event (data_of tree)) }
    ensures time { IfOk result HasTime }
{
    if is_put(&tree) {
        read_put(alloc, taken_out(tree, "put"))
    } else {
        unput(alloc, &tree)
    }
}

fn is_put(tree: &Tree) -> bool
    ensures { result ≡ is_some (keys.only_field (codes "put") (data_of tree.now)) }
{
    only_field(tree, "put").is_some()
}

// A line without a manifest.
fn unput(alloc: Global, tree: &Tree) -> Result<InputEvent, NoMemory>
    ensures event { IfOk result (λ event. event_of event ≡ spec.unput (data_of tree.now)) }
    ensures time { IfOk result HasTime }
{
    match only_field(tree, "delete") {
        Some(value) => read_delete(alloc, value),
        None => match only_field(tree, "targets") {
            Some(value) => read_targets(alloc, value),
            None => observed(alloc, tree),
        },
    }
}

// A page or a tick, or no key that is known.
fn observed(alloc: Global, tree: &Tree) -> Result<InputEvent, NoMemory>
    ensures event { IfOk result (λ event. event_of event ≡ spec.observed (data_of tree.now)) }
    ensures time { IfOk result HasTime }
{
    match only_field(tree, "page") {
        Some(value) => read_page(alloc, value),
        None => match only_field(tree, "tick") {
            Some(value) => Ok(read_tick(alloc, value)),
            None => Ok(unknown(alloc)),
        },
    }
}
