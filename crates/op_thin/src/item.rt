ghost use Rattle.std.specs.Prelude.{◌≡◌, ℕ, List, None, IfOk};
ghost use Rattle.serde_json.specs.View.{view};
ghost use Rattle.op_thin.specs.ThinProbes.{thin_probe_of};
ghost use Rattle.op_thin.specs.Items as spec;

use crate::probe::{ThinProbe, thin_probe};
use crate::rule::{ThinRule, thin_rule};
use op_base::NoMemory;
use op_json::read_json;
use serde_json::Value;
use std::alloc::Global;

/// What the bytes of a manifest are.
#[derive(Debug, PartialEq, Eq, Drop)]
pub enum Item {
    /// They aren't JSON.
    Broken,
    /// They are JSON of a form that isn't read yet.
    NotYet,
    Rule(ThinRule),
    Probe(ThinProbe),
}

/// What the bytes are.
pub fn item_of(alloc: Global, bytes: &[u8]) -> Result<Item, NoMemory>
    ensures item { IfOk result (λ item. item ≡ spec.item_of bytes.now) }
    ensures named { IfOk result spec.IsNamed }
    ensures judged { IfOk result spec.IsJudged }
{
    match read_json(alloc, bytes)? {
        Some(value) => item_of_value(alloc, &value),
        None => Ok(Item::Broken),
    }
}

/// What the bytes of any manifest are names what is well formed.
pub fn item_names()
    ensures { (bytes : List ℕ) → spec.IsNamed (spec.item_of bytes) }
{}

fn item_of_value(alloc: Global, value: &Value) -> Result<Item, NoMemory>
    ensures item { IfOk result (λ item. item ≡ spec.item_of_json (Some (view value.now))) }
    ensures named { IfOk result spec.IsNamed }
    ensures judged { IfOk result spec.IsJudged }
{
    match thin_rule(alloc, value)? {
        Some(rule) => Ok(Item::Rule(rule)),
        None => probe_or_not_yet(alloc, value),
    }
}

fn probe_or_not_yet(alloc: Global, value: &Value) -> Result<Item, NoMemory>
    ensures item { IfOk result (λ item. item ≡ spec.item_of_objects None (thin_probe_of (view value.now))) }
    ensures named { IfOk result spec.IsNamed }
    ensures judged { IfOk result spec.IsJudged }
{
    match thin_probe(alloc, value)? {
        Some(probe) => Ok(Item::Probe(probe)),
        None => Ok(Item::NotYet),
    }
}
