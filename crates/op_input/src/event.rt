ghost use Rattle.std.specs.Prelude.{◌≡◌, option_map};
ghost use Rattle.op_input.specs.Events.{event_of};
ghost use Rattle.op_input.specs.Owners as spec;

use op_base::{Key, Kind, List, Moment, Text};
use op_manifest::{Shape, Tree};
use srv_scrape::{Found, Sample};

/// What a line of the input asks for. A line on an object or on targets that breaks a rule on shape is still its
/// namespace's, where its key can be read.
#[derive(Debug, Drop)]
pub enum InputEvent {
    /// The manifest is put. Nothing but its key is read yet.
    Put(Key, Tree),
    /// The object of the key goes.
    Delete(Key),
    /// The object of the key would go, but the rule is broken.
    RefusedDelete(Key, Shape),
    /// In the namespace these entries are discovered, and no other.
    Targets(Text, List<Found>),
    /// Entries of the namespace would be replaced, but the rule is broken.
    RefusedTargets(Text, Shape),
    /// A scrape of the URL answers the samples, or fails.
    Page(Text, Option<List<Sample>>),
    /// The clock stands at the moment.
    Tick(Moment),
    /// The rule is broken, and whose the line is can't be read. The path is counted from the value of the line's key;
    /// it is empty where that whole value, or the line itself, is wrong.
    Bad(Shape),
}

impl InputEvent {
    /// The namespace whose the line is, where it is one's alone.
    pub fn namespace(&self) -> Option<&str>
        ensures { option_map (λ namespace. namespace.now) result
            ≡ spec.namespace_of (spec.owner_of (event_of self.now)) }
    {
        match self {
            InputEvent::Put(key, _) => own_namespace(key),
            InputEvent::Delete(key) => own_namespace(key),
            InputEvent::RefusedDelete(key, _) => own_namespace(key),
            InputEvent::Targets(namespace, _) => Some(namespace.as_str()),
            InputEvent::RefusedTargets(namespace, _) => Some(namespace.as_str()),
            InputEvent::Page(_, _) | InputEvent::Tick(_) | InputEvent::Bad(_) => None,
        }
    }
}

/// The namespace of the key, unless its object is everyone's.
pub fn own_namespace(key: &Key) -> Option<&str>
    ensures { option_map (λ namespace. namespace.now) result
        ≡ spec.namespace_of (spec.owner_of_key key.now) }
{
    if is_everyones(key.kind) {
        None
    } else {
        Some(key.namespace.as_str())
    }
}

fn is_everyones(kind: Kind) -> bool
    ensures { result ≡ spec.is_everyones kind }
{
    match kind {
        Kind::Namespace | Kind::Prometheus | Kind::Alertmanager => true,
        _ => false,
    }
}
