// The tags of a namespace: those of its Namespace object, and its name.
ghost use Rattle.std.specs.Prelude.{◌≡◌};
ghost use Rattle.std.specs.Option.{option_copied};
ghost use Rattle.std.specs.List.{list_any};
ghost use Rattle.std.specs.Prelude.{bytes_eq};
ghost use Rattle.op_base.specs.Maps.{value_at};
ghost use Rattle.op_base.specs.Selectors as selectors;
ghost use Rattle.op_admit.specs.Selected as spec;

use op_base::{Requirement, Selector, Tags, Text};
use std::cmp::Ordering;

/// The tag that every namespace has: its own name.
pub const NAMESPACE_NAME_TAG: &str = "kubernetes.io/metadata.name";

/// Whether the selector holds on the tags of the namespace. It takes no memory.
pub(crate) fn holds_on_namespace(selector: &Selector, namespace: &str, tags: &Tags) -> bool
    ensures { result ≡ selectors.chosen selector.now (spec.namespace_tags namespace.now tags.now) }
{
    selector
        .all
        .as_slice()
        .iter()
        .all(|one| requirement_holds(one, namespace, tags))
}

fn requirement_holds(requirement: &Requirement, namespace: &str, tags: &Tags) -> bool
    ensures { result ≡ selectors.requirement_holds (spec.namespace_tags namespace.now tags.now) requirement.now }
{
    match requirement {
        Requirement::Is(key, value) => match tag_at(namespace, tags, key.as_str()) {
            Some(other) => other.as_bytes() == value.as_bytes(),
            None => false,
        },
        Requirement::In(key, values) => has_one_of(namespace, tags, key, values.as_slice()),
        Requirement::NotIn(key, values) => !has_one_of(namespace, tags, key, values.as_slice()),
        Requirement::Exists(key) => tag_at(namespace, tags, key.as_str()).is_some(),
        Requirement::Absent(key) => tag_at(namespace, tags, key.as_str()).is_none(),
    }
}

fn has_one_of(namespace: &str, tags: &Tags, key: &Text, values: &[Text]) -> bool
    ensures { result ≡ selectors.has_one_of (spec.namespace_tags namespace.now tags.now) key.now values.now }
{
    match tag_at(namespace, tags, key.as_str()) {
        Some(value) => contains(values, value),
        None => false,
    }
}

fn contains(values: &[Text], value: &str) -> bool
    ensures { result ≡ list_any (λ other. bytes_eq other value.now) values.now }
{
    values
        .iter()
        .any(|other| other.as_bytes() == value.as_bytes())
}

// The tag at the key; the name stands over any tag of its key.
#[tactic(auto, using(crate::proofs::TagLemmas::tag_found))]
fn tag_at<'a>(namespace: &'a str, tags: &'a Tags, key: &str) -> Option<&'a str>
    ensures { option_copied result ≡ value_at (spec.namespace_tags namespace.now tags.now) key.now }
{
    match key.cmp(NAMESPACE_NAME_TAG) {
        Ordering::Equal => Some(namespace),
        _ => tags.get(key),
    }
}
