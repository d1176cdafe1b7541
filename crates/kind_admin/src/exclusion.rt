ghost use Rattle.std.specs.Prelude.{◌≡◌, Some};
ghost use Rattle.kind_admin.specs.Exclusions as spec;

use op_base::{Kind, NoMemory, Text};
use op_manifest::{
    Item, Shape, ShapeRule, TextForm, Tree, needed_text, noted_known, noted_text, required_worded,
    unless_empty,
};
use std::alloc::Global;

/// Objects that are excluded from enforcement: those of the kind in the namespace, or the one of them with the name.
#[derive(Debug, PartialEq, Eq, Drop)]
pub struct Exclusion {
    pub resource: Kind,
    pub namespace: Text,
    pub name: Option<Text>,
}

struct Resource;

impl TextForm for Resource {
    ghost use Rattle.op_manifest.specs.declared.shape.TheConstants.ShapeRule as rule;
    ghost use Rattle.kind_admin.specs.Exclusions as spec;

    ghost passes = { spec.is_resource };

    ghost broken = { rule.BAD_CHOICE };

    fn passes(text: &str) -> bool {
        resource_named(text).is_some()
    }

    fn broken() -> ShapeRule {
        ShapeRule::BAD_CHOICE
    }
}

impl Item for Exclusion {
    ghost use Rattle.op_manifest.specs.Checks.{table};
    ghost use Rattle.kind_admin.specs.Exclusions as spec;

    ghost wrongs = { table spec.exclusion_rows };

    ghost of = { spec.exclusion_of };

    fn read(
        found: &mut Option<Shape>,
        alloc: Global,
        tree: &Tree,
        path: &str,
    ) -> Result<Exclusion, NoMemory> {
        let names = ["group", "resource", "namespace", "name"];
        noted_known(found, alloc, tree, &names, path)?;
        let resource = required_worded::<Resource>(found, alloc, tree, "resource", path)?;
        let namespace = needed_text(found, alloc, tree, "namespace", path)?;
        let name = noted_text(found, alloc, tree, "name", path)?;
        Ok(Exclusion {
            resource: resource_of(resource),
            namespace,
            name: unless_empty(name),
        })
    }
}

fn resource_named(text: &str) -> Option<Kind>
    ensures { result ≡ spec.resource_named text.now }
{
    if text == "servicemonitors" {
        Some(Kind::ServiceMonitor)
    } else if text == "podmonitors" {
        Some(Kind::PodMonitor)
    } else if text == "probes" {
        Some(Kind::Probe)
    } else if text == "prometheusrules" {
        Some(Kind::PrometheusRule)
    } else {
        None
    }
}

// Any kind stands where none is named, which is a breach.
fn resource_of(text: Option<Text>) -> Kind
    ensures { result ≡ spec.resource_of text }
{
    match text {
        Some(text) => resource_or_any(text.as_str()),
        None => Kind::ServiceMonitor,
    }
}

fn resource_or_any(text: &str) -> Kind
    ensures { result ≡ spec.resource_of (Some text.now) }
{
    match resource_named(text) {
        Some(kind) => kind,
        None => Kind::ServiceMonitor,
    }
}
