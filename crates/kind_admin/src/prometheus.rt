ghost use Rattle.std.specs.Prelude.{◌≡◌, Some};
ghost use Rattle.op_base.specs.declared.kind.Kind.TheVariants as kind;
ghost use Rattle.op_manifest.specs.Heads.{kind_in};
ghost use Rattle.op_manifest.specs.Shapes.{Adds, ReadsBy};
ghost use Rattle.op_manifest.specs.Trees.{data_of};
ghost use Rattle.kind_admin.specs.PrometheusObjects as spec;

use crate::exclusion::Exclusion;
use crate::file_access::FileAccess;
use crate::parts::{PrometheusParts, noted_parts};
use op_base::{Key, List, NoMemory, Selector, Span, Tags, Text};
use op_manifest::{Head, Shape, ShapeFault, ShapeRule, Tree, given, noted_head, tell};
use std::alloc::Global;

/// A Prometheus object: which monitors and rules it takes, and what it enforces upon tenants. A selector that is absent
/// chooses nothing, and one of namespaces that is absent the object's own.
#[derive(Debug, PartialEq, Eq, Drop)]
pub struct PrometheusSpec {
    pub key: Key,
    pub tags: Tags,
    pub service_monitor_selector: Option<Selector>,
    pub service_monitor_namespace_selector: Option<Selector>,
    pub pod_monitor_selector: Option<Selector>,
    pub pod_monitor_namespace_selector: Option<Selector>,
    pub probe_selector: Option<Selector>,
    pub probe_namespace_selector: Option<Selector>,
    pub rule_selector: Option<Selector>,
    pub rule_namespace_selector: Option<Selector>,
    pub external_labels: Tags,
    pub scrape_interval: Span,
    pub scrape_timeout: Span,
    pub evaluation_interval: Span,
    pub enforced_namespace_label: Option<Text>,
    pub enforced_label_error_on_replace: bool,
    pub ignore_namespace_selectors: bool,
    pub override_honor_labels: bool,
    /// Whether monitors may name files, where that is said.
    pub file_access: Option<FileAccess>,
    pub enforced_sample_limit: Option<u64>,
    pub excluded_from_enforcement: List<Exclusion>,
}

/// Reads a manifest of the kind Prometheus. `Broken` tells the first rule on shape that it breaks.
#[tactic(auto, using(op_manifest::proofs::ShapeLemmas::later_first))]
pub fn read_prometheus(alloc: Global, tree: &Tree) -> Result<PrometheusSpec, ShapeFault>
    requires { kind_in (data_of tree.now) ≡ Some kind.Prometheus }
    ensures { ReadsBy (λ prometheus. prometheus) result (spec.object_wrongs (data_of tree.now)) (spec.prometheus_of (data_of tree.now)) }
{
    let mut found = None;
    let prometheus = noted_object(&mut found, alloc, tree)?;
    match found {
        Some(shape) => Err(ShapeFault::Broken(shape)),
        None => Ok(prometheus),
    }
}

#[tactic(auto, using(op_manifest::proofs::ShapeLemmas::later_both))]
fn noted_object(
    found: &mut Option<Shape>,
    alloc: Global,
    tree: &Tree,
) -> Result<PrometheusSpec, NoMemory>
    ensures { Adds (λ prometheus. prometheus) found.old found.new result
        (spec.object_wrongs (data_of tree.now)) (spec.prometheus_of (data_of tree.now)) }
{
    let head = noted_head(found, alloc, tree)?;
    let parts = noted_spec(found, alloc, tree)?;
    Ok(with_parts(head, parts))
}

#[tactic(auto, unfolding(op_manifest::specs::Checks::required))]
fn noted_spec(
    found: &mut Option<Shape>,
    alloc: Global,
    tree: &Tree,
) -> Result<PrometheusParts, NoMemory>
    ensures { Adds (λ parts. parts) found.old found.new result
        (spec.spec_wrongs (data_of tree.now)) (spec.spec_parts (data_of tree.now)) }
{
    match given(tree, "spec") {
        Some(value) => noted_parts(found, alloc, value, "spec"),
        None => {
            tell(found, ShapeRule::MISSING, Text::from_str(alloc, "spec")?);
            noted_parts(&mut None, alloc, &Tree::Null, "spec")
        }
    }
}

fn with_parts(head: Head, parts: PrometheusParts) -> PrometheusSpec
    ensures { result ≡ spec.with_parts head.key head.tags parts }
{
    let selecting = parts.selecting;
    let globals = parts.globals;
    let enforcing = parts.enforcing;
    PrometheusSpec {
        key: head.key,
        tags: head.tags,
        service_monitor_selector: selecting.service_monitors.objects,
        service_monitor_namespace_selector: selecting.service_monitors.namespaces,
        pod_monitor_selector: selecting.pod_monitors.objects,
        pod_monitor_namespace_selector: selecting.pod_monitors.namespaces,
        probe_selector: selecting.probes.objects,
        probe_namespace_selector: selecting.probes.namespaces,
        rule_selector: selecting.rules.objects,
        rule_namespace_selector: selecting.rules.namespaces,
        external_labels: globals.external_labels,
        scrape_interval: globals.scrape_interval,
        scrape_timeout: globals.scrape_timeout,
        evaluation_interval: globals.evaluation_interval,
        enforced_namespace_label: enforcing.namespace_label,
        enforced_label_error_on_replace: enforcing.label_error_on_replace,
        ignore_namespace_selectors: enforcing.ignore_namespace_selectors,
        override_honor_labels: enforcing.override_honor_labels,
        file_access: enforcing.file_access,
        enforced_sample_limit: enforcing.sample_limit,
        excluded_from_enforcement: enforcing.excluded,
    }
}
