// The kind of an object that a line names.
ghost use Rattle.std.specs.Prelude.{◌≡◌, [], OnOk, codes, is_some, unwrap_or};
ghost use Rattle.op_manifest.specs.Trees.{data_of};
ghost use Rattle.op_manifest.specs.Shapes.{Adds};
ghost use Rattle.op_manifest.specs.Shapes as shapes;
ghost use Rattle.op_manifest.specs.Heads as heads;
ghost use Rattle.op_input.specs.Deletes as spec;

use op_base::{Kind, NoMemory, Text};
use op_manifest::{Shape, ShapeRule, Tree, given, tell};
use std::alloc::Global;

/// The kind. Where none is named, which is a breach, any stands.
#[tactic(auto, unfolding(op_manifest::specs::Heads::naming, op_manifest::specs::Checks::worded, op_manifest::specs::Heads::named_kind))]
pub fn noted_kind(found: &mut Option<Shape>, alloc: Global, tree: &Tree) -> Result<Kind, NoMemory>
    ensures { Adds (λ kind. kind) found.old found.new result
        (heads.naming spec.is_kind (codes "kind") [] (data_of tree.now)) (heads.kind_of (data_of tree.now)) }
{
    let path = Text::from_str(alloc, "kind")?;
    match given(tree, "kind") {
        Some(value) => match value.as_text() {
            Some(name) => Ok(kind_or_breach(found, name, path)),
            None => {
                tell(found, ShapeRule::WRONG_TYPE, path);
                Ok(Kind::ServiceMonitor)
            }
        },
        None => {
            tell(found, ShapeRule::UNKNOWN_KIND, path);
            Ok(Kind::ServiceMonitor)
        }
    }
}

#[tactic(auto, using(op_manifest::proofs::ShapeLemmas::later_none))]
fn kind_or_breach(found: &mut Option<Shape>, name: &str, path: Text) -> Kind
    ensures wrongs { found.new ≡ shapes.later found.old
        (shapes.unless (spec.is_kind name.now) ShapeRule.UNKNOWN_KIND path) }
    ensures kind { result ≡ unwrap_or (heads.kind_named name.now) Kind.ServiceMonitor }
{
    match kind_named(name) {
        Some(kind) => kind,
        None => {
            tell(found, ShapeRule::UNKNOWN_KIND, path);
            Kind::ServiceMonitor
        }
    }
}

// The kind with the name.
#[tactic(auto, unfolding(op_manifest::specs::Heads::kind_named))]
fn kind_named(name: &str) -> Option<Kind>
    ensures { result ≡ heads.kind_named name.now }
{
    kind_among(
        &[
            Kind::ServiceMonitor,
            Kind::PodMonitor,
            Kind::Probe,
            Kind::PrometheusRule,
            Kind::AlertmanagerConfig,
            Kind::Secret,
            Kind::Namespace,
            Kind::Prometheus,
            Kind::Alertmanager,
        ],
        name,
    )
}

fn kind_among(kinds: &[Kind], name: &str) -> Option<Kind>
    ensures { result ≡ heads.kind_among kinds.now name.now }
{
    for kind in kinds {
        if kind.name() == name {
            return Some(*kind);
        }
    }
    None
}
