ghost use Rattle.std.specs.Prelude.{◌≡◌, Some};
ghost use Rattle.op_base.specs.declared.kind.Kind.TheVariants as kind;
ghost use Rattle.op_manifest.specs.Heads.{kind_in};
ghost use Rattle.op_manifest.specs.Shapes.{Adds, ReadsBy};
ghost use Rattle.op_manifest.specs.Trees.{data_of};
ghost use Rattle.kind_scrape.specs.ScrapeObjects as spec;

use crate::needed::needed_item;
use crate::pod_monitor_spec::PodMonitorSpec;
use op_base::{Key, NoMemory, Tags};
use op_manifest::{Shape, ShapeFault, Tree, noted_head};
use std::alloc::Global;

/// A PodMonitor object.
#[derive(Debug, PartialEq, Eq, Drop)]
pub struct PodMonitorObject {
    pub key: Key,
    pub tags: Tags,
    pub spec: PodMonitorSpec,
}

/// Reads a manifest of the kind PodMonitor. `Broken` tells the first rule on shape that it breaks.
#[tactic(auto, using(op_manifest::proofs::ShapeLemmas::later_first))]
pub fn read_pod_monitor(alloc: Global, tree: &Tree) -> Result<PodMonitorObject, ShapeFault>
    requires { kind_in (data_of tree.now) ≡ Some kind.PodMonitor }
    ensures { ReadsBy (λ object. object) result
        (spec.pod_monitor_wrongs (data_of tree.now)) (spec.pod_monitor_of (data_of tree.now)) }
{
    let mut found = None;
    let object = noted_object(&mut found, alloc, tree)?;
    match found {
        Some(shape) => Err(ShapeFault::Broken(shape)),
        None => Ok(object),
    }
}

#[tactic(auto, using(op_manifest::proofs::ShapeLemmas::later_both))]
fn noted_object(
    found: &mut Option<Shape>,
    alloc: Global,
    tree: &Tree,
) -> Result<PodMonitorObject, NoMemory>
    ensures { Adds (λ object. object) found.old found.new result
        (spec.pod_monitor_wrongs (data_of tree.now)) (spec.pod_monitor_of (data_of tree.now)) }
{
    let head = noted_head(found, alloc, tree)?;
    let wanted = needed_item::<PodMonitorSpec>(found, alloc, tree, "spec", "")?;
    Ok(PodMonitorObject {
        key: head.key,
        tags: head.tags,
        spec: wanted,
    })
}
