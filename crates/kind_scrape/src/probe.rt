ghost use Rattle.std.specs.Prelude.{◌≡◌, Some};
ghost use Rattle.op_base.specs.declared.kind.Kind.TheVariants as kind;
ghost use Rattle.op_manifest.specs.Heads.{kind_in};
ghost use Rattle.op_manifest.specs.Shapes.{Adds, ReadsBy};
ghost use Rattle.op_manifest.specs.Trees.{data_of};
ghost use Rattle.kind_scrape.specs.ScrapeObjects as spec;

use crate::needed::needed_item;
use crate::probe_spec::ProbeSpec;
use op_base::{Key, NoMemory, Tags};
use op_manifest::{Shape, ShapeFault, Tree, noted_head};
use std::alloc::Global;

/// A Probe object.
#[derive(Debug, PartialEq, Eq, Drop)]
pub struct ProbeObject {
    pub key: Key,
    pub tags: Tags,
    pub spec: ProbeSpec,
}

/// Reads a manifest of the kind Probe. `Broken` tells the first rule on shape that it breaks.
#[tactic(auto, using(op_manifest::proofs::ShapeLemmas::later_first))]
pub fn read_probe(alloc: Global, tree: &Tree) -> Result<ProbeObject, ShapeFault>
    requires { kind_in (data_of tree.now) ≡ Some kind.Probe }
    ensures { ReadsBy (λ object. object) result
        (spec.probe_wrongs (data_of tree.now)) (spec.probe_of (data_of tree.now)) }
{
    let mut found = None;
    let object = noted_object(&mut found, alloc, tree)?;
    match found {
        Some(shape) => Err(ShapeFault::Broken(shape)),
        None => Ok(object),
    }
}

#[tactic(auto, using(op_manifest::proofs::ShapeLemmas::later_both))]
fn noted_object(
    found: &mut Option<Shape>,
    alloc: Global,
    tree: &Tree,
) -> Result<ProbeObject, NoMemory>
    ensures { Adds (λ object. object) found.old found.new result
        (spec.probe_wrongs (data_of tree.now)) (spec.probe_of (data_of tree.now)) }
{
    let head = noted_head(found, alloc, tree)?;
    let wanted = needed_item::<ProbeSpec>(found, alloc, tree, "spec", "")?;
    Ok(ProbeObject {
        key: head.key,
        tags: head.tags,
        spec: wanted,
    })
}
