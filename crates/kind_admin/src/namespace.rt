ghost use Rattle.std.specs.Prelude.{◌≡◌, [], Some};
ghost use Rattle.op_base.specs.declared.kind.Kind.TheVariants as kind;
ghost use Rattle.op_manifest.specs.Heads.{kind_in, head_wrongs};
ghost use Rattle.op_manifest.specs.Shapes.{ReadsBy};
ghost use Rattle.op_manifest.specs.Trees.{data_of};
ghost use Rattle.kind_admin.specs.Namespaces as spec;

use op_base::{Key, Tags};
use op_manifest::{ShapeFault, Tree, noted_head};
use std::alloc::Global;

/// A Namespace object. Its labels are those of the namespace.
#[derive(Debug, PartialEq, Eq, Drop)]
pub struct Namespace {
    pub key: Key,
    pub tags: Tags,
}

/// Reads a manifest of the kind Namespace. `Broken` tells the first rule on shape that it breaks.
#[tactic(auto, using(op_manifest::proofs::ShapeLemmas::later_first))]
pub fn read_namespace(alloc: Global, tree: &Tree) -> Result<Namespace, ShapeFault>
    requires { kind_in (data_of tree.now) ≡ Some kind.Namespace }
    ensures { ReadsBy (λ namespace. namespace) result (head_wrongs [] (data_of tree.now)) (spec.namespace_of (data_of tree.now)) }
{
    let mut found = None;
    let head = noted_head(&mut found, alloc, tree)?;
    match found {
        Some(shape) => Err(ShapeFault::Broken(shape)),
        None => Ok(Namespace {
            key: head.key,
            tags: head.tags,
        }),
    }
}
