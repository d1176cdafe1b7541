// Fields that may not stand.
ghost use Rattle.std.specs.Prelude.{◌≡◌, OnOk};
ghost use Rattle.op_manifest.specs.Trees.{data_of};
ghost use Rattle.op_manifest.specs.Shapes as shapes;
ghost use Rattle.kind_admin.specs.OpenTables as spec;

use op_base::NoMemory;
use op_manifest::{Shape, ShapeRule, Tree, given, path_to, tell};
use std::alloc::Global;

/// Notes the field, where it stands.
#[tactic(auto, using(op_manifest::proofs::ShapeLemmas::later_none), unfolding(crate::specs::OpenTables::barred))]
pub(crate) fn note_barred(
    found: &mut Option<Shape>,
    alloc: Global,
    tree: &Tree,
    name: &str,
    path: &str,
) -> Result<(), NoMemory>
    ensures { OnOk result (found.new ≡ shapes.later found.old (spec.barred name.now path.now (data_of tree.now))) }
{
    match given(tree, name) {
        Some(_) => {
            tell(found, ShapeRule::UNKNOWN_FIELD, path_to(alloc, path, name)?);
            Ok(())
        }
        None => Ok(()),
    }
}
