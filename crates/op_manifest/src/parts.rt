// Fields that are read whole: those that may be absent, and those that have to stand.
ghost use Rattle.std.specs.Prelude.{◌≡◌};
ghost use Rattle.op_manifest.specs.Trees.{data_of};
ghost use Rattle.op_manifest.specs.Shapes.{Adds};
ghost use Rattle.op_manifest.specs.Checks as check;
ghost use Rattle.op_manifest.specs.Parts as part;

use crate::fields::given;
use crate::items::Item;
use crate::shape::{Shape, ShapeRule, path_to, tell};
use crate::tree::Tree;
use op_base::NoMemory;
use std::alloc::Global;

/// What the field is read as, where it is there.
#[tactic(auto, using(crate::proofs::ShapeLemmas::later_none), unfolding(crate::specs::Checks::optional, crate::specs::Parts::item_in))]
pub fn noted_item<T: Item>(
    found: &mut Option<Shape>,
    alloc: Global,
    tree: &Tree,
    name: &str,
    path: &str,
) -> Result<Option<T>, NoMemory>
    ensures { Adds (λ item. item) found.old found.new result
        (check.optional T.Item.wrongs name.now path.now (data_of tree.now))
        (part.item_in T.Item.of name.now (data_of tree.now)) }
{
    match given(tree, name) {
        Some(value) => {
            let path = path_to(alloc, path, name)?;
            Ok(Some(T::read(found, alloc, value, path.as_str())?))
        }
        None => Ok(None),
    }
}

/// What the field is read as; it has to stand.
#[tactic(auto, unfolding(crate::specs::Checks::required, crate::specs::Parts::item_in))]
pub fn required_item<T: Item>(
    found: &mut Option<Shape>,
    alloc: Global,
    tree: &Tree,
    name: &str,
    path: &str,
) -> Result<Option<T>, NoMemory>
    ensures { Adds (λ item. item) found.old found.new result
        (check.required T.Item.wrongs name.now path.now (data_of tree.now))
        (part.item_in T.Item.of name.now (data_of tree.now)) }
{
    let path = path_to(alloc, path, name)?;
    match given(tree, name) {
        Some(value) => Ok(Some(T::read(found, alloc, value, path.as_str())?)),
        None => {
            tell(found, ShapeRule::MISSING, path);
            Ok(None)
        }
    }
}
