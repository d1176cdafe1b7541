// Things that stand in lists and fields, each read whole: its breaches are noted, and what it is comes out.
ghost use Rattle.std.specs.Prelude.{◌≡◌, [], unwrap_or};
ghost use Rattle.op_manifest.specs.Trees.{data_of, items_in};
ghost use Rattle.op_manifest.specs.Shapes.{Adds};
ghost use Rattle.op_manifest.specs.Shapes as shapes;
ghost use Rattle.op_manifest.specs.Checks as check;
ghost use Rattle.op_manifest.specs.Values as value;

use crate::fields::given;
use crate::shape::{Shape, ShapeRule, path_at, path_to, tell};
use crate::tree::Tree;
use op_base::{List, NoMemory, Text};
use std::alloc::Global;

/// What can be read from a value. `wrongs` is all that can be wrong with it, `of` what it is.
pub trait Item: Drop {
    ghost use Rattle.std.specs.Prelude.{List, ℕ};
    ghost use Rattle.serde_json.specs.Data.{Data};
    ghost use Rattle.op_manifest.specs.declared.shape.Shape.{Shape};

    ghost wrongs: { List ℕ → Data → List Shape };

    ghost of: { Data → Self };

    /// Reads the value at the path, and notes its first breach where none was noted before.
    fn read(
        found: &mut Option<Shape>,
        alloc: Global,
        tree: &Tree,
        path: &str,
    ) -> Result<Self, NoMemory>
        ensures { Adds (λ item. item) found.old found.new result
            (wrongs path.now (data_of tree.now)) (of (data_of tree.now)) };
}

impl Item for Text {
    ghost use Rattle.op_manifest.specs.Checks as check;
    ghost use Rattle.op_manifest.specs.Values as value;

    ghost wrongs = { check.text };

    ghost of = { value.text_of };

    #[tactic(auto, using(crate::proofs::ShapeLemmas::later_none), unfolding(crate::specs::Checks::text))]
    fn read(
        found: &mut Option<Shape>,
        alloc: Global,
        tree: &Tree,
        path: &str,
    ) -> Result<Text, NoMemory> {
        match tree.as_text() {
            Some(text) => Ok(Text::from_str(alloc, text)?),
            None => {
                tell(found, ShapeRule::WRONG_TYPE, Text::from_str(alloc, path)?);
                Ok(Text::new(alloc))
            }
        }
    }
}

/// The items of the field, where it is there.
#[tactic(auto, using(crate::proofs::ShapeLemmas::later_none), unfolding(crate::specs::Checks::optional, crate::specs::Checks::list, crate::specs::Values::items_in))]
pub fn noted_items<T: Item>(
    found: &mut Option<Shape>,
    alloc: Global,
    tree: &Tree,
    name: &str,
    path: &str,
) -> Result<Option<List<T>>, NoMemory>
    ensures { Adds (λ items. items) found.old found.new result
        (check.optional (check.list T.Item.wrongs) name.now path.now (data_of tree.now))
        (value.items_in T.Item.of name.now (data_of tree.now)) }
{
    match given(tree, name) {
        Some(list) => {
            let path = path_to(alloc, path, name)?;
            match list.as_items() {
                Some(items) => Ok(Some(read_each(found, alloc, items, path.as_str())?)),
                None => {
                    tell(found, ShapeRule::WRONG_TYPE, path);
                    Ok(None)
                }
            }
        }
        None => Ok(None),
    }
}

fn read_each<T: Item>(
    found: &mut Option<Shape>,
    alloc: Global,
    items: &[Tree],
    path: &str,
) -> Result<List<T>, NoMemory>
    ensures { Adds (λ items. items) found.old found.new result
        (check.items_from T.Item.wrongs path.now 0 (items_in items.now))
        (value.each_of T.Item.of (items_in items.now)) }
{
    let mut all = List::new(alloc);
    for index in 0..items.len() {
        let path = path_at(alloc, path, index)?;
        all.push(T::read(found, alloc, &items[index], path.as_str())?)?;
    }
    Ok(all)
}

/// The items, or none where they aren't there.
pub fn or_none<T: Drop>(alloc: Global, items: Option<List<T>>) -> List<T>
    ensures { result ≡ unwrap_or items [] }
{
    match items {
        Some(items) => items,
        None => List::new(alloc),
    }
}
