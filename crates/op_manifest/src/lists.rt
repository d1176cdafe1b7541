// Files of manifests.
ghost use Rattle.std.specs.Prelude.{◌≡◌, [], OnOk, map, option_map, option_and_then, codes};
ghost use Rattle.std.specs.Option.{option_map_or};
ghost use Rattle.serde_json.specs.Find.{as_array, get_member};
ghost use Rattle.op_manifest.specs.Trees.{data_of, items_in, members_in};
ghost use Rattle.op_manifest.specs.Shapes.{ReadsBy};
ghost use Rattle.op_manifest.specs.Shapes as shapes;
ghost use Rattle.op_manifest.specs.Checks as check;
ghost use Rattle.op_manifest.specs.Values as value;
ghost use Rattle.op_manifest.specs.Files as spec;

use crate::fields::given;
use crate::shape::{Shape, ShapeFault, ShapeRule, tell};
use crate::strays::noted_known;
use crate::tree::{Tree, tree_from};
use op_base::{List, NoMemory, Text};
use op_json::read_json;
use std::alloc::Global;
use std::cmp::Ordering;

/// The manifests of a file's bytes: the items of a List of `v1`, or the one value that they are.
#[tactic(auto, unfolding(crate::specs::Shapes::first))]
pub fn read_items(alloc: Global, bytes: &[u8]) -> Result<List<Tree>, ShapeFault>
    ensures { ReadsBy (λ trees. map data_of trees) result (spec.items_wrongs bytes.now) (spec.items_of bytes.now) }
{
    match read_json(alloc, bytes)? {
        Some(value) => items_of(alloc, tree_from(alloc, &value)?),
        None => Err(ShapeFault::Broken(Shape {
            rule: ShapeRule::NOT_JSON,
            path: Text::new(alloc),
        })),
    }
}

#[tactic(auto, unfolding(crate::specs::Shapes::first))]
fn items_of(alloc: Global, tree: Tree) -> Result<List<Tree>, ShapeFault>
    ensures { ReadsBy (λ trees. map data_of trees) result (spec.file_wrongs (data_of tree)) (spec.file_items (data_of tree)) }
{
    if is_list(&tree) {
        listed(alloc, tree)
    } else {
        let mut one = List::new(alloc);
        one.push(tree)?;
        Ok(one)
    }
}

#[tactic(auto, using(crate::proofs::ShapeLemmas::later_first))]
fn listed(alloc: Global, tree: Tree) -> Result<List<Tree>, ShapeFault>
    ensures { ReadsBy (λ trees. map data_of trees) result (check.table spec.list_rows [] (data_of tree)) (spec.listed (data_of tree)) }
{
    let mut found = None;
    note_list(&mut found, alloc, &tree)?;
    match found {
        Some(shape) => Err(ShapeFault::Broken(shape)),
        None => Ok(items_out(alloc, tree)),
    }
}

fn note_list(found: &mut Option<Shape>, alloc: Global, tree: &Tree) -> Result<(), NoMemory>
    ensures { OnOk result (found.new ≡ shapes.later found.old (check.table spec.list_rows [] (data_of tree.now))) }
{
    let names = ["apiVersion", "kind", "metadata", "items"];
    noted_known(found, alloc, tree, &names, "")?;
    note_items(found, alloc, tree)
}

#[tactic(auto, using(crate::proofs::ShapeLemmas::later_none), unfolding(crate::specs::Checks::required, crate::specs::Files::sequence))]
fn note_items(found: &mut Option<Shape>, alloc: Global, tree: &Tree) -> Result<(), NoMemory>
    ensures { OnOk result (found.new ≡ shapes.later found.old (check.required spec.sequence (codes "items") [] (data_of tree.now))) }
{
    match given(tree, "items") {
        Some(value) => match value.as_items() {
            Some(_) => Ok(()),
            None => {
                tell(
                    found,
                    ShapeRule::WRONG_TYPE,
                    Text::from_str(alloc, "items")?,
                );
                Ok(())
            }
        },
        None => {
            tell(found, ShapeRule::MISSING, Text::from_str(alloc, "items")?);
            Ok(())
        }
    }
}

#[tactic(auto, unfolding(crate::specs::Files::is_list))]
fn is_list(tree: &Tree) -> bool
    ensures { result ≡ spec.is_list (data_of tree.now) }
{
    has_text(tree, "kind", "List") && has_text(tree, "apiVersion", "v1")
}

fn has_text(tree: &Tree, name: &str, text: &str) -> bool
    ensures { result ≡ spec.has_text name.now text.now (data_of tree.now) }
{
    match given(tree, name) {
        Some(value) => match value.as_text() {
            Some(other) => other == text,
            None => false,
        },
        None => false,
    }
}

// The items, taken out of the tree.
#[tactic(auto, unfolding(crate::specs::Files::listed))]
fn items_out(alloc: Global, tree: Tree) -> List<Tree>
    ensures { map data_of result ≡ spec.listed (data_of tree) }
{
    match tree {
        Tree::Fields(fields) => items_field(alloc, fields),
        _ => List::new(alloc),
    }
}

fn items_field(alloc: Global, fields: List<(Text, Tree)>) -> List<Tree>
    ensures { map data_of result ≡ option_map_or (value.each_of spec.same)
        (option_and_then as_array (option_and_then check.given (get_member (codes "items") (members_in fields)))) [] }
{
    for (name, value) in fields.into_vec() {
        match "items".cmp(name.as_str()) {
            Ordering::Equal => return trees_of(alloc, value),
            _ => {}
        }
    }
    List::new(alloc)
}

#[tactic(auto, using(crate::proofs::FileLemmas::trees_are_items))]
fn trees_of(alloc: Global, tree: Tree) -> List<Tree>
    ensures { map data_of result ≡ option_map_or (value.each_of spec.same) (option_and_then as_array (check.given (data_of tree))) [] }
{
    match tree {
        Tree::Items(items) => items,
        _ => List::new(alloc),
    }
}
