// Fields that have to stand. Where one is absent, which is a breach, it is read as null.
ghost use Rattle.std.specs.Prelude.{◌≡◌, [], unwrap_or};
ghost use Rattle.op_manifest.specs.Trees.{data_of};
ghost use Rattle.op_manifest.specs.Shapes.{Adds};
ghost use Rattle.op_manifest.specs.Checks as check;
ghost use Rattle.op_manifest.specs.References as references;
ghost use Rattle.op_manifest.specs.Values as value;
ghost use Rattle.kind_scrape.specs.Needed as spec;

use op_base::{List, NoMemory, Text};
use op_manifest::{
    Item, SecretRef, Shape, ShapeRule, Tree, given, noted_items, noted_text, or_none, path_to,
    required_reference, tell,
};
use std::alloc::Global;

/// What the field is read as.
#[tactic(auto, unfolding(op_manifest::specs::Checks::required, crate::specs::Needed::needed_in))]
pub(crate) fn needed_item<T: Item>(
    found: &mut Option<Shape>,
    alloc: Global,
    tree: &Tree,
    name: &str,
    path: &str,
) -> Result<T, NoMemory>
    ensures { Adds (λ item. item) found.old found.new result
        (check.required T.Item.wrongs name.now path.now (data_of tree.now))
        (spec.needed_in T.Item.of name.now (data_of tree.now)) }
{
    let path = path_to(alloc, path, name)?;
    match given(tree, name) {
        Some(value) => T::read(found, alloc, value, path.as_str()),
        None => {
            tell(found, ShapeRule::MISSING, path);
            T::read(&mut None, alloc, &Tree::Null, "")
        }
    }
}

/// The items of the field.
#[tactic(auto, unfolding(op_manifest::specs::Checks::required, op_manifest::specs::Checks::optional, op_manifest::specs::Values::items_in))]
pub(crate) fn needed_items<T: Item>(
    found: &mut Option<Shape>,
    alloc: Global,
    tree: &Tree,
    name: &str,
    path: &str,
) -> Result<List<T>, NoMemory>
    ensures { Adds (λ items. items) found.old found.new result
        (check.required (check.list T.Item.wrongs) name.now path.now (data_of tree.now))
        (unwrap_or (value.items_in T.Item.of name.now (data_of tree.now)) []) }
{
    match given(tree, name) {
        Some(_) => {
            let items = noted_items(found, alloc, tree, name, path)?;
            Ok(or_none(alloc, items))
        }
        None => {
            tell(found, ShapeRule::MISSING, path_to(alloc, path, name)?);
            Ok(List::new(alloc))
        }
    }
}

/// The reference of the field.
pub(crate) fn needed_reference(
    found: &mut Option<Shape>,
    alloc: Global,
    tree: &Tree,
    name: &str,
    path: &str,
) -> Result<SecretRef, NoMemory>
    ensures { Adds (λ reference. reference) found.old found.new result
        (references.required_reference name.now path.now (data_of tree.now))
        (spec.reference_or_empty (references.reference_in name.now (data_of tree.now))) }
{
    match required_reference(found, alloc, tree, name, path)? {
        Some(reference) => Ok(reference),
        None => Ok(SecretRef {
            name: Text::new(alloc),
            key: Text::new(alloc),
        }),
    }
}

/// The text of a field that may be absent, or the default.
pub(crate) fn text_or(
    found: &mut Option<Shape>,
    alloc: Global,
    tree: &Tree,
    name: &str,
    path: &str,
    default: &str,
) -> Result<Text, NoMemory>
    ensures { Adds (λ text. text) found.old found.new result
        (check.optional check.text name.now path.now (data_of tree.now))
        (unwrap_or (value.text_in name.now (data_of tree.now)) default.now) }
{
    match noted_text(found, alloc, tree, name, path)? {
        Some(text) => Ok(text),
        None => Text::from_str(alloc, default),
    }
}
