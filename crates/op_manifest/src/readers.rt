// Readers of fields that stand alone: each answers what the field has, or the first breach.
ghost use Rattle.std.specs.Prelude.{◌≡◌, map, option_map, IfOk};
ghost use Rattle.op_manifest.specs.Trees.{data_of};
ghost use Rattle.op_manifest.specs.Shapes.{ReadsBy};
ghost use Rattle.op_manifest.specs.Checks as check;
ghost use Rattle.op_manifest.specs.Checks.{names_in};
ghost use Rattle.op_manifest.specs.Files as files;
ghost use Rattle.op_manifest.specs.Maps as maps;
ghost use Rattle.op_manifest.specs.Values as value;

use crate::fields::{given, noted_flag, noted_number, noted_span, noted_text};
use crate::forms::AnyText;
use crate::items::noted_items;
use crate::maps::noted_map;
use crate::shape::{Shape, ShapeFault, ShapeRule, path_to};
use crate::strays::noted_names;
use crate::tree::Tree;
use op_base::{List, NoMemory, Span, Tags, Text};
use std::alloc::Global;

/// The text of the field, where it is there.
#[tactic(auto, using(crate::proofs::ShapeLemmas::later_first))]
pub fn text_at(
    alloc: Global,
    tree: &Tree,
    name: &str,
    path: &str,
) -> Result<Option<Text>, ShapeFault>
    ensures { ReadsBy (λ text. text) result (check.optional check.text name.now path.now (data_of tree.now))
        (value.text_in name.now (data_of tree.now)) }
{
    let mut found = None;
    let text = noted_text(&mut found, alloc, tree, name, path)?;
    match found {
        Some(shape) => Err(ShapeFault::Broken(shape)),
        None => Ok(text),
    }
}

/// Whether the field is true, where it is there.
#[tactic(auto, using(crate::proofs::ShapeLemmas::later_first))]
pub fn flag_at(
    alloc: Global,
    tree: &Tree,
    name: &str,
    path: &str,
) -> Result<Option<bool>, ShapeFault>
    ensures { ReadsBy (λ flag. flag) result (check.optional check.flag name.now path.now (data_of tree.now))
        (value.flag_in name.now (data_of tree.now)) }
{
    let mut found = None;
    let flag = noted_flag(&mut found, alloc, tree, name, path)?;
    match found {
        Some(shape) => Err(ShapeFault::Broken(shape)),
        None => Ok(flag),
    }
}

/// The number of the field, where it is there: a whole one from 0 to 2^53.
#[tactic(auto, using(crate::proofs::ShapeLemmas::later_first))]
pub fn number_at(
    alloc: Global,
    tree: &Tree,
    name: &str,
    path: &str,
) -> Result<Option<u64>, ShapeFault>
    ensures { ReadsBy (λ number. number) result (check.optional check.whole name.now path.now (data_of tree.now))
        (value.number_in name.now (data_of tree.now)) }
{
    let mut found = None;
    let number = noted_number(&mut found, alloc, tree, name, path)?;
    match found {
        Some(shape) => Err(ShapeFault::Broken(shape)),
        None => Ok(number),
    }
}

/// The span of the field, where it is there; an empty text counts as absent.
#[tactic(auto, using(crate::proofs::ShapeLemmas::later_first))]
pub fn span_at(
    alloc: Global,
    tree: &Tree,
    name: &str,
    path: &str,
) -> Result<Option<Span>, ShapeFault>
    ensures { ReadsBy (λ span. span) result (check.optional check.span name.now path.now (data_of tree.now))
        (value.span_in name.now (data_of tree.now)) }
{
    let mut found = None;
    let span = noted_span(&mut found, alloc, tree, name, path)?;
    match found {
        Some(shape) => Err(ShapeFault::Broken(shape)),
        None => Ok(span),
    }
}

/// The texts of the field, where it is there.
#[tactic(auto, using(crate::proofs::ShapeLemmas::later_first))]
pub fn texts_at(
    alloc: Global,
    tree: &Tree,
    name: &str,
    path: &str,
) -> Result<Option<List<Text>>, ShapeFault>
    ensures { ReadsBy (λ texts. texts) result (check.optional (check.list check.text) name.now path.now (data_of tree.now))
        (value.items_in value.text_of name.now (data_of tree.now)) }
{
    let mut found = None;
    let texts = noted_items::<Text>(&mut found, alloc, tree, name, path)?;
    match found {
        Some(shape) => Err(ShapeFault::Broken(shape)),
        None => Ok(texts),
    }
}

/// The map of texts of the field, where it is there. An entry that is null is no entry.
#[tactic(auto, using(crate::proofs::ShapeLemmas::later_first))]
pub fn map_at(
    alloc: Global,
    tree: &Tree,
    name: &str,
    path: &str,
) -> Result<Option<Tags>, ShapeFault>
    ensures { ReadsBy (λ map. map) result (check.optional maps.texts name.now path.now (data_of tree.now))
        (maps.map_in name.now (data_of tree.now)) }
{
    let mut found = None;
    let map = noted_map::<AnyText, AnyText>(&mut found, alloc, tree, name, path)?;
    match found {
        Some(shape) => Err(ShapeFault::Broken(shape)),
        None => Ok(map),
    }
}

/// The items of the field, where it is there: equal trees.
#[tactic(auto, using(crate::proofs::FileLemmas::trees_are_items), unfolding(crate::specs::Shapes::first, crate::specs::Checks::optional, crate::specs::Files::sequence, crate::specs::Values::items_in))]
pub fn items_at(
    alloc: Global,
    tree: &Tree,
    name: &str,
    path: &str,
) -> Result<Option<List<Tree>>, ShapeFault>
    ensures { ReadsBy (λ items. option_map (λ trees. map data_of trees) items) result
        (check.optional files.sequence name.now path.now (data_of tree.now))
        (value.items_in files.same name.now (data_of tree.now)) }
{
    match given(tree, name) {
        Some(value) => match value.as_items() {
            Some(items) => Ok(Some(copies(alloc, items)?)),
            None => Err(ShapeFault::Broken(Shape {
                rule: ShapeRule::WRONG_TYPE,
                path: path_to(alloc, path, name)?,
            })),
        },
        None => Ok(None),
    }
}

fn copies(alloc: Global, trees: &[Tree]) -> Result<List<Tree>, NoMemory>
    ensures { IfOk result (λ copies. map data_of copies ≡ map data_of trees.now) }
{
    let mut copies = List::new(alloc);
    for tree in trees {
        copies.push(tree.copy(alloc)?)?;
    }
    Ok(copies)
}

/// Refuses a tree that is no object, and else the first field that isn't null and has none of the names, which stand
/// in one text with a space between two.
#[tactic(auto, using(crate::proofs::ShapeLemmas::later_first))]
pub fn known(alloc: Global, tree: &Tree, names: &str, path: &str) -> Result<(), ShapeFault>
    ensures { ReadsBy (λ done. done) result (check.known (names_in names.now) path.now (data_of tree.now)) tt }
{
    let mut found = None;
    noted_names(&mut found, alloc, tree, names, path)?;
    match found {
        Some(shape) => Err(ShapeFault::Broken(shape)),
        None => Ok(()),
    }
}
