ghost use Rattle.std.specs.Prelude.{◌≡◌, [], Some, unwrap_or};
ghost use Rattle.op_manifest.specs.Trees.{data_of};
ghost use Rattle.op_manifest.specs.Shapes.{Adds, ReadsBy};
ghost use Rattle.op_manifest.specs.Checks as check;
ghost use Rattle.op_manifest.specs.References as spec;

use crate::fields::{given, noted_text, tell_unless};
use crate::shape::{Shape, ShapeFault, ShapeRule, path_to};
use crate::strays::noted_known;
use crate::tree::Tree;
use op_base::{NoMemory, Text};
use std::alloc::Global;

/// A key of a Secret, which is of the object's namespace.
#[derive(Clone, Debug, PartialEq, Eq, Drop)]
pub struct SecretRef {
    pub name: Text,
    pub key: Text,
}

/// The reference of the field. One without a name, or with an empty one, counts as absent; without a key it has the
/// empty key.
#[tactic(auto, using(crate::proofs::ShapeLemmas::later_none), unfolding(crate::specs::Checks::optional, crate::specs::References::reference_in))]
pub fn noted_reference(
    found: &mut Option<Shape>,
    alloc: Global,
    tree: &Tree,
    name: &str,
    path: &str,
) -> Result<Option<SecretRef>, NoMemory>
    ensures { Adds (λ reference. reference) found.old found.new result
        (check.optional spec.reference name.now path.now (data_of tree.now)) (spec.reference_in name.now (data_of tree.now)) }
{
    match given(tree, name) {
        Some(value) => {
            let path = path_to(alloc, path, name)?;
            read_reference(found, alloc, value, path.as_str())
        }
        None => Ok(None),
    }
}

/// The reference of a field that has to hold one.
#[tactic(auto, using(crate::proofs::ShapeLemmas::later_both), unfolding(crate::specs::References::required_reference))]
pub fn required_reference(
    found: &mut Option<Shape>,
    alloc: Global,
    tree: &Tree,
    name: &str,
    path: &str,
) -> Result<Option<SecretRef>, NoMemory>
    ensures { Adds (λ reference. reference) found.old found.new result
        (spec.required_reference name.now path.now (data_of tree.now)) (spec.reference_in name.now (data_of tree.now)) }
{
    let reference = noted_reference(found, alloc, tree, name, path)?;
    tell_unless(
        found,
        alloc,
        reference.is_some(),
        ShapeRule::MISSING,
        name,
        path,
    )?;
    Ok(reference)
}

/// The reference of the field, alone: `Broken` tells the first rule that it breaks.
#[tactic(auto, using(crate::proofs::ShapeLemmas::later_first))]
pub fn secret_at(
    alloc: Global,
    tree: &Tree,
    name: &str,
    path: &str,
) -> Result<Option<SecretRef>, ShapeFault>
    ensures { ReadsBy (λ reference. reference) result
        (check.optional spec.reference name.now path.now (data_of tree.now)) (spec.reference_in name.now (data_of tree.now)) }
{
    let mut found = None;
    let reference = noted_reference(&mut found, alloc, tree, name, path)?;
    match found {
        Some(shape) => Err(ShapeFault::Broken(shape)),
        None => Ok(reference),
    }
}

fn read_reference(
    found: &mut Option<Shape>,
    alloc: Global,
    tree: &Tree,
    path: &str,
) -> Result<Option<SecretRef>, NoMemory>
    ensures { Adds (λ reference. reference) found.old found.new result
        (spec.reference path.now (data_of tree.now)) (spec.reference_of (data_of tree.now)) }
{
    noted_known(found, alloc, tree, &["name", "key", "optional"], path)?;
    let name = noted_text(found, alloc, tree, "name", path)?;
    let key = noted_text(found, alloc, tree, "key", path)?;
    Ok(named(alloc, name, key))
}

fn named(alloc: Global, name: Option<Text>, key: Option<Text>) -> Option<SecretRef>
    ensures { result ≡ spec.named name key }
{
    match name {
        Some(name) => with_name(alloc, name, key),
        None => None,
    }
}

fn with_name(alloc: Global, name: Text, key: Option<Text>) -> Option<SecretRef>
    ensures { result ≡ spec.named (Some name) key }
{
    if name.len() == 0 {
        None
    } else {
        Some(SecretRef {
            name,
            key: text_or_empty(alloc, key),
        })
    }
}

/// The text, or the empty one.
pub(crate) fn text_or_empty(alloc: Global, text: Option<Text>) -> Text
    ensures { result ≡ unwrap_or text [] }
{
    match text {
        Some(text) => text,
        None => Text::new(alloc),
    }
}
