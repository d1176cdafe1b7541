// Fields that have to stand, what counts as absent, and what stands for a field that is absent.
ghost use Rattle.std.specs.Prelude.{◌≡◌, [], unwrap_or, Some};
ghost use Rattle.op_manifest.specs.Trees.{data_of};
ghost use Rattle.op_manifest.specs.Shapes.{Adds};
ghost use Rattle.op_manifest.specs.Checks as check;
ghost use Rattle.op_manifest.specs.Maps as maps;
ghost use Rattle.op_manifest.specs.Values as value;
ghost use Rattle.op_manifest.specs.Optional as spec;

use crate::fields::{given, noted_flag};
use crate::forms::AnyText;
use crate::items::Item;
use crate::maps::noted_map;
use crate::shape::{Shape, ShapeRule, path_to, tell};
use crate::tree::Tree;
use op_base::{NoMemory, Span, Tags, Text};
use std::alloc::Global;

/// The text of the field, which has to stand.
#[tactic(auto, unfolding(crate::specs::Checks::required, crate::specs::Values::text_in))]
pub fn needed_text(
    found: &mut Option<Shape>,
    alloc: Global,
    tree: &Tree,
    name: &str,
    path: &str,
) -> Result<Text, NoMemory>
    ensures { Adds (λ text. text) found.old found.new result
        (check.required check.text name.now path.now (data_of tree.now))
        (unwrap_or (value.text_in name.now (data_of tree.now)) []) }
{
    let path = path_to(alloc, path, name)?;
    match given(tree, name) {
        Some(value) => <Text as Item>::read(found, alloc, value, path.as_str()),
        None => {
            tell(found, ShapeRule::MISSING, path);
            Ok(Text::new(alloc))
        }
    }
}

/// The span, unless it is 0.
pub fn above_zero(span: Option<Span>) -> Option<Span>
    ensures { result ≡ spec.above_zero span }
{
    match span {
        Some(span) => if_above_zero(span),
        None => None,
    }
}

fn if_above_zero(span: Span) -> Option<Span>
    ensures { result ≡ spec.above_zero (Some span) }
{
    if span.0 > 0 { Some(span) } else { None }
}

/// The text, unless it is empty.
pub fn unless_empty(text: Option<Text>) -> Option<Text>
    ensures { result ≡ spec.unless_empty text }
{
    match text {
        Some(text) => if_not_empty(text),
        None => None,
    }
}

fn if_not_empty(text: Text) -> Option<Text>
    ensures { result ≡ spec.unless_empty (Some text) }
{
    if text.len() == 0 { None } else { Some(text) }
}

/// Whether the field is true; it is false where it is absent.
pub fn flag_or_false(
    found: &mut Option<Shape>,
    alloc: Global,
    tree: &Tree,
    name: &str,
    path: &str,
) -> Result<bool, NoMemory>
    ensures { Adds (λ flag. flag) found.old found.new result
        (check.optional check.flag name.now path.now (data_of tree.now))
        (spec.is_set name.now (data_of tree.now)) }
{
    let flag = noted_flag(found, alloc, tree, name, path)?;
    Ok(flag.unwrap_or(false))
}

/// The map of texts of the field, or one without entries.
pub fn noted_texts(
    found: &mut Option<Shape>,
    alloc: Global,
    tree: &Tree,
    name: &str,
    path: &str,
) -> Result<Tags, NoMemory>
    ensures { Adds (λ map. map) found.old found.new result
        (check.optional maps.texts name.now path.now (data_of tree.now))
        (unwrap_or (maps.map_in name.now (data_of tree.now)) []) }
{
    match noted_map::<AnyText, AnyText>(found, alloc, tree, name, path)? {
        Some(map) => Ok(map),
        None => Ok(Tags::new(alloc)),
    }
}
