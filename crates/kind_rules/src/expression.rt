// Expressions, which stand as a text or as a whole number.
ghost use Rattle.std.specs.Prelude.{◌≡◌, [], IfOk, unwrap_or};
ghost use Rattle.serde_json.specs.Find.{as_number};
ghost use Rattle.serde_json.specs.View.{number_view};
ghost use Rattle.op_manifest.specs.Trees.{data_of};
ghost use Rattle.op_manifest.specs.Shapes.{Adds};
ghost use Rattle.op_manifest.specs.Checks as check;
ghost use Rattle.kind_rules.specs.Expressions as spec;

use op_base::{NoMemory, Text};
use op_manifest::{Shape, ShapeRule, Tree, given, path_to, tell};
use serde_json::Number;
use std::alloc::Global;

/// The text of the field's expression; the field has to stand.
#[tactic(auto, unfolding(op_manifest::specs::Checks::required, crate::specs::Expressions::expression_in))]
pub(crate) fn needed_expression(
    found: &mut Option<Shape>,
    alloc: Global,
    tree: &Tree,
    name: &str,
    path: &str,
) -> Result<Text, NoMemory>
    ensures { Adds (λ text. text) found.old found.new result
        (check.required spec.expression name.now path.now (data_of tree.now))
        (spec.expression_in name.now (data_of tree.now)) }
{
    let path = path_to(alloc, path, name)?;
    match given(tree, name) {
        Some(value) => read_expression(found, alloc, value, path),
        None => {
            tell(found, ShapeRule::MISSING, path);
            Ok(Text::new(alloc))
        }
    }
}

#[tactic(auto, using(op_manifest::proofs::ShapeLemmas::later_none), unfolding(crate::specs::Expressions::expression))]
fn read_expression(
    found: &mut Option<Shape>,
    alloc: Global,
    tree: &Tree,
    path: Text,
) -> Result<Text, NoMemory>
    ensures { Adds (λ text. text) found.old found.new result
        (spec.expression path (data_of tree.now)) (spec.expression_of (data_of tree.now)) }
{
    match tree.as_text() {
        Some(text) => Ok(Text::from_str(alloc, text)?),
        None => read_number(found, alloc, tree, path),
    }
}

fn read_number(
    found: &mut Option<Shape>,
    alloc: Global,
    tree: &Tree,
    path: Text,
) -> Result<Text, NoMemory>
    ensures { Adds (λ text. text) found.old found.new result
        (spec.number_wrongs path (as_number (data_of tree.now))) (spec.number_written (as_number (data_of tree.now))) }
{
    match tree.as_number() {
        Some(number) => text_or_breach(found, alloc, number, path),
        None => {
            tell(found, ShapeRule::WRONG_TYPE, path);
            Ok(Text::new(alloc))
        }
    }
}

#[tactic(auto, using(op_manifest::proofs::ShapeLemmas::later_none))]
fn text_or_breach(
    found: &mut Option<Shape>,
    alloc: Global,
    number: &Number,
    path: Text,
) -> Result<Text, NoMemory>
    ensures { Adds (λ text. text) found.old found.new result
        (spec.fraction_wrongs path (spec.whole_text (number_view number.now)))
        (unwrap_or (spec.whole_text (number_view number.now)) []) }
{
    match whole_text(alloc, number)? {
        Some(text) => Ok(text),
        None => {
            tell(found, ShapeRule::BAD_NUMBER, path);
            Ok(Text::new(alloc))
        }
    }
}

fn whole_text(alloc: Global, number: &Number) -> Result<Option<Text>, NoMemory>
    ensures { IfOk result (λ text. text ≡ spec.whole_text (number_view number.now)) }
{
    match number.as_u64() {
        Some(whole) => Ok(Some(Text::from_string(format!(in alloc; "{whole}")?))),
        None => negative_text(alloc, number),
    }
}

fn negative_text(alloc: Global, number: &Number) -> Result<Option<Text>, NoMemory>
    ensures { IfOk result (λ text. text ≡ spec.signed_text (number_view number.now)) }
{
    match number.as_i64() {
        Some(whole) => Ok(Some(Text::from_string(format!(in alloc; "{whole}")?))),
        None => Ok(None),
    }
}
