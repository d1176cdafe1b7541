// The texts of a Secret in base64, entry by entry in the order of their keys.
ghost use Rattle.std.specs.Prelude.{◌≡◌, IfOk, OnOk};
ghost use Rattle.op_manifest.specs.Trees.{data_of, members_in};
ghost use Rattle.op_manifest.specs.Shapes as shapes;
ghost use Rattle.op_manifest.specs.Checks as check;
ghost use Rattle.op_manifest.specs.Maps as maps;
ghost use Rattle.op_manifest.specs.declared.shape.TheConstants.ShapeRule as rule;
ghost use Rattle.kind_admin.specs.Secrets as spec;

use crate::decoded::decoded;
use op_base::{NoMemory, Text};
use op_manifest::{Shape, ShapeRule, Tree, given, path_to, tell};
use std::alloc::Global;

/// Notes what is wrong with the field, a map of texts in base64.
#[tactic(auto, using(op_manifest::proofs::ShapeLemmas::later_none), unfolding(op_manifest::specs::Checks::optional, op_manifest::specs::Checks::keyed))]
pub(crate) fn note_encoded(
    found: &mut Option<Shape>,
    alloc: Global,
    tree: &Tree,
    name: &str,
    path: &str,
) -> Result<(), NoMemory>
    ensures { OnOk result (found.new
        ≡ shapes.later found.old (check.optional spec.encoded name.now path.now (data_of tree.now))) }
{
    match given(tree, name) {
        Some(value) => {
            let path = path_to(alloc, path, name)?;
            match value.as_fields() {
                Some(fields) => note_entries(found, alloc, fields, path.as_str()),
                None => {
                    tell(found, ShapeRule::WRONG_TYPE, path);
                    Ok(())
                }
            }
        }
        None => Ok(()),
    }
}

fn note_entries(
    found: &mut Option<Shape>,
    alloc: Global,
    fields: &[(Text, Tree)],
    path: &str,
) -> Result<(), NoMemory>
    ensures { OnOk result (found.new ≡ shapes.later found.old
        (check.entries_wrongs maps.is_any rule.BAD_LABEL (check.worded rule.BAD_CHOICE spec.is_base64) path.now (members_in fields.now))) }
{
    for field in fields {
        note_entry(found, alloc, field.0.as_str(), &field.1, path)?;
    }
    Ok(())
}

// An entry that is null is passed over.
#[tactic(auto, using(op_manifest::proofs::ShapeLemmas::later_none))]
fn note_entry(
    found: &mut Option<Shape>,
    alloc: Global,
    key: &str,
    value: &Tree,
    path: &str,
) -> Result<(), NoMemory>
    ensures { OnOk result (found.new ≡ shapes.later found.old
        (check.entry_wrongs maps.is_any rule.BAD_LABEL (check.worded rule.BAD_CHOICE spec.is_base64) path.now key.now (data_of value.now))) }
{
    match value {
        Tree::Null => Ok(()),
        _ => note_value(found, alloc, value, path_to(alloc, path, key)?),
    }
}

#[tactic(auto, unfolding(op_manifest::specs::Checks::worded))]
fn note_value(
    found: &mut Option<Shape>,
    alloc: Global,
    value: &Tree,
    path: Text,
) -> Result<(), NoMemory>
    ensures { OnOk result (found.new ≡ shapes.later found.old
        (check.worded rule.BAD_CHOICE spec.is_base64 path (data_of value.now))) }
{
    match value.as_text() {
        Some(text) => note_text(found, alloc, text, path),
        None => {
            tell(found, ShapeRule::WRONG_TYPE, path);
            Ok(())
        }
    }
}

#[tactic(auto, using(op_manifest::proofs::ShapeLemmas::later_none))]
fn note_text(
    found: &mut Option<Shape>,
    alloc: Global,
    text: &str,
    path: Text,
) -> Result<(), NoMemory>
    ensures { OnOk result (found.new ≡ shapes.later found.old
        (shapes.unless (spec.is_base64 text.now) ShapeRule.BAD_CHOICE path)) }
{
    if !is_base64(alloc, text)? {
        tell(found, ShapeRule::BAD_CHOICE, path);
    }
    Ok(())
}

fn is_base64(alloc: Global, text: &str) -> Result<bool, NoMemory>
    ensures { IfOk result (λ is. is ≡ spec.is_base64 text.now) }
{
    Ok(decoded(alloc, text)?.is_some())
}
