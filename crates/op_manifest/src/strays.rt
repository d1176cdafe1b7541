// The fields that an object may have.
ghost use Rattle.std.specs.Prelude.{◌≡◌, map, OnOk};
ghost use Rattle.std.specs.List.{list_any};
ghost use Rattle.op_json.specs.Reading as reading;
ghost use Rattle.op_manifest.specs.Trees.{data_of, members_in};
ghost use Rattle.op_manifest.specs.Shapes as shapes;
ghost use Rattle.op_manifest.specs.Checks as check;

use crate::fields::tell_unless;
use crate::shape::{Shape, ShapeRule, tell};
use crate::tree::Tree;
use op_base::{NoMemory, Text};
use std::alloc::Global;

/// Notes a tree that is no object, and each field that isn't null and has none of the names.
#[tactic(auto, unfolding(crate::specs::Checks::known))]
pub fn noted_known(
    found: &mut Option<Shape>,
    alloc: Global,
    tree: &Tree,
    names: &[&str],
    path: &str,
) -> Result<(), NoMemory>
    ensures { OnOk result (found.new ≡ shapes.later found.old
        (check.known (map (λ name. name.now) names.now) path.now (data_of tree.now))) }
{
    match tree.as_fields() {
        Some(fields) => note_strays(found, alloc, fields, names, path),
        None => {
            tell(found, ShapeRule::WRONG_TYPE, Text::from_str(alloc, path)?);
            Ok(())
        }
    }
}

fn note_strays(
    found: &mut Option<Shape>,
    alloc: Global,
    fields: &[(Text, Tree)],
    names: &[&str],
    path: &str,
) -> Result<(), NoMemory>
    ensures { OnOk result (found.new ≡ shapes.later found.old
        (check.strays (map (λ name. name.now) names.now) path.now (members_in fields.now))) }
{
    for field in fields {
        let name = field.0.as_str();
        let may_stand = may_stand(name, &field.1, names);
        tell_unless(
            found,
            alloc,
            may_stand,
            ShapeRule::UNKNOWN_FIELD,
            name,
            path,
        )?;
    }
    Ok(())
}

fn may_stand(name: &str, value: &Tree, names: &[&str]) -> bool
    ensures { result ≡ reading.may_stand (map (λ name. name.now) names.now) name.now (data_of value.now) }
{
    is_null(value) || is_among(name, names)
}

/// Whether the tree is null, which counts as absent.
pub fn is_null(tree: &Tree) -> bool
    ensures { result ≡ reading.is_null (data_of tree.now) }
{
    match tree {
        Tree::Null => true,
        _ => false,
    }
}

fn is_among(name: &str, names: &[&str]) -> bool
    ensures { result ≡ list_any (λ one. reading.is_text name.now one.now) names.now }
{
    names.iter().any(|one| name == *one)
}

// The same with the names in one text.
#[tactic(auto, unfolding(crate::specs::Checks::known))]
pub(crate) fn noted_names(
    found: &mut Option<Shape>,
    alloc: Global,
    tree: &Tree,
    names: &str,
    path: &str,
) -> Result<(), NoMemory>
    ensures { OnOk result (found.new ≡ shapes.later found.old
        (check.known (check.names_in names.now) path.now (data_of tree.now))) }
{
    match tree.as_fields() {
        Some(fields) => note_others(found, alloc, fields, names, path),
        None => {
            tell(found, ShapeRule::WRONG_TYPE, Text::from_str(alloc, path)?);
            Ok(())
        }
    }
}

fn note_others(
    found: &mut Option<Shape>,
    alloc: Global,
    fields: &[(Text, Tree)],
    names: &str,
    path: &str,
) -> Result<(), NoMemory>
    ensures { OnOk result (found.new ≡ shapes.later found.old
        (check.strays (check.names_in names.now) path.now (members_in fields.now))) }
{
    for field in fields {
        let name = field.0.as_str();
        let may_stand = may_stand_in(name, &field.1, names);
        tell_unless(
            found,
            alloc,
            may_stand,
            ShapeRule::UNKNOWN_FIELD,
            name,
            path,
        )?;
    }
    Ok(())
}

fn may_stand_in(name: &str, value: &Tree, names: &str) -> bool
    ensures { result ≡ reading.may_stand (check.names_in names.now) name.now (data_of value.now) }
{
    is_null(value) || is_in(name, names)
}

fn is_in(name: &str, names: &str) -> bool
    ensures { result ≡ list_any (reading.is_text name.now) (check.names_in names.now) }
{
    is_one_of(name.as_bytes(), names.as_bytes())
}

fn is_one_of(name: &[u8], names: &[u8]) -> bool
    ensures { result ≡ list_any (reading.is_text name.now) (check.names_in names.now) }
{
    names.split(|b| *b == b' ').any(|one| name == one)
}
