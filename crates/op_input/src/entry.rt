// One discovered entry.
ghost use Rattle.std.specs.Prelude.{◌≡◌, [], Some, codes, unwrap_or};
ghost use Rattle.op_manifest.specs.Trees.{data_of};
ghost use Rattle.op_manifest.specs.Shapes.{Adds};
ghost use Rattle.op_manifest.specs.Checks as check;
ghost use Rattle.op_manifest.specs.Maps as maps;
ghost use Rattle.op_input.specs.Targets as spec;

use crate::texts::text_or_empty;
use op_base::{NoMemory, Tags, Text};
use op_manifest::{
    Shape, ShapeRule, TagKey, TagValue, TextForm, Tree, noted_known, noted_map, noted_text,
    required_worded,
};
use srv_scrape::{Found, Role};
use std::alloc::Global;

struct RoleWord;

impl TextForm for RoleWord {
    ghost use Rattle.op_manifest.specs.declared.shape.TheConstants.ShapeRule as rule;
    ghost use Rattle.op_input.specs.Targets as spec;

    ghost passes = { spec.is_role };

    ghost broken = { rule.BAD_CHOICE };

    fn passes(text: &str) -> bool {
        role_named(text).is_some()
    }

    fn broken() -> ShapeRule {
        ShapeRule::BAD_CHOICE
    }
}

// A text that isn't empty.
struct Filled;

impl TextForm for Filled {
    ghost use Rattle.op_manifest.specs.declared.shape.TheConstants.ShapeRule as rule;
    ghost use Rattle.op_input.specs.Targets as spec;

    ghost passes = { spec.is_filled };

    ghost broken = { rule.MISSING };

    fn passes(text: &str) -> bool {
        !text.is_empty()
    }

    fn broken() -> ShapeRule {
        ShapeRule::MISSING
    }
}

/// The entry that the value is.
pub fn noted_entry(
    found: &mut Option<Shape>,
    alloc: Global,
    tree: &Tree,
    path: &str,
) -> Result<Found, NoMemory>
    ensures { Adds (λ entry. entry) found.old found.new result
        (spec.entry path.now (data_of tree.now)) (spec.entry_of (data_of tree.now)) }
{
    let names = ["role", "name", "address", "labels", "port", "pod"];
    noted_known(found, alloc, tree, &names, path)?;
    let role = required_worded::<RoleWord>(found, alloc, tree, "role", path)?;
    let name = filled_text(found, alloc, tree, "name", path)?;
    let address = filled_text(found, alloc, tree, "address", path)?;
    let tags = noted_tags(found, alloc, tree, path)?;
    let port = text_of(found, alloc, tree, "port", path)?;
    let pod = text_of(found, alloc, tree, "pod", path)?;
    Ok(Found {
        role: role_of(role),
        name,
        tags,
        address,
        port,
        pod,
    })
}

fn role_named(text: &str) -> Option<Role>
    ensures { result ≡ spec.role_named text.now }
{
    if text == "endpoints" {
        Some(Role::Endpoints)
    } else if text == "pod" {
        Some(Role::Pod)
    } else {
        None
    }
}

// Any role stands where none is named, which is a breach.
fn role_of(text: Option<Text>) -> Role
    ensures { result ≡ spec.role_of text }
{
    match text {
        Some(text) => role_or_any(text.as_str()),
        None => Role::Endpoints,
    }
}

fn role_or_any(text: &str) -> Role
    ensures { result ≡ spec.role_of (Some text.now) }
{
    match role_named(text) {
        Some(role) => role,
        None => Role::Endpoints,
    }
}

fn filled_text(
    found: &mut Option<Shape>,
    alloc: Global,
    tree: &Tree,
    name: &str,
    path: &str,
) -> Result<Text, NoMemory>
    ensures { Adds (λ text. text) found.old found.new result
        (check.required spec.filled name.now path.now (data_of tree.now))
        (spec.text_or_empty name.now (data_of tree.now)) }
{
    let text = required_worded::<Filled>(found, alloc, tree, name, path)?;
    Ok(text_or_empty(alloc, text))
}

fn text_of(
    found: &mut Option<Shape>,
    alloc: Global,
    tree: &Tree,
    name: &str,
    path: &str,
) -> Result<Text, NoMemory>
    ensures { Adds (λ text. text) found.old found.new result
        (check.optional check.text name.now path.now (data_of tree.now))
        (spec.text_or_empty name.now (data_of tree.now)) }
{
    let text = noted_text(found, alloc, tree, name, path)?;
    Ok(text_or_empty(alloc, text))
}

fn noted_tags(
    found: &mut Option<Shape>,
    alloc: Global,
    tree: &Tree,
    path: &str,
) -> Result<Tags, NoMemory>
    ensures { Adds (λ tags. tags) found.old found.new result
        (check.optional maps.tags (codes "labels") path.now (data_of tree.now))
        (unwrap_or (maps.map_in (codes "labels") (data_of tree.now)) []) }
{
    match noted_map::<TagKey, TagValue>(found, alloc, tree, "labels", path)? {
        Some(tags) => Ok(tags),
        None => Ok(Tags::new(alloc)),
    }
}
