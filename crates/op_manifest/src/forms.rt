// Forms of texts, each with the rule that a text of another form breaks.
ghost use Rattle.std.specs.Prelude.{◌≡◌, IfOk, OnOk};
ghost use Rattle.serde_json.specs.Find.{as_str};
ghost use Rattle.op_manifest.specs.Trees.{data_of, items_in};
ghost use Rattle.op_manifest.specs.Shapes.{Adds};
ghost use Rattle.op_manifest.specs.Shapes as shapes;
ghost use Rattle.op_manifest.specs.Checks as check;
ghost use Rattle.op_manifest.specs.Values as value;

use crate::fields::given;
use crate::shape::{Shape, ShapeRule, path_at, path_to, tell};
use crate::tree::Tree;
use op_base::{
    List, NoMemory, Text, is_label_name, is_name, is_namespace, is_tag_key, is_tag_value,
};
use std::alloc::Global;

/// A form of texts. `passes` tells the texts that have it, `broken` the rule that the others break.
pub trait TextForm {
    ghost use Rattle.std.specs.Prelude.{List, ℕ, Bool};
    ghost use Rattle.op_manifest.specs.declared.shape.ShapeRule.{ShapeRule};

    ghost passes: { List ℕ → Bool };

    ghost broken: { ShapeRule };

    /// Whether the text has the form.
    fn passes(text: &str) -> bool
        ensures { result ≡ passes text.now };

    /// The rule that a text of another form breaks.
    fn broken() -> ShapeRule
        ensures { result ≡ broken };
}

/// Any text.
pub struct AnyText;

impl TextForm for AnyText {
    ghost use Rattle.op_manifest.specs.Maps as maps;
    ghost use Rattle.op_manifest.specs.declared.shape.TheConstants.ShapeRule as rule;

    ghost passes = { maps.is_any };

    ghost broken = { rule.BAD_LABEL };

    fn passes(_text: &str) -> bool {
        true
    }

    fn broken() -> ShapeRule {
        ShapeRule::BAD_LABEL
    }
}

/// The key of a tag.
pub struct TagKey;

impl TextForm for TagKey {
    ghost use Rattle.op_base.specs.Tags as tags;
    ghost use Rattle.op_manifest.specs.declared.shape.TheConstants.ShapeRule as rule;

    ghost passes = { tags.is_tag_key };

    ghost broken = { rule.BAD_LABEL };

    fn passes(text: &str) -> bool {
        is_tag_key(text)
    }

    fn broken() -> ShapeRule {
        ShapeRule::BAD_LABEL
    }
}

/// The value of a tag.
pub struct TagValue;

impl TextForm for TagValue {
    ghost use Rattle.op_base.specs.Tags as tags;
    ghost use Rattle.op_manifest.specs.declared.shape.TheConstants.ShapeRule as rule;

    ghost passes = { tags.is_tag_value };

    ghost broken = { rule.BAD_LABEL };

    fn passes(text: &str) -> bool {
        is_tag_value(text)
    }

    fn broken() -> ShapeRule {
        ShapeRule::BAD_LABEL
    }
}

/// The name of a label.
pub struct LabelName;

impl TextForm for LabelName {
    ghost use Rattle.op_base.specs.Names as names;
    ghost use Rattle.op_manifest.specs.declared.shape.TheConstants.ShapeRule as rule;

    ghost passes = { names.is_label_name };

    ghost broken = { rule.BAD_LABEL };

    fn passes(text: &str) -> bool {
        is_label_name(text)
    }

    fn broken() -> ShapeRule {
        ShapeRule::BAD_LABEL
    }
}

/// The name of a namespace.
pub struct NamespaceName;

impl TextForm for NamespaceName {
    ghost use Rattle.op_base.specs.Names as names;
    ghost use Rattle.op_manifest.specs.declared.shape.TheConstants.ShapeRule as rule;

    ghost passes = { names.is_namespace };

    ghost broken = { rule.BAD_NAME };

    fn passes(text: &str) -> bool {
        is_namespace(text)
    }

    fn broken() -> ShapeRule {
        ShapeRule::BAD_NAME
    }
}

/// The name of an object.
pub struct ObjectName;

impl TextForm for ObjectName {
    ghost use Rattle.op_base.specs.Names as names;
    ghost use Rattle.op_manifest.specs.declared.shape.TheConstants.ShapeRule as rule;

    ghost passes = { names.is_name };

    ghost broken = { rule.BAD_NAME };

    fn passes(text: &str) -> bool {
        is_name(text)
    }

    fn broken() -> ShapeRule {
        ShapeRule::BAD_NAME
    }
}

/// Notes what is wrong with a value that has to be a text of the form.
#[tactic(auto, unfolding(crate::specs::Checks::worded))]
pub fn note_worded<F: TextForm>(
    found: &mut Option<Shape>,
    alloc: Global,
    tree: &Tree,
    path: &str,
) -> Result<(), NoMemory>
    ensures { OnOk result (found.new ≡ shapes.later found.old (check.worded F.broken F.passes path.now (data_of tree.now))) }
{
    match tree.as_text() {
        Some(text) => tell_other_form(found, alloc, F::passes(text), F::broken(), path),
        None => {
            tell(found, ShapeRule::WRONG_TYPE, Text::from_str(alloc, path)?);
            Ok(())
        }
    }
}

// Notes the rule as broken, unless the text has the form.
#[tactic(auto, using(crate::proofs::ShapeLemmas::later_none))]
fn tell_other_form(
    found: &mut Option<Shape>,
    alloc: Global,
    passes: bool,
    rule: ShapeRule,
    path: &str,
) -> Result<(), NoMemory>
    ensures { OnOk result (found.new ≡ shapes.later found.old (shapes.unless passes rule path.now)) }
{
    if !passes {
        tell(found, rule, Text::from_str(alloc, path)?);
    }
    Ok(())
}

/// The text of the field, which has to have the form.
#[tactic(auto, using(crate::proofs::ShapeLemmas::later_none), unfolding(crate::specs::Checks::optional, crate::specs::Values::text_in))]
pub fn noted_worded<F: TextForm>(
    found: &mut Option<Shape>,
    alloc: Global,
    tree: &Tree,
    name: &str,
    path: &str,
) -> Result<Option<Text>, NoMemory>
    ensures { Adds (λ text. text) found.old found.new result
        (check.optional (check.worded F.broken F.passes) name.now path.now (data_of tree.now))
        (value.text_in name.now (data_of tree.now)) }
{
    match given(tree, name) {
        Some(value) => {
            let path = path_to(alloc, path, name)?;
            note_worded::<F>(found, alloc, value, path.as_str())?;
            owned_text(alloc, value)
        }
        None => Ok(None),
    }
}

/// The text of the field, which has to stand and to have the form.
#[tactic(auto, unfolding(crate::specs::Checks::required, crate::specs::Values::text_in))]
pub fn required_worded<F: TextForm>(
    found: &mut Option<Shape>,
    alloc: Global,
    tree: &Tree,
    name: &str,
    path: &str,
) -> Result<Option<Text>, NoMemory>
    ensures { Adds (λ text. text) found.old found.new result
        (check.required (check.worded F.broken F.passes) name.now path.now (data_of tree.now))
        (value.text_in name.now (data_of tree.now)) }
{
    let path = path_to(alloc, path, name)?;
    match given(tree, name) {
        Some(value) => {
            note_worded::<F>(found, alloc, value, path.as_str())?;
            owned_text(alloc, value)
        }
        None => {
            tell(found, ShapeRule::MISSING, path);
            Ok(None)
        }
    }
}

fn owned_text(alloc: Global, tree: &Tree) -> Result<Option<Text>, NoMemory>
    ensures { IfOk result (λ text. text ≡ as_str (data_of tree.now)) }
{
    match tree.as_text() {
        Some(text) => Ok(Some(Text::from_str(alloc, text)?)),
        None => Ok(None),
    }
}

/// The texts of the field, each of which has to have the form.
#[tactic(auto, using(crate::proofs::ShapeLemmas::later_none), unfolding(crate::specs::Checks::optional, crate::specs::Checks::list, crate::specs::Values::items_in))]
pub fn noted_worded_items<F: TextForm>(
    found: &mut Option<Shape>,
    alloc: Global,
    tree: &Tree,
    name: &str,
    path: &str,
) -> Result<Option<List<Text>>, NoMemory>
    ensures { Adds (λ texts. texts) found.old found.new result
        (check.optional (check.list (check.worded F.broken F.passes)) name.now path.now (data_of tree.now))
        (value.items_in value.text_of name.now (data_of tree.now)) }
{
    match given(tree, name) {
        Some(list) => {
            let path = path_to(alloc, path, name)?;
            match list.as_items() {
                Some(items) => Ok(Some(read_texts::<F>(found, alloc, items, path.as_str())?)),
                None => {
                    tell(found, ShapeRule::WRONG_TYPE, path);
                    Ok(None)
                }
            }
        }
        None => Ok(None),
    }
}

fn read_texts<F: TextForm>(
    found: &mut Option<Shape>,
    alloc: Global,
    items: &[Tree],
    path: &str,
) -> Result<List<Text>, NoMemory>
    ensures { Adds (λ texts. texts) found.old found.new result
        (check.items_from (check.worded F.broken F.passes) path.now 0 (items_in items.now))
        (value.each_of value.text_of (items_in items.now)) }
{
    let mut all = List::new(alloc);
    for index in 0..items.len() {
        let path = path_at(alloc, path, index)?;
        all.push(read_text::<F>(found, alloc, &items[index], path.as_str())?)?;
    }
    Ok(all)
}

fn read_text<F: TextForm>(
    found: &mut Option<Shape>,
    alloc: Global,
    tree: &Tree,
    path: &str,
) -> Result<Text, NoMemory>
    ensures { Adds (λ text. text) found.old found.new result
        (check.worded F.broken F.passes path.now (data_of tree.now)) (value.text_of (data_of tree.now)) }
{
    note_worded::<F>(found, alloc, tree, path)?;
    match tree.as_text() {
        Some(text) => Ok(Text::from_str(alloc, text)?),
        None => Ok(Text::new(alloc)),
    }
}
