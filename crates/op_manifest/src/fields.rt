// Readers of fields that note the first breach, and read on.
ghost use Rattle.std.specs.Prelude.{◌≡◌, ◌≤◌, option_map, is_some, nat_le, Some, None, if◌then◌else◌, IfSome, OnOk};
ghost use Rattle.serde_json.specs.View.{number_view};
ghost use Rattle.op_manifest.specs.Trees.{data_of};
ghost use Rattle.op_manifest.specs.Shapes.{Adds};
ghost use Rattle.op_manifest.specs.Shapes as shapes;
ghost use Rattle.op_manifest.specs.Checks as check;
ghost use Rattle.op_manifest.specs.Values as value;

use crate::shape::{Shape, ShapeRule, path_to, tell};
use crate::tree::Tree;
use op_base::{LAST_MOMENT, NoMemory, Span, Text, read_span};
use serde_json::Number;
use std::alloc::Global;

/// The value of the object's field, where it isn't null.
pub fn given<'a>(tree: &'a Tree, name: &str) -> Option<&'a Tree>
    ensures { option_map (λ t. data_of t.now) result ≡ check.field name.now (data_of tree.now) }
{
    match tree.field(name) {
        Some(value) => unless_null(value),
        None => None,
    }
}

fn unless_null(tree: &Tree) -> Option<&Tree>
    ensures { option_map (λ t. data_of t.now) result ≡ check.given (data_of tree.now) }
{
    match tree {
        Tree::Null => None,
        _ => Some(tree),
    }
}

/// The text of the field.
#[tactic(auto, using(crate::proofs::ShapeLemmas::later_none), unfolding(crate::specs::Checks::optional, crate::specs::Checks::text, crate::specs::Values::text_in))]
pub fn noted_text(
    found: &mut Option<Shape>,
    alloc: Global,
    tree: &Tree,
    name: &str,
    path: &str,
) -> Result<Option<Text>, NoMemory>
    ensures { Adds (λ text. text) found.old found.new result
        (check.optional check.text name.now path.now (data_of tree.now)) (value.text_in name.now (data_of tree.now)) }
{
    match given(tree, name) {
        Some(value) => match value.as_text() {
            Some(text) => Ok(Some(Text::from_str(alloc, text)?)),
            None => {
                tell(found, ShapeRule::WRONG_TYPE, path_to(alloc, path, name)?);
                Ok(None)
            }
        },
        None => Ok(None),
    }
}

/// Whether the field is true.
#[tactic(auto, using(crate::proofs::ShapeLemmas::later_none), unfolding(crate::specs::Checks::optional, crate::specs::Checks::flag, crate::specs::Values::flag_in))]
pub fn noted_flag(
    found: &mut Option<Shape>,
    alloc: Global,
    tree: &Tree,
    name: &str,
    path: &str,
) -> Result<Option<bool>, NoMemory>
    ensures { Adds (λ flag. flag) found.old found.new result
        (check.optional check.flag name.now path.now (data_of tree.now)) (value.flag_in name.now (data_of tree.now)) }
{
    match given(tree, name) {
        Some(value) => match value.as_flag() {
            Some(flag) => Ok(Some(flag)),
            None => {
                tell(found, ShapeRule::WRONG_TYPE, path_to(alloc, path, name)?);
                Ok(None)
            }
        },
        None => Ok(None),
    }
}

/// The number of the field: a whole one from 0 to 2^53.
#[tactic(auto, using(crate::proofs::ShapeLemmas::later_none), unfolding(crate::specs::Checks::optional, crate::specs::Checks::whole, crate::specs::Values::number_in))]
pub fn noted_number(
    found: &mut Option<Shape>,
    alloc: Global,
    tree: &Tree,
    name: &str,
    path: &str,
) -> Result<Option<u64>, NoMemory>
    ensures { Adds (λ number. number) found.old found.new result
        (check.optional check.whole name.now path.now (data_of tree.now)) (value.number_in name.now (data_of tree.now)) }
{
    match given(tree, name) {
        Some(value) => match value.as_number() {
            Some(number) => number_or_breach(found, alloc, number, name, path),
            None => {
                tell(found, ShapeRule::WRONG_TYPE, path_to(alloc, path, name)?);
                Ok(None)
            }
        },
        None => Ok(None),
    }
}

fn number_or_breach(
    found: &mut Option<Shape>,
    alloc: Global,
    number: &Number,
    name: &str,
    path: &str,
) -> Result<Option<u64>, NoMemory>
    ensures { Adds (λ number. number) found.old found.new result
        (shapes.unless (is_some (check.number_within (number_view number.now))) ShapeRule.BAD_NUMBER (shapes.path_to path.now name.now))
        (check.number_within (number_view number.now)) }
{
    let whole = number_within(number);
    tell_unless(
        found,
        alloc,
        whole.is_some(),
        ShapeRule::BAD_NUMBER,
        name,
        path,
    )?;
    Ok(whole)
}

/// The number, where it is whole and from 0 to 2^53.
pub fn number_within(number: &Number) -> Option<u64>
    ensures number { result ≡ check.number_within (number_view number.now) }
    ensures within { IfSome result (λ whole. whole ≤ LAST_MOMENT) }
{
    match number.as_u64() {
        Some(whole) => up_to_the_last(whole),
        None => None,
    }
}

fn up_to_the_last(whole: u64) -> Option<u64>
    ensures number { result ≡ (if nat_le whole LAST_MOMENT then Some whole else None) }
    ensures within { IfSome result (λ n. n ≤ LAST_MOMENT) }
{
    if whole <= LAST_MOMENT {
        Some(whole)
    } else {
        None
    }
}

/// The span of the field; an empty text counts as absent.
#[tactic(auto, using(crate::proofs::ShapeLemmas::later_none), unfolding(crate::specs::Checks::optional, crate::specs::Checks::worded, crate::specs::Values::span_in))]
pub fn noted_span(
    found: &mut Option<Shape>,
    alloc: Global,
    tree: &Tree,
    name: &str,
    path: &str,
) -> Result<Option<Span>, NoMemory>
    ensures { Adds (λ span. span) found.old found.new result
        (check.optional check.span name.now path.now (data_of tree.now)) (value.span_in name.now (data_of tree.now)) }
{
    match given(tree, name) {
        Some(value) => match value.as_text() {
            Some(text) => span_or_breach(found, alloc, text, name, path),
            None => {
                tell(found, ShapeRule::WRONG_TYPE, path_to(alloc, path, name)?);
                Ok(None)
            }
        },
        None => Ok(None),
    }
}

fn span_or_breach(
    found: &mut Option<Shape>,
    alloc: Global,
    text: &str,
    name: &str,
    path: &str,
) -> Result<Option<Span>, NoMemory>
    ensures { Adds (λ span. span) found.old found.new result
        (shapes.unless (check.is_span_or_empty text.now) ShapeRule.BAD_SPAN (shapes.path_to path.now name.now))
        (value.span_of text.now) }
{
    tell_unless(
        found,
        alloc,
        is_span_or_empty(text),
        ShapeRule::BAD_SPAN,
        name,
        path,
    )?;
    Ok(span_of(text))
}

fn is_span_or_empty(text: &str) -> bool
    ensures { result ≡ check.is_span_or_empty text.now }
{
    text.is_empty() || read_span(text).is_ok()
}

fn span_of(text: &str) -> Option<Span>
    ensures { result ≡ value.span_of text.now }
{
    match read_span(text) {
        Ok(span) => Some(span),
        Err(_) => None,
    }
}

// Notes the rule as broken at the field, unless what it asks holds.
#[tactic(auto, using(crate::proofs::ShapeLemmas::later_none))]
pub(crate) fn tell_unless(
    found: &mut Option<Shape>,
    alloc: Global,
    holds: bool,
    rule: ShapeRule,
    name: &str,
    path: &str,
) -> Result<(), NoMemory>
    ensures { OnOk result (found.new
        ≡ shapes.later found.old (shapes.unless holds rule (shapes.path_to path.now name.now))) }
{
    if !holds {
        tell(found, rule, path_to(alloc, path, name)?);
    }
    Ok(())
}
