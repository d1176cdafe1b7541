// Matchers and inhibition rules, as an AlertmanagerConfig writes them.
ghost use Rattle.std.specs.Prelude.{◌≡◌, None, is_some, unwrap_or};
ghost use Rattle.op_manifest.specs.Shapes.{Adds};
ghost use Rattle.op_manifest.specs.Shapes as shapes;
ghost use Rattle.op_manifest.specs.Routes as spec;

use crate::fields::{noted_flag, noted_text};
use crate::items::{Item, noted_items, or_none};
use crate::parts::{noted_item, required_item};
use crate::reference::text_or_empty;
use crate::shape::{Shape, ShapeRule, tell};
use crate::strays::noted_known;
use crate::tree::Tree;
use op_base::{List, MatchOp, Matcher, NoMemory, Text};
use std::alloc::Global;

/// An inhibition rule: an alert that the source matches mutes those that the target matches, where both agree on
/// each label of `equal`.
#[derive(Debug, PartialEq, Eq, Drop)]
pub struct InhibitRule {
    pub source_match: List<Matcher>,
    pub target_match: List<Matcher>,
    pub equal: List<Text>,
}

impl Item for InhibitRule {
    ghost use Rattle.op_manifest.specs.Checks.{table};
    ghost use Rattle.op_manifest.specs.Routes as spec;

    ghost wrongs = { table spec.inhibit_rows };

    ghost of = { spec.inhibit_of };

    fn read(
        found: &mut Option<Shape>,
        alloc: Global,
        tree: &Tree,
        path: &str,
    ) -> Result<InhibitRule, NoMemory> {
        noted_known(
            found,
            alloc,
            tree,
            &["sourceMatch", "targetMatch", "equal"],
            path,
        )?;
        let sources = noted_items::<Matcher>(found, alloc, tree, "sourceMatch", path)?;
        let targets = noted_items::<Matcher>(found, alloc, tree, "targetMatch", path)?;
        let equals = noted_items::<Text>(found, alloc, tree, "equal", path)?;
        let source_match = or_none(alloc, sources);
        let target_match = or_none(alloc, targets);
        let equal = or_none(alloc, equals);
        Ok(InhibitRule {
            source_match,
            target_match,
            equal,
        })
    }
}

impl Item for Matcher {
    ghost use Rattle.op_manifest.specs.Checks.{table};
    ghost use Rattle.op_manifest.specs.Routes as spec;

    ghost wrongs = { table spec.matcher_rows };

    ghost of = { spec.matcher_of };

    fn read(
        found: &mut Option<Shape>,
        alloc: Global,
        tree: &Tree,
        path: &str,
    ) -> Result<Matcher, NoMemory> {
        noted_known(
            found,
            alloc,
            tree,
            &["name", "value", "matchType", "regex"],
            path,
        )?;
        let given_name = required_item::<Text>(found, alloc, tree, "name", path)?;
        let given_value = noted_text(found, alloc, tree, "value", path)?;
        let given_op = noted_item::<MatchOp>(found, alloc, tree, "matchType", path)?;
        let regex = noted_flag(found, alloc, tree, "regex", path)?;
        let name = text_or_empty(alloc, given_name);
        let op = comparison_by(given_op, regex.unwrap_or(false));
        let value = text_or_empty(alloc, given_value);
        Ok(Matcher { name, op, value })
    }
}

fn comparison_by(given: Option<MatchOp>, regex: bool) -> MatchOp
    ensures { result ≡ spec.comparison_by given regex }
{
    match given {
        Some(op) => op,
        None => without_comparison(regex),
    }
}

fn without_comparison(regex: bool) -> MatchOp
    ensures { result ≡ spec.comparison_by None regex }
{
    if regex { MatchOp::Re } else { MatchOp::Eq }
}

impl Item for MatchOp {
    ghost use Rattle.op_manifest.specs.Routes as spec;

    ghost wrongs = { spec.comparison };

    ghost of = { spec.comparison_of };

    #[tactic(auto, using(crate::proofs::ShapeLemmas::later_none), unfolding(crate::specs::Checks::worded))]
    fn read(
        found: &mut Option<Shape>,
        alloc: Global,
        tree: &Tree,
        path: &str,
    ) -> Result<MatchOp, NoMemory> {
        match tree.as_text() {
            Some(word) => choose(found, alloc, comparison_named(word), path),
            None => {
                tell(found, ShapeRule::WRONG_TYPE, Text::from_str(alloc, path)?);
                Ok(MatchOp::Eq)
            }
        }
    }
}

#[tactic(auto, unfolding(crate::specs::Routes::comparison_named))]
fn comparison_named(word: &str) -> Option<MatchOp>
    ensures { result ≡ spec.comparison_named word.now }
{
    match word {
        "=" => Some(MatchOp::Eq),
        "!=" => Some(MatchOp::Ne),
        "=~" => Some(MatchOp::Re),
        "!~" => Some(MatchOp::Nr),
        _ => None,
    }
}

#[tactic(auto, using(crate::proofs::ShapeLemmas::later_none))]
fn choose(
    found: &mut Option<Shape>,
    alloc: Global,
    chosen: Option<MatchOp>,
    path: &str,
) -> Result<MatchOp, NoMemory>
    ensures { Adds (λ op. op) found.old found.new result
        (shapes.unless (is_some chosen) ShapeRule.BAD_CHOICE path.now) (unwrap_or chosen MatchOp.Eq) }
{
    match chosen {
        Some(op) => Ok(op),
        None => {
            tell(found, ShapeRule::BAD_CHOICE, Text::from_str(alloc, path)?);
            Ok(MatchOp::Eq)
        }
    }
}
