ghost use Rattle.std.specs.Prelude.{◌≡◌, Some};
ghost use Rattle.kind_admin.specs.AlertmanagerTables as spec;

use op_base::{NoMemory, Text};
use op_manifest::{Item, Shape, ShapeRule, TextForm, Tree, noted_known, noted_worded};
use std::alloc::Global;

/// Whether the routes of a tenant see the alerts of its namespace alone.
#[derive(Clone, Copy, Debug, PartialEq, Eq)]
pub enum MatcherStrategy {
    OnNamespace,
    /// `None` as it is written: they see all alerts.
    NoMatcher,
}

pub(crate) struct StrategyWord;

impl TextForm for StrategyWord {
    ghost use Rattle.op_manifest.specs.declared.shape.TheConstants.ShapeRule as rule;
    ghost use Rattle.kind_admin.specs.AlertmanagerTables as spec;

    ghost passes = { spec.is_strategy };

    ghost broken = { rule.BAD_CHOICE };

    fn passes(text: &str) -> bool {
        strategy_named(text).is_some()
    }

    fn broken() -> ShapeRule {
        ShapeRule::BAD_CHOICE
    }
}

impl Item for MatcherStrategy {
    ghost use Rattle.op_manifest.specs.Checks.{table};
    ghost use Rattle.kind_admin.specs.AlertmanagerTables as spec;

    ghost wrongs = { table spec.strategy_rows };

    ghost of = { spec.strategy_of };

    fn read(
        found: &mut Option<Shape>,
        alloc: Global,
        tree: &Tree,
        path: &str,
    ) -> Result<MatcherStrategy, NoMemory> {
        noted_known(found, alloc, tree, &["type"], path)?;
        let word = noted_worded::<StrategyWord>(found, alloc, tree, "type", path)?;
        Ok(strategy_or_default(word))
    }
}

fn strategy_named(text: &str) -> Option<MatcherStrategy>
    ensures { result ≡ spec.strategy_named text.now }
{
    if text == "OnNamespace" {
        Some(MatcherStrategy::OnNamespace)
    } else if text == "None" {
        Some(MatcherStrategy::NoMatcher)
    } else {
        None
    }
}

fn strategy_or_default(word: Option<Text>) -> MatcherStrategy
    ensures { result ≡ spec.strategy_or_default word }
{
    match word {
        Some(word) => named_or_default(word.as_str()),
        None => MatcherStrategy::OnNamespace,
    }
}

fn named_or_default(text: &str) -> MatcherStrategy
    ensures { result ≡ spec.strategy_or_default (Some text.now) }
{
    match strategy_named(text) {
        Some(strategy) => strategy,
        None => MatcherStrategy::OnNamespace,
    }
}
