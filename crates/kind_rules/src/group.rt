use crate::rule::Rule;
use op_base::{List, NoMemory, Span, Text};
use op_manifest::{
    Item, Shape, Tree, above_zero, needed_text, noted_items, noted_known, noted_span, or_none,
};
use std::alloc::Global;

/// Rules that are evaluated one after the other.
#[derive(Debug, PartialEq, Eq, Drop)]
pub struct RuleGroup {
    pub name: Text,
    /// How often they are evaluated, where that is given.
    pub interval: Option<Span>,
    pub rules: List<Rule>,
}

impl Item for RuleGroup {
    ghost use Rattle.op_manifest.specs.Checks.{table};
    ghost use Rattle.kind_rules.specs.RuleTables as spec;

    ghost wrongs = { table spec.group_rows };

    ghost of = { spec.group_of };

    fn read(
        found: &mut Option<Shape>,
        alloc: Global,
        tree: &Tree,
        path: &str,
    ) -> Result<RuleGroup, NoMemory> {
        let names = ["name", "interval", "partial_response_strategy", "rules"];
        noted_known(found, alloc, tree, &names, path)?;
        let name = needed_text(found, alloc, tree, "name", path)?;
        let interval = noted_span(found, alloc, tree, "interval", path)?;
        let rules = noted_items(found, alloc, tree, "rules", path)?;
        Ok(RuleGroup {
            name,
            interval: above_zero(interval),
            rules: or_none(alloc, rules),
        })
    }
}
