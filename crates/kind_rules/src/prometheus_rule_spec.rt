use crate::group::RuleGroup;
use op_base::{List, NoMemory};
use op_manifest::{Item, Shape, Tree, noted_items, noted_known, or_none};
use std::alloc::Global;

/// What a PrometheusRule object asks for.
#[derive(Debug, PartialEq, Eq, Drop)]
pub struct PrometheusRuleSpec {
    pub groups: List<RuleGroup>,
}

impl Item for PrometheusRuleSpec {
    ghost use Rattle.op_manifest.specs.Checks.{table};
    ghost use Rattle.kind_rules.specs.RuleTables as spec;

    ghost wrongs = { table spec.prometheus_rule_rows };

    ghost of = { spec.prometheus_rule_spec_of };

    fn read(
        found: &mut Option<Shape>,
        alloc: Global,
        tree: &Tree,
        path: &str,
    ) -> Result<PrometheusRuleSpec, NoMemory> {
        noted_known(found, alloc, tree, &["groups"], path)?;
        let groups = noted_items(found, alloc, tree, "groups", path)?;
        Ok(PrometheusRuleSpec {
            groups: or_none(alloc, groups),
        })
    }
}
