ghost use Rattle.std.specs.Prelude.{◌≡◌, true};
ghost use Rattle.op_manifest.specs.Heads.{kind_in};
ghost use Rattle.op_manifest.specs.Shapes.{ReadsBy};
ghost use Rattle.op_manifest.specs.Trees.{data_of};
ghost use Rattle.kind_rules.specs.RuleObjects as spec;

use crate::alertmanager_config::{AlertmanagerConfigObject, read_alertmanager_config};
use crate::prometheus_rule::{PrometheusRuleObject, read_prometheus_rule};
use op_base::Kind;
use op_manifest::{ShapeFault, Tree, kind_of};
use std::alloc::Global;

/// A tenant's rules, or its routes.
#[derive(Debug, PartialEq, Eq, Drop)]
pub enum RuleObject {
    Rules(PrometheusRuleObject),
    Routes(AlertmanagerConfigObject),
}

/// Reads a manifest of one of these kinds. `Broken` tells the first rule on shape that it breaks.
pub fn read_rules(alloc: Global, tree: &Tree) -> Result<RuleObject, ShapeFault>
    requires { spec.is_rule_kind (kind_in (data_of tree.now)) ≡ true }
    ensures { ReadsBy (λ object. object) result
        (spec.rules_wrongs (kind_in (data_of tree.now)) (data_of tree.now))
        (spec.rules_of (kind_in (data_of tree.now)) (data_of tree.now)) }
{
    match kind_of(tree) {
        Some(Kind::PrometheusRule) => match read_prometheus_rule(alloc, tree) {
            Ok(rules) => Ok(RuleObject::Rules(rules)),
            Err(fault) => Err(fault),
        },
        _ => match read_alertmanager_config(alloc, tree) {
            Ok(routes) => Ok(RuleObject::Routes(routes)),
            Err(fault) => Err(fault),
        },
    }
}
