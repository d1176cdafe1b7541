ghost use Rattle.std.specs.Prelude.{◌≡◌, Some};
ghost use Rattle.op_base.specs.declared.kind.Kind.TheVariants as kind;
ghost use Rattle.op_manifest.specs.Heads.{kind_in};
ghost use Rattle.op_manifest.specs.Trees.{data_of};
ghost use Rattle.op_manifest.specs.Shapes.{Adds, ReadsBy};
ghost use Rattle.kind_rules.specs.PrometheusRules as spec;

use crate::group::RuleGroup;
use crate::prometheus_rule_spec::PrometheusRuleSpec;
use op_base::{Key, List, NoMemory, Tags, Text};
use op_manifest::{Item, Shape, ShapeFault, ShapeRule, Tree, given, noted_head, tell};
use std::alloc::Global;

/// A PrometheusRule object.
#[derive(Debug, PartialEq, Eq, Drop)]
pub struct PrometheusRuleObject {
    pub key: Key,
    pub tags: Tags,
    pub groups: List<RuleGroup>,
}

/// Reads a manifest of the kind PrometheusRule. `Broken` tells the first rule on shape that it breaks.
#[tactic(auto, using(op_manifest::proofs::ShapeLemmas::later_first))]
pub fn read_prometheus_rule(alloc: Global, tree: &Tree) -> Result<PrometheusRuleObject, ShapeFault>
    requires { kind_in (data_of tree.now) ≡ Some kind.PrometheusRule }
    ensures { ReadsBy (λ object. object) result
        (spec.prometheus_rule_wrongs (data_of tree.now)) (spec.prometheus_rule_of (data_of tree.now)) }
{
    let mut found = None;
    let object = noted_object(&mut found, alloc, tree)?;
    match found {
        Some(shape) => Err(ShapeFault::Broken(shape)),
        None => Ok(object),
    }
}

#[tactic(auto, using(op_manifest::proofs::ShapeLemmas::later_both))]
fn noted_object(
    found: &mut Option<Shape>,
    alloc: Global,
    tree: &Tree,
) -> Result<PrometheusRuleObject, NoMemory>
    ensures { Adds (λ object. object) found.old found.new result
        (spec.prometheus_rule_wrongs (data_of tree.now)) (spec.prometheus_rule_of (data_of tree.now)) }
{
    let head = noted_head(found, alloc, tree)?;
    let rules = noted_spec(found, alloc, tree)?;
    Ok(PrometheusRuleObject {
        key: head.key,
        tags: head.tags,
        groups: rules.groups,
    })
}

#[tactic(auto, unfolding(op_manifest::specs::Checks::required))]
fn noted_spec(
    found: &mut Option<Shape>,
    alloc: Global,
    tree: &Tree,
) -> Result<PrometheusRuleSpec, NoMemory>
    ensures { Adds (λ rules. rules) found.old found.new result
        (spec.spec_wrongs (data_of tree.now)) (spec.spec_of (data_of tree.now)) }
{
    match given(tree, "spec") {
        Some(rules) => PrometheusRuleSpec::read(found, alloc, rules, "spec"),
        None => {
            tell(found, ShapeRule::MISSING, Text::from_str(alloc, "spec")?);
            PrometheusRuleSpec::read(&mut None, alloc, &Tree::Null, "spec")
        }
    }
}
