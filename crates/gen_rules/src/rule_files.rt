ghost use Rattle.std.specs.Prelude.{◌≡◌, length, map, unwrap_or, [], IfOk};
ghost use Rattle.std.specs.List.{zip};
ghost use Rattle.std.specs.Option.{option_copied};
ghost use Rattle.ql_tree.specs.Enforced.{enforced};
ghost use Rattle.gen_rules.specs.RuleFiles as spec;

use cfg_types::{Group, Rule, RuleFile};
use kind_rules::{PrometheusRuleObject, RuleGroup};
use op_base::{List, NoMemory, Tags, Text, behind};
use ql_rewrite::{EnforceFault, enforce};
use ql_tree::Expr;
use std::alloc::Global;

/// The rule file of an object whose rules record, of the trees of their expressions in the object's order. `enforced` is
/// the name of the label that is enforced upon the object, where one is; its value is the object's namespace. Alerts,
/// `for`, annotations and the interval of a group have no place in a rule file yet.
pub fn rule_file(
    alloc: Global,
    enforced: Option<&str>,
    object: &PrometheusRuleObject,
    trees: &List<Expr>,
) -> Result<RuleFile, NoMemory>
    requires trees { length trees.now ≡ spec.rule_count object.now }
    ensures file { IfOk result (λ file. file ≡ spec.rule_file_of (option_copied enforced.entry) object.now trees.now) }
    ensures whole { IfOk result (λ file. spec.file_counts file ≡ spec.rule_counts object.now) }
{
    let namespace = object.key.namespace.as_str();
    Ok(RuleFile {
        namespace: object.key.namespace.clone()?,
        name: object.key.name.clone()?,
        groups: groups_of(
            alloc,
            enforced,
            namespace,
            object.groups.as_slice(),
            trees.as_slice(),
        )?,
    })
}

fn groups_of(
    alloc: Global,
    enforced: Option<&str>,
    namespace: &str,
    groups: &[RuleGroup],
    trees: &[Expr],
) -> Result<List<Group>, NoMemory>
    ensures { IfOk result (λ made. made ≡ spec.groups_of (option_copied enforced.entry) namespace.now groups.now trees.now) }
{
    let mut made = List::new(alloc);
    let mut rest = trees;
    for group in groups {
        made.push(group_of(alloc, enforced, namespace, group, rest)?)?;
        rest = behind(rest, group.rules.len());
    }
    Ok(made)
}

fn group_of(
    alloc: Global,
    enforced: Option<&str>,
    namespace: &str,
    group: &RuleGroup,
    trees: &[Expr],
) -> Result<Group, NoMemory>
    ensures { IfOk result (λ made. made ≡ spec.group_of (option_copied enforced.entry) namespace.now group.now trees.now) }
{
    Ok(Group {
        name: group.name.clone()?,
        rules: rules_of(alloc, enforced, namespace, group.rules.as_slice(), trees)?,
    })
}

fn rules_of(
    alloc: Global,
    enforced: Option<&str>,
    namespace: &str,
    rules: &[kind_rules::Rule],
    trees: &[Expr],
) -> Result<List<Rule>, NoMemory>
    ensures { IfOk result (λ made. made ≡ map (spec.rule_of (option_copied enforced.entry) namespace.now) (zip rules.now trees.now)) }
{
    let mut made = List::new(alloc);
    for (rule, tree) in rules.iter().zip(trees) {
        made.push(rule_of(alloc, enforced, namespace, rule, tree)?)?;
    }
    Ok(made)
}

fn rule_of(
    alloc: Global,
    enforced: Option<&str>,
    namespace: &str,
    rule: &kind_rules::Rule,
    tree: &Expr,
) -> Result<Rule, NoMemory>
    ensures { IfOk result (λ made. made ≡ spec.rule_of (option_copied enforced.entry) namespace.now (rule.now, tree.now)) }
{
    Ok(Rule {
        name: text_or_empty(alloc, &rule.record_name)?,
        expr: expr_of(alloc, enforced, namespace, tree)?,
        labels: labels_of(enforced, namespace, &rule.labels)?,
    })
}

fn text_or_empty(alloc: Global, text: &Option<Text>) -> Result<Text, NoMemory>
    ensures { IfOk result (λ copy. copy ≡ unwrap_or text.now []) }
{
    match text {
        Some(text) => Ok(text.clone()?),
        None => Ok(Text::new(alloc)),
    }
}

fn expr_of(
    alloc: Global,
    enforced: Option<&str>,
    namespace: &str,
    tree: &Expr,
) -> Result<Expr, NoMemory>
    ensures { IfOk result (λ expr. expr ≡ spec.expr_of (option_copied enforced.entry) namespace.now tree.now) }
{
    match enforced {
        Some(label) => enforced_tree(alloc, tree, label, namespace),
        None => tree.copy(alloc),
    }
}

fn enforced_tree(alloc: Global, tree: &Expr, label: &str, namespace: &str) -> Result<Expr, NoMemory>
    ensures { IfOk result (λ expr. expr ≡ enforced label.now namespace.now tree.now) }
{
    match enforce(alloc, tree, label, namespace, false) {
        Ok(expr) => Ok(expr),
        Err(EnforceFault::NoMemory) => Err(NoMemory),
        Err(EnforceFault::Conflict(_)) => unreachable!(),
    }
}

fn labels_of(enforced: Option<&str>, namespace: &str, labels: &Tags) -> Result<Tags, NoMemory>
    ensures { IfOk result (λ all. all ≡ spec.labels_of (option_copied enforced.entry) namespace.now labels.now) }
{
    let mut all = labels.copy()?;
    if let Some(label) = enforced {
        all.set(label, namespace)?;
    }
    Ok(all)
}
