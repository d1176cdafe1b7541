ghost use Rattle.std.specs.Prelude.{◌≡◌, option_map, true, Some, IfOk, IfSome};
ghost use Rattle.serde_json.specs.View.{view};
ghost use Rattle.op_base.specs.Names as names;
ghost use Rattle.op_thin.specs.Judged.{IsTyped};
ghost use Rattle.op_thin.specs.ThinFields.{checked};
ghost use Rattle.op_thin.specs.ThinRules as spec;

use crate::fields::{Names, names_in, object_of_kind, only_item_at, text_at, with_only};
use crate::judged::{Judged, judge};
use op_base::{NoMemory, Text, is_metric_name};
use serde_json::Value;
use std::alloc::Global;

/// A PrometheusRule object with one group of one recording rule: the text of its expression, and what
/// that comes to.
#[derive(Debug, PartialEq, Eq, Drop)]
pub struct ThinRule {
    pub namespace: Text,
    pub name: Text,
    pub group: Text,
    pub record_name: Text,
    pub expr: Text,
    pub judged: Judged,
}

/// The thin rule that the value is, or none where it has another form.
pub fn thin_rule(alloc: Global, value: &Value) -> Result<Option<ThinRule>, NoMemory>
    ensures rule { IfOk result (λ rule. rule ≡ spec.thin_rule_of (view value.now)) }
    ensures named { IfOk result (λ rule. IfSome rule (λ r. names.is_namespace r.namespace ≡ true)) }
    ensures judged { IfOk result (λ rule. IfSome rule (λ r. IsTyped r.judged)) }
{
    match parts_in(value) {
        Some((names, group)) => Ok(Some(owned_rule(alloc, names, group)?)),
        None => Ok(None),
    }
}

type GroupParts<'a> = (&'a str, (&'a str, &'a str));

fn owned_rule(alloc: Global, names: Names<'_>, group: GroupParts<'_>) -> Result<ThinRule, NoMemory>
    ensures judged { IfOk result (λ rule. IsTyped rule.judged) }
    ensures rule { IfOk result (λ rule. rule ≡ spec.rule_from (names.entry.0.now, names.entry.1.now)
        (group.entry.0.now, (group.entry.1.0.now, group.entry.1.1.now))) }
{
    let (namespace, name) = names;
    let (group, (record_name, expr)) = group;
    Ok(ThinRule {
        namespace: Text::from_str(alloc, namespace)?,
        name: Text::from_str(alloc, name)?,
        group: Text::from_str(alloc, group)?,
        record_name: Text::from_str(alloc, record_name)?,
        expr: Text::from_str(alloc, expr)?,
        judged: judge(alloc, expr)?,
    })
}

fn parts_in(value: &Value) -> Option<(Names<'_>, GroupParts<'_>)>
    ensures rule { option_map (λ parts. spec.rule_from (parts.0.0.now, parts.0.1.now)
        (parts.1.0.now, (parts.1.1.0.now, parts.1.1.1.now))) result
        ≡ spec.thin_rule_of (view value.now) }
    ensures named { IfSome result (λ parts. names.is_namespace parts.0.0.now ≡ true) }
{
    let object = object_of_kind(value, "PrometheusRule")?;
    let names = names_in(object.get("metadata")?)?;
    let group = spec_in(object.get("spec")?)?;
    Some((names, group))
}

fn spec_in(value: &Value) -> Option<GroupParts<'_>>
    ensures { option_map (λ parts. (parts.0.now, (parts.1.0.now, parts.1.1.now))) result
        ≡ spec.spec_of (view value.now) }
{
    let object = with_only(value, &["groups"])?;
    group_in(only_item_at(object, "groups")?)
}

fn group_in(value: &Value) -> Option<GroupParts<'_>>
    ensures { option_map (λ parts. (parts.0.now, (parts.1.0.now, parts.1.1.now))) result
        ≡ spec.group_of (view value.now) }
{
    let group = with_only(value, &["name", "rules"])?;
    let name = text_at(group, "name")?;
    let rule = rule_in(only_item_at(group, "rules")?)?;
    Some((name, rule))
}

fn rule_in(value: &Value) -> Option<(&str, &str)>
    ensures { option_map (λ parts. (parts.0.now, parts.1.now)) result ≡ spec.rule_of (view value.now) }
{
    let rule = with_only(value, &["expr", "record"])?;
    let record = checked_metric(text_at(rule, "record")?)?;
    let expr = text_at(rule, "expr")?;
    Some((record, expr))
}

fn checked_metric(text: &str) -> Option<&str>
    ensures { option_map (λ t. t.now) result ≡ checked names.is_metric_name (Some text.now) }
{
    if is_metric_name(text) {
        Some(text)
    } else {
        None
    }
}
