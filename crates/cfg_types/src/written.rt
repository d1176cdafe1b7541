ghost use Rattle.std.specs.Prelude.{◌≡◌, map, IfOk, IfSome, OnOk};
ghost use Rattle.serde_json.specs.Data.{put};
ghost use Rattle.serde_json.specs.View as shown;
ghost use Rattle.op_json.specs.Json.{data_of, object_of, array_of};
ghost use Rattle.cfg_types.specs.Written as spec;

use crate::config::{Config, Group, PromPart, Rule, RuleFile};
use crate::jobs::jobs_array;
use crate::texts::{put_labels, put_span, texts_value};
use op_base::{List, NoMemory, Text};
use op_json::{push_item, put_field, put_text, text_of};
use ql_rewrite::print;
use serde_json::{Map, Value};
use std::alloc::Global;

/// The bytes of the configuration: compact JSON with the fields of each object in byte order.
/// Spans are 0 or more.
pub fn text(alloc: Global, config: &Config) -> Result<List<u8>, NoMemory>
    requires { spec.HasSpans config.now }
    ensures { IfOk result (λ bytes. bytes ≡ spec.config_text config.now) }
{
    let value = config_value(alloc, config)?;
    let bytes = text_of(alloc, &value)?;
    Ok(bytes)
}

fn config_value(alloc: Global, config: &Config) -> Result<Value, NoMemory>
    requires { spec.HasSpans config.now }
    ensures { IfOk result (λ value. shown.view value ≡ data_of (spec.config_json config.now)) }
{
    let prometheus = prometheus_value(alloc, &config.prometheus)?;
    let rules = files_value(alloc, config.rules.as_slice())?;
    let mut fields = Map::new(alloc);
    put_field(&mut fields, alloc, "alertmanager", Value::Null)?;
    put_field(&mut fields, alloc, "prometheus", prometheus)?;
    put_field(&mut fields, alloc, "rules", rules)?;
    Ok(Value::Object(fields))
}

fn prometheus_value(alloc: Global, part: &Option<PromPart>) -> Result<Value, NoMemory>
    requires { IfSome part.now spec.HasPartSpans }
    ensures { IfOk result (λ value. shown.view value ≡ data_of (spec.prometheus_json part.now)) }
{
    match part {
        Some(part) => part_value(alloc, part),
        None => Ok(Value::Null),
    }
}

fn part_value(alloc: Global, part: &PromPart) -> Result<Value, NoMemory>
    requires { spec.HasPartSpans part.now }
    ensures { IfOk result (λ value. shown.view value ≡ data_of (spec.part_json part.now)) }
{
    let global = global_value(alloc, part)?;
    let jobs = jobs_array(alloc, &part.jobs)?;
    let mut fields = Map::new(alloc);
    put_field(&mut fields, alloc, "global", global)?;
    put_field(&mut fields, alloc, "scrape_configs", jobs)?;
    Ok(Value::Object(fields))
}

fn global_value(alloc: Global, part: &PromPart) -> Result<Value, NoMemory>
    requires { spec.HasPartSpans part.now }
    ensures { IfOk result (λ value. shown.view value ≡ data_of (spec.global_json part.now)) }
{
    let labels = texts_value(alloc, &part.external_labels)?;
    let mut fields = Map::new(alloc);
    put_span(
        &mut fields,
        alloc,
        "evaluation_interval",
        part.evaluation_interval,
    )?;
    put_field(&mut fields, alloc, "external_labels", labels)?;
    put_span(&mut fields, alloc, "scrape_interval", part.scrape_interval)?;
    put_span(&mut fields, alloc, "scrape_timeout", part.scrape_timeout)?;
    Ok(Value::Object(fields))
}

fn files_value(alloc: Global, files: &[RuleFile]) -> Result<Value, NoMemory>
    ensures { IfOk result (λ value. shown.view value
        ≡ data_of (object_of (map (λ file. (spec.file_text file, spec.file_json file)) files.now))) }
{
    let mut fields = Map::new(alloc);
    for file in files {
        put_file(&mut fields, alloc, file)?;
    }
    Ok(Value::Object(fields))
}

fn put_file(fields: &mut Map<String, Value>, alloc: Global, file: &RuleFile) -> Result<(), NoMemory>
    ensures { OnOk result (shown.members_view fields.new.entries
        ≡ put (spec.file_text file.now) (data_of (spec.file_json file.now)) (shown.members_view fields.old.entries)) }
{
    let name = file_text(file)?;
    let value = file_value(alloc, file)?;
    put_field(fields, alloc, name.as_str(), value)
}

/// The name of a rule file: `NAMESPACE/NAME`.
pub fn file_text(file: &RuleFile) -> Result<Text, NoMemory>
    ensures { IfOk result (λ text. text ≡ spec.file_text file.now) }
{
    let mut text = file.namespace.clone()?;
    text.push_str("/")?;
    text.push_str(file.name.as_str())?;
    Ok(text)
}

fn file_value(alloc: Global, file: &RuleFile) -> Result<Value, NoMemory>
    ensures { IfOk result (λ value. shown.view value ≡ data_of (spec.file_json file.now)) }
{
    let groups = groups_array(alloc, &file.groups)?;
    let mut fields = Map::new(alloc);
    put_field(&mut fields, alloc, "groups", groups)?;
    Ok(Value::Object(fields))
}

fn groups_array(alloc: Global, groups: &List<Group>) -> Result<Value, NoMemory>
    ensures { IfOk result (λ value. shown.view value ≡ data_of (array_of (map spec.group_json groups.now))) }
{
    Ok(Value::Array(group_values(alloc, groups.as_slice())?))
}

fn group_values(alloc: Global, groups: &[Group]) -> Result<Vec<Value>, NoMemory>
    ensures { IfOk result (λ values. map shown.view values.items
        ≡ map (λ group. data_of (spec.group_json group)) groups.now) }
{
    let mut values = Vec::new(alloc);
    for group in groups {
        push_item(&mut values, group_value(alloc, group)?)?;
    }
    Ok(values)
}

fn group_value(alloc: Global, group: &Group) -> Result<Value, NoMemory>
    ensures { IfOk result (λ value. shown.view value ≡ data_of (spec.group_json group.now)) }
{
    let rules = rules_array(alloc, &group.rules)?;
    let mut fields = Map::new(alloc);
    put_text(&mut fields, alloc, "name", group.name.as_str())?;
    put_field(&mut fields, alloc, "rules", rules)?;
    Ok(Value::Object(fields))
}

fn rules_array(alloc: Global, rules: &List<Rule>) -> Result<Value, NoMemory>
    ensures { IfOk result (λ value. shown.view value ≡ data_of (array_of (map spec.rule_json rules.now))) }
{
    Ok(Value::Array(rule_values(alloc, rules.as_slice())?))
}

fn rule_values(alloc: Global, rules: &[Rule]) -> Result<Vec<Value>, NoMemory>
    ensures { IfOk result (λ values. map shown.view values.items
        ≡ map (λ rule. data_of (spec.rule_json rule)) rules.now) }
{
    let mut values = Vec::new(alloc);
    for rule in rules {
        push_item(&mut values, rule_value(alloc, rule)?)?;
    }
    Ok(values)
}

fn rule_value(alloc: Global, rule: &Rule) -> Result<Value, NoMemory>
    ensures { IfOk result (λ value. shown.view value ≡ data_of (spec.rule_json rule.now)) }
{
    let expr = print(alloc, &rule.expr)?;
    let mut fields = Map::new(alloc);
    put_text(&mut fields, alloc, "expr", expr.as_str())?;
    put_text(&mut fields, alloc, "record", rule.name.as_str())?;
    put_labels(&mut fields, alloc, &rule.labels)?;
    Ok(Value::Object(fields))
}
