ghost use Rattle.std.specs.Prelude.{◌≡◌, map, IfOk, OnOk};
ghost use Rattle.serde_json.specs.View as shown;
ghost use Rattle.op_json.specs.Json.{data_of, array_of, members_after, fields_of};
ghost use Rattle.cfg_types.specs.Steps as spec;

use crate::texts::{put_list, put_text_unless};
use op_base::NoMemory;
use op_json::{push_item, put_field, put_text};
use op_relabel::{Action, CheckedSteps, Step};
use serde_json::{Map, Value};
use std::alloc::Global;

// Puts the steps as a field, where there are any.
pub(crate) fn put_steps(
    fields: &mut Map<String, Value>,
    alloc: Global,
    name: &str,
    steps: &CheckedSteps,
) -> Result<(), NoMemory>
    ensures { OnOk result (shown.members_view fields.new.entries
        ≡ members_after (shown.members_view fields.old.entries) (fields_of (spec.steps_field name.now steps.now))) }
{
    if steps.is_empty() {
        return Ok(());
    }
    let value = steps_array(alloc, steps)?;
    put_field(fields, alloc, name, value)
}

fn steps_array(alloc: Global, steps: &CheckedSteps) -> Result<Value, NoMemory>
    ensures { IfOk result (λ value. shown.view value ≡ data_of (array_of (map spec.step_json steps.now))) }
{
    Ok(Value::Array(step_values(alloc, steps.as_slice())?))
}

fn step_values(alloc: Global, steps: &[Step]) -> Result<Vec<Value>, NoMemory>
    ensures { IfOk result (λ values. map shown.view values.items
        ≡ map (λ step. data_of (spec.step_json step)) steps.now) }
{
    let mut values = Vec::new(alloc);
    for step in steps {
        push_item(&mut values, step_value(alloc, step)?)?;
    }
    Ok(values)
}

fn step_value(alloc: Global, step: &Step) -> Result<Value, NoMemory>
    ensures { IfOk result (λ value. shown.view value ≡ data_of (spec.step_json step.now)) }
{
    let mut fields = Map::new(alloc);
    put_text(&mut fields, alloc, "action", action_text(step.action))?;
    put_modulus(&mut fields, alloc, step.modulus)?;
    put_text_unless(&mut fields, alloc, "(.*)", "regex", step.pattern.as_str())?;
    put_text_unless(
        &mut fields,
        alloc,
        "$1",
        "replacement",
        step.replacement.as_str(),
    )?;
    put_text_unless(
        &mut fields,
        alloc,
        ";",
        "separator",
        step.separator.as_str(),
    )?;
    put_list(&mut fields, alloc, "source_labels", &step.source)?;
    put_text_unless(&mut fields, alloc, "", "target_label", step.target.as_str())?;
    Ok(Value::Object(fields))
}

fn action_text(action: Action) -> &'static str
    ensures { result.now ≡ spec.action_text action }
{
    match action {
        Action::Replace => "replace",
        Action::Keep => "keep",
        Action::Drop => "drop",
        Action::KeepEqual => "keepequal",
        Action::DropEqual => "dropequal",
        Action::HashMod => "hashmod",
        Action::LabelMap => "labelmap",
        Action::LabelDrop => "labeldrop",
        Action::LabelKeep => "labelkeep",
        Action::Lowercase => "lowercase",
        Action::Uppercase => "uppercase",
    }
}

fn put_modulus(fields: &mut Map<String, Value>, alloc: Global, modulus: u64) -> Result<(), NoMemory>
    ensures { OnOk result (shown.members_view fields.new.entries
        ≡ members_after (shown.members_view fields.old.entries) (fields_of (spec.modulus_field modulus))) }
{
    if modulus == 0 {
        return Ok(());
    }
    put_field(fields, alloc, "modulus", Value::from(modulus))
}
