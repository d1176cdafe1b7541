ghost use Rattle.std.specs.Prelude.{◌≡◌, IfOk};
ghost use Rattle.serde_json.specs.View as shown;
ghost use Rattle.op_json.specs.Json.{data_of, whole};
ghost use Rattle.op_json.specs.Json as json;
ghost use Rattle.op_report.specs.Lines.{view_json};
ghost use Rattle.op_report.specs.Ticks as spec;

use crate::listed::{Listed, array_value};
use crate::view::{AlertView, View};
use op_base::{Labels, List, Moment, NoMemory, Text};
use op_json::{push_item, put_field, put_text};
use serde_json::{Map, Value};
use std::alloc::Global;

/// The value that a tick line writes.
pub fn tick_value(
    alloc: Global,
    alerts: &List<AlertView>,
    failed: &List<(Text, Text, u64)>,
    stored: &List<(Labels, Option<i64>)>,
    at: Moment,
) -> Result<Value, NoMemory>
    ensures { IfOk result (λ value. shown.view value
        ≡ data_of (view_json (View.Tick alerts.now failed.now stored.now at))) }
{
    let alerts = array_value(alloc, alerts)?;
    let failed = array_value(alloc, failed)?;
    let stored = array_value(alloc, stored)?;
    let tick = whole_value(at.0);
    let mut fields = Map::new(alloc);
    put_field(&mut fields, alloc, "alerts", alerts)?;
    put_field(&mut fields, alloc, "failed", failed)?;
    put_field(&mut fields, alloc, "stored", stored)?;
    put_field(&mut fields, alloc, "tick", tick)?;
    Ok(Value::Object(fields))
}

fn whole_value(number: i64) -> Value
    ensures { shown.view result ≡ data_of (whole number) }
{
    Value::from(number)
}

fn text_value(alloc: Global, text: &str) -> Result<Value, NoMemory>
    ensures { IfOk result (λ value. shown.view value ≡ data_of (json.text text.now)) }
{
    Ok(Value::String(String::from_str(alloc, text)?))
}

fn labels_value(alloc: Global, labels: &Labels) -> Result<Value, NoMemory>
    ensures { IfOk result (λ value. shown.view value ≡ data_of (spec.labels_json labels.now)) }
{
    let mut fields = Map::new(alloc);
    for index in 0..labels.len() {
        put_text(
            &mut fields,
            alloc,
            labels.name_at(index),
            labels.value_at(index),
        )?;
    }
    Ok(Value::Object(fields))
}

impl Listed for (Labels, Option<i64>) {
    ghost use Rattle.op_report.specs.Ticks.{stored_json};

    ghost json = { stored_json };

    fn value(&self, alloc: Global) -> Result<Value, NoMemory> {
        let mut items = Vec::new(alloc);
        push_item(&mut items, labels_value(alloc, &self.0)?)?;
        push_item(&mut items, value_value(self.1))?;
        Ok(Value::Array(items))
    }
}

fn value_value(value: Option<i64>) -> Value
    ensures { shown.view result ≡ data_of (spec.value_json value) }
{
    match value {
        Some(number) => whole_value(number),
        None => Value::Null,
    }
}

impl Listed for (Text, Text, u64) {
    ghost use Rattle.op_report.specs.Ticks.{failed_json};

    ghost json = { failed_json };

    fn value(&self, alloc: Global) -> Result<Value, NoMemory> {
        let mut items = Vec::new(alloc);
        push_item(&mut items, text_value(alloc, self.0.as_str())?)?;
        push_item(&mut items, text_value(alloc, self.1.as_str())?)?;
        push_item(&mut items, Value::from(self.2))?;
        Ok(Value::Array(items))
    }
}

impl Listed for AlertView {
    ghost use Rattle.op_report.specs.Ticks.{alert_json};

    ghost json = { alert_json };

    fn value(&self, alloc: Global) -> Result<Value, NoMemory> {
        let receivers = array_value(alloc, &self.receivers)?;
        let mut items = Vec::new(alloc);
        push_item(&mut items, labels_value(alloc, &self.labels)?)?;
        push_item(&mut items, text_value(alloc, state_word(self.firing))?)?;
        push_item(&mut items, whole_value(self.first.0))?;
        push_item(&mut items, Value::Bool(self.muted))?;
        push_item(&mut items, receivers)?;
        Ok(Value::Array(items))
    }
}

fn state_word(firing: bool) -> &'static str
    ensures { result.now ≡ spec.state_word firing }
{
    if firing { "firing" } else { "pending" }
}

impl Listed for (Text, Labels) {
    ghost use Rattle.op_report.specs.Ticks.{reached_json};

    ghost json = { reached_json };

    fn value(&self, alloc: Global) -> Result<Value, NoMemory> {
        let mut items = Vec::new(alloc);
        push_item(&mut items, text_value(alloc, self.0.as_str())?)?;
        push_item(&mut items, labels_value(alloc, &self.1)?)?;
        Ok(Value::Array(items))
    }
}
