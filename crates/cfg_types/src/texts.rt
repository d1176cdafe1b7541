ghost use Rattle.std.specs.Prelude.{◌≡◌, map, IfOk, OnOk};
ghost use Rattle.serde_json.specs.Data.{put};
ghost use Rattle.serde_json.specs.View as shown;
ghost use Rattle.op_json.specs.Json as json;
ghost use Rattle.op_json.specs.Json.{data_of, members_after, fields_of};
ghost use Rattle.cfg_types.specs.Jobs.{HasText};
ghost use Rattle.cfg_types.specs.Texts as spec;

use op_base::{List, NoMemory, Span, Tags, Text, span_text};
use op_json::{push_item, put_field, put_text};
use serde_json::{Map, Value};
use std::alloc::Global;

// Puts the labels as a field, where there are any.
pub(crate) fn put_labels(
    fields: &mut Map<String, Value>,
    alloc: Global,
    labels: &Tags,
) -> Result<(), NoMemory>
    ensures { OnOk result (shown.members_view fields.new.entries
        ≡ members_after (shown.members_view fields.old.entries) (fields_of (spec.labels_field labels.now))) }
{
    if labels.len() == 0 {
        return Ok(());
    }
    let value = texts_value(alloc, labels)?;
    put_field(fields, alloc, "labels", value)
}

pub(crate) fn texts_value(alloc: Global, texts: &Tags) -> Result<Value, NoMemory>
    ensures { IfOk result (λ value. shown.view value ≡ data_of (spec.texts_json texts.now)) }
{
    let mut fields = Map::new(alloc);
    for index in 0..texts.len() {
        put_text(
            &mut fields,
            alloc,
            texts.name_at(index),
            texts.value_at(index),
        )?;
    }
    Ok(Value::Object(fields))
}

// Puts the texts as a field, where there are any.
pub(crate) fn put_list(
    fields: &mut Map<String, Value>,
    alloc: Global,
    name: &str,
    texts: &List<Text>,
) -> Result<(), NoMemory>
    ensures { OnOk result (shown.members_view fields.new.entries
        ≡ members_after (shown.members_view fields.old.entries) (fields_of (spec.list_field name.now texts.now))) }
{
    if texts.is_empty() {
        return Ok(());
    }
    let value = list_array(alloc, texts)?;
    put_field(fields, alloc, name, value)
}

pub(crate) fn list_array(alloc: Global, texts: &List<Text>) -> Result<Value, NoMemory>
    ensures { IfOk result (λ value. shown.view value ≡ data_of (spec.list_json texts.now)) }
{
    Ok(Value::Array(list_values(alloc, texts.as_slice())?))
}

fn list_values(alloc: Global, texts: &[Text]) -> Result<Vec<Value>, NoMemory>
    ensures { IfOk result (λ values. map shown.view values.items
        ≡ map (λ text. data_of (json.text text)) texts.now) }
{
    let mut values = Vec::new(alloc);
    for text in texts {
        push_item(&mut values, text_value(alloc, text)?)?;
    }
    Ok(values)
}

fn text_value(alloc: Global, text: &Text) -> Result<Value, NoMemory>
    ensures { IfOk result (λ value. shown.view value ≡ data_of (json.text text.now)) }
{
    Ok(Value::String(String::from_str(alloc, text.as_str())?))
}

// Puts a text as a field, where it isn't the default.
pub(crate) fn put_text_unless(
    fields: &mut Map<String, Value>,
    alloc: Global,
    default: &str,
    name: &str,
    text: &str,
) -> Result<(), NoMemory>
    ensures { OnOk result (shown.members_view fields.new.entries
        ≡ members_after (shown.members_view fields.old.entries)
        (fields_of (spec.text_unless default.now name.now text.now))) }
{
    if text.as_bytes() == default.as_bytes() {
        return Ok(());
    }
    put_text(fields, alloc, name, text)
}

// Puts a span as a field.
pub(crate) fn put_span(
    fields: &mut Map<String, Value>,
    alloc: Global,
    name: &str,
    span: Span,
) -> Result<(), NoMemory>
    requires { HasText span }
    ensures { OnOk result (shown.members_view fields.new.entries
        ≡ put name.now (data_of (spec.span_json span)) (shown.members_view fields.old.entries)) }
{
    let text = span_text(alloc, span)?;
    put_text(fields, alloc, name, text.as_str())
}
