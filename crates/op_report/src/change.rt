// The values of lines on puts and deletions, and on the other objects that they concern.
ghost use Rattle.std.specs.Prelude.{◌≡◌, map, option_map, ◌∷◌, ◌++◌, [], IfOk, OnOk};
ghost use Rattle.serde_json.specs.View as shown;
ghost use Rattle.serde_json.specs.Data.{no_members};
ghost use Rattle.op_json.specs.Json.{data_of, members_after, fields_of};
ghost use Rattle.op_report.specs.Lines as spec;

use crate::listed::{Listed, array_value};
use crate::view::{Also, View};
use op_base::{List, NoMemory, Text};
use op_json::{push_item, put_field, put_text, put_text_if};
use serde_json::{Map, Value};
use std::alloc::Global;

/// The value of a line on a tenant's put or deletion.
#[tactic(auto, using(crate::proofs::FieldLemmas::after_both))]
pub fn own_value(
    alloc: Global,
    deleted: bool,
    key: &Text,
    answer: &Text,
    rule: &Option<Text>,
    path: &Option<Text>,
    also: &List<Also>,
) -> Result<Value, NoMemory>
    ensures { IfOk result (λ value. shown.view value
        ≡ data_of (spec.view_json (View.Own deleted key.now answer.now rule.now path.now also.now))) }
{
    let mut fields = own_fields(alloc, deleted, key, answer, also)?;
    put_reason(&mut fields, alloc, rule, path)?;
    Ok(Value::Object(fields))
}

/// The value of a line on a put or deletion of an object that is everyone's.
#[tactic(auto, using(crate::proofs::FieldLemmas::after_both))]
pub fn admin_value(
    alloc: Global,
    deleted: bool,
    key: &Text,
    answer: &Text,
    rule: &Option<Text>,
    path: &Option<Text>,
    kept: &Option<Text>,
) -> Result<Value, NoMemory>
    ensures { IfOk result (λ value. shown.view value
        ≡ data_of (spec.view_json (View.Admin deleted key.now answer.now rule.now path.now kept.now))) }
{
    let mut fields = Map::new(alloc);
    put_text(&mut fields, alloc, "answer", answer.as_str())?;
    put_text(&mut fields, alloc, change_word(deleted), key.as_str())?;
    put_reason(&mut fields, alloc, rule, path)?;
    put_text_if(&mut fields, alloc, "kept", borrowed(kept))?;
    Ok(Value::Object(fields))
}

/// The value of a line on what such a change means for a namespace.
pub fn change_value(alloc: Global, key: &Text, also: &List<Also>) -> Result<Value, NoMemory>
    ensures { IfOk result (λ value. shown.view value
        ≡ data_of (spec.view_json (View.Change key.now also.now))) }
{
    let also = array_value(alloc, also)?;
    let mut fields = Map::new(alloc);
    put_field(&mut fields, alloc, "also", also)?;
    put_text(&mut fields, alloc, "change", key.as_str())?;
    Ok(Value::Object(fields))
}

fn own_fields(
    alloc: Global,
    deleted: bool,
    key: &Text,
    answer: &Text,
    also: &List<Also>,
) -> Result<Map<String, Value>, NoMemory>
    ensures { IfOk result (λ fields. shown.members_view fields.entries
        ≡ members_after no_members (fields_of (spec.own_fields deleted key.now answer.now also.now))) }
{
    let also = array_value(alloc, also)?;
    let mut fields = Map::new(alloc);
    put_field(&mut fields, alloc, "also", also)?;
    put_text(&mut fields, alloc, "answer", answer.as_str())?;
    put_text(&mut fields, alloc, change_word(deleted), key.as_str())?;
    Ok(fields)
}

// The rule and the path, where there are any.
#[tactic(auto, using(crate::proofs::FieldLemmas::after_both))]
fn put_reason(
    fields: &mut Map<String, Value>,
    alloc: Global,
    rule: &Option<Text>,
    path: &Option<Text>,
) -> Result<(), NoMemory>
    ensures { OnOk result (shown.members_view fields.new.entries
        ≡ members_after (shown.members_view fields.old.entries) (fields_of (spec.reason rule.now path.now))) }
{
    put_text_if(fields, alloc, "rule", borrowed(rule))?;
    put_text_if(fields, alloc, "path", borrowed(path))
}

fn change_word(deleted: bool) -> &'static str
    ensures { result.now ≡ spec.change_word deleted }
{
    if deleted { "delete" } else { "put" }
}

fn borrowed(text: &Option<Text>) -> Option<&str>
    ensures { option_map (λ t. t.now) result ≡ text.now }
{
    match text {
        Some(text) => Some(text.as_str()),
        None => None,
    }
}

impl Listed for Also {
    ghost use Rattle.op_report.specs.Lines.{also_json};

    ghost json = { also_json };

    fn value(&self, alloc: Global) -> Result<Value, NoMemory> {
        let mut texts = Vec::new(alloc);
        push_text(&mut texts, alloc, Some(self.key.as_str()))?;
        push_text(&mut texts, alloc, Some(self.answer.as_str()))?;
        push_text(&mut texts, alloc, borrowed(&self.rule))?;
        push_text(&mut texts, alloc, borrowed(&self.path))?;
        Ok(Value::Array(texts))
    }
}

fn push_text(values: &mut Vec<Value>, alloc: Global, text: Option<&str>) -> Result<(), NoMemory>
    ensures { OnOk result (map shown.view values.new.items
        ≡ map shown.view values.old.items
        ++ map data_of (spec.texts_of (option_map (λ t. t.now) text.entry))) }
{
    match text {
        Some(text) => push_item(values, Value::String(String::from_str(alloc, text)?)),
        None => Ok(()),
    }
}
