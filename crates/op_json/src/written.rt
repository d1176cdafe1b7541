ghost use Rattle.std.specs.Prelude.{◌≡◌, IfOk, OnOk, OnErr, map, option_map, List, ◌++◌, ◌∷◌, []};
ghost use Rattle.serde_json.specs.View.{view, members_view};
ghost use Rattle.serde_json.specs.Data.{put};
ghost use Rattle.op_json.specs.Json as json;
ghost use Rattle.op_json.specs.Json.{Json, data_of, json_text, members_after, fields_of, given};

use op_base::{List, NoMemory};
use serde_json::{Map, Value};
use std::alloc::Global;

/// The compact text of a value without floats, as RFC 8259 has JSON, with the fields of each object
/// in the byte order of their names.
pub fn text_of(alloc: Global, value: &Value) -> Result<List<u8>, NoMemory>
    ensures { IfOk result (λ bytes. (j : Json) → view value.now ≡ data_of j → bytes ≡ json_text j) }
{
    Ok(List::from_vec(value.to_vec(alloc)?))
}

/// Puts one more field into an object, over any of its name.
pub fn put_field(
    fields: &mut Map<String, Value>,
    alloc: Global,
    name: &str,
    value: Value,
) -> Result<(), NoMemory>
    ensures ok { OnOk result (members_view fields.new.entries
        ≡ put name.now (view value) (members_view fields.old.entries)) }
    ensures err { OnErr result (members_view fields.new.entries ≡ members_view fields.old.entries) }
{
    serde_json::put(fields, alloc, name, value)?;
    Ok(())
}

/// Puts one more value at the end of an array.
pub fn push_item(items: &mut Vec<Value>, value: Value) -> Result<(), NoMemory>
    ensures ok { OnOk result (map view items.new.items ≡ map view items.old.items ++ view value ∷ []) }
    ensures err { OnErr result (map view items.new.items ≡ map view items.old.items) }
{
    items.push(value)?;
    Ok(())
}

/// Puts a text as one more field.
pub fn put_text(
    fields: &mut Map<String, Value>,
    alloc: Global,
    name: &str,
    text: &str,
) -> Result<(), NoMemory>
    ensures ok { OnOk result (members_view fields.new.entries
        ≡ put name.now (data_of (json.text text.now)) (members_view fields.old.entries)) }
    ensures err { OnErr result (members_view fields.new.entries ≡ members_view fields.old.entries) }
{
    let value = Value::String(String::from_str(alloc, text)?);
    put_field(fields, alloc, name, value)
}

/// Puts a text as one more field, where there is a text.
pub fn put_text_if(
    fields: &mut Map<String, Value>,
    alloc: Global,
    name: &str,
    text: Option<&str>,
) -> Result<(), NoMemory>
    ensures ok { OnOk result (members_view fields.new.entries
        ≡ members_after (members_view fields.old.entries) (fields_of (given name.now (option_map (λ t. json.text t.now) text.entry)))) }
    ensures err { OnErr result (members_view fields.new.entries ≡ members_view fields.old.entries) }
{
    match text {
        Some(text) => put_text(fields, alloc, name, text),
        None => Ok(()),
    }
}
