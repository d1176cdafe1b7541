ghost use Rattle.std.specs.Prelude.{◌≡◌, map, option_map, IfOk};
ghost use Rattle.std.specs.List.{list_any};
ghost use Rattle.serde_json.specs.View.{view, members_view};
ghost use Rattle.op_json.specs.Reading as spec;

use op_base::NoMemory;
use serde_json::{Map, Value};
use std::alloc::Global;

/// The JSON value that the bytes are, or none where they aren't JSON.
pub fn read_json(alloc: Global, bytes: &[u8]) -> Result<Option<Value>, NoMemory>
    ensures { IfOk result (λ value. option_map view value ≡ spec.json_of bytes.now) }
{
    match Value::from_slice(alloc, bytes) {
        Ok(value) => Ok(Some(value)),
        Err(error) => {
            if error.is_memory() {
                Err(NoMemory)
            } else {
                Ok(None)
            }
        }
    }
}

/// The first member that isn't null and has none of the names.
pub fn stray<'a>(members: &'a Map<String, Value>, names: &[&str]) -> Option<&'a str>
    ensures { option_map (λ name. name.now) result
        ≡ spec.stray (map (λ name. name.now) names.now) (members_view members.now.entries) }
{
    for (name, value) in members {
        if !may_stand(name.as_str(), value, names) {
            return Some(name.as_str());
        }
    }
    None
}

fn may_stand(name: &str, value: &Value, names: &[&str]) -> bool
    ensures { result ≡ spec.may_stand (map (λ name. name.now) names.now) name.now (view value.now) }
{
    value.is_null() || is_among(name, names)
}

fn is_among(name: &str, names: &[&str]) -> bool
    ensures { result ≡ list_any (λ one. spec.is_text name.now one.now) names.now }
{
    names.iter().any(|one| name == *one)
}
