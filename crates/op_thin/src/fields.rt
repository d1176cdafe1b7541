ghost use Rattle.std.specs.Prelude.{◌≡◌, map, option_map, option_and_then, codes, ◌∷◌, [], true, IfSome};
ghost use Rattle.serde_json.specs.View.{view, items_view};
ghost use Rattle.serde_json.specs.Find.{get};
ghost use Rattle.op_base.specs.Names as names;
ghost use Rattle.op_thin.specs.ThinFields as spec;

use op_base::{is_name, is_namespace};
use op_json::stray;
use serde_json::Value;

/// The namespace and the name of an object.
pub type Names<'a> = (&'a str, &'a str);

/// The value where it is a monitoring object of the kind, with no other fields than a thin object has.
pub fn object_of_kind<'a>(value: &'a Value, kind: &str) -> Option<&'a Value>
    ensures { option_map (λ object. view object.now) result ≡ spec.object_of_kind kind.now (view value.now) }
{
    let object = with_only(value, &["apiVersion", "kind", "metadata", "spec"])?;
    if has_text(object, "apiVersion", "monitoring.coreos.com/v1")
        && has_text(object, "kind", kind)
    {
        Some(object)
    } else {
        None
    }
}

/// What the metadata names: exactly a namespace and a name, both well formed.
pub fn names_in(value: &Value) -> Option<Names<'_>>
    ensures names { option_map (λ parts. (parts.0.now, parts.1.now)) result ≡ spec.names_of (view value.now) }
    ensures named { IfSome result (λ parts. names.is_namespace parts.0.now ≡ true) }
{
    let metadata = with_only(value, &["name", "namespace"])?;
    let namespace = checked_namespace(text_at(metadata, "namespace")?)?;
    let name = checked_name(text_at(metadata, "name")?)?;
    Some((namespace, name))
}

fn checked_namespace(text: &str) -> Option<&str>
    ensures text { option_map (λ t. t.now) result ≡ spec.checked names.is_namespace (Some text.now) }
    ensures named { IfSome result (λ t. names.is_namespace t.now ≡ true) }
{
    if is_namespace(text) { Some(text) } else { None }
}

fn checked_name(text: &str) -> Option<&str>
    ensures { option_map (λ t. t.now) result ≡ spec.checked names.is_name (Some text.now) }
{
    if is_name(text) { Some(text) } else { None }
}

fn has_text(value: &Value, name: &str, wanted: &str) -> bool
    ensures { result ≡ spec.has_text name.now wanted.now (view value.now) }
{
    match text_at(value, name) {
        Some(text) => wanted == text,
        None => false,
    }
}

/// The text of a field.
pub fn text_at<'a>(value: &'a Value, name: &str) -> Option<&'a str>
    ensures { option_map (λ t. t.now) result ≡ spec.text_at name.now (view value.now) }
{
    value.get(name).and_then(Value::as_str)
}

/// The only item of a list that is a field.
pub fn only_item_at<'a>(value: &'a Value, name: &str) -> Option<&'a Value>
    ensures { option_map (λ one. view one.now) result ≡ spec.only_item_at name.now (view value.now) }
{
    only_item(value.get(name)?)
}

fn only_item(value: &Value) -> Option<&Value>
    ensures { option_map (λ one. view one.now) result ≡ spec.only_item_of (view value.now) }
{
    only_of(value.as_array()?.as_slice())
}

fn only_of(values: &[Value]) -> Option<&Value>
    ensures { option_map (λ one. view one.now) result ≡ spec.only_item (items_view values.now) }
{
    match values {
        [] => None,
        [one] => Some(one),
        [_, _, ..] => None,
    }
}

/// The object where each field that isn't null has one of the names.
pub fn with_only<'a>(value: &'a Value, names: &[&str]) -> Option<&'a Value>
    ensures { option_map (λ object. view object.now) result
        ≡ spec.with_only (map (λ name. name.now) names.now) (view value.now) }
{
    if has_only(value, names) {
        Some(value)
    } else {
        None
    }
}

fn has_only(value: &Value, names: &[&str]) -> bool
    ensures { result ≡ spec.has_only (map (λ name. name.now) names.now) (view value.now) }
{
    match value.as_object() {
        Some(members) => stray(members, names).is_none(),
        None => false,
    }
}
