ghost use Rattle.std.specs.Prelude.{◌≡◌, option_map, true, Some, IfOk, IfSome};
ghost use Rattle.std.specs.List.{list_all};
ghost use Rattle.serde_json.specs.View.{view};
ghost use Rattle.op_base.specs.Names as names;
ghost use Rattle.op_relabel.specs.Steps.{is_no_dollar};
ghost use Rattle.op_thin.specs.ThinFields.{checked};
ghost use Rattle.op_thin.specs.Items.{IsThinProbe};
ghost use Rattle.op_thin.specs.ThinProbes as spec;

use crate::fields::{Names, names_in, object_of_kind, only_item_at, text_at, with_only};
use op_base::{NoMemory, Text};
use serde_json::Value;
use std::alloc::Global;

/// A Probe object with a prober's URL and one static target.
#[derive(Debug, PartialEq, Eq, Drop)]
pub struct ThinProbe {
    pub namespace: Text,
    pub name: Text,
    /// The address of the prober, as `blackbox:9115`.
    pub url: Text,
    pub target: Text,
}

/// The thin probe that the value is, or none where it has another form.
pub fn thin_probe(alloc: Global, value: &Value) -> Result<Option<ThinProbe>, NoMemory>
    ensures probe { IfOk result (λ probe. probe ≡ spec.thin_probe_of (view value.now)) }
    ensures named { IfOk result (λ probe. IfSome probe IsThinProbe) }
{
    match parts_in(value) {
        Some((names, parts)) => Ok(Some(owned_probe(alloc, names, parts)?)),
        None => Ok(None),
    }
}

// The prober's URL and the target.
type Parts<'a> = (&'a str, &'a str);

fn owned_probe(alloc: Global, names: Names<'_>, parts: Parts<'_>) -> Result<ThinProbe, NoMemory>
    ensures { IfOk result (λ probe. probe ≡ spec.probe_from (names.entry.0.now, names.entry.1.now)
        (parts.entry.0.now, parts.entry.1.now)) }
{
    let (namespace, name) = names;
    let (url, target) = parts;
    Ok(ThinProbe {
        namespace: Text::from_str(alloc, namespace)?,
        name: Text::from_str(alloc, name)?,
        url: Text::from_str(alloc, url)?,
        target: Text::from_str(alloc, target)?,
    })
}

fn parts_in(value: &Value) -> Option<(Names<'_>, Parts<'_>)>
    ensures probe { option_map (λ parts. spec.probe_from (parts.0.0.now, parts.0.1.now) (parts.1.0.now, parts.1.1.now)) result
        ≡ spec.thin_probe_of (view value.now) }
    ensures named { IfSome result (λ parts. IsThinProbe
        (spec.probe_from (parts.0.0.now, parts.0.1.now) (parts.1.0.now, parts.1.1.now))) }
{
    let object = object_of_kind(value, "Probe")?;
    let names = names_in(object.get("metadata")?)?;
    let parts = spec_in(object.get("spec")?)?;
    Some((names, parts))
}

fn spec_in(value: &Value) -> Option<Parts<'_>>
    ensures parts { option_map (λ parts. (parts.0.now, parts.1.now)) result ≡ spec.spec_of (view value.now) }
    ensures thin { IfSome result (λ parts. (spec.is_thin_text parts.0.now ≡ true) × (spec.is_thin_text parts.1.now ≡ true)) }
{
    let spec = with_only(value, &["prober", "targets"])?;
    let url = prober_in(spec.get("prober")?)?;
    let target = targets_in(spec.get("targets")?)?;
    Some((url, target))
}

fn prober_in(value: &Value) -> Option<&str>
    ensures url { option_map (λ t. t.now) result ≡ spec.prober_of (view value.now) }
    ensures thin { IfSome result (λ t. spec.is_thin_text t.now ≡ true) }
{
    let prober = with_only(value, &["url"])?;
    checked_thin(text_at(prober, "url")?)
}

fn targets_in(value: &Value) -> Option<&str>
    ensures target { option_map (λ t. t.now) result ≡ spec.targets_of (view value.now) }
    ensures thin { IfSome result (λ t. spec.is_thin_text t.now ≡ true) }
{
    let targets = with_only(value, &["staticConfig"])?;
    static_in(targets.get("staticConfig")?)
}

fn static_in(value: &Value) -> Option<&str>
    ensures target { option_map (λ t. t.now) result ≡ spec.static_of (view value.now) }
    ensures thin { IfSome result (λ t. spec.is_thin_text t.now ≡ true) }
{
    let config = with_only(value, &["static"])?;
    checked_thin(only_item_at(config, "static")?.as_str()?)
}

fn checked_thin(text: &str) -> Option<&str>
    ensures text { option_map (λ t. t.now) result ≡ checked spec.is_thin_text (Some text.now) }
    ensures thin { IfSome result (λ t. spec.is_thin_text t.now ≡ true) }
{
    if is_thin_text(text) { Some(text) } else { None }
}

fn is_thin_text(text: &str) -> bool
    ensures { result ≡ spec.is_thin_text text.now }
{
    !text.is_empty() && has_no_dollar(text.as_bytes())
}

fn has_no_dollar(bytes: &[u8]) -> bool
    ensures { result ≡ list_all is_no_dollar bytes.now }
{
    bytes.iter().all(|b| *b != b'$')
}
