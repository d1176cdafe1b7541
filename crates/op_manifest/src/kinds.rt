// The kinds of manifests.
ghost use Rattle.std.specs.Prelude.{◌≡◌, [], OnOk, Some, None, false, is_some, option_map, option_and_then, codes, if◌then◌else◌};
ghost use Rattle.std.specs.Option.{option_map_or};
ghost use Rattle.serde_json.specs.Find.{as_str};
ghost use Rattle.op_json.specs.Reading.{is_text};
ghost use Rattle.op_manifest.specs.Trees.{data_of};
ghost use Rattle.op_manifest.specs.Shapes.{Adds};
ghost use Rattle.op_manifest.specs.Shapes as shapes;
ghost use Rattle.op_manifest.specs.Checks as check;
ghost use Rattle.op_manifest.specs.Values.{text_in};
ghost use Rattle.op_manifest.specs.Heads as spec;

use crate::fields::{given, tell_unless};
use crate::shape::{Shape, ShapeRule, tell};
use crate::tree::Tree;
use op_base::{Kind, NoMemory, Text};
use std::alloc::Global;

/// The kind that `kind` and `apiVersion` name together.
#[tactic(auto, unfolding(crate::specs::Heads::kind_in, crate::specs::Values::text_in))]
pub fn kind_of(tree: &Tree) -> Option<Kind>
    ensures { result ≡ spec.kind_in (data_of tree.now) }
{
    match named_kind(tree) {
        Some(kind) => kind_of_version(kind, tree),
        None => None,
    }
}

#[tactic(auto, unfolding(crate::specs::Values::text_in))]
fn kind_of_version(kind: Kind, tree: &Tree) -> Option<Kind>
    ensures { result ≡ (if option_map_or (is_text (spec.version_of kind)) (text_in (codes "apiVersion") (data_of tree.now)) false then Some kind else None) }
{
    if has_version(kind, tree) {
        Some(kind)
    } else {
        None
    }
}

#[tactic(auto, unfolding(crate::specs::Values::text_in))]
fn has_version(kind: Kind, tree: &Tree) -> bool
    ensures { result ≡ option_map_or (is_text (spec.version_of kind)) (text_in (codes "apiVersion") (data_of tree.now)) false }
{
    match text_in(tree, "apiVersion") {
        Some(text) => version_of(kind) == text,
        None => false,
    }
}

#[tactic(auto, unfolding(crate::specs::Heads::named_kind))]
fn named_kind(tree: &Tree) -> Option<Kind>
    ensures { result ≡ spec.named_kind (data_of tree.now) }
{
    match text_in(tree, "kind") {
        Some(text) => kind_named(text),
        None => None,
    }
}

// The text of the field, where it is one.
fn text_in<'a>(tree: &'a Tree, name: &str) -> Option<&'a str>
    ensures { option_map (λ text. text.now) result ≡ option_and_then as_str (check.field name.now (data_of tree.now)) }
{
    match given(tree, name) {
        Some(value) => value.as_text(),
        None => None,
    }
}

/// The kind. `kind` comes before `apiVersion`. Where no kind is named, which is a breach, any stands.
#[tactic(auto, using(crate::proofs::ShapeLemmas::later_both))]
pub(crate) fn noted_kind(
    found: &mut Option<Shape>,
    alloc: Global,
    tree: &Tree,
) -> Result<Kind, NoMemory>
    ensures { Adds (λ kind. kind) found.old found.new result
        (spec.kind_wrongs [] (data_of tree.now)) (spec.kind_of (data_of tree.now)) }
{
    let kind = noted_name(found, alloc, tree)?.unwrap_or(Kind::ServiceMonitor);
    note_version(found, alloc, tree, kind)?;
    Ok(kind)
}

#[tactic(auto, using(crate::proofs::ShapeLemmas::later_none), unfolding(crate::specs::Heads::naming, crate::specs::Checks::worded, crate::specs::Heads::named_kind))]
fn noted_name(
    found: &mut Option<Shape>,
    alloc: Global,
    tree: &Tree,
) -> Result<Option<Kind>, NoMemory>
    ensures { Adds (λ kind. kind) found.old found.new result
        (spec.naming (λ name. is_some (spec.kind_named name)) (codes "kind") [] (data_of tree.now))
        (spec.named_kind (data_of tree.now)) }
{
    match given(tree, "kind") {
        Some(value) => match value.as_text() {
            Some(name) => kind_or_breach(found, alloc, name),
            None => {
                tell(found, ShapeRule::WRONG_TYPE, Text::from_str(alloc, "kind")?);
                Ok(None)
            }
        },
        None => {
            tell(
                found,
                ShapeRule::UNKNOWN_KIND,
                Text::from_str(alloc, "kind")?,
            );
            Ok(None)
        }
    }
}

fn kind_or_breach(
    found: &mut Option<Shape>,
    alloc: Global,
    name: &str,
) -> Result<Option<Kind>, NoMemory>
    ensures { Adds (λ kind. kind) found.old found.new result
        (shapes.unless (is_some (spec.kind_named name.now)) ShapeRule.UNKNOWN_KIND (codes "kind")) (spec.kind_named name.now) }
{
    let kind = kind_named(name);
    tell_unless(
        found,
        alloc,
        kind.is_some(),
        ShapeRule::UNKNOWN_KIND,
        "kind",
        "",
    )?;
    Ok(kind)
}

#[tactic(auto, using(crate::proofs::ShapeLemmas::later_none), unfolding(crate::specs::Heads::naming, crate::specs::Checks::worded))]
fn note_version(
    found: &mut Option<Shape>,
    alloc: Global,
    tree: &Tree,
    kind: Kind,
) -> Result<(), NoMemory>
    ensures { OnOk result (found.new ≡ shapes.later found.old
        (spec.naming (is_text (spec.version_of kind)) (codes "apiVersion") [] (data_of tree.now))) }
{
    match given(tree, "apiVersion") {
        Some(value) => match value.as_text() {
            Some(text) => {
                let fits = version_of(kind) == text;
                tell_unless(
                    found,
                    alloc,
                    fits,
                    ShapeRule::UNKNOWN_KIND,
                    "apiVersion",
                    "",
                )
            }
            None => {
                tell(
                    found,
                    ShapeRule::WRONG_TYPE,
                    Text::from_str(alloc, "apiVersion")?,
                );
                Ok(())
            }
        },
        None => {
            tell(
                found,
                ShapeRule::UNKNOWN_KIND,
                Text::from_str(alloc, "apiVersion")?,
            );
            Ok(())
        }
    }
}

// The `apiVersion` that goes with the kind.
fn version_of(kind: Kind) -> &'static str
    ensures { result.now ≡ spec.version_of kind }
{
    match kind {
        Kind::ServiceMonitor => "monitoring.coreos.com/v1",
        Kind::PodMonitor => "monitoring.coreos.com/v1",
        Kind::Probe => "monitoring.coreos.com/v1",
        Kind::PrometheusRule => "monitoring.coreos.com/v1",
        Kind::AlertmanagerConfig => "monitoring.coreos.com/v1alpha1",
        Kind::Secret => "v1",
        Kind::Namespace => "v1",
        Kind::Prometheus => "monitoring.coreos.com/v1",
        Kind::Alertmanager => "monitoring.coreos.com/v1",
    }
}

// The kind with the name.
#[tactic(auto, unfolding(crate::specs::Heads::kind_named))]
fn kind_named(name: &str) -> Option<Kind>
    ensures { result ≡ spec.kind_named name.now }
{
    kind_among(
        &[
            Kind::ServiceMonitor,
            Kind::PodMonitor,
            Kind::Probe,
            Kind::PrometheusRule,
            Kind::AlertmanagerConfig,
            Kind::Secret,
            Kind::Namespace,
            Kind::Prometheus,
            Kind::Alertmanager,
        ],
        name,
    )
}

fn kind_among(kinds: &[Kind], name: &str) -> Option<Kind>
    ensures { result ≡ spec.kind_among kinds.now name.now }
{
    for kind in kinds {
        if kind.name() == name {
            return Some(*kind);
        }
    }
    None
}
