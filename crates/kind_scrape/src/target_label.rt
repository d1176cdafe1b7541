ghost use Rattle.std.specs.Prelude.{◌≡◌, codes, nat_eq};
ghost use Rattle.std.specs.List.{starts_with};
ghost use Rattle.op_base.specs.Names.{is_label_name, is_label_start, is_label_byte, passes_at};
ghost use Rattle.kind_scrape.specs.TargetLabels as spec;

use op_manifest::{ShapeRule, TextForm};

/// The key of a label that targets get: a label name that doesn't begin with `__`, once each byte that no label name
/// has is written `_`.
pub(crate) struct TargetLabel;

impl TextForm for TargetLabel {
    ghost use Rattle.op_manifest.specs.declared.shape.TheConstants.ShapeRule as rule;
    ghost use Rattle.kind_scrape.specs.TargetLabels as spec;

    ghost passes = { spec.is_target_label };

    ghost broken = { rule.BAD_LABEL };

    fn passes(text: &str) -> bool {
        is_named_label(text.as_bytes()) && !is_reserved(text.as_bytes())
    }

    fn broken() -> ShapeRule {
        ShapeRule::BAD_LABEL
    }
}

#[tactic(auto, using(crate::proofs::LabelLemmas::label_name))]
fn is_named_label(key: &[u8]) -> bool
    ensures { result ≡ is_label_name (spec.label_of_key key.now) }
{
    begins_a_name(key)
}

// Whether the first byte, once it is written, may begin a label name.
fn begins_a_name(key: &[u8]) -> bool
    ensures { result ≡ passes_at spec.begins key.now 0 }
{
    match key.get(0) {
        Some(b) => is_label_start(label_byte(*b)),
        None => false,
    }
}

#[tactic(auto, using(crate::proofs::LabelLemmas::bars))]
fn is_reserved(key: &[u8]) -> bool
    ensures { result ≡ starts_with nat_eq (spec.label_of_key key.now) (codes "__") }
{
    has_bar(key, 0) && has_bar(key, 1)
}

// Whether the byte at the place is written `_`.
fn has_bar(key: &[u8], place: usize) -> bool
    ensures { result ≡ passes_at spec.is_bar key.now place }
{
    match key.get(place) {
        Some(b) => b'_' == label_byte(*b),
        None => false,
    }
}

fn label_byte(b: u8) -> u8
    ensures { result ≡ spec.label_byte b }
{
    if is_label_byte(b) { b } else { b'_' }
}

fn is_label_byte(b: u8) -> bool
    ensures { result ≡ is_label_byte b }
{
    is_label_start(b) || b.is_ascii_digit()
}

fn is_label_start(b: u8) -> bool
    ensures { result ≡ is_label_start b }
{
    b.is_ascii_alphabetic() || b == b'_'
}
