ghost use Rattle.std.specs.Prelude.{◌≡◌, ◌++◌, Some, OnOk, codes, nat_abs, encode_utf8, if◌then◌else◌};
ghost use Rattle.std.specs.List.{flat_map, join_by};
ghost use Rattle.ql_tree.specs.Durations.{duration_text};
ghost use Rattle.ql_tree.specs.Pieces.{escaped, quoted_text, text_of};
ghost use Rattle.ql_tree.specs.PrintedParts as spec;

use crate::clauses::match_name;
use op_base::{Matcher, NoMemory, Span, Text, span_text};
use std::alloc::Global;

#[tactic(auto, using(crate::proofs::PrintLemmas::at_selector))]
pub(crate) fn push_selector(
    alloc: Global,
    text: &mut Text,
    name: &Option<Text>,
    matchers: &[Matcher],
    range: &Option<Span>,
    offset: &Option<Span>,
) -> Result<(), NoMemory>
    ensures { OnOk result (text.new ≡ text.old
        ++ text_of (spec.selector_pieces name.now matchers.now range.now offset.now)) }
{
    push_head(text, name, matchers)?;
    push_range(alloc, text, range)?;
    push_offset(alloc, text, offset)
}

fn push_head(text: &mut Text, name: &Option<Text>, matchers: &[Matcher]) -> Result<(), NoMemory>
    ensures { OnOk result (text.new ≡ text.old ++ text_of (spec.head_pieces name.now matchers.now)) }
{
    match name {
        None => push_braces(text, matchers),
        Some(name) => push_named(text, name.as_str(), matchers),
    }
}

fn push_named(text: &mut Text, name: &str, matchers: &[Matcher]) -> Result<(), NoMemory>
    ensures { OnOk result (text.new ≡ text.old ++ text_of (spec.head_pieces (Some name.now) matchers.now)) }
{
    match matchers {
        [] => text.push_str(name),
        _ => {
            text.push_str(name)?;
            push_braces(text, matchers)
        }
    }
}

#[tactic(auto, using(crate::proofs::PrintLemmas::at_braces))]
fn push_braces(text: &mut Text, matchers: &[Matcher]) -> Result<(), NoMemory>
    ensures { OnOk result (text.new ≡ text.old ++ text_of (spec.braces_pieces matchers.now)) }
{
    text.push_str("{")?;
    push_listed_matchers(text, matchers)?;
    text.push_str("}")
}

/// The matchers with a comma between each two.
fn push_listed_matchers(text: &mut Text, matchers: &[Matcher]) -> Result<(), NoMemory>
    ensures { OnOk result (text.new ≡ text.old
        ++ join_by (λ m. text_of (spec.matcher_pieces m)) (codes ",") matchers.now) }
{
    let mut behind = false;
    for m in matchers {
        push_next_matcher(text, behind, m)?;
        behind = true;
    }
    Ok(())
}

/// The matcher, with a comma before it where it stands `behind` others.
fn push_next_matcher(text: &mut Text, behind: bool, m: &Matcher) -> Result<(), NoMemory>
    ensures { OnOk result (text.new ≡ text.old
        ++ (if behind then codes "," else codes "") ++ text_of (spec.matcher_pieces m.now)) }
{
    text.push_str(if behind { "," } else { "" })?;
    push_matcher(text, m)
}

#[tactic(auto, using(crate::proofs::PrintLemmas::at_matcher))]
fn push_matcher(text: &mut Text, m: &Matcher) -> Result<(), NoMemory>
    ensures { OnOk result (text.new ≡ text.old ++ text_of (spec.matcher_pieces m.now)) }
{
    text.push_str(m.name.as_str())?;
    text.push_str(match_name(m.op))?;
    push_quoted(text, m.value.as_str())
}

#[tactic(auto, using(crate::proofs::PrintLemmas::at_range))]
fn push_range(alloc: Global, text: &mut Text, range: &Option<Span>) -> Result<(), NoMemory>
    ensures { OnOk result (text.new ≡ text.old ++ text_of (spec.range_pieces range.now)) }
{
    match range {
        None => Ok(()),
        Some(span) => {
            text.push_str("[")?;
            push_size(alloc, text, span.0)?;
            text.push_str("]")
        }
    }
}

#[tactic(auto, using(crate::proofs::PrintLemmas::at_offset))]
fn push_offset(alloc: Global, text: &mut Text, offset: &Option<Span>) -> Result<(), NoMemory>
    ensures { OnOk result (text.new ≡ text.old ++ text_of (spec.offset_pieces offset.now)) }
{
    match offset {
        None => Ok(()),
        Some(span) => {
            text.push_str(" offset ")?;
            text.push_str(if span.0 < 0 { "-" } else { "" })?;
            push_size(alloc, text, span.0)
        }
    }
}

/// The span of so many milliseconds without its sign.
#[tactic(auto, unfolding(ql_tree::specs::Durations::duration_text))]
fn push_size(alloc: Global, text: &mut Text, milliseconds: i64) -> Result<(), NoMemory>
    ensures { OnOk result (text.new ≡ text.old ++ duration_text (nat_abs milliseconds)) }
{
    if milliseconds == i64::MIN {
        return push_longest(alloc, text);
    }
    text.push_str(span_text(alloc, Span(milliseconds.abs()))?.as_str())
}

// 2^63, which 64 bits with a sign don't hold.
#[tactic(auto, unfolding(ql_tree::specs::Durations::duration_text))]
fn push_longest(alloc: Global, text: &mut Text) -> Result<(), NoMemory>
    ensures { OnOk result (text.new ≡ text.old ++ duration_text 9223372036854775808) }
{
    let size: u64 = 9_223_372_036_854_775_808;
    text.push_str(format!(in alloc; "{size}ms")?.as_str())
}

#[tactic(auto, unfolding(ql_tree::specs::Pieces::quoted_text))]
pub(crate) fn push_quoted(text: &mut Text, value: &str) -> Result<(), NoMemory>
    ensures { OnOk result (text.new ≡ text.old ++ quoted_text value.now) }
{
    text.push_str("\"")?;
    push_escaped(text, value)?;
    text.push_str("\"")
}

fn push_escaped(text: &mut Text, value: &str) -> Result<(), NoMemory>
    ensures { OnOk result (text.new ≡ text.old ++ flat_map escaped value.now) }
{
    for c in value.chars() {
        push_escaped_char(text, c)?;
    }
    Ok(())
}

#[tactic(auto, using(crate::proofs::EscapeLemmas::kept_character))]
fn push_escaped_char(text: &mut Text, c: char) -> Result<(), NoMemory>
    ensures { OnOk result (text.new ≡ text.old ++ flat_map escaped (encode_utf8 c)) }
{
    match c {
        '"' => text.push_str("\\\""),
        '\\' => text.push_str("\\\\"),
        '\n' => text.push_str("\\n"),
        _ => text.push(c),
    }
}
