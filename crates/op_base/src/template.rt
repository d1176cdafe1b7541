// What a template stands for where groups matched a whole value. Patterns that `regex` never sees
// are expanded here, by the meaning that `regex` gives its own templates.
ghost use Rattle.std.specs.Prelude.{◌≡◌, ℕ, ◌+◌, ◌≤◌, ◌∷◌, ◌++◌, ◌<◌, ◌≢◌, None, Some, length, drop, replicate, get_or, IfOk, MatchOption, take};
ghost use Rattle.std.specs.List.{prefix_len};
ghost use Rattle.regex.specs.Templates as template;
ghost use Rattle.op_base.specs.Patterns.{whole_group, written_whole};

use crate::memory::NoMemory;
use crate::text::Text;
use std::alloc::Global;

// The text where the first `count` groups, none of them named, matched the whole value.
pub(crate) fn written(
    alloc: Global,
    count: usize,
    value: &str,
    template: &str,
) -> Result<Text, NoMemory>
    ensures { IfOk result (λ text. text ≡ written_whole count value.now template.now) }
{
    let mut text = Text::new(alloc);
    let mut rest = template;
    while let Some((before, after)) = at_dollar(rest) {
        let (part, left) = reference(after, count, value);
        text.push_str(before)?;
        text.push_str(part)?;
        rest = left;
    }
    text.push_str(rest)?;
    Ok(text)
}

// What stands before and behind the first `$`.
fn at_dollar(text: &str) -> Option<(&str, &str)>
    ensures { MatchOption result ((i : ℕ) → i < length text.now → get_or text.now i 0 ≢ 36)
        (λ parts. (text.now ≡ parts.0.now ++ 36 ∷ parts.1.now)
        × ((i : ℕ) → i < length parts.0.now → get_or parts.0.now i 0 ≢ 36)) }
{
    text.split_once('$')
}

// What is written for the `$` before `after`, and the text that follows it.
fn reference<'a>(after: &'a str, count: usize, value: &'a str) -> (&'a str, &'a str)
    ensures written { written_whole count value.now (36 ∷ after.now)
        ≡ result.0.now ++ written_whole count value.now result.1.now }
    ensures shorter { length result.1.now ≤ length after.now }
{
    match after.strip_prefix('$') {
        Some(rest) => ("$", rest),
        None => named(after, count, value),
    }
}

fn named<'a>(after: &'a str, count: usize, value: &'a str) -> (&'a str, &'a str)
    ensures written { template.at_dollar (replicate count None) (whole_group count value.now) (template.name_at after.now)
        (template.written_after (replicate count None) (whole_group count value.now) after.now)
        ≡ result.0.now ++ written_whole count value.now result.1.now }
    ensures shorter { length result.1.now ≤ length after.now }
{
    match name_at(after) {
        Some((name, rest)) => (group(name, count, value), rest),
        None => ("$", after),
    }
}

fn name_at(text: &str) -> Option<(&str, &str)>
    ensures { MatchOption result (template.name_at text.now ≡ None)
        (λ found. (n : ℕ) × (template.name_at text.now ≡ Some (found.0.now, n)) × (found.1.now ≡ drop n text.now)) }
{
    match text.strip_prefix('{') {
        Some(inside) => inside.split_once('}'),
        None => bare_name(text),
    }
}

fn bare_name(text: &str) -> Option<(&str, &str)>
    ensures { MatchOption result (prefix_len template.is_name_byte text.now ≡ 0)
        (λ found. (0 < prefix_len template.is_name_byte text.now)
        × (found.0.now ≡ take (prefix_len template.is_name_byte text.now) text.now)
        × (found.1.now ≡ drop (prefix_len template.is_name_byte text.now) text.now)) }
{
    let count = name_len(text.as_bytes());
    if count == 0 {
        None
    } else {
        Some(text.split_at(count))
    }
}

fn name_len(bytes: &[u8]) -> usize
    ensures { result ≡ prefix_len template.is_name_byte bytes.now }
{
    bytes
        .iter()
        .take_while(|b| b.is_ascii_alphanumeric() || **b == b'_')
        .count()
}

// The value where the name is the number of one of the groups, else nothing.
fn group<'a>(name: &str, count: usize, value: &'a str) -> &'a str
    ensures { result.now ≡ template.text_or_nothing (replicate count None) (whole_group count value.now)
        (template.group_called (replicate count None) name.now) }
{
    match name.parse::<usize>() {
        Ok(number) => { if number < count { value } else { "" } }
        Err(_) => "",
    }
}
