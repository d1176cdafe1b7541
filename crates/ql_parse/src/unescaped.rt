ghost use Rattle.std.specs.Prelude.{◌≡◌, ◌≢◌, ◌<◌, ◌≤◌, ◌∷◌, ◌++◌, length, drop, IfOk, OnOk, encode_utf8};
ghost use Rattle.std.specs.Str.{IsUtf8};
ghost use Rattle.ql_tree.specs.Strings as spec;
ghost use Rattle.ql_parse.specs.Placed.{BeginsQuoted};
ghost use Rattle.ql_parse.specs.Unescaped.{IsStep};

use op_base::{NoMemory, Text};
use ql_token::escape;
use std::alloc::Global;

/// The text that a string with its quotes writes.
#[tactic(auto, unfolding(ql_tree::specs::Strings::string_value))]
pub(crate) fn unescaped(alloc: Global, text: &str) -> Result<Text, NoMemory>
    requires { BeginsQuoted text.now }
    ensures { IfOk result (λ t. t ≡ spec.string_value text.now) }
{
    match text.as_bytes() {
        [quote, behind @ ..] => Ok(text_of(inside(alloc, *quote, behind)?)),
        [] => Ok(Text::new(alloc)),
    }
}

fn text_of(bytes: Vec<u8>) -> Text
    requires { IsUtf8 bytes.items }
    ensures { result ≡ bytes.items }
{
    Text::from_string(String::from_utf8(bytes).unwrap())
}

/// What a string's inside writes, up to its closing quote; nothing where it is broken.
fn inside(alloc: Global, quote: u8, bytes: &[u8]) -> Result<Vec<u8>, NoMemory>
    requires ascii { quote < 128 }
    requires utf8 { IsUtf8 bytes.now }
    ensures text { IfOk result
        (λ text. text.items ≡ spec.text_found (spec.inside_from quote 0 bytes.now)) }
    ensures utf8 { IfOk result (λ text. IsUtf8 text.items) }
{
    let mut text = Vec::new(alloc);
    let mut behind = bytes;
    loop {
        match next(quote, behind) {
            Step::Close => return Ok(text),
            Step::Broken => return Ok(Vec::new(alloc)),
            Step::Byte(b) => {
                text.push(b)?;
                behind = op_base::behind(behind, 1);
            }
            Step::Character(c, n) => {
                push_char(&mut text, c)?;
                behind = op_base::behind(behind, n);
            }
        }
    }
}

fn push_char(text: &mut Vec<u8>, c: char) -> Result<(), NoMemory>
    ensures ok { OnOk result (text.new.items ≡ text.old.items ++ encode_utf8 c) }
{
    let mut room = [0; 4];
    text.extend_from_slice(c.encode_utf8(&mut room).as_bytes())?;
    Ok(())
}

enum Step {
    Close,
    Byte(u8),
    Character(char, usize),
    Broken,
}

/// The first byte or escape of a string's inside, with how many bytes the escape takes.
fn next(quote: u8, bytes: &[u8]) -> Step
    requires { quote < 128 }
    ensures { IsStep quote bytes.now result }
{
    match bytes {
        [b, behind @ ..] => {
            if *b == quote {
                Step::Close
            } else if quote == b'`' {
                Step::Byte(*b)
            } else if *b == b'\n' {
                Step::Broken
            } else if *b == b'\\' {
                escaped(quote, behind)
            } else {
                Step::Byte(*b)
            }
        }
        [] => Step::Broken,
    }
}

/// The escape behind a backslash, with the backslash.
fn escaped(quote: u8, behind: &[u8]) -> Step
    requires ascii { quote < 128 }
    requires escapes { (quote ≢ 96) × (quote ≢ 92) }
    ensures { IsStep quote (92 ∷ behind.now) result }
{
    match escape(quote, behind) {
        Some((c, n)) => Step::Character(char::from_u32(c).unwrap(), 1 + n),
        None => Step::Broken,
    }
}
