ghost use Rattle.std.specs.Prelude.{◌≡◌, ◌<◌, ◌≤◌, ◌+◌, IsTrue, IfSome, length};
ghost use Rattle.std.specs.Option.{option_map};
ghost use Rattle.ql_tree.specs.Strings.{inside_from};
ghost use Rattle.ql_tree.specs.Tokens as spec;

use crate::bytes::{is_word_start, run};
use crate::digits::number_or_duration;
use crate::strings::{inside, is_quote};
use ql_tree::TokenKind;

/// The longest token that begins the text: its kind, and how many bytes it has.
#[tactic(auto, unfolding(ql_tree::specs::Tokens::token_at))]
pub(crate) fn front(bytes: &[u8]) -> Option<(TokenKind, usize)>
    ensures token { result ≡ spec.token_at bytes.now }
    ensures within { IfSome result (λ found. (0 < found.1) × (found.1 ≤ length bytes.now)) }
{
    match bytes {
        [b, behind @ ..] => {
            if is_word_start(*b) {
                Some((TokenKind::Word, run(bytes)))
            } else if b.is_ascii_digit() {
                number_or_duration(bytes)
            } else if is_quote(*b) {
                string(*b, behind)
            } else {
                symbol(*b, behind)
            }
        }
        [] => None,
    }
}

fn string(quote: u8, behind: &[u8]) -> Option<(TokenKind, usize)>
    ensures string { result ≡ option_map (λ found. (TokenKind.Str, 1 + found.1)) (inside_from quote 0 behind.now) }
    ensures within { IfSome result (λ found. (0 < found.1) × (found.1 ≤ 1 + length behind.now)) }
{
    match inside(quote, behind) {
        Some(n) => Some((TokenKind::Str, 1 + n)),
        None => None,
    }
}

#[tactic(auto, unfolding(ql_tree::specs::Tokens::symbol_at))]
fn symbol(b: u8, behind: &[u8]) -> Option<(TokenKind, usize)>
    ensures symbol { result ≡ spec.symbol_at b behind.now }
    ensures within { IfSome result (λ found. (0 < found.1) × (found.1 ≤ 1 + length behind.now)) }
{
    if doubles(b, behind) {
        Some((TokenKind::Symbol, 2))
    } else if is_single(b) {
        Some((TokenKind::Symbol, 1))
    } else {
        None
    }
}

fn doubles(b: u8, behind: &[u8]) -> bool
    ensures doubles { result ≡ spec.doubles b behind.now }
    ensures within { IsTrue result → 0 < length behind.now }
{
    match behind {
        [c, _behind @ ..] => is_double(b, *c),
        [] => false,
    }
}

fn is_double(b: u8, c: u8) -> bool
    ensures { result ≡ spec.is_double b c }
{
    (c == b'=' && (b == b'=' || b == b'!' || b == b'>' || b == b'<'))
        || (c == b'~' && (b == b'=' || b == b'!'))
}

fn is_single(b: u8) -> bool
    ensures { result ≡ spec.is_single b }
{
    b == b'+'
        || b == b'-'
        || b == b'*'
        || b == b'/'
        || b == b'%'
        || b == b'>'
        || b == b'<'
        || b == b'='
        || is_bracket(b)
        || b == b','
}

fn is_bracket(b: u8) -> bool
    ensures { result ≡ spec.is_bracket b }
{
    b == b'(' || b == b')' || b == b'{' || b == b'}' || b == b'[' || b == b']'
}
