ghost use Rattle.std.specs.Prelude.{◌≡◌, IsTrue, nat_le, take};
ghost use Rattle.std.specs.List.{list_all};
ghost use Rattle.std.specs.Option.{option_map};
ghost use Rattle.std.specs.Char.{digit_value};
ghost use Rattle.std.specs.Str.Parse.{digits_value};
ghost use Rattle.op_base.specs.Names.{is_digit, is_metric_byte};
ghost use Rattle.ql_tree.specs.Durations as durations;
ghost use Rattle.ql_tree.specs.Tokens as spec;

use crate::bytes::run;
use op_base::read_span;
use ql_tree::TokenKind;

const MOST: u128 = 9223372036854775807;

/// What digits with what follows them of a word are: a number, a duration or neither.
#[tactic(auto, unfolding(ql_tree::specs::Tokens::numeric_kind))]
fn numeric_kind(run: &[u8]) -> Option<TokenKind>
    requires { IsTrue (list_all is_metric_byte run.now) }
    ensures { result ≡ spec.numeric_kind run.now }
{
    if all_digits(run) {
        if fits(run) {
            Some(TokenKind::Number)
        } else {
            None
        }
    } else if is_duration(run) {
        Some(TokenKind::Duration)
    } else {
        None
    }
}

fn all_digits(run: &[u8]) -> bool
    ensures { result ≡ list_all is_digit run.now }
{
    run.iter().all(|b| b.is_ascii_digit())
}

/// Whether the number that the digits write isn't too large.
fn fits(digits: &[u8]) -> bool
    requires { IsTrue (list_all is_digit digits.now) }
    ensures { result ≡ nat_le (digits_value 10 digits.now) spec.MOST }
{
    let mut value: u128 = 0;
    for b in digits {
        value = value * 10 + digit(*b);
        if value > MOST {
            return false;
        }
    }
    true
}

fn digit(b: u8) -> u128
    requires { IsTrue (is_digit b) }
    ensures { result ≡ digit_value b }
{
    (b - b'0') as u128
}

fn is_duration(run: &[u8]) -> bool
    requires { IsTrue (list_all is_metric_byte run.now) }
    ensures { result ≡ durations.is_duration run.now }
{
    match str::from_utf8(run) {
        Ok(text) => is_span(text),
        Err(_) => false,
    }
}

#[tactic(auto, unfolding(ql_tree::specs::Durations::is_duration))]
fn is_span(text: &str) -> bool
    ensures { result ≡ durations.is_duration text.now }
{
    read_span(text).is_ok()
}

/// The number or duration that begins the text, with its length: the whole of the digits and what
/// follows them of a word.
#[tactic(auto, using(crate::proofs::DigitLemmas::run_of_word))]
pub(crate) fn number_or_duration(bytes: &[u8]) -> Option<(TokenKind, usize)>
    ensures { result ≡ option_map (λ kind. (kind, spec.run_at bytes.now))
        (spec.numeric_kind (take (spec.run_at bytes.now) bytes.now)) }
{
    let len = run(bytes);
    match numeric_kind(&bytes[..len]) {
        Some(kind) => Some((kind, len)),
        None => None,
    }
}
