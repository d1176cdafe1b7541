ghost use Rattle.std.specs.Prelude.{◌≡◌, ◌≤◌, [], ◌∷◌, IsTrue, bytes_eq};
ghost use Rattle.std.specs.List.{list_all};
ghost use Rattle.std.specs.Option.{unwrap_or};
ghost use Rattle.std.specs.Char.{digit_value};
ghost use Rattle.std.specs.Str.Parse.{digits_value};
ghost use Rattle.op_base.specs.Names.{is_digit};
ghost use Rattle.ql_tree.specs.Durations as durations;
ghost use Rattle.ql_tree.specs.Tokens.{MOST};
ghost use Rattle.ql_tree.specs.Words as spec;
ghost use Rattle.ql_tree.specs.declared.word.Word.TheVariants.{Comma};

use op_base::{Span, read_span};
use ql_tree::Word;

/// The number that digits write.
pub(crate) fn number_of(digits: &[u8]) -> i64
    requires digits { IsTrue (list_all is_digit digits.now) }
    requires fits { digits_value 10 digits.now ≤ MOST }
    ensures { result ≡ spec.number_of (digits_value 10 digits.now) }
{
    let mut value: u64 = 0;
    for b in digits {
        value = value * 10 + digit(*b);
    }
    value as i64
}

fn digit(b: u8) -> u64
    requires { IsTrue (is_digit b) }
    ensures { result ≡ digit_value b }
{
    (b - b'0') as u64
}

#[tactic(auto, unfolding(ql_tree::specs::Durations::duration_of))]
pub(crate) fn duration_of(text: &str) -> Span
    ensures { result ≡ durations.duration_of text.now }
{
    match read_span(text) {
        Ok(span) => span,
        Err(_) => Span(0),
    }
}

/// What a symbol means; a comma for what is none.
pub(crate) fn symbol_of(bytes: &[u8]) -> Word
    ensures { result ≡ unwrap_or (spec.found_in (bytes_eq bytes.now) spec.symbols) Comma }
{
    match bytes {
        [b] => single(*b),
        [b, c] => double(*b, *c),
        _ => Word::Comma,
    }
}

fn single(b: u8) -> Word
    ensures { result ≡ unwrap_or (spec.found_in (bytes_eq (b ∷ [])) spec.symbols) Comma }
{
    match b {
        b'+' => Word::Plus,
        b'-' => Word::Minus,
        b'*' => Word::Star,
        b'/' => Word::Slash,
        b'%' => Word::Percent,
        b'>' => Word::Greater,
        b'<' => Word::Less,
        b'=' => Word::Assign,
        b'(' => Word::Open,
        b')' => Word::Close,
        b'{' => Word::OpenBrace,
        b'}' => Word::CloseBrace,
        b'[' => Word::OpenSquare,
        b']' => Word::CloseSquare,
        _ => Word::Comma,
    }
}

fn double(b: u8, c: u8) -> Word
    ensures { result ≡ unwrap_or (spec.found_in (bytes_eq (b ∷ c ∷ [])) spec.symbols) Comma }
{
    if c == b'=' {
        before_equals(b)
    } else if c == b'~' {
        before_tilde(b)
    } else {
        Word::Comma
    }
}

fn before_equals(b: u8) -> Word
    ensures { result ≡ unwrap_or (spec.found_in (bytes_eq (b ∷ 61 ∷ [])) spec.symbols) Comma }
{
    match b {
        b'=' => Word::Equal,
        b'!' => Word::NotEqual,
        b'>' => Word::GreaterEqual,
        b'<' => Word::LessEqual,
        _ => Word::Comma,
    }
}

fn before_tilde(b: u8) -> Word
    ensures { result ≡ unwrap_or (spec.found_in (bytes_eq (b ∷ 126 ∷ [])) spec.symbols) Comma }
{
    match b {
        b'=' => Word::Match,
        b'!' => Word::NotMatch,
        _ => Word::Comma,
    }
}
