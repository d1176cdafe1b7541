ghost use Rattle.std.specs.Prelude.{◌≡◌, ◌+◌, ◌<◌, ◌≤◌, IsTrue, IfSome, length};
ghost use Rattle.std.specs.Char.{digit_value, is_digit};
ghost use Rattle.std.specs.List.{list_all};
ghost use Rattle.std.specs.Option.{option_map};
ghost use Rattle.std.specs.Str.Parse.{digits_value};
ghost use Rattle.ql_tree.specs.Strings as spec;
ghost use Rattle.ql_token.specs.Inside.{IsStep, length_of};

/// The number that the next digits of the radix write, as many as asked.
#[tactic(auto, unfolding(ql_tree::specs::Strings::numeral_at))]
fn numeral(radix: u32, count: usize, bytes: &[u8]) -> Option<u32>
    requires radix { (2 ≤ radix) × (radix ≤ 16) }
    requires count { count ≤ 8 }
    ensures numeral { result ≡ spec.numeral_at radix count bytes.now }
    ensures within { IfSome result (λ _. count ≤ length bytes.now) }
{
    match bytes.get(..count) {
        Some(digits) => {
            if all_digits(radix, digits) {
                Some(value_of(radix, digits))
            } else {
                None
            }
        }
        None => None,
    }
}

fn all_digits(radix: u32, digits: &[u8]) -> bool
    requires { (2 ≤ radix) × (radix ≤ 16) }
    ensures { result ≡ list_all (λ b. is_digit b radix) digits.now }
{
    digits.iter().all(|b| (*b as char).is_digit(radix))
}

fn value_of(radix: u32, digits: &[u8]) -> u32
    requires radix { (2 ≤ radix) × (radix ≤ 16) }
    requires count { length digits.now ≤ 8 }
    requires digits { IsTrue (list_all (λ b. is_digit b radix) digits.now) }
    ensures { result ≡ digits_value radix digits.now }
{
    let mut value: u32 = 0;
    for b in digits {
        value = value * radix + digit(radix, *b);
    }
    value
}

fn digit(radix: u32, b: u8) -> u32
    requires radix { (2 ≤ radix) × (radix ≤ 16) }
    requires digit { IsTrue (is_digit b radix) }
    ensures value { result ≡ digit_value b }
    ensures below { result < radix }
{
    (b as char).to_digit(radix).unwrap()
}

pub(crate) fn is_quote(b: u8) -> bool
    ensures { result ≡ spec.is_quote b }
{
    b == b'"' || b == b'\'' || b == b'`'
}

fn is_character(c: u32) -> bool
    ensures { result ≡ spec.is_character c }
{
    c < 0xd800 || (0xe000 <= c && c < 0x110000)
}

/// The character below 80 that digits write, and how many bytes were taken with those before them.
#[tactic(auto, unfolding(ql_tree::specs::Strings::coded))]
fn seven_bit(before: usize, radix: u32, count: usize, bytes: &[u8]) -> Option<(u32, usize)>
    requires before { before ≤ 1 }
    requires radix { (2 ≤ radix) × (radix ≤ 16) }
    requires count { count ≤ 8 }
    ensures coded { result ≡ spec.coded spec.is_seven_bit before radix count bytes.now }
    ensures within { IfSome result (λ found. found.1 ≤ before + length bytes.now) }
{
    match numeral(radix, count, bytes) {
        Some(c) => {
            if c < 0x80 {
                Some((c, before + count))
            } else {
                None
            }
        }
        None => None,
    }
}

/// The character that hexadecimal digits write, and how many bytes were taken with those before
/// them.
#[tactic(auto, unfolding(ql_tree::specs::Strings::coded))]
fn character(count: usize, bytes: &[u8]) -> Option<(u32, usize)>
    requires { count ≤ 8 }
    ensures coded { result ≡ spec.coded spec.is_character 1 16 count bytes.now }
    ensures within { IfSome result (λ found. found.1 ≤ 1 + length bytes.now) }
{
    match numeral(16, count, bytes) {
        Some(c) => {
            if is_character(c) {
                Some((c, 1 + count))
            } else {
                None
            }
        }
        None => None,
    }
}

fn plain_escape(quote: u8, e: u8) -> Option<u32>
    ensures { result ≡ spec.plain_escape quote e }
{
    if e == b'a' {
        Some(7)
    } else if e == b'b' {
        Some(8)
    } else if e == b'f' {
        Some(12)
    } else if e == b'n' {
        Some(10)
    } else if e == b'r' {
        Some(13)
    } else if e == b't' {
        Some(9)
    } else if e == b'v' {
        Some(11)
    } else if e == b'\\' || e == quote {
        Some(e as u32)
    } else {
        None
    }
}

fn short_escape(quote: u8, e: u8) -> Option<(u32, usize)>
    ensures { result ≡ option_map (λ c. (c, 1)) (spec.plain_escape quote e) }
{
    match plain_escape(quote, e) {
        Some(c) => Some((c, 1)),
        None => None,
    }
}

/// The escape behind a backslash in a string with that quote: its character, and how many bytes it
/// takes; none where the bytes begin with no escape.
#[tactic(auto, unfolding(ql_tree::specs::Strings::escape_at))]
pub fn escape(quote: u8, bytes: &[u8]) -> Option<(u32, usize)>
    ensures escape { result ≡ spec.escape_at quote bytes.now }
    ensures within { IfSome result (λ found. found.1 ≤ length bytes.now) }
{
    match bytes {
        [e, behind @ ..] => {
            if (*e as char).is_digit(8) {
                seven_bit(0, 8, 3, bytes)
            } else if *e == b'x' {
                seven_bit(1, 16, 2, behind)
            } else if *e == b'u' {
                character(4, behind)
            } else if *e == b'U' {
                character(8, behind)
            } else {
                short_escape(quote, *e)
            }
        }
        [] => None,
    }
}

/// How many bytes the first byte or escape of a string's inside takes.
#[tactic(auto, unfolding(ql_tree::specs::Strings::piece_at))]
fn piece(quote: u8, bytes: &[u8]) -> Option<usize>
    ensures piece { result ≡ option_map (λ found. found.1) (spec.piece_at quote bytes.now) }
    ensures within { IfSome result (λ n. (0 < n) × (n ≤ length bytes.now)) }
{
    match bytes {
        [b, behind @ ..] => {
            if quote == b'`' {
                Some(1)
            } else if *b == b'\n' {
                None
            } else if *b == b'\\' {
                behind_backslash(quote, behind)
            } else {
                Some(1)
            }
        }
        [] => None,
    }
}

fn behind_backslash(quote: u8, bytes: &[u8]) -> Option<usize>
    ensures piece { result ≡ option_map (λ found. 1 + found.1) (spec.escape_at quote bytes.now) }
    ensures within { IfSome result (λ n. (0 < n) × (n ≤ 1 + length bytes.now)) }
{
    match escape(quote, bytes) {
        Some((_, taken)) => Some(1 + taken),
        None => None,
    }
}

enum Step {
    Close,
    Piece(usize),
    Broken,
}

fn next(quote: u8, bytes: &[u8]) -> Step
    ensures { IsStep quote bytes.now result }
{
    match bytes {
        [b, _behind @ ..] => {
            if *b == quote {
                return Step::Close;
            }
            match piece(quote, bytes) {
                Some(n) => Step::Piece(n),
                None => Step::Broken,
            }
        }
        [] => Step::Broken,
    }
}

/// How many bytes a string's inside takes, its closing quote included; none where it is broken.
pub(crate) fn inside(quote: u8, bytes: &[u8]) -> Option<usize>
    ensures inside { result ≡ length_of quote 0 bytes.now }
    ensures within { IfSome result (λ n. n ≤ length bytes.now) }
{
    let mut behind = bytes;
    let mut taken: usize = 0;
    loop {
        match next(quote, behind) {
            Step::Close => return Some(taken + 1),
            Step::Broken => return None,
            Step::Piece(n) => {
                taken += n;
                behind = op_base::behind(behind, n);
            }
        }
    }
}
