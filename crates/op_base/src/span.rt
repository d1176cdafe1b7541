ghost use Rattle.std.specs.Prelude.{◌≡◌, ◌≤◌, ◌+◌, ◌*◌, pos, nat_abs, ◌≤ℤ◌, take, option_map, IfOk, Ok, Some, []};
ghost use Rattle.std.specs.List.{prefix_len};
ghost use Rattle.op_base.specs.Names.{is_lower};
ghost use Rattle.op_base.specs.Spans as spec;

use crate::list::behind;
use crate::memory::NoMemory;
use crate::text::Text;
use std::alloc::Global;

/// A length of time, in milliseconds.
#[derive(Clone, Copy, Debug, PartialEq, Eq, PartialOrd, Ord)]
pub struct Span(pub i64);

/// Why a text is no span.
#[derive(Clone, Copy, Debug, PartialEq, Eq)]
pub enum SpanFault {
    /// It isn't `0`, nor numbers with units in order.
    Shape,
    /// It is longer than 100 years.
    Long,
}

#[derive(Clone, Copy)]
enum TimeUnit {
    Year,
    Week,
    Day,
    Hour,
    Minute,
    Second,
    Millisecond,
}

// The longest span, in milliseconds: 100 years.
const LONGEST: u64 = 3_153_600_000_000;

/// Reads a span as Prometheus writes durations: `0`, or numbers with the units `y`, `w`, `d`, `h`,
/// `m`, `s` and `ms` in this order, each at most once and at least one. A year has 365 days. The
/// form is judged before the size. It takes no memory.
pub fn read_span(text: &str) -> Result<Span, SpanFault>
    ensures { result ≡ spec.span_read text.now }
{
    match length_of(text.as_bytes()) {
        None => Err(SpanFault::Shape),
        Some(ms) => within(ms),
    }
}

/// Writes a span of 0 or more as one number, with the largest of `h`, `m`, `s` and `ms` that divides
/// it, and 0 as `0s`. A span of at most 100 years is read again.
pub fn span_text(alloc: Global, span: Span) -> Result<Text, NoMemory>
    requires { pos 0 ≤ℤ span.0 }
    ensures text { IfOk result (λ text. text ≡ spec.span_written (nat_abs span.0)) }
    ensures read_again { IfOk result (λ text. nat_abs span.0 ≤ spec.longest → spec.span_read text ≡ Ok span) }
{
    written(alloc, span.0 as u64)
}

fn within(ms: u64) -> Result<Span, SpanFault>
    ensures { result ≡ spec.span_within (Some ms) }
{
    if LONGEST < ms {
        return Err(SpanFault::Long);
    }
    Ok(Span(ms as i64))
}

fn written(alloc: Global, ms: u64) -> Result<Text, NoMemory>
    ensures { IfOk result (λ text. text ≡ spec.span_written ms) }
{
    if ms == 0 {
        return Text::from_str(alloc, "0s");
    }
    let unit = unit_dividing(ms);
    let number = ms / unit.size();
    let mut text = Text::from_string(format!(in alloc; "{number}")?);
    text.push_str(unit.name())?;
    Ok(text)
}

fn unit_dividing(ms: u64) -> TimeUnit
    ensures { result ≡ spec.unit_dividing ms }
{
    if ms % TimeUnit::Hour.size() == 0 {
        TimeUnit::Hour
    } else if ms % TimeUnit::Minute.size() == 0 {
        TimeUnit::Minute
    } else if ms % TimeUnit::Second.size() == 0 {
        TimeUnit::Second
    } else {
        TimeUnit::Millisecond
    }
}

impl TimeUnit {
    fn name(self) -> &'static str
        ensures { result.now ≡ spec.unit_name self }
    {
        match self {
            TimeUnit::Year => "y",
            TimeUnit::Week => "w",
            TimeUnit::Day => "d",
            TimeUnit::Hour => "h",
            TimeUnit::Minute => "m",
            TimeUnit::Second => "s",
            TimeUnit::Millisecond => "ms",
        }
    }

    fn size(self) -> u64
        ensures size { result ≡ spec.unit_size self }
        ensures some { 1 ≤ result }
    {
        match self {
            TimeUnit::Year => 31_536_000_000,
            TimeUnit::Week => 604_800_000,
            TimeUnit::Day => 86_400_000,
            TimeUnit::Hour => 3_600_000,
            TimeUnit::Minute => 60_000,
            TimeUnit::Second => 1_000,
            TimeUnit::Millisecond => 1,
        }
    }
}

// The milliseconds that a text writes, as far as 64 bits hold them.
fn length_of(bytes: &[u8]) -> Option<u64>
    ensures { result ≡ option_map spec.capped (spec.span_of bytes.now) }
{
    if bytes == b"0".as_slice() {
        return Some(0);
    }
    if bytes.is_empty() {
        return None;
    }
    let units = [
        TimeUnit::Year,
        TimeUnit::Week,
        TimeUnit::Day,
        TimeUnit::Hour,
        TimeUnit::Minute,
        TimeUnit::Second,
        TimeUnit::Millisecond,
    ];
    parts(bytes, &units)
}

fn parts(bytes: &[u8], units: &[TimeUnit]) -> Option<u64>
    ensures { result ≡ option_map spec.capped (spec.parts_of units.now bytes.now) }
{
    match units {
        [] => nothing(bytes),
        [unit, smaller @ ..] => add(amount(bytes, *unit), parts(rest(bytes, *unit), smaller)),
    }
}

fn nothing(bytes: &[u8]) -> Option<u64>
    ensures { result ≡ spec.parts_of [] bytes.now }
{
    if bytes.is_empty() { Some(0) } else { None }
}

fn add(amount: u64, rest: Option<u64>) -> Option<u64>
    ensures { result ≡ option_map (λ ms. spec.capped (amount + ms)) rest }
{
    match rest {
        None => None,
        Some(ms) => Some(amount.saturating_add(ms)),
    }
}

// The milliseconds of the part with the unit that the text begins with, 0 where there is none.
fn amount(bytes: &[u8], unit: TimeUnit) -> u64
    ensures { result ≡ spec.capped (spec.amount_of unit bytes.now) }
{
    if !has_part(bytes, unit) {
        return 0;
    }
    number(front(bytes, digits(bytes))).saturating_mul(unit.size())
}

fn rest(bytes: &[u8], unit: TimeUnit) -> &[u8]
    ensures { result.now ≡ spec.rest_of unit bytes.now }
{
    if !has_part(bytes, unit) {
        return bytes;
    }
    behind(behind(bytes, digits(bytes)), unit.name().len())
}

fn has_part(bytes: &[u8], unit: TimeUnit) -> bool
    ensures { result ≡ spec.has_part unit bytes.now }
{
    let count = digits(bytes);
    let rest = behind(bytes, count);
    0 < count && front(rest, letters(rest)) == unit.name().as_bytes()
}

fn number(digits: &[u8]) -> u64
    ensures { result ≡ spec.capped (spec.number_after 0 digits.now) }
{
    let mut number: u64 = 0;
    for digit in digits {
        number = number
            .saturating_mul(10)
            .saturating_add(u64::from(*digit).saturating_sub(48));
    }
    number
}

fn digits(bytes: &[u8]) -> usize
    ensures { result ≡ spec.digits_in bytes.now }
{
    bytes.iter().take_while(|b| b.is_ascii_digit()).count()
}

fn letters(bytes: &[u8]) -> usize
    ensures { result ≡ prefix_len is_lower bytes.now }
{
    bytes.iter().take_while(|b| b.is_ascii_lowercase()).count()
}

fn front(bytes: &[u8], count: usize) -> &[u8]
    ensures { result.now ≡ take count bytes.now }
{
    if count <= bytes.len() {
        &bytes[..count]
    } else {
        bytes
    }
}
