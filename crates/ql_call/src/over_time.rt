// The functions of a range.
ghost use Rattle.std.specs.Prelude.{◌≡◌, ◌*ℤ◌, ◌<ℤ◌, pos, int_div};
ghost use Rattle.ql_tree.specs.Arithmetic as arithmetic;
ghost use Rattle.ql_call.specs.Numbers.{numbers_in};
ghost use Rattle.ql_call.specs.Over as spec;

use crate::counters::{changes_in, increase_in, resets_in};
use crate::function::RangeFunction;
use crate::numbers::{average, clamped, count, greatest, least, newest, total};
use op_base::{Moment, Span};

/// A second, in milliseconds.
pub(crate) const SECOND: i64 = 1000;

/// What a function gives of one label set's samples in the order of their moments, if anything: nothing
/// where there is no sample, or one and the function is `increase` or `rate`. A range that isn't above
/// 0 has no rate. It takes no memory.
pub fn over(function: RangeFunction, samples: &[(Moment, i64)], range: Span) -> Option<i64>
    ensures { result ≡ spec.over function samples.now range }
{
    match samples {
        [] => None,
        [_, ..] => number_over(function, samples, &range),
    }
}

fn number_over(function: RangeFunction, samples: &[(Moment, i64)], range: &Span) -> Option<i64>
    ensures { result ≡ spec.number_over function range.now (numbers_in samples.now) }
{
    match function {
        RangeFunction::Avg => Some(clamped(&average(samples))),
        RangeFunction::Sum => Some(clamped(&total(samples))),
        RangeFunction::Min => Some(least(samples)),
        RangeFunction::Max => Some(greatest(samples)),
        RangeFunction::Count => Some(count(samples)),
        RangeFunction::Last => Some(newest(samples)),
        RangeFunction::Present => Some(1),
        RangeFunction::Changes => Some(clamped(&(changes_in(samples) as i128))),
        RangeFunction::Resets => Some(clamped(&(resets_in(samples) as i128))),
        RangeFunction::Increase => increase(samples),
        RangeFunction::Rate => rate(samples, range),
    }
}

fn increase(samples: &[(Moment, i64)]) -> Option<i64>
    ensures { result ≡ spec.of_two (numbers_in samples.now) (spec.increase_in (numbers_in samples.now)) }
{
    match samples {
        [_, _, ..] => Some(clamped(&increase_in(samples))),
        _ => None,
    }
}

fn rate(samples: &[(Moment, i64)], range: &Span) -> Option<i64>
    ensures { result ≡ spec.rate_of range.now (numbers_in samples.now) }
{
    if range.0 > 0 {
        rate_of_two(samples, range)
    } else {
        None
    }
}

fn rate_of_two(samples: &[(Moment, i64)], range: &Span) -> Option<i64>
    requires { pos 0 <ℤ range.now.0 }
    ensures { result ≡ spec.of_two (numbers_in samples.now) (spec.rate_in range.now (numbers_in samples.now)) }
{
    match samples {
        [_, _, ..] => Some(per_second(&increase_in(samples), range)),
        _ => None,
    }
}

// A second's share of an increase over the range. Where the product has more than 128 bits, the share
// of the nearest number that has no more is beyond the same end of 64 bits.
fn per_second(increase: &i128, range: &Span) -> i64
    requires { pos 0 <ℤ range.now.0 }
    ensures { result ≡ arithmetic.clamped (int_div (increase.now *ℤ spec.second) range.now.0) }
{
    let second = i128::from(SECOND);
    clamped(&(increase.saturating_mul(second) / i128::from(range.0)))
}
