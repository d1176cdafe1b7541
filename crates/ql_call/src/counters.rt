// What neighbours among numbers, which stand with other things, say of a counter.
ghost use Rattle.std.specs.Prelude.{◌≡◌, ◌≤◌, ◌^◌, ◌+ℤ◌, ◌≤ℤ◌, neg_ℤ, pos, not, int_lt};
ghost use Rattle.std.specs.Ordering.{int_eq};
ghost use Rattle.ql_call.specs.Numbers.{numbers_in};
ghost use Rattle.ql_call.specs.Over as spec;

/// How many neighbours differ.
pub(crate) fn changes_in<X>(things: &[(X, i64)]) -> usize
    ensures { result ≡ spec.changes_in (numbers_in things.now) }
{
    let [first, later @ ..] = things else {
        return 0;
    };
    let mut count = 0;
    let mut earlier = first.1;
    for thing in later {
        let number = thing.1;
        count += change(&earlier, &number);
        earlier = number;
    }
    count
}

// 1 where the number changes.
fn change(earlier: &i64, later: &i64) -> usize
    ensures value { result ≡ spec.one_if (not (int_eq earlier.now later.now)) }
    ensures most { result ≤ 1 }
{
    usize::from(*earlier != *later)
}

/// How many neighbours fall.
pub(crate) fn resets_in<X>(things: &[(X, i64)]) -> usize
    ensures { result ≡ spec.resets_in (numbers_in things.now) }
{
    let [first, later @ ..] = things else {
        return 0;
    };
    let mut count = 0;
    let mut earlier = first.1;
    for thing in later {
        let number = thing.1;
        count += fall(&earlier, &number);
        earlier = number;
    }
    count
}

// 1 where the number falls.
fn fall(earlier: &i64, later: &i64) -> usize
    ensures value { result ≡ spec.one_if (int_lt later.now earlier.now) }
    ensures most { result ≤ 1 }
{
    usize::from(*later < *earlier)
}

/// What a counter rose by in all. Fewer than 2^64 numbers of 64 bits have a sum of 128 bits: a number
/// takes at most 2^63 from it, and adds at most 2^63 and what it is above the number before.
pub(crate) fn increase_in<X>(things: &[(X, i64)]) -> i128
    ensures { result ≡ spec.increase_in (numbers_in things.now) }
{
    let [first, later @ ..] = things else {
        return 0;
    };
    let mut increase = 0;
    let mut earlier = first.1;
    for thing in later {
        let number = thing.1;
        increase += rise(&earlier, &number);
        earlier = number;
    }
    increase
}

// From an earlier value to a later one, which after a reset counts alone.
fn rise(earlier: &i64, later: &i64) -> i128
    ensures value { result ≡ spec.rise earlier.now later.now }
    ensures low { neg_ℤ (pos (2 ^ 63)) ≤ℤ result }
    ensures high { (result +ℤ earlier.now) ≤ℤ (later.now +ℤ pos (2 ^ 63)) }
{
    if *later < *earlier {
        i128::from(*later)
    } else {
        i128::from(*later) - i128::from(*earlier)
    }
}
