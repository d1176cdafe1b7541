// What is computed of numbers that stand with other things: with labels in a group, with moments in a
// range.
ghost use Rattle.std.specs.Prelude.{◌≡◌, pos, length, map};
ghost use Rattle.ql_tree.specs.Arithmetic as arithmetic;
ghost use Rattle.ql_call.specs.Aggregates as aggregates;
ghost use Rattle.ql_call.specs.Elements as elements;
ghost use Rattle.ql_call.specs.Numbers.{numbers_in};
ghost use Rattle.ql_call.specs.Over as over;

/// The exact sum. Fewer than 2^64 numbers of 64 bits have one of 128 bits.
pub(crate) fn total<X>(things: &[(X, i64)]) -> i128
    ensures { result ≡ elements.total (numbers_in things.now) }
{
    let mut sum = 0;
    for thing in things {
        sum += i128::from(thing.1);
    }
    sum
}

/// The least number, or 0 where there is none.
pub(crate) fn least<X>(things: &[(X, i64)]) -> i64
    ensures { result ≡ aggregates.least (numbers_in things.now) }
{
    let [first, others @ ..] = things else {
        return 0;
    };
    let mut least = first.1;
    for thing in others {
        least = least.min(thing.1);
    }
    least
}

/// The greatest number, or 0 where there is none.
pub(crate) fn greatest<X>(things: &[(X, i64)]) -> i64
    ensures { result ≡ aggregates.greatest (numbers_in things.now) }
{
    let [first, others @ ..] = things else {
        return 0;
    };
    let mut greatest = first.1;
    for thing in others {
        greatest = greatest.max(thing.1);
    }
    greatest
}

/// The quotient of the exact sum and the count, cut towards zero; 0 where there is no number.
pub(crate) fn average<X>(things: &[(X, i64)]) -> i128
    ensures { result ≡ aggregates.average (numbers_in things.now) }
{
    if things.is_empty() {
        return 0;
    }
    total(things) / things.len() as i128
}

/// How many numbers there are.
pub(crate) fn count<X>(things: &[(X, i64)]) -> i64
    ensures { result ≡ arithmetic.clamped (pos (length (numbers_in things.now))) }
{
    clamped(&(things.len() as i128))
}

/// The last number, or 0 where there is none.
pub(crate) fn newest<X>(things: &[(X, i64)]) -> i64
    ensures { result ≡ over.newest_of (numbers_in things.now) }
{
    match things.last() {
        Some(thing) => thing.1,
        None => 0,
    }
}

/// The nearest number of 64 bits.
pub(crate) fn clamped(number: &i128) -> i64
    ensures { result ≡ arithmetic.clamped number.now }
{
    (*number).clamp(i128::from(i64::MIN), i128::from(i64::MAX)) as i64
}
