/// The last moment that a tick may have: 2^53 milliseconds.
pub const LAST_MOMENT: u64 = 9_007_199_254_740_992;

/// A point in time, in milliseconds since the epoch of Unix.
#[derive(Clone, Copy, Debug, PartialEq, Eq, PartialOrd, Ord)]
pub struct Moment(pub i64);
