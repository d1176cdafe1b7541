/// A function of PromQL over the samples of a range: `avg_over_time`, `sum_over_time`,
/// `min_over_time`, `max_over_time`, `count_over_time`, `last_over_time`, `present_over_time`,
/// `changes`, `resets`, `increase` and `rate`.
#[derive(Clone, Copy, Debug, PartialEq, Eq)]
pub enum RangeFunction {
    Avg,
    Sum,
    Min,
    Max,
    Count,
    Last,
    Present,
    Changes,
    Resets,
    Increase,
    Rate,
}

/// A function of PromQL.
#[derive(Clone, Copy, Debug, PartialEq, Eq)]
pub enum Function {
    Abs,
    Sgn,
    Absent,
    AbsentOverTime,
    Over(RangeFunction),
    Clamp,
    ClampMin,
    ClampMax,
    LabelReplace,
    LabelJoin,
    Time,
    Timestamp,
    Vector,
}
