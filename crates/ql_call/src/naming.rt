// The functions by their names.
ghost use Rattle.std.specs.Prelude.{◌≡◌};
ghost use Rattle.ql_call.specs.Functions as spec;

use crate::function::{Function, RangeFunction};

/// The function of a name.
pub(crate) fn function_of(name: &str) -> Option<Function>
    ensures { result ≡ spec.function_of name.now }
{
    match range_function(name) {
        Some(function) => Some(Function::Over(function)),
        None => other_function(name),
    }
}

// Those of a range.
#[tactic(auto, unfolding(crate::specs::Functions::range_function))]
fn range_function(name: &str) -> Option<RangeFunction>
    ensures { result ≡ spec.range_function name.now }
{
    match name {
        "avg_over_time" => Some(RangeFunction::Avg),
        "sum_over_time" => Some(RangeFunction::Sum),
        "min_over_time" => Some(RangeFunction::Min),
        "max_over_time" => Some(RangeFunction::Max),
        "count_over_time" => Some(RangeFunction::Count),
        "last_over_time" => Some(RangeFunction::Last),
        "present_over_time" => Some(RangeFunction::Present),
        "changes" => Some(RangeFunction::Changes),
        "resets" => Some(RangeFunction::Resets),
        "increase" => Some(RangeFunction::Increase),
        "rate" => Some(RangeFunction::Rate),
        _ => None,
    }
}

// All others.
#[tactic(auto, unfolding(crate::specs::Functions::other_function))]
fn other_function(name: &str) -> Option<Function>
    ensures { result ≡ spec.other_function name.now }
{
    match name {
        "abs" => Some(Function::Abs),
        "sgn" => Some(Function::Sgn),
        "absent" => Some(Function::Absent),
        "absent_over_time" => Some(Function::AbsentOverTime),
        "clamp" => Some(Function::Clamp),
        "clamp_min" => Some(Function::ClampMin),
        "clamp_max" => Some(Function::ClampMax),
        "label_replace" => Some(Function::LabelReplace),
        "label_join" => Some(Function::LabelJoin),
        "time" => Some(Function::Time),
        "timestamp" => Some(Function::Timestamp),
        "vector" => Some(Function::Vector),
        _ => None,
    }
}
