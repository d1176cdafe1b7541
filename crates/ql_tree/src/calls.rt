ghost use Rattle.std.specs.Prelude.{◌≡◌, IfOk, bytes_eq, option_map};
ghost use Rattle.std.specs.List.{list_all, list_any};
ghost use Rattle.ql_tree.specs.Calls as spec;
ghost use Rattle.ql_tree.specs.Patterns as patterns;
ghost use Rattle.ql_tree.specs.Shapes.{is_string as is_string_shape};

use crate::shapes::{have_types, is_string, text_at};
use crate::types::{ExprType, Shape};
use op_base::{NoMemory, Pattern, PatternFault, is_label_name};
use std::alloc::Global;

const VECTOR_FUNCTIONS: [&str; 4] = ["abs", "sgn", "absent", "timestamp"];

const RANGE_FUNCTIONS: [&str; 12] = [
    "absent_over_time",
    "avg_over_time",
    "sum_over_time",
    "min_over_time",
    "max_over_time",
    "count_over_time",
    "last_over_time",
    "present_over_time",
    "changes",
    "resets",
    "increase",
    "rate",
];

const BOUND_FUNCTIONS: [&str; 2] = ["clamp_min", "clamp_max"];

const STRINGS: [ExprType; 5] = [
    ExprType::Vector,
    ExprType::Str,
    ExprType::Str,
    ExprType::Str,
    ExprType::Str,
];

fn is_among(name: &str, names: &[&str]) -> bool
    ensures { result ≡ list_any (λ other. bytes_eq name.now other.now) names.now }
{
    names.iter().any(|other| name == *other)
}

/// What a function takes, but for `label_replace` and `label_join`.
#[tactic(auto, unfolding(crate::specs::Calls::parameters_of))]
fn parameters(function: &str) -> Option<&'static [ExprType]>
    ensures { option_map (λ types. types.now) result ≡ spec.parameters_of function.now }
{
    if is_among(function, &VECTOR_FUNCTIONS) {
        Some(&[ExprType::Vector])
    } else if is_among(function, &RANGE_FUNCTIONS) {
        Some(&[ExprType::Range])
    } else if is_among(function, &BOUND_FUNCTIONS) {
        Some(&[ExprType::Vector, ExprType::Scalar])
    } else if function == "clamp" {
        Some(&[ExprType::Vector, ExprType::Scalar, ExprType::Scalar])
    } else if function == "time" {
        Some(&[])
    } else if function == "vector" {
        Some(&[ExprType::Scalar])
    } else {
        None
    }
}

/// Whether the text is a pattern.
#[tactic(auto, unfolding(crate::specs::Patterns::is_pattern))]
pub(crate) fn is_pattern(alloc: Global, text: &str) -> Result<bool, NoMemory>
    ensures { IfOk result (λ holds. holds ≡ patterns.is_pattern text.now) }
{
    match Pattern::read(alloc, text) {
        Ok(_) => Ok(true),
        Err(PatternFault::BadPattern) => Ok(false),
        Err(PatternFault::NoMemory) => Err(NoMemory),
    }
}

#[tactic(auto, unfolding(crate::specs::Calls::label_replace_shape))]
fn label_replace(alloc: Global, args: &[Shape]) -> Result<Option<Shape>, NoMemory>
    ensures { IfOk result (λ shape. shape ≡ spec.label_replace_shape args.now) }
{
    if !(have_types(args, &STRINGS) && is_label_name(text_at(1, args))) {
        return Ok(None);
    }
    if is_pattern(alloc, text_at(4, args))? {
        Ok(Some(Shape::Vector))
    } else {
        Ok(None)
    }
}

#[tactic(auto, unfolding(crate::specs::Calls::label_join_shape))]
fn label_join(args: &[Shape]) -> Option<Shape>
    ensures { result ≡ spec.label_join_shape args.now }
{
    if args.len() < 4 {
        return None;
    }
    let types = [
        ExprType::Vector,
        ExprType::Str,
        ExprType::Str,
        ExprType::Str,
    ];
    if have_types(&args[..4], &types)
        && all_strings(&args[4..])
        && is_label_name(text_at(1, args))
    {
        Some(Shape::Vector)
    } else {
        None
    }
}

fn all_strings(args: &[Shape]) -> bool
    ensures { result ≡ list_all is_string_shape args.now }
{
    args.iter().all(|arg| is_string(arg))
}

fn result_of(function: &str) -> Shape
    ensures { result ≡ spec.result_of function.now }
{
    if function == "time" {
        Shape::Scalar
    } else {
        Shape::Vector
    }
}

fn plain_call(function: &str, args: &[Shape]) -> Option<Shape>
    ensures { result ≡ spec.plain_call_shape function.now (spec.parameters_of function.now) args.now }
{
    match parameters(function) {
        Some(types) => {
            if have_types(args, types) {
                Some(result_of(function))
            } else {
                None
            }
        }
        None => None,
    }
}

/// What a call of the function with these arguments is.
#[tactic(auto, unfolding(crate::specs::Calls::call_shape))]
pub(crate) fn call(alloc: Global, function: &str, args: &[Shape]) -> Result<Option<Shape>, NoMemory>
    ensures { IfOk result (λ shape. shape ≡ spec.call_shape function.now args.now) }
{
    if function == "label_replace" {
        label_replace(alloc, args)
    } else if function == "label_join" {
        Ok(label_join(args))
    } else {
        Ok(plain_call(function, args))
    }
}
