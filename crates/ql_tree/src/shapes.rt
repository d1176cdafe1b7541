ghost use Rattle.std.specs.Prelude.{◌≡◌, ◌<◌, length};
ghost use Rattle.ql_tree.specs.Shapes as spec;

use crate::types::{ExprType, Shape};

pub(crate) fn type_of_shape(shape: &Shape) -> ExprType
    ensures { result ≡ spec.type_of_shape shape.now }
{
    match shape {
        Shape::Scalar => ExprType::Scalar,
        Shape::Vector => ExprType::Vector,
        Shape::Range => ExprType::Range,
        Shape::Str(_) => ExprType::Str,
    }
}

fn is_type(a: ExprType, b: ExprType) -> bool
    ensures { result ≡ spec.is_type a b }
{
    match (a, b) {
        (ExprType::Scalar, ExprType::Scalar) => true,
        (ExprType::Vector, ExprType::Vector) => true,
        (ExprType::Range, ExprType::Range) => true,
        (ExprType::Str, ExprType::Str) => true,
        _ => false,
    }
}

/// Whether the children have these types, one each.
#[tactic(auto, unfolding(crate::specs::Shapes::have_types))]
pub(crate) fn have_types(shapes: &[Shape], types: &[ExprType]) -> bool
    ensures { result ≡ spec.have_types shapes.now types.now }
{
    match shapes {
        [s, shapes @ ..] => match types {
            [t, types @ ..] => is_type(type_of_shape(s), *t) && have_types(shapes, types),
            [] => false,
        },
        [] => types.is_empty(),
    }
}

pub(crate) fn is_string(shape: &Shape) -> bool
    ensures { result ≡ spec.is_string shape.now }
{
    match shape {
        Shape::Str(_) => true,
        _ => false,
    }
}

fn text_of(shape: &Shape) -> &str
    ensures { result.now ≡ spec.text_of shape.now }
{
    match shape {
        Shape::Str(text) => text.as_str(),
        _ => "",
    }
}

/// The text of the child with that number.
pub(crate) fn text_at(number: usize, shapes: &[Shape]) -> &str
    ensures { result.now ≡ spec.text_at number shapes.now }
{
    match shapes.get(number) {
        Some(shape) => text_of(shape),
        None => "",
    }
}
