ghost use Rattle.std.specs.Prelude.{◌≡◌, ℕ, IfOk, is_none, is_some, bytes_eq};
ghost use Rattle.std.specs.Prelude as seen;
ghost use Rattle.std.specs.List.{list_all, list_any};
ghost use Rattle.op_base.specs.Maps.{value_at};
ghost use Rattle.ql_tree.specs.Typed as spec;

use crate::shapes::{have_types, text_at};
use crate::tree::{AggregateOp, BinaryOp, Matching, Side};
use crate::types::{ExprType, Shape};
use op_base::{NoMemory, Table, Text, is_label_name};
use std::alloc::Global;

/// What a sign makes of its operand.
#[tactic(auto, unfolding(crate::specs::Typed::sign_shape))]
pub(crate) fn sign(shapes: &[Shape]) -> Option<Shape>
    ensures { result ≡ spec.sign_shape shapes.now }
{
    if have_types(shapes, &[ExprType::Scalar]) {
        Some(Shape::Scalar)
    } else if have_types(shapes, &[ExprType::Vector]) {
        Some(Shape::Vector)
    } else {
        None
    }
}

fn takes_scalars(op: BinaryOp, matching: &Option<Matching>) -> bool
    ensures { result ≡ spec.takes_scalars op matching.now }
{
    match matching {
        None => !op.is_set(),
        Some(_) => false,
    }
}

fn may_match(alloc: Global, op: BinaryOp, matching: &Option<Matching>) -> Result<bool, NoMemory>
    ensures { IfOk result (λ may. may ≡ spec.may_match op matching.now) }
{
    match matching {
        None => Ok(true),
        Some(m) => {
            if op.is_set() && has_side(&m.side) {
                Ok(false)
            } else {
                are_apart(alloc, m.on, m.labels.as_slice(), &m.side)
            }
        }
    }
}

fn has_side(side: &Option<Side>) -> bool
    ensures { result ≡ spec.has_side side.now }
{
    match side {
        None => false,
        Some(_) => true,
    }
}

fn are_apart(
    alloc: Global,
    on: bool,
    labels: &[Text],
    side: &Option<Side>,
) -> Result<bool, NoMemory>
    ensures { IfOk result (λ apart. apart ≡ spec.are_apart on labels.now side.now) }
{
    match side {
        None => Ok(true),
        Some(side) => {
            if on {
                none_among(alloc, labels, side.include.as_slice())
            } else {
                Ok(true)
            }
        }
    }
}

fn none_among(alloc: Global, labels: &[Text], include: &[Text]) -> Result<bool, NoMemory>
    ensures { IfOk result (λ none. none ≡ list_all (spec.is_missing labels.now) include.now) }
{
    let names = names_of(alloc, labels)?;
    Ok(
        include
            .iter()
            .all(|label| is_missing(&names, label.as_str())),
    )
}

/// A table with these labels as its names, for look-ups.
fn names_of(alloc: Global, labels: &[Text]) -> Result<Table<()>, NoMemory>
    ensures { (name : seen.List ℕ)
        → IfOk result (λ names. is_some (value_at names name) ≡ list_any (bytes_eq name) labels.now) }
{
    let mut names = Table::new(alloc);
    for label in labels {
        names.insert(label.clone()?, ())?;
    }
    Ok(names)
}

fn is_missing(names: &Table<()>, label: &str) -> bool
    ensures { result ≡ is_none (value_at names.now label.now) }
{
    names.get(label).is_none()
}

/// What a binary operator makes of its operands.
#[tactic(auto, unfolding(crate::specs::Typed::binary_shape))]
pub(crate) fn binary(
    alloc: Global,
    op: BinaryOp,
    boolean: bool,
    matching: &Option<Matching>,
    shapes: &[Shape],
) -> Result<Option<Shape>, NoMemory>
    ensures { IfOk result (λ found. found ≡ spec.binary_shape op boolean matching.now shapes.now) }
{
    if have_types(shapes, &[ExprType::Scalar, ExprType::Scalar]) {
        if takes_scalars(op, matching) && (boolean || !op.is_comparison()) {
            Ok(Some(Shape::Scalar))
        } else {
            Ok(None)
        }
    } else if one_scalar(shapes) {
        Ok(vector_if(takes_scalars(op, matching)))
    } else if have_types(shapes, &[ExprType::Vector, ExprType::Vector]) {
        Ok(vector_if(may_match(alloc, op, matching)?))
    } else {
        Ok(None)
    }
}

fn one_scalar(shapes: &[Shape]) -> bool
    ensures { result ≡ spec.one_scalar shapes.now }
{
    have_types(shapes, &[ExprType::Scalar, ExprType::Vector])
        || have_types(shapes, &[ExprType::Vector, ExprType::Scalar])
}

fn vector_if(holds: bool) -> Option<Shape>
    ensures { result ≡ spec.vector_if holds }
{
    if holds { Some(Shape::Vector) } else { None }
}

#[tactic(auto, unfolding(crate::specs::Typed::takes_parameter))]
fn takes_parameter(op: AggregateOp, param: &[Shape]) -> bool
    ensures { result ≡ spec.takes_parameter op param.now }
{
    match op {
        AggregateOp::CountValues => {
            have_types(param, &[ExprType::Str]) && is_label_name(text_at(0, param))
        }
        AggregateOp::TopK => have_types(param, &[ExprType::Scalar]),
        AggregateOp::BottomK => have_types(param, &[ExprType::Scalar]),
        _ => have_types(param, &[]),
    }
}

/// What an aggregate makes of its parameter and of what it is of.
#[tactic(auto, unfolding(crate::specs::Typed::aggregate_shape))]
pub(crate) fn aggregate(op: AggregateOp, param: &[Shape], of: &[Shape]) -> Option<Shape>
    ensures { result ≡ spec.aggregate_shape op param.now of.now }
{
    vector_if(have_types(of, &[ExprType::Vector]) && takes_parameter(op, param))
}
