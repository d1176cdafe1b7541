use op_base::{Labels, List};

/// What an expression comes to: a vector, whose elements stand in label order, a scalar, or a
/// failure.
#[derive(Debug, PartialEq, Eq, Drop)]
pub enum Outcome {
    Vector(List<(Labels, i64)>),
    Scalar(i64),
    /// Two elements clash. These are their label sets before the step in which they do, in label
    /// order.
    Clash(Labels, Labels),
    /// A scalar was divided by zero.
    ZeroScalar,
}
