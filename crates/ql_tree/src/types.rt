ghost use Rattle.std.specs.Prelude.{◌≡◌};

use op_base::{NoMemory, Text};
use std::alloc::AllocError;

/// The type of a PromQL expression.
#[derive(Clone, Copy, Debug, PartialEq, Eq)]
pub enum ExprType {
    Scalar,
    Vector,
    Range,
    Str,
}

/// A type, and of a string its text.
#[derive(Debug, Drop)]
pub enum Shape {
    Scalar,
    Vector,
    Range,
    Str(Text),
}

/// Why a tree has no type: the path of child numbers, joined by `.`, to the first node in post-order
/// that has none; or memory was refused.
#[derive(Debug, PartialEq, Eq, Drop)]
pub enum TypeFault {
    IllTyped(Text),
    NoMemory,
}

impl From<NoMemory> for TypeFault {
    ghost use Rattle.ql_tree.specs.declared.types.TypeFault.TheVariants.{NoMemory as no_memory};

    ghost from_gives = { λ _ e. e ≡ no_memory };

    fn from(_refused: NoMemory) -> Self {
        TypeFault::NoMemory
    }
}
