//! The trees of PromQL expressions, the words that the language reserves, and the type of a tree.
//!
//! The definitions of the whole language stand here, a page each: read `specs/Spells.antt` first.
#![tactic(auto)]

mod calls;
mod copies;
mod operators;
mod reserved;
mod rules;
mod shapes;
mod token;
mod tree;
mod types;
mod typing;
mod word;

pub use reserved::is_reserved;
pub use token::{Token, TokenKind};
pub use tree::{AggregateOp, ArithOp, BinaryOp, Expr, Grouping, Matching, Side};
pub use types::{ExprType, Shape, TypeFault};
pub use typing::{child, type_of};
pub use word::{Keyword, Word};
