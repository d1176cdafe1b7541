//! The tokens of PromQL texts, with the place of each.
//!
//! What the tokens of a text are stands in ql_tree's `specs/Tokens.antt` and `specs/Strings.antt`.
#![tactic(auto)]

mod bytes;
mod cut;
mod digits;
mod fault;
mod front;
mod strings;

pub use cut::tokens;
pub use fault::TokenFault;
pub use ql_tree::{Token, TokenKind};
pub use strings::escape;
