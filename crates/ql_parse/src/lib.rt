//! The parser of PromQL: from texts to the trees that spell them.
//!
//! What it means that a text spells a tree stands in ql_tree's `specs/Spells.antt`.
#![tactic(auto)]

mod clauses;
mod climbing;
mod endings;
mod fault;
mod fronts;
mod keywords;
mod lists;
mod nodes;
mod operators;
mod parser;
mod selectors;
mod unescaped;
mod values;
mod words;

pub use fault::ParseFault;
pub use parser::{parse, trees_spell};
