//! The evaluator of PromQL over whole numbers.
//!
//! `specs/Values.antt` says what an expression means over a store at a moment, node by node. That an
//! expression with an enforced label means over all entries what it means as it is written over the
//! entries of that label alone is the contract of `enforced_alike`.
#![tactic(auto)]

ghost use Rattle.ql_eval.specs.AbsentLabels.{AbsentByName};
ghost use Rattle.ql_eval.specs.Enforcement.{IsEnforcedAlike};

mod absent;
mod evaluation;
mod patterns;
mod selector;

pub use evaluation::eval;
pub use patterns::read_patterns;

/// The value of an enforced expression is the value of the expression as it is written, over the
/// entries of the one namespace.
pub fn enforced_alike()
    ensures { IsEnforcedAlike }
{}

/// A label that `absent` of a selector gives is that of the first equality on its name, where no other
/// matcher on the name follows.
pub fn absent_by_name()
    ensures { AbsentByName }
{}
