//! PromQL trees rewritten: the enforcement of a label, and the text of a tree.
//!
//! Read `specs/Enforced.antt` and `specs/Printed.antt` of `ql_tree` first, which say what an enforced
//! tree and a printed text are.
#![tactic(auto)]

mod clauses;
mod conflicts;
mod enforcing;
mod printing;
mod selectors;

pub use enforcing::{EnforceFault, enforce};
pub use printing::print;
