//! What the nodes of a PromQL expression make of their operands: operators, vector matching,
//! aggregates and functions over whole numbers.
//!
//! Each family of nodes has its page of definitions in `specs/`; `specs/Operands.antt` is the first one
//! to read, and `specs/Clashes.antt` says when two elements clash.
#![tactic(auto)]

mod aggregates;
mod arithmetic;
mod calls;
mod changed;
mod clashes;
mod counters;
mod function;
mod keys;
mod label_calls;
mod labels;
mod laws;
mod matching;
mod naming;
mod numbers;
mod operand;
mod operators;
mod outcome;
mod over_time;
mod ranked;
mod sets;
mod values;

pub use aggregates::aggregate;
pub use arithmetic::arith;
pub use calls::call;
pub use changed::Changed;
pub use function::{Function, RangeFunction};
pub use laws::{
    best_are_kept, clashes_are_least, groups_by_key, labels_by_name, nodes_keep_order,
    partners_by_key, ranges_by_neighbours, sets_by_key, vectors_by_labels,
};
pub use operand::{Operand, elements_at, failure_in, number_at, outcome_of, scalar_at, text_at};
pub use operators::signed;
pub use outcome::Outcome;
pub use over_time::over;
pub use sets::binary;
