//! The tables of `operator_cases`: rows of cells, each for one public call, and what it is to give.
//! `docs/cases.md` has their form.
//!
//! `tables.rt` judges the rows of a table, and `tables` has a module for each call; `compare.rt` counts what
//! is alike and says what differs, of cases too.
#![tactic(auto)]

mod cells;
mod compare;
mod tables;
mod trouble;

pub use cells::{cell_of, cells_of, is_row, number_of};
pub use compare::Tally;
pub use tables::{Call, judge_table, store_of};
pub use trouble::Trouble;
