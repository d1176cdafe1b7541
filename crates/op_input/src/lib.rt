//! Input lines: what the bytes of a line ask for, whose it is, or which rule on shape they break first, and where.
//!
//! [`read_input_line`] reads each line, by the readers of `op_manifest`. Read `specs/InputLines.antt` first, then
//! `specs/Owners.antt`. [`read_line`] reads of these what a run takes today.
#![tactic(auto)]

mod breach;
mod delete;
mod entry;
mod event;
mod keys;
mod kind;
mod labels;
mod line;
mod page;
mod put;
mod reading;
mod sample;
mod targets;
mod texts;
mod tick;

pub use event::{InputEvent, own_namespace};
pub use line::{InputLine, is_blank, read_line};
pub use reading::{read_change_line, read_input_line};
