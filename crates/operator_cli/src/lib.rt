//! The whole of the program `operator` over what it is handed: the words after its name, a folder, an
//! input, standard output and standard error.
//!
//! `operate`, in `program.rt`, carries the program's promise as its contract. Read `specs/Endings.antt`
//! first, and `specs/Outputs.antt` and `specs/Headline.antt` of the crate `op_run`.
#![tactic(auto)]

mod compiling;
mod program;
mod running;
mod status;
mod words;

pub use program::operate;
pub use status::Status;
