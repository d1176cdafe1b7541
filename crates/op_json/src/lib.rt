//! JSON that is written, as values without floats with their compact text, and JSON that is read.
//!
//! `specs/Json.antt` says what a value that is written is and which text it has; `specs/Reading.antt` which
//! value bytes are, and which members an object may have. The work is `serde_json`'s.
#![tactic(auto)]

mod reading;
mod written;

pub use reading::{read_json, stray};
pub use written::{push_item, put_field, put_text, put_text_if, text_of};
