//! Report lines: what the program says of each event, as views and as the bytes of a line.
//!
//! `specs/Lines.antt` says which line a view has: the tenant's namespace or `-`, a TAB, compact JSON
//! with the fields in byte order, and a newline. `specs/ReadBack.antt` says how a namespace's lines
//! are found again among all of them.
#![tactic(auto)]

mod answer;
mod change;
mod line;
mod listed;
mod read_back;
mod tick;
mod view;

pub use answer::answers_well;
pub use line::{global_line, report_line, tenant_line};
pub use read_back::{keeps_last_line, reads_back};
pub use view::{AlertView, Also, Report, View};
