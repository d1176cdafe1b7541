//! The server: it keeps pages, known namespaces, the store and the states of rules, and runs a
//! configuration at each tick.
//!
//! `specs/Served.antt` says what each event leaves and says, `specs/Memories.antt` what a tick gives, and
//! `specs/Shares.antt` what of it is said to whom.
#![tactic(auto)]

mod event;
mod loading;
mod reports;
mod server;
mod shares;
mod tick;

pub use event::{Event, EventFault};
pub use server::Server;
