//! Where the product meets the world: sources and sinks of bytes, folders of files, and lines of a
//! source. Each comes as a trait, in memory with calls that fail as listed, without failures, and
//! over the real system.
//!
//! Read `specs/Causes.antt` first: an answer `Failed` comes only where a count of faults rose.
#![tactic(auto)]

mod files;
mod folder;
mod held;
mod lines;
mod memory;
mod plan;
mod real;
mod sink;
mod source;
mod step;
mod sure;

pub use folder::{FileRead, Folder, FolderError};
pub use lines::{Line, LineReader};
pub use memory::{MemFolder, MemSink, MemSource};
pub use real::{DirFolder, StdSink, StdSource};
pub use sink::{Sink, put_all};
pub use source::{Failed, Source};
pub use sure::{SureFolder, SureSink, SureSource};
