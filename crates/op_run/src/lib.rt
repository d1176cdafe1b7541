//! A run over what it is handed: the manifests of a folder, the lines of an input, and the sinks that
//! take its lines.
//!
//! `compile_files` writes what the manifests say and their configuration; `run_files` goes on with the
//! lines of an input over what was compiled. Read `specs/Outputs.antt` first.
#![tactic(auto)]

mod compiling;
mod configuration;
mod files;
mod folder;
mod input;
mod lines;
mod manifest;
mod reports;
mod running;
mod stop;

pub use compiling::compile_files;
pub use files::{MOST_FILE_BYTES, NamedFile, Trouble, read_manifests};
pub use running::run_files;
pub use stop::Stop;
