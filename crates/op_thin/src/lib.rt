//! Thin objects: which manifests are read so far, which of them are kept, and the configuration that
//! is compiled of them.
//!
//! `specs/Items.antt` says what the bytes of a manifest are, `specs/Objects.antt` which objects are
//! present, and `specs/Compiled.antt` which configuration they have.
#![tactic(auto)]

mod compiled;
mod fields;
mod item;
mod judged;
mod objects;
mod probe;
mod recording;
mod rule;

pub use compiled::compile;
pub use item::{Item, item_names, item_of};
pub use judged::Judged;
pub use objects::Objects;
pub use probe::ThinProbe;
pub use recording::Recording;
pub use rule::ThinRule;
