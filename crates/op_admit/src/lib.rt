//! Selection: objects of all kinds as they are read, which of them the settings choose, the label that is enforced upon
//! each, and the Secrets that it names.
//!
//! Read `specs/Objects.antt` first, then `specs/Selected.antt`, `specs/EnforcedLabels.antt` and `specs/SecretNames.antt`.
#![tactic(auto)]

mod enforced;
mod namespace_tags;
mod object;
mod secret_names;
mod selection;

pub use enforced::enforced_label;
pub use namespace_tags::NAMESPACE_NAME_TAG;
pub use object::{Object, read_object};
pub use secret_names::named_secrets;
pub use selection::selected;
