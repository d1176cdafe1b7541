//! Relabelling: steps that turn a label set into another or drop it.
//!
//! `specs/Relabelled.antt` says what steps leave of a label set, `specs/Actions.antt` what each action
//! does, and `specs/Checks.antt` which steps are refused; `specs/Steps.antt` names the defaults of a step
//! and the steps that copy a label or put a value. Steps that can be run without a condition are
//! [`CheckedSteps`].
#![tactic(auto)]

mod actions;
mod checked;
mod checking;
mod hash;
mod names;
mod prepared;
mod relabelling;
mod step;
mod values;

pub use checked::CheckedSteps;
pub use checking::{StepFault, check};
pub use prepared::{PreparedStep, prepare};
pub use relabelling::{relabel, relabel_by};
pub use step::{Action, Step};
