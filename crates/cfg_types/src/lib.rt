//! The compiled configuration: its types and the text that is written for it.
//!
//! `specs/Written.antt` says which JSON a configuration is; its compact text is the configuration's
//! bytes. There is no Alertmanager until settings are read. `specs/Jobs.antt` has the jobs of
//! Prometheus, `specs/Steps.antt` their relabelling steps.
#![tactic(auto)]

mod config;
mod job;
mod jobs;
mod steps;
mod texts;
mod written;

pub use config::{Config, Group, PromPart, Rule, RuleFile};
pub use job::{Job, StaticConfig};
pub use written::{file_text, text};
