//! What the settings and one object with rules give to the configuration, under any settings.
//!
//! Read `specs/RuleFiles.antt` first, which has the rule file of a PrometheusRule object; `specs/Base.antt` has the
//! Prometheus part of the settings alone. Recording rules are all that a rule file holds yet.
#![tactic(auto)]

mod base_part;
mod rule_files;

pub use base_part::base;
pub use rule_files::rule_file;
