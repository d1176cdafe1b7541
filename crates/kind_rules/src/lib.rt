//! A tenant's rules and routes as they are written: PrometheusRule objects, groups of rules with each expression as a
//! text, and AlertmanagerConfig objects, with a route, receivers and inhibition rules.
//!
//! Read `specs/RuleTables.antt` first: the fields of a rule and of a group in reading order, and what they are read as.
#![tactic(auto)]

mod alertmanager_config;
mod expression;
mod group;
mod object;
mod prometheus_rule;
mod prometheus_rule_spec;
mod rule;

pub use alertmanager_config::{AlertmanagerConfigObject, read_alertmanager_config};
pub use group::RuleGroup;
pub use object::{RuleObject, read_rules};
pub use prometheus_rule::{PrometheusRuleObject, read_prometheus_rule};
pub use prometheus_rule_spec::PrometheusRuleSpec;
pub use rule::Rule;
