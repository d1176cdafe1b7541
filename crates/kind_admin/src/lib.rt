//! The administrator's objects and Secrets as they are written: Namespace and Secret objects, and what the Prometheus
//! object asks of scrapes, rules and tenants.
//!
//! Read `specs/Secrets.antt` first, and `specs/PrometheusTables.antt`: the fields in reading order, and what they are
//! read as.
#![tactic(auto)]

mod admin;
mod alertmanager;
mod choice;
mod decoded;
mod enforcing;
mod exclusion;
mod file_access;
mod globals;
mod namespace;
mod noted_data;
mod open_table;
mod parts;
mod prometheus;
mod secret;
mod selecting;
mod span_or;
mod strategy;

pub use admin::{AdminObject, Settings, read_admin};
pub use alertmanager::{AlertmanagerSpec, read_alertmanager};
pub use exclusion::Exclusion;
pub use file_access::FileAccess;
pub use namespace::{Namespace, read_namespace};
pub use prometheus::{PrometheusSpec, read_prometheus};
pub use secret::{Secret, read_secret};
pub use strategy::MatcherStrategy;
