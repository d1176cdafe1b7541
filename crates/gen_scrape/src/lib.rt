//! What one object that wants to be scraped gives to the configuration: its jobs, under any settings.
//!
//! Read `specs/ProbeJobs.antt` first, which has the job of a Probe field by field; `specs/InForce.antt` says which
//! interval, timeout and sample limit are in force. ServiceMonitor and PodMonitor objects have none yet.
#![tactic(auto)]

mod dollars;
mod in_force;
mod probe;
mod steps;

pub use probe::probe_job;
