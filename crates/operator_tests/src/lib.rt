//! The tests that no case can say: the adapters with their faults, over memory and over the real system,
//! and the public calls that no command reaches, one happy path each.
//!
//! `docs/calls.md` says of each public call where it is run.
#![tactic(auto)]

#[cfg(test)]
mod adapters;
#[cfg(test)]
mod base;
#[cfg(test)]
mod lines;
#[cfg(test)]
mod manifests;
#[cfg(test)]
mod relabelling;
#[cfg(test)]
mod reports;
#[cfg(test)]
mod rules;
#[cfg(test)]
mod scrapes;
#[cfg(test)]
mod server;
#[cfg(test)]
mod steps;
#[cfg(test)]
mod store;
#[cfg(test)]
mod things;
