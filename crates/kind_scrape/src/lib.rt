//! What a tenant wants scraped, as it is written: ServiceMonitor, PodMonitor and Probe objects.
//!
//! Read `specs/EndpointTables.antt` first, and then `specs/MonitorTables.antt`: the fields in reading order, and what
//! they are read as.
#![tactic(auto)]

mod action;
mod address;
mod credentials;
mod endpoint;
mod handling;
mod needed;
mod object;
mod params;
mod pod_monitor;
mod pod_monitor_spec;
mod probe;
mod probe_spec;
mod probe_targets;
mod prober;
mod relabelings;
mod scheme;
mod service_monitor;
mod service_monitor_spec;
mod target_label;
mod tls;

pub use address::Address;
pub use credentials::{Authorization, BasicAuth, Credentials};
pub use endpoint::{Endpoint, PodEndpoint};
pub use handling::{Handling, Timing};
pub use object::{ScrapeObject, read_scrape};
pub use params::Parameter;
pub use pod_monitor::{PodMonitorObject, read_pod_monitor};
pub use pod_monitor_spec::PodMonitorSpec;
pub use probe::{ProbeObject, read_probe};
pub use probe_spec::ProbeSpec;
pub use probe_targets::{ProbeTargets, StaticConfig};
pub use prober::Prober;
pub use scheme::Scheme;
pub use service_monitor::{ServiceMonitorObject, read_service_monitor};
pub use service_monitor_spec::ServiceMonitorSpec;
pub use tls::TlsConfig;
