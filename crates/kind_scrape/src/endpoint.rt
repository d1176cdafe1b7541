use crate::address::{Address, noted_address};
use crate::credentials::{Credentials, noted_credentials, noted_secrets};
use crate::handling::{Handling, Timing, noted_handling, noted_timing};
use crate::params::{Parameter, noted_params};
use crate::relabelings::noted_steps;
use crate::tls::{TlsConfig, noted_pod_tls};
use op_base::{List, NoMemory};
use op_manifest::{Item, Shape, Tree, noted_item, noted_known};
use op_relabel::Step;
use std::alloc::Global;

/// A port that is scraped, and how.
#[derive(Debug, PartialEq, Eq, Drop)]
pub struct Endpoint {
    pub address: Address,
    /// The parameters of the URL in the order of their names.
    pub params: List<Parameter>,
    pub timing: Timing,
    pub handling: Handling,
    pub credentials: Credentials,
    pub tls_config: Option<TlsConfig>,
    /// The steps that each target's labels go through.
    pub relabelings: List<Step>,
    /// The steps that each sample's labels go through.
    pub metric_relabelings: List<Step>,
}

/// An endpoint of a PodMonitor: one that names no file.
#[derive(Debug, PartialEq, Eq, Drop)]
pub struct PodEndpoint {
    pub endpoint: Endpoint,
}

impl Item for Endpoint {
    ghost use Rattle.op_manifest.specs.Checks.{table};
    ghost use Rattle.kind_scrape.specs.EndpointTables as spec;

    ghost wrongs = { table spec.endpoint_rows };

    ghost of = { spec.endpoint_of };

    fn read(
        found: &mut Option<Shape>,
        alloc: Global,
        tree: &Tree,
        path: &str,
    ) -> Result<Endpoint, NoMemory> {
        let names = [
            "port",
            "path",
            "scheme",
            "params",
            "interval",
            "scrapeTimeout",
            "honorLabels",
            "honorTimestamps",
            "basicAuth",
            "bearerTokenSecret",
            "bearerTokenFile",
            "authorization",
            "tlsConfig",
            "relabelings",
            "metricRelabelings",
        ];
        noted_known(found, alloc, tree, &names, path)?;
        let address = noted_address(found, alloc, tree, path)?;
        let params = noted_params(found, alloc, tree, "params", path)?;
        let timing = noted_timing(found, alloc, tree, path)?;
        let handling = noted_handling(found, alloc, tree, path)?;
        let credentials = noted_credentials(found, alloc, tree, path)?;
        let tls_config = noted_item(found, alloc, tree, "tlsConfig", path)?;
        let relabelings = noted_steps(found, alloc, tree, "relabelings", path)?;
        let metric_relabelings = noted_steps(found, alloc, tree, "metricRelabelings", path)?;
        Ok(Endpoint {
            address,
            params,
            timing,
            handling,
            credentials,
            tls_config,
            relabelings,
            metric_relabelings,
        })
    }
}

impl Item for PodEndpoint {
    ghost use Rattle.op_manifest.specs.Checks.{table};
    ghost use Rattle.kind_scrape.specs.EndpointTables as spec;

    ghost wrongs = { table spec.pod_endpoint_rows };

    ghost of = { spec.pod_endpoint_of };

    fn read(
        found: &mut Option<Shape>,
        alloc: Global,
        tree: &Tree,
        path: &str,
    ) -> Result<PodEndpoint, NoMemory> {
        let names = [
            "port",
            "path",
            "scheme",
            "params",
            "interval",
            "scrapeTimeout",
            "honorLabels",
            "honorTimestamps",
            "basicAuth",
            "bearerTokenSecret",
            "authorization",
            "tlsConfig",
            "relabelings",
            "metricRelabelings",
        ];
        noted_known(found, alloc, tree, &names, path)?;
        let address = noted_address(found, alloc, tree, path)?;
        let params = noted_params(found, alloc, tree, "params", path)?;
        let timing = noted_timing(found, alloc, tree, path)?;
        let handling = noted_handling(found, alloc, tree, path)?;
        let credentials = noted_secrets(found, alloc, tree, path)?;
        let tls_config = noted_pod_tls(found, alloc, tree, "tlsConfig", path)?;
        let relabelings = noted_steps(found, alloc, tree, "relabelings", path)?;
        let metric_relabelings = noted_steps(found, alloc, tree, "metricRelabelings", path)?;
        let endpoint = Endpoint {
            address,
            params,
            timing,
            handling,
            credentials,
            tls_config,
            relabelings,
            metric_relabelings,
        };
        Ok(PodEndpoint { endpoint })
    }
}
