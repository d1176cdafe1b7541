use crate::credentials::{Credentials, noted_secrets};
use crate::handling::{Timing, noted_timing};
use crate::needed::needed_item;
use crate::probe_targets::ProbeTargets;
use crate::prober::Prober;
use crate::relabelings::noted_steps;
use op_base::{List, NoMemory, Text};
use op_manifest::{Item, Shape, Tree, noted_item, noted_known, noted_number, noted_text};
use op_relabel::Step;
use std::alloc::Global;

/// What a Probe asks for.
#[derive(Debug, PartialEq, Eq, Drop)]
pub struct ProbeSpec {
    pub job_name: Option<Text>,
    pub prober: Prober,
    /// The module of the prober, `module` as it is written.
    pub module_name: Option<Text>,
    pub targets: Option<ProbeTargets>,
    pub timing: Timing,
    /// The steps that each sample's labels go through.
    pub metric_relabelings: List<Step>,
    pub credentials: Credentials,
    pub sample_limit: Option<u64>,
}

impl Item for ProbeSpec {
    ghost use Rattle.op_manifest.specs.Checks.{table};
    ghost use Rattle.kind_scrape.specs.ProbeTables as spec;

    ghost wrongs = { table spec.probe_rows };

    ghost of = { spec.probe_spec_of };

    fn read(
        found: &mut Option<Shape>,
        alloc: Global,
        tree: &Tree,
        path: &str,
    ) -> Result<ProbeSpec, NoMemory> {
        let names = [
            "jobName",
            "prober",
            "module",
            "targets",
            "interval",
            "scrapeTimeout",
            "metricRelabelings",
            "basicAuth",
            "bearerTokenSecret",
            "authorization",
            "sampleLimit",
        ];
        noted_known(found, alloc, tree, &names, path)?;
        let job_name = noted_text(found, alloc, tree, "jobName", path)?;
        let prober = needed_item(found, alloc, tree, "prober", path)?;
        let module_name = noted_text(found, alloc, tree, "module", path)?;
        let targets = noted_item(found, alloc, tree, "targets", path)?;
        let timing = noted_timing(found, alloc, tree, path)?;
        let metric_relabelings = noted_steps(found, alloc, tree, "metricRelabelings", path)?;
        let credentials = noted_secrets(found, alloc, tree, path)?;
        let sample_limit = noted_number(found, alloc, tree, "sampleLimit", path)?;
        Ok(ProbeSpec {
            job_name,
            prober,
            module_name,
            targets,
            timing,
            metric_relabelings,
            credentials,
            sample_limit,
        })
    }
}
