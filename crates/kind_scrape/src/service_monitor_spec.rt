use crate::endpoint::Endpoint;
use crate::needed::{needed_item, needed_items};
use crate::target_label::TargetLabel;
use op_base::{List, NoMemory, Selector, Text};
use op_manifest::{
    Item, NamespaceSelector, Shape, Tree, noted_item, noted_known, noted_number, noted_text,
    noted_worded_items, or_none,
};
use std::alloc::Global;

/// What a ServiceMonitor asks for.
#[derive(Debug, PartialEq, Eq, Drop)]
pub struct ServiceMonitorSpec {
    /// The label of a service that names the job.
    pub job_label: Option<Text>,
    /// The labels of a service that its targets get.
    pub target_labels: List<Text>,
    pub endpoints: List<Endpoint>,
    pub selector: Selector,
    pub namespace_selector: Option<NamespaceSelector>,
    pub sample_limit: Option<u64>,
}

impl Item for ServiceMonitorSpec {
    ghost use Rattle.op_manifest.specs.Checks.{table};
    ghost use Rattle.kind_scrape.specs.MonitorTables as spec;

    ghost wrongs = { table spec.service_monitor_rows };

    ghost of = { spec.service_monitor_spec_of };

    fn read(
        found: &mut Option<Shape>,
        alloc: Global,
        tree: &Tree,
        path: &str,
    ) -> Result<ServiceMonitorSpec, NoMemory> {
        let names = [
            "jobLabel",
            "targetLabels",
            "endpoints",
            "selector",
            "namespaceSelector",
            "sampleLimit",
        ];
        noted_known(found, alloc, tree, &names, path)?;
        let job_label = noted_text(found, alloc, tree, "jobLabel", path)?;
        let labels = noted_worded_items::<TargetLabel>(found, alloc, tree, "targetLabels", path)?;
        let endpoints = needed_items(found, alloc, tree, "endpoints", path)?;
        let selector = needed_item(found, alloc, tree, "selector", path)?;
        let namespace_selector = noted_item(found, alloc, tree, "namespaceSelector", path)?;
        let sample_limit = noted_number(found, alloc, tree, "sampleLimit", path)?;
        Ok(ServiceMonitorSpec {
            job_label,
            target_labels: or_none(alloc, labels),
            endpoints,
            selector,
            namespace_selector,
            sample_limit,
        })
    }
}
