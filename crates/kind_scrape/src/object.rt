ghost use Rattle.std.specs.Prelude.{◌≡◌, true};
ghost use Rattle.op_manifest.specs.Heads.{kind_in};
ghost use Rattle.op_manifest.specs.Shapes.{ReadsBy};
ghost use Rattle.op_manifest.specs.Trees.{data_of};
ghost use Rattle.kind_scrape.specs.ScrapeObjects as spec;

use crate::pod_monitor::{PodMonitorObject, read_pod_monitor};
use crate::probe::{ProbeObject, read_probe};
use crate::service_monitor::{ServiceMonitorObject, read_service_monitor};
use op_base::Kind;
use op_manifest::{ShapeFault, Tree, kind_of};
use std::alloc::Global;

/// What a tenant wants scraped: services, pods, or addresses by a prober.
#[derive(Debug, PartialEq, Eq, Drop)]
pub enum ScrapeObject {
    Service(ServiceMonitorObject),
    Pod(PodMonitorObject),
    Probe(ProbeObject),
}

/// Reads a manifest of one of these kinds. `Broken` tells the first rule on shape that it breaks.
pub fn read_scrape(alloc: Global, tree: &Tree) -> Result<ScrapeObject, ShapeFault>
    requires { spec.is_scrape_kind (kind_in (data_of tree.now)) ≡ true }
    ensures { ReadsBy (λ object. object) result
        (spec.scrape_wrongs (kind_in (data_of tree.now)) (data_of tree.now))
        (spec.scrape_of (kind_in (data_of tree.now)) (data_of tree.now)) }
{
    match kind_of(tree) {
        Some(Kind::ServiceMonitor) => match read_service_monitor(alloc, tree) {
            Ok(monitor) => Ok(ScrapeObject::Service(monitor)),
            Err(fault) => Err(fault),
        },
        Some(Kind::PodMonitor) => match read_pod_monitor(alloc, tree) {
            Ok(monitor) => Ok(ScrapeObject::Pod(monitor)),
            Err(fault) => Err(fault),
        },
        _ => match read_probe(alloc, tree) {
            Ok(probe) => Ok(ScrapeObject::Probe(probe)),
            Err(fault) => Err(fault),
        },
    }
}
