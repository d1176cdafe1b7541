ghost use Rattle.op_manifest.specs.Checks.{rows_wrongs};
ghost use Rattle.op_manifest.specs.Shapes.{Adds};
ghost use Rattle.op_manifest.specs.Trees.{data_of};
ghost use Rattle.kind_admin.specs.PrometheusTables as spec;

use crate::choice::{Choice, noted_choice};
use op_base::NoMemory;
use op_manifest::{Shape, Tree};
use std::alloc::Global;

// Which objects a Prometheus object takes, of each kind.
#[derive(Drop)]
pub(crate) struct Selecting {
    pub(crate) service_monitors: Choice,
    pub(crate) pod_monitors: Choice,
    pub(crate) probes: Choice,
    pub(crate) rules: Choice,
}

/// Which objects are taken.
pub(crate) fn noted_selecting(
    found: &mut Option<Shape>,
    alloc: Global,
    tree: &Tree,
    path: &str,
) -> Result<Selecting, NoMemory>
    ensures { Adds (λ selecting. selecting) found.old found.new result
        (rows_wrongs spec.selecting_rows path.now (data_of tree.now)) (spec.selecting_of (data_of tree.now)) }
{
    let service_monitors = noted_choice(
        found,
        alloc,
        tree,
        "serviceMonitorSelector",
        "serviceMonitorNamespaceSelector",
        path,
    )?;
    let pod_monitors = noted_choice(
        found,
        alloc,
        tree,
        "podMonitorSelector",
        "podMonitorNamespaceSelector",
        path,
    )?;
    let probes = noted_choice(
        found,
        alloc,
        tree,
        "probeSelector",
        "probeNamespaceSelector",
        path,
    )?;
    let rules = noted_choice(
        found,
        alloc,
        tree,
        "ruleSelector",
        "ruleNamespaceSelector",
        path,
    )?;
    Ok(Selecting {
        service_monitors,
        pod_monitors,
        probes,
        rules,
    })
}
