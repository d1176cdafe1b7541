ghost use Rattle.std.specs.Prelude.{[], unwrap_or};
ghost use Rattle.op_manifest.specs.Checks.{optional};
ghost use Rattle.op_manifest.specs.Maps as maps;
ghost use Rattle.op_manifest.specs.Shapes.{Adds};
ghost use Rattle.op_manifest.specs.Trees.{data_of};

use crate::relabelings::noted_steps;
use op_base::{List, NoMemory, Tags, Text};
use op_manifest::{
    AnyText, Item, LabelName, Shape, Tree, noted_item, noted_items, noted_known, noted_map, or_none,
};
use op_relabel::Step;
use std::alloc::Global;

/// The targets of a Probe.
#[derive(Debug, PartialEq, Eq, Drop)]
pub struct ProbeTargets {
    pub static_config: Option<StaticConfig>,
}

/// Targets that are given by their addresses, with the labels and the steps of all of them.
#[derive(Debug, PartialEq, Eq, Drop)]
pub struct StaticConfig {
    pub addresses: List<Text>,
    pub labels: Tags,
    pub relabeling_configs: List<Step>,
}

impl Item for ProbeTargets {
    ghost use Rattle.op_manifest.specs.Checks.{table};
    ghost use Rattle.kind_scrape.specs.ProbeTables as spec;

    ghost wrongs = { table spec.target_rows };

    ghost of = { spec.targets_of };

    fn read(
        found: &mut Option<Shape>,
        alloc: Global,
        tree: &Tree,
        path: &str,
    ) -> Result<ProbeTargets, NoMemory> {
        noted_known(found, alloc, tree, &["staticConfig"], path)?;
        let static_config = noted_item(found, alloc, tree, "staticConfig", path)?;
        Ok(ProbeTargets { static_config })
    }
}

impl Item for StaticConfig {
    ghost use Rattle.op_manifest.specs.Checks.{table};
    ghost use Rattle.kind_scrape.specs.ProbeTables as spec;

    ghost wrongs = { table spec.static_rows };

    ghost of = { spec.static_of };

    fn read(
        found: &mut Option<Shape>,
        alloc: Global,
        tree: &Tree,
        path: &str,
    ) -> Result<StaticConfig, NoMemory> {
        let names = ["static", "labels", "relabelingConfigs"];
        noted_known(found, alloc, tree, &names, path)?;
        let addresses = noted_items(found, alloc, tree, "static", path)?;
        let labels = noted_labels(found, alloc, tree, "labels", path)?;
        let relabeling_configs = noted_steps(found, alloc, tree, "relabelingConfigs", path)?;
        Ok(StaticConfig {
            addresses: or_none(alloc, addresses),
            labels,
            relabeling_configs,
        })
    }
}

// The map of the field from label names to texts, or one without entries.
fn noted_labels(
    found: &mut Option<Shape>,
    alloc: Global,
    tree: &Tree,
    name: &str,
    path: &str,
) -> Result<Tags, NoMemory>
    ensures { Adds (λ map. map) found.old found.new result
        (optional maps.labels name.now path.now (data_of tree.now)) (unwrap_or (maps.map_in name.now (data_of tree.now)) []) }
{
    match noted_map::<LabelName, AnyText>(found, alloc, tree, name, path)? {
        Some(map) => Ok(map),
        None => Ok(Tags::new(alloc)),
    }
}
