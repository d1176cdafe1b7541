ghost use Rattle.std.specs.Prelude.{◌≡◌, OnOk};
ghost use Rattle.op_manifest.specs.Checks.{rows_wrongs};
ghost use Rattle.op_manifest.specs.Shapes.{Adds};
ghost use Rattle.op_manifest.specs.Shapes as shapes;
ghost use Rattle.op_manifest.specs.Trees.{data_of};
ghost use Rattle.kind_admin.specs.PrometheusTables as spec;

use crate::enforcing::{Enforcing, noted_enforcing};
use crate::globals::{Globals, noted_globals};
use crate::open_table::note_barred;
use crate::selecting::{Selecting, noted_selecting};
use op_base::NoMemory;
use op_manifest::{Shape, Tree, note_object};
use std::alloc::Global;

// What the `spec` of a Prometheus object asks for.
#[derive(Drop)]
pub(crate) struct PrometheusParts {
    pub(crate) selecting: Selecting,
    pub(crate) globals: Globals,
    pub(crate) enforcing: Enforcing,
}

/// What `spec` asks for. Fields that may not stand come before all others.
#[tactic(auto, using(op_manifest::proofs::ShapeLemmas::later_both))]
pub(crate) fn noted_parts(
    found: &mut Option<Shape>,
    alloc: Global,
    tree: &Tree,
    path: &str,
) -> Result<PrometheusParts, NoMemory>
    ensures { Adds (λ parts. parts) found.old found.new result
        (spec.prometheus_wrongs path.now (data_of tree.now)) (spec.parts_of (data_of tree.now)) }
{
    note_object(found, alloc, tree, path)?;
    note_all_barred(found, alloc, tree, path)?;
    let selecting = noted_selecting(found, alloc, tree, path)?;
    let globals = noted_globals(found, alloc, tree, path)?;
    let enforcing = noted_enforcing(found, alloc, tree, path)?;
    Ok(PrometheusParts {
        selecting,
        globals,
        enforcing,
    })
}

fn note_all_barred(
    found: &mut Option<Shape>,
    alloc: Global,
    tree: &Tree,
    path: &str,
) -> Result<(), NoMemory>
    ensures { OnOk result (found.new
        ≡ shapes.later found.old (rows_wrongs spec.barred_rows path.now (data_of tree.now))) }
{
    note_barred(found, alloc, tree, "additionalAlertManagerConfigs", path)?;
    note_barred(found, alloc, tree, "additionalAlertRelabelConfigs", path)?;
    note_barred(found, alloc, tree, "additionalScrapeConfigs", path)?;
    note_barred(found, alloc, tree, "remoteRead", path)?;
    note_barred(found, alloc, tree, "remoteWrite", path)?;
    note_barred(found, alloc, tree, "scrapeClasses", path)?;
    Ok(())
}
