ghost use Rattle.std.specs.Prelude.{[], unwrap_or};
ghost use Rattle.op_manifest.specs.Checks.{rows_wrongs, optional};
ghost use Rattle.op_manifest.specs.Maps.{labels, map_in};
ghost use Rattle.op_manifest.specs.Shapes.{Adds};
ghost use Rattle.op_manifest.specs.Trees.{data_of};
ghost use Rattle.kind_admin.specs.PrometheusTables as spec;

use crate::span_or::span_or;
use op_base::{NoMemory, Span, Tags};
use op_manifest::{AnyText, LabelName, Shape, Tree, noted_map};
use std::alloc::Global;

// How often is scraped and evaluated, where it isn't given.
const INTERVAL: Span = Span(30_000);

// How long a scrape may take, where it isn't given.
const TIMEOUT: Span = Span(10_000);

// What holds for all scrapes and rules.
#[derive(Drop)]
pub(crate) struct Globals {
    pub(crate) external_labels: Tags,
    pub(crate) scrape_interval: Span,
    pub(crate) scrape_timeout: Span,
    pub(crate) evaluation_interval: Span,
}

/// What holds for all scrapes and rules.
pub(crate) fn noted_globals(
    found: &mut Option<Shape>,
    alloc: Global,
    tree: &Tree,
    path: &str,
) -> Result<Globals, NoMemory>
    ensures { Adds (λ globals. globals) found.old found.new result
        (rows_wrongs spec.global_rows path.now (data_of tree.now)) (spec.globals_of (data_of tree.now)) }
{
    let external_labels = noted_labels(found, alloc, tree, "externalLabels", path)?;
    let scrape_interval = span_or(found, alloc, tree, "scrapeInterval", path, INTERVAL)?;
    let scrape_timeout = span_or(found, alloc, tree, "scrapeTimeout", path, TIMEOUT)?;
    let evaluation_interval = span_or(found, alloc, tree, "evaluationInterval", path, INTERVAL)?;
    Ok(Globals {
        external_labels,
        scrape_interval,
        scrape_timeout,
        evaluation_interval,
    })
}

// The map of the field from label names to texts, or one without entries.
fn noted_labels(
    found: &mut Option<Shape>,
    alloc: Global,
    tree: &Tree,
    name: &str,
    path: &str,
) -> Result<Tags, NoMemory>
    ensures { Adds (λ map. map) found.old found.new result
        (optional labels name.now path.now (data_of tree.now)) (unwrap_or (map_in name.now (data_of tree.now)) []) }
{
    match noted_map::<LabelName, AnyText>(found, alloc, tree, name, path)? {
        Some(map) => Ok(map),
        None => Ok(Tags::new(alloc)),
    }
}
