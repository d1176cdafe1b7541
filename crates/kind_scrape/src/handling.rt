// How often is scraped, and what is done with what was scraped.
ghost use Rattle.std.specs.Prelude.{◌≡◌};
ghost use Rattle.op_manifest.specs.Trees.{data_of};
ghost use Rattle.op_manifest.specs.Shapes.{Adds};
ghost use Rattle.op_manifest.specs.Checks as check;
ghost use Rattle.kind_scrape.specs.EndpointTables as spec;

use op_base::{NoMemory, Span};
use op_manifest::{Shape, Tree, above_zero, flag_or_false, noted_flag, noted_span};
use std::alloc::Global;

/// How often is scraped, and how long a scrape may take, where that is given.
#[derive(Clone, Copy, Debug, PartialEq, Eq)]
pub struct Timing {
    pub interval: Option<Span>,
    pub scrape_timeout: Option<Span>,
}

/// Whether a scraped label wins over one of the target, and whether a scraped moment counts, where that is given.
#[derive(Clone, Copy, Debug, PartialEq, Eq)]
pub struct Handling {
    pub honor_labels: bool,
    pub honor_timestamps: Option<bool>,
}

/// How often is scraped; a span of 0 counts as absent.
pub(crate) fn noted_timing(
    found: &mut Option<Shape>,
    alloc: Global,
    tree: &Tree,
    path: &str,
) -> Result<Timing, NoMemory>
    ensures { Adds (λ timing. timing) found.old found.new result
        (check.rows_wrongs spec.timing_rows path.now (data_of tree.now)) (spec.timing_of (data_of tree.now)) }
{
    let every = noted_span(found, alloc, tree, "interval", path)?;
    let within = noted_span(found, alloc, tree, "scrapeTimeout", path)?;
    let interval = above_zero(every);
    let scrape_timeout = above_zero(within);
    Ok(Timing {
        interval,
        scrape_timeout,
    })
}

/// What is done with scraped labels and moments.
pub(crate) fn noted_handling(
    found: &mut Option<Shape>,
    alloc: Global,
    tree: &Tree,
    path: &str,
) -> Result<Handling, NoMemory>
    ensures { Adds (λ handling. handling) found.old found.new result
        (check.rows_wrongs spec.handling_rows path.now (data_of tree.now)) (spec.handling_of (data_of tree.now)) }
{
    let honor_labels = flag_or_false(found, alloc, tree, "honorLabels", path)?;
    let honor_timestamps = noted_flag(found, alloc, tree, "honorTimestamps", path)?;
    Ok(Handling {
        honor_labels,
        honor_timestamps,
    })
}
