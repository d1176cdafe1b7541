use crate::needed::text_or;
use crate::scheme::{Scheme, noted_scheme};
use op_base::{NoMemory, Text};
use op_manifest::{Item, Shape, Tree, needed_text, noted_known};
use std::alloc::Global;

/// The exporter that probes the targets: its address, and how it is reached.
#[derive(Debug, PartialEq, Eq, Drop)]
pub struct Prober {
    pub url: Text,
    pub scheme: Scheme,
    pub path: Text,
}

impl Item for Prober {
    ghost use Rattle.op_manifest.specs.Checks.{table};
    ghost use Rattle.kind_scrape.specs.ProbeTables as spec;

    ghost wrongs = { table spec.prober_rows };

    ghost of = { spec.prober_of };

    fn read(
        found: &mut Option<Shape>,
        alloc: Global,
        tree: &Tree,
        path: &str,
    ) -> Result<Prober, NoMemory> {
        noted_known(found, alloc, tree, &["url", "scheme", "path"], path)?;
        let url = needed_text(found, alloc, tree, "url", path)?;
        let scheme = noted_scheme(found, alloc, tree, "scheme", path)?;
        let at = text_or(found, alloc, tree, "path", path, "/probe")?;
        Ok(Prober {
            url,
            scheme,
            path: at,
        })
    }
}
