use crate::fields::noted_flag;
use crate::forms::{NamespaceName, noted_worded_items};
use crate::items::{Item, or_none};
use crate::shape::Shape;
use crate::strays::noted_known;
use crate::tree::Tree;
use op_base::{List, NoMemory, Text};
use std::alloc::Global;

/// The namespaces in which a monitor looks for objects: any, else those that are named. Where neither stands, it is
/// the monitor's own.
#[derive(Debug, PartialEq, Eq, Drop)]
pub struct NamespaceSelector {
    pub any: bool,
    pub match_names: List<Text>,
}

impl Item for NamespaceSelector {
    ghost use Rattle.op_manifest.specs.Checks.{table};
    ghost use Rattle.op_manifest.specs.Namespaces as spec;

    ghost wrongs = { table spec.namespaces_rows };

    ghost of = { spec.namespaces_of };

    fn read(
        found: &mut Option<Shape>,
        alloc: Global,
        tree: &Tree,
        path: &str,
    ) -> Result<NamespaceSelector, NoMemory> {
        noted_known(found, alloc, tree, &["any", "matchNames"], path)?;
        let any = noted_flag(found, alloc, tree, "any", path)?;
        let match_names = noted_worded_items::<NamespaceName>(
            found,
            alloc,
            tree,
            "matchNames",
            path,
        )?;
        Ok(NamespaceSelector {
            any: any.unwrap_or(false),
            match_names: or_none(alloc, match_names),
        })
    }
}
