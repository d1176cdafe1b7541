use op_base::NoMemory;
use op_manifest::{Item, Shape, Tree, flag_or_false, noted_known};
use std::alloc::Global;

/// Whether monitors may name files.
#[derive(Clone, Copy, Debug, PartialEq, Eq)]
pub struct FileAccess {
    pub deny: bool,
}

impl Item for FileAccess {
    ghost use Rattle.op_manifest.specs.Checks.{table};
    ghost use Rattle.kind_admin.specs.PrometheusTables as spec;

    ghost wrongs = { table spec.access_rows };

    ghost of = { spec.access_of };

    fn read(
        found: &mut Option<Shape>,
        alloc: Global,
        tree: &Tree,
        path: &str,
    ) -> Result<FileAccess, NoMemory> {
        noted_known(found, alloc, tree, &["deny"], path)?;
        let deny = flag_or_false(found, alloc, tree, "deny", path)?;
        Ok(FileAccess { deny })
    }
}
