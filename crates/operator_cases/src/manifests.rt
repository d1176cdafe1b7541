use crate::files::{Disk, FOLDER, Files, bytes_of, names_in, path_in};
use op_base::{List, Text};
use op_edges::MemFolder;
use operator_tables::{Trouble, cells_of, is_row, number_of};
use std::alloc::Global;

/// Puts the manifests of a case into the folder `DIR`.
pub fn put_manifests(
    alloc: Global,
    disk: &mut Disk,
    case: &str,
    files: &Files,
    manifests: &mut MemFolder,
) -> Result<(), Trouble> {
    manifests.make("DIR")?;
    if files.has(FOLDER) {
        put_files(
            alloc,
            disk,
            path_in(alloc, case, FOLDER)?.as_str(),
            manifests,
        )?;
    }
    put_more(alloc, files.text("more")?, manifests)
}

fn put_files(
    alloc: Global,
    disk: &mut Disk,
    dir: &str,
    manifests: &mut MemFolder,
) -> Result<(), Trouble> {
    let names = names_in(alloc, disk, dir)?;
    for name in names.as_slice() {
        let bytes = bytes_of(alloc, disk, dir, name.as_str())?;
        manifests.put("DIR", name.as_str(), bytes)?;
    }
    Ok(())
}

fn put_more(alloc: Global, rows: &str, manifests: &mut MemFolder) -> Result<(), Trouble> {
    for row in rows.lines() {
        if is_row(row) {
            put_row(alloc, cells_of(alloc, row)?.as_slice(), manifests)?;
        }
    }
    Ok(())
}

fn put_row(alloc: Global, cells: &[Text], manifests: &mut MemFolder) -> Result<(), Trouble> {
    match cells {
        [count, name, text] => {
            for before in 0..number_of(count.as_str())? {
                put_copy(alloc, before, name.as_str(), text.as_str(), manifests)?;
            }
            Ok(())
        }
        _ => Err(Trouble::Unreadable("a row of more has three cells")),
    }
}

// Puts the copy that so many stand before, with its number in place of each `#`.
fn put_copy(
    alloc: Global,
    before: u64,
    name: &str,
    text: &str,
    manifests: &mut MemFolder,
) -> Result<(), Trouble> {
    let copy = before.saturating_add(1);
    let number = format!(in alloc; "{copy:04}")?;
    let name = name.replace(alloc, '#', number.as_str())?;
    let text = text.replace(alloc, '#', number.as_str())?;
    manifests.put("DIR", name.as_str(), List::from_vec(text.into_bytes()))?;
    Ok(())
}
