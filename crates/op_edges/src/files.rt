ghost use Rattle.std.specs.Prelude.{◌≡◌, false, IfOk, OnOk, OnErr};
ghost use Rattle.std.specs.Option.{option_copied};
ghost use Rattle.op_base.specs.Maps.{value_at};
ghost use Rattle.op_edges.specs.Folders.{files_of, names_of, file_of, with_folder, with_file, read_within, FitsIn, AreInOrder, is_failed};

use crate::folder::{FileRead, FolderError};
use op_base::{List, NoMemory, Table, Text};
use std::alloc::Global;

type Folders = Table<Table<List<u8>>>;

pub(crate) fn make_in(alloc: Global, folders: &mut Folders, dir: &str) -> Result<(), NoMemory>
    ensures ok { OnOk result (folders.new ≡ with_folder folders.old dir.now) }
    ensures err { OnErr result (folders.new ≡ folders.old) }
{
    if folders.get(dir).is_some() {
        return Ok(());
    }
    folders.insert(Text::from_str(alloc, dir)?, Table::new(alloc))
}

pub(crate) fn put_in(
    alloc: Global,
    folders: &mut Folders,
    dir: &str,
    name: &str,
    bytes: List<u8>,
) -> Result<(), NoMemory>
    ensures ok { OnOk result (folders.new ≡ with_file folders.old dir.now name.now bytes) }
    ensures err { OnErr result (folders.new ≡ folders.old) }
{
    let outer = Text::from_str(alloc, dir)?;
    let inner = Text::from_str(alloc, name)?;
    folders.insert_in(alloc, outer, inner, bytes)
}

pub(crate) fn list_in(
    alloc: Global,
    folders: &Folders,
    dir: &str,
) -> Result<List<Text>, FolderError>
    ensures names { IfOk result (λ names. names ≡ names_of folders.now dir.now) }
    ensures order { IfOk result AreInOrder }
    ensures sure { is_failed result ≡ false }
{
    match folders.get(dir) {
        Some(files) => Ok(files.keys(alloc)?),
        None => Ok(List::new(alloc)),
    }
}

pub(crate) fn file_in<'a>(folders: &'a Folders, dir: &str, name: &str) -> Option<&'a List<u8>>
    ensures { option_copied result ≡ value_at (files_of folders.now dir.now) name.now }
{
    match folders.get(dir) {
        Some(files) => files.get(name),
        None => None,
    }
}

pub(crate) fn read_in(
    alloc: Global,
    folders: &Folders,
    dir: &str,
    name: &str,
    room: usize,
) -> Result<FileRead, FolderError>
    ensures read { IfOk result
        (λ read. read ≡ read_within room (file_of folders.now dir.now name.now)) }
    ensures bound { IfOk result (FitsIn room) }
    ensures sure { is_failed result ≡ false }
{
    match file_in(folders, dir, name) {
        Some(bytes) => read_bytes(alloc, bytes.as_slice(), room),
        None => Ok(FileRead::Whole(List::new(alloc))),
    }
}

fn read_bytes(alloc: Global, bytes: &[u8], room: usize) -> Result<FileRead, FolderError>
    ensures read { IfOk result (λ read. read ≡ read_within room bytes.now) }
    ensures bound { IfOk result (FitsIn room) }
    ensures sure { is_failed result ≡ false }
{
    if room < bytes.len() {
        return Ok(FileRead::Longer);
    }
    Ok(FileRead::Whole(List::from_vec(bytes.to_vec(alloc)?)))
}
