ghost use Rattle.std.specs.Prelude.{◌≡◌, ◌+◌, ◌<◌, ◌≤◌, length, IfSome, IfOk, IfErr, OnOk, ◌++◌, ◌∷◌, []};
ghost use Rattle.std.specs.List.{flat_map};
ghost use Rattle.op_edges.specs.Causes.{Rose};
ghost use Rattle.op_edges.specs.Folders.{file_of};
ghost use Rattle.op_run.specs.Folders as spec;

use op_base::{List, NoMemory, Text};
use op_edges::{FileRead, Folder, FolderError};
use std::alloc::{AllocError, Global};

/// The most bytes that the manifests of a folder may have together.
pub const MOST_FILE_BYTES: usize = 67_108_864;

/// A file with its bytes.
#[derive(Debug, PartialEq, Eq, Drop)]
pub struct NamedFile {
    pub name: Text,
    pub bytes: List<u8>,
}

/// Why the manifests weren't read.
#[derive(Clone, Copy, Debug, PartialEq, Eq)]
pub enum Trouble {
    /// The folder failed.
    Folder,
    /// The files have more than [`MOST_FILE_BYTES`] together.
    Limit,
    Memory,
}

/// The folder's manifests: its files whose names end in `.json`, in the order of their names.
pub fn read_manifests<F: Folder>(
    alloc: Global,
    folder: &mut F,
    dir: &str,
) -> Result<List<NamedFile>, Trouble>
    ensures files { IfSome (F.content folder.old) (λ folders. IfOk result
        (λ files. files ≡ spec.manifests_in folders dir.now)) }
    ensures within { IfOk result (λ files. spec.bytes_in files ≤ spec.most_file_bytes) }
    ensures limit { IfSome (F.content folder.old) (λ folders. IfErr result (λ trouble.
        trouble ≡ Trouble.Limit → spec.most_file_bytes < spec.bytes_in
        (spec.manifests_in folders dir.now))) }
    ensures later { F.faults folder.old ≤ F.faults folder.new }
    ensures failed { IfErr result (λ trouble. trouble ≡ Trouble.Folder
        → Rose (F.faults folder.old) (F.faults folder.new)) }
{
    match folder.list(alloc, dir) {
        Ok(names) => read_named(alloc, folder, dir, names.as_slice()),
        Err(FolderError::Failed) => Err(Trouble::Folder),
        Err(FolderError::NoMemory) => Err(Trouble::Memory),
    }
}

fn read_named<F: Folder>(
    alloc: Global,
    folder: &mut F,
    dir: &str,
    names: &[Text],
) -> Result<List<NamedFile>, Trouble>
    ensures files { IfSome (F.content folder.old) (λ folders. IfOk result (λ files.
        files ≡ flat_map (spec.manifest_at folders dir.now) names.now)) }
    ensures within { IfOk result (λ files. spec.bytes_in files ≤ spec.most_file_bytes) }
    ensures limit { IfSome (F.content folder.old) (λ folders. IfErr result (λ trouble.
        trouble ≡ Trouble.Limit → spec.most_file_bytes < spec.bytes_in (flat_map
        (spec.manifest_at folders dir.now) names.now))) }
    ensures later { F.faults folder.old ≤ F.faults folder.new }
    ensures failed { IfErr result (λ trouble. trouble ≡ Trouble.Folder
        → Rose (F.faults folder.old) (F.faults folder.new)) }
{
    let mut files = List::new(alloc);
    let mut room = MOST_FILE_BYTES;
    for name in names {
        match read_next(alloc, folder, dir, name, &mut files, room) {
            Ok(left) => room = left,
            Err(trouble) => return Err(trouble),
        }
    }
    Ok(files)
}

// Reads the file of that name where it is a manifest, and says how much room is left.
fn read_next<F: Folder>(
    alloc: Global,
    folder: &mut F,
    dir: &str,
    name: &Text,
    files: &mut List<NamedFile>,
    room: usize,
) -> Result<usize, Trouble>
    ensures files { IfSome (F.content folder.old) (λ folders. OnOk result (files.new
        ≡ files.old ++ spec.manifest_at folders dir.now name.now)) }
    ensures room { IfOk result (λ left. left + spec.bytes_in files.new
        ≡ room + spec.bytes_in files.old) }
    ensures limit { IfSome (F.content folder.old) (λ folders. IfErr result (λ trouble.
        trouble ≡ Trouble.Limit → room < spec.bytes_in
        (spec.manifest_at folders dir.now name.now))) }
    ensures content { F.content folder.new ≡ F.content folder.old }
    ensures later { F.faults folder.old ≤ F.faults folder.new }
    ensures failed { IfErr result (λ trouble. trouble ≡ Trouble.Folder
        → Rose (F.faults folder.old) (F.faults folder.new)) }
{
    if !is_manifest_name(name.as_str()) {
        return Ok(room);
    }
    match folder.read_file(alloc, dir, name.as_str(), room) {
        Ok(FileRead::Whole(bytes)) => keep(files, name, bytes, room),
        Ok(FileRead::Longer) => Err(Trouble::Limit),
        Err(FolderError::Failed) => Err(Trouble::Folder),
        Err(FolderError::NoMemory) => Err(Trouble::Memory),
    }
}

fn keep(
    files: &mut List<NamedFile>,
    name: &Text,
    bytes: List<u8>,
    room: usize,
) -> Result<usize, Trouble>
    requires { length bytes ≤ room }
    ensures files { OnOk result (files.new ≡ files.old
        ++ (record { name = name.now; bytes = bytes }) ∷ []) }
    ensures room { IfOk result (λ left. left + length bytes ≡ room) }
    ensures memory { IfErr result (λ trouble. trouble ≡ Trouble.Memory) }
{
    let left = room - bytes.len();
    match name.clone() {
        Ok(name) => match files.push(NamedFile { name, bytes }) {
            Ok(()) => Ok(left),
            Err(NoMemory) => Err(Trouble::Memory),
        },
        Err(AllocError) => Err(Trouble::Memory),
    }
}

fn is_manifest_name(name: &str) -> bool
    ensures { result ≡ spec.is_manifest_name name.now }
{
    name.as_bytes().ends_with(b".json")
}
