use op_base::{List, Table, Text};
use op_edges::{DirFolder, FileRead, Folder};
use operator_tables::Trouble;
use std::alloc::Global;
use std::str;

/// The folders of the file system.
pub type Disk = DirFolder<HostRuntime>;

// The most bytes of a file.
const MOST_BYTES: usize = 1 << 26;

/// The name that a case gives the folder of its manifests.
pub const FOLDER: &str = "folder";

/// The path of what has this name in the folder.
pub fn path_in(alloc: Global, dir: &str, name: &str) -> Result<String, Trouble> {
    Ok(format!(in alloc; "{dir}/{name}")?)
}

/// The names in a folder, in order.
pub fn names_in(alloc: Global, disk: &mut Disk, dir: &str) -> Result<List<Text>, Trouble> {
    Ok(disk.list(alloc, dir)?)
}

/// The bytes of a file.
pub fn bytes_of(
    alloc: Global,
    disk: &mut Disk,
    dir: &str,
    name: &str,
) -> Result<List<u8>, Trouble> {
    match disk.read_file(alloc, dir, name, MOST_BYTES)? {
        FileRead::Whole(bytes) => Ok(bytes),
        FileRead::Longer => Err(Trouble::Unreadable("a file is longer than 64 MiB")),
    }
}

/// The files of a folder: their names, and the bytes of each.
#[derive(Drop)]
pub struct Files {
    pub names: List<Text>,
    bytes: Table<List<u8>>,
}

impl Files {
    /// Reads all files of a folder. What is called `folder` isn't read.
    pub fn read(alloc: Global, disk: &mut Disk, dir: &str) -> Result<Files, Trouble> {
        let names = names_in(alloc, disk, dir)?;
        let mut bytes = Table::new(alloc);
        read_each(alloc, disk, dir, names.as_slice(), &mut bytes)?;
        Ok(Files { names, bytes })
    }

    /// Whether there is a file of this name.
    pub fn has(&self, name: &str) -> bool {
        self.names.as_slice().iter().any(|it| it.as_str() == name)
    }

    /// The bytes of the file of this name; none where it isn't there.
    pub fn bytes(&self, name: &str) -> &[u8] {
        match self.bytes.get(name) {
            Some(bytes) => bytes.as_slice(),
            None => &[],
        }
    }

    /// The text of the file of this name; empty where it isn't there.
    pub fn text(&self, name: &str) -> Result<&str, Trouble> {
        match str::from_utf8(self.bytes(name)) {
            Ok(text) => Ok(text),
            Err(_) => Err(Trouble::Unreadable("a file isn't UTF-8")),
        }
    }
}

fn read_each(
    alloc: Global,
    disk: &mut Disk,
    dir: &str,
    names: &[Text],
    bytes: &mut Table<List<u8>>,
) -> Result<(), Trouble> {
    for name in names {
        if name.as_str() != FOLDER {
            bytes.insert(name.clone()?, bytes_of(alloc, disk, dir, name.as_str())?)?;
        }
    }
    Ok(())
}
