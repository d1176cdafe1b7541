ghost use Rattle.std.specs.Prelude.{◌≡◌, ◌<◌, ◌≤◌, ◌^◌, [], min, length, Some, IsOk, IfOk, OnOk, OnErr, false};
ghost use Rattle.std.specs.Io.{ReadsAtMost};
ghost use Rattle.std.specs.Io.KnownBytes.{ReadConsumes};
ghost use Rattle.op_edges.specs.Folders.{ListsNames, ReadsFile, FitsIn, with_file, is_failed};
ghost use Rattle.op_edges.specs.Streams.{TakesSome};

use crate::files::{list_in, put_in, read_in};
use crate::folder::{FileRead, Folder, FolderError};
use crate::memory::read_part;
use crate::sink::Sink;
use crate::source::{Failed, Source};
use op_base::{List, NoMemory, Table, Text};
use std::alloc::Global;
use std::marker::Model;

/// A source in memory that never fails. Contracts see the bytes left.
#[derive(Drop)]
pub struct SureSource {
    bytes: List<u8>,
    at: usize,
}

impl Model for SureSource {
    ghost use Rattle.std.specs.Prelude.{ℕ, List, ◌≤◌, length, drop};

    ghost Value = { List ℕ };

    ghost view = { λ it. drop it.at it.bytes };

    ghost invariant = { λ it. it.at ≤ length it.bytes };
}

impl SureSource {
    pub fn new(bytes: List<u8>) -> SureSource
        ensures { result ≡ bytes }
    {
        SureSource { bytes, at: 0 }
    }
}

impl Source for SureSource {
    ghost use Rattle.std.specs.Prelude.{Some};

    ghost left = { λ s. Some s };

    ghost faults = { λ _. 0 };

    fn read(&mut self, into: &mut [u8]) -> Result<usize, Failed>
        ensures bound { ReadsAtMost result into.new }
        ensures bytes { ReadConsumes (Some self.old) (Some self.new) result into.new }
        ensures sure { IsOk result }
        ensures count { IfOk result (λ count. count ≡ min (length into.new) (length self.old)) }
    {
        let count = read_part(self.bytes.as_slice(), self.at, into);
        self.at += count;
        Ok(count)
    }
}

/// A sink that never fails. It drops its bytes and tells none.
#[derive(Clone, Copy, Debug, PartialEq, Eq)]
pub struct SureSink;

impl SureSink {
    pub fn new() -> SureSink {
        SureSink
    }
}

impl Sink for SureSink {
    ghost use Rattle.std.specs.Prelude.{None};

    ghost taken = { λ _. None };

    ghost faults = { λ _. 0 };

    fn write(&mut self, piece: &[u8]) -> Result<usize, Failed>
        ensures bound { TakesSome result piece.now }
        ensures sure { IsOk result }
        ensures count { IfOk result (λ count. count ≡ length piece.now) }
    {
        Ok(piece.len())
    }
}

/// Folders in memory that never fail. Contracts see them.
#[derive(Drop)]
pub struct SureFolder {
    alloc: Global,
    folders: Table<Table<List<u8>>>,
}

impl Model for SureFolder {
    ghost use Rattle.op_base.specs.Maps.{Map};
    ghost use Rattle.std.specs.Prelude.{List, ℕ};

    ghost Value = { Map (Map (List ℕ)) };

    ghost view = { λ it. it.folders };
}

impl SureFolder {
    /// No folder.
    pub fn new(alloc: Global) -> SureFolder
        ensures { result ≡ [] }
    {
        SureFolder {
            alloc,
            folders: Table::new(alloc),
        }
    }

    /// Sets that one file, in a folder that it adds where there is none.
    pub fn put(&mut self, dir: &str, name: &str, bytes: List<u8>) -> Result<(), NoMemory>
        ensures ok { OnOk result (self.new ≡ with_file self.old dir.now name.now bytes) }
        ensures err { OnErr result (self.new ≡ self.old) }
    {
        put_in(self.alloc, &mut self.folders, dir, name, bytes)
    }
}

impl Folder for SureFolder {
    ghost use Rattle.std.specs.Prelude.{Some};

    ghost content = { λ s. Some s };

    ghost faults = { λ _. 0 };

    fn list(&mut self, alloc: Global, dir: &str) -> Result<List<Text>, FolderError>
        ensures names { ListsNames (Some self.old) dir.now result }
        ensures content { self.new ≡ self.old }
        ensures sure { is_failed result ≡ false }
    {
        list_in(alloc, &self.folders, dir)
    }

    fn read_file(
        &mut self,
        alloc: Global,
        dir: &str,
        name: &str,
        room: usize,
    ) -> Result<FileRead, FolderError>
        ensures bound { IfOk result (FitsIn room) }
        ensures read { ReadsFile (Some self.old) dir.now name.now room result }
        ensures content { self.new ≡ self.old }
        ensures sure { is_failed result ≡ false }
    {
        read_in(alloc, &self.folders, dir, name, room)
    }
}
