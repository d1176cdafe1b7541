ghost use Rattle.std.specs.Prelude.{◌≡◌, ◌<◌, ◌≤◌, ◌^◌, ◌+◌, ◌-◌, ◌++◌, ◌||◌, false, [], min, length, take, drop, is_err, IfOk, OnOk, OnErr, IsErrOf};
ghost use Rattle.std.specs.Io.{ReadsAtMost};
ghost use Rattle.std.specs.Io.KnownBytes.{ReadConsumes, WriteAppends};
ghost use Rattle.op_edges.specs.Causes.{Rose};
ghost use Rattle.op_edges.specs.Streams.{TakesSome};
ghost use Rattle.op_edges.specs.Folders.{ListsNames, ReadsFile, FitsIn, with_folder, with_file, is_failed};
ghost use Rattle.op_edges.specs.Plans.{fresh_plan, fails_next, after_call, is_full, refuses, refuses_list, refuses_file};

use crate::files::{file_in, list_in, make_in, put_in, read_in};
use crate::folder::{FileRead, Folder, FolderError};
use crate::plan::Plan;
use crate::sink::Sink;
use crate::source::{Failed, Source};
use op_base::{List, NoMemory, Table, Text};
use std::alloc::Global;
use std::marker::Model;

/// A source in memory. Contracts see the bytes left and the plan of its calls. A read gives as much
/// as there is room for and fails exactly where the number of the call is listed.
#[derive(Drop)]
pub struct MemSource {
    bytes: List<u8>,
    at: usize,
    plan: Plan,
}

impl Model for MemSource {
    ghost use Rattle.std.specs.Prelude.{◌≤◌, length, drop};
    ghost use Rattle.op_edges.specs.Plans.{SourceState};

    ghost Value = { SourceState };

    ghost view = { λ it. record { left = drop it.at it.bytes; plan = it.plan } };

    ghost invariant = { λ it. it.at ≤ length it.bytes };
}

impl MemSource {
    /// A source of these bytes; `fails` lists the numbers of the reads that fail, counted from 1.
    pub fn new(bytes: List<u8>, fails: List<u64>) -> MemSource
        ensures { result ≡ record { left = bytes; plan = fresh_plan fails } }
    {
        MemSource {
            bytes,
            at: 0,
            plan: Plan::new(fails),
        }
    }
}

impl Source for MemSource {
    ghost use Rattle.std.specs.Prelude.{Some};

    ghost left = { λ s. Some s.left };

    ghost faults = { λ s. s.plan.faults };

    fn read(&mut self, into: &mut [u8]) -> Result<usize, Failed>
        ensures bound { ReadsAtMost result into.new }
        ensures bytes { ReadConsumes (Some self.old.left) (Some self.new.left) result into.new }
        ensures later { self.old.plan.faults ≤ self.new.plan.faults }
        ensures counted { self.new.plan.faults < 2 ^ 64 }
        ensures failed { OnErr result (Rose self.old.plan.faults self.new.plan.faults) }
        ensures fails { is_err result ≡ fails_next self.old.plan }
        ensures count { IfOk result
            (λ count. count ≡ min (length into.new) (length self.old.left)) }
        ensures plan { self.new.plan ≡ after_call (is_err result) self.old.plan }
    {
        let fails = self.plan.fails_next();
        self.plan.count(fails);
        if fails {
            return Err(Failed);
        }
        let count = read_part(self.bytes.as_slice(), self.at, into);
        self.at += count;
        Ok(count)
    }
}

/// Moves bytes from the place `at` of `bytes` to the front of `into`, as many as fit.
pub(crate) fn read_part(bytes: &[u8], at: usize, into: &mut [u8]) -> usize
    requires { at ≤ length bytes.now }
    ensures count { result ≡ min (length into.new) (length (drop at bytes.now)) }
    ensures within { at + result ≤ length bytes.now }
    ensures bytes { drop at bytes.now ≡ take result into.new ++ drop (at + result) bytes.now }
{
    let count = into.len().min(bytes.len() - at);
    into[..count].copy_from_slice(&bytes[at..at + count]);
    count
}

/// A sink in memory. Contracts see the bytes taken, the room and the plan of its calls. A write
/// takes as much as there is room for. It fails exactly where the number of the call is listed, or
/// no byte of room is left for a piece that isn't empty.
#[derive(Drop)]
pub struct MemSink {
    taken: Vec<u8>,
    room: usize,
    plan: Plan,
}

impl Model for MemSink {
    ghost use Rattle.std.specs.Prelude.{◌≤◌, vec_len, vec_capacity};
    ghost use Rattle.op_edges.specs.Plans.{SinkState};

    ghost Value = { SinkState };

    ghost view = { λ it. record { taken = it.taken.items; room = it.room; plan = it.plan } };

    ghost invariant = { λ it. (vec_len it.taken ≤ it.room) × (it.room ≤ vec_capacity it.taken) };
}

impl MemSink {
    /// An empty sink with room for `room` bytes; `fails` lists the numbers of the writes that fail,
    /// counted from 1.
    pub fn new(alloc: Global, room: usize, fails: List<u64>) -> Result<MemSink, NoMemory>
        ensures { IfOk result
            (λ sink. sink ≡ record { taken = []; room = room; plan = fresh_plan fails }) }
    {
        Ok(MemSink {
            taken: Vec::with_capacity(alloc, room)?,
            room,
            plan: Plan::new(fails),
        })
    }

    /// The bytes that it took.
    pub fn taken(&self) -> &[u8]
        ensures { result.now ≡ self.now.taken }
    {
        self.taken.as_slice()
    }
}

impl Sink for MemSink {
    ghost use Rattle.std.specs.Prelude.{Some};

    ghost taken = { λ s. Some s.taken };

    ghost faults = { λ s. s.plan.faults };

    fn write(&mut self, piece: &[u8]) -> Result<usize, Failed>
        ensures bound { TakesSome result piece.now }
        ensures bytes { WriteAppends (Some self.old.taken) (Some self.new.taken) result piece.now }
        ensures later { self.old.plan.faults ≤ self.new.plan.faults }
        ensures counted { self.new.plan.faults < 2 ^ 64 }
        ensures failed { OnErr result (Rose self.old.plan.faults self.new.plan.faults) }
        ensures fails { is_err result ≡ refuses self.old piece.now }
        ensures count { IfOk result
            (λ count. count ≡ min (length piece.now) (self.old.room - length self.old.taken)) }
        ensures room { self.new.room ≡ self.old.room }
        ensures plan { self.new.plan ≡ after_call (is_err result) self.old.plan }
    {
        let fails = refuses(&self.plan, self.room, self.taken.as_slice(), piece);
        self.plan.count(fails);
        if fails {
            return Err(Failed);
        }
        let count = piece.len().min(self.room - self.taken.len());
        self.taken.extend_from_slice(&piece[..count]).unwrap();
        Ok(count)
    }
}

fn refuses(plan: &Plan, room: usize, taken: &[u8], piece: &[u8]) -> bool
    ensures fails { result ≡ (fails_next plan.now || is_full room taken.now piece.now) }
    ensures room { result ≡ false → 0 < length piece.now → length taken.now < room }
{
    plan.fails_next() || is_full(room, taken, piece)
}

fn is_full(room: usize, taken: &[u8], piece: &[u8]) -> bool
    ensures full { result ≡ is_full room taken.now piece.now }
    ensures room { result ≡ false → 0 < length piece.now → length taken.now < room }
{
    !piece.is_empty() && taken.len() >= room
}

/// Folders in memory. Contracts see them and the plan of the calls. A call fails exactly where its
/// number is listed, or the folder or file isn't there.
#[derive(Drop)]
pub struct MemFolder {
    alloc: Global,
    folders: Table<Table<List<u8>>>,
    plan: Plan,
}

impl Model for MemFolder {
    ghost use Rattle.op_edges.specs.Plans.{FolderState};

    ghost Value = { FolderState };

    ghost view = { λ it. record { content = it.folders; plan = it.plan } };
}

impl MemFolder {
    /// No folder; `fails` lists the numbers of the calls of [`Folder`] that fail, counted from 1.
    pub fn new(alloc: Global, fails: List<u64>) -> MemFolder
        ensures { result ≡ record { content = []; plan = fresh_plan fails } }
    {
        MemFolder {
            alloc,
            folders: Table::new(alloc),
            plan: Plan::new(fails),
        }
    }

    /// Adds an empty folder where there is none of that name.
    pub fn make(&mut self, dir: &str) -> Result<(), NoMemory>
        ensures ok { OnOk result
            (self.new ≡ record self.old { content = with_folder self.old.content dir.now }) }
        ensures err { OnErr result (self.new ≡ self.old) }
    {
        make_in(self.alloc, &mut self.folders, dir)
    }

    /// Sets that one file, in a folder that it adds where there is none.
    pub fn put(&mut self, dir: &str, name: &str, bytes: List<u8>) -> Result<(), NoMemory>
        ensures ok { OnOk result (self.new
            ≡ record self.old { content = with_file self.old.content dir.now name.now bytes }) }
        ensures err { OnErr result (self.new ≡ self.old) }
    {
        put_in(self.alloc, &mut self.folders, dir, name, bytes)
    }
}

impl Folder for MemFolder {
    ghost use Rattle.std.specs.Prelude.{Some};

    ghost content = { λ s. Some s.content };

    ghost faults = { λ s. s.plan.faults };

    fn list(&mut self, alloc: Global, dir: &str) -> Result<List<Text>, FolderError>
        ensures names { ListsNames (Some self.old.content) dir.now result }
        ensures content { self.new.content ≡ self.old.content }
        ensures later { self.old.plan.faults ≤ self.new.plan.faults }
        ensures counted { self.new.plan.faults < 2 ^ 64 }
        ensures failed { IsErrOf result FolderError.Failed
            → Rose self.old.plan.faults self.new.plan.faults }
        ensures fails { is_failed result ≡ refuses_list self.old dir.now }
        ensures plan { self.new.plan ≡ after_call (is_failed result) self.old.plan }
    {
        let fails = self.plan.fails_next() || self.folders.get(dir).is_none();
        self.plan.count(fails);
        if fails {
            return Err(FolderError::Failed);
        }
        list_in(alloc, &self.folders, dir)
    }

    fn read_file(
        &mut self,
        alloc: Global,
        dir: &str,
        name: &str,
        room: usize,
    ) -> Result<FileRead, FolderError>
        ensures bound { IfOk result (FitsIn room) }
        ensures read { ReadsFile (Some self.old.content) dir.now name.now room result }
        ensures content { self.new.content ≡ self.old.content }
        ensures later { self.old.plan.faults ≤ self.new.plan.faults }
        ensures counted { self.new.plan.faults < 2 ^ 64 }
        ensures failed { IsErrOf result FolderError.Failed
            → Rose self.old.plan.faults self.new.plan.faults }
        ensures fails { is_failed result ≡ refuses_file self.old dir.now name.now }
        ensures plan { self.new.plan ≡ after_call (is_failed result) self.old.plan }
    {
        let fails = self.plan.fails_next() || file_in(&self.folders, dir, name).is_none();
        self.plan.count(fails);
        if fails {
            return Err(FolderError::Failed);
        }
        read_in(alloc, &self.folders, dir, name, room)
    }
}
