//! The adapters in memory with their faults, those that never fail, and those over the real system.

use crate::things::{bytes_of, is_so, list_of};
use op_base::{List, NoMemory};
use op_edges::{
    DirFolder, Failed, FileRead, Folder, FolderError, MemFolder, MemSink, MemSource, Sink, Source,
    StdSink, StdSource, SureFolder, SureSink, SureSource, put_all,
};
use std::alloc::Global;
use std::test::Fail;
use std::{fs, io};

/// Whether a read into four bytes gives so many, of which that is the first.
fn reads<S: Source>(source: &mut S, count: usize, first: u8) -> bool {
    let mut into = [0; 4];
    match source.read(&mut into) {
        Ok(came) => came == count && into[0] == first,
        Err(Failed) => false,
    }
}

/// Whether all bytes are taken.
fn writes<O: Sink>(sink: &mut O, bytes: &[u8]) -> bool {
    put_all(sink, bytes).is_ok()
}

/// How many names a listing has, up to 2: `o` where it has more, `f` where the call fails and `m` for want
/// of memory.
fn listed<F: Folder>(alloc: Global, folder: &mut F, dir: &str) -> char {
    match folder.list(alloc, dir) {
        Ok(names) => digit(names.len()),
        Err(FolderError::Failed) => 'f',
        Err(FolderError::NoMemory) => 'm',
    }
}

fn digit(count: usize) -> char {
    match count {
        0 => '0',
        1 => '1',
        2 => '2',
        _ => 'o',
    }
}

/// What is read of a file: `w` where it has three bytes, `o` where it has others, `l` where it is longer
/// than the room, `f` where the call fails and `m` for want of memory.
fn read_of<F: Folder>(alloc: Global, folder: &mut F, name: &str, room: usize) -> char {
    match folder.read_file(alloc, "box", name, room) {
        Ok(FileRead::Whole(bytes)) => if bytes.len() == 3 { 'w' } else { 'o' },
        Ok(FileRead::Longer) => 'l',
        Err(FolderError::Failed) => 'f',
        Err(FolderError::NoMemory) => 'm',
    }
}

/// Whether the second read fails, as listed, and no byte is lost.
fn listed_read_fails(alloc: Global) -> Result<bool, NoMemory> {
    let mut source = MemSource::new(bytes_of(alloc, "abcdef")?, list_of(alloc, 2)?);
    Ok(
        reads(&mut source, 4, b'a')
            && source.read(&mut [0; 4]).is_err()
            && reads(&mut source, 2, b'e')
            && reads(&mut source, 0, 0),
    )
}

/// Whether the second write fails, as listed, and two bytes do where there is room for one.
fn listed_and_roomless_writes_fail(alloc: Global) -> Result<bool, NoMemory> {
    let mut sink = MemSink::new(alloc, 4, list_of(alloc, 2)?)?;
    Ok(
        writes(&mut sink, b"abc")
            && !writes(&mut sink, b"d")
            && !writes(&mut sink, b"de")
            && sink.taken() == b"abcd".as_slice(),
    )
}

/// The folders `box` with the files `a` and `b`, and `made` without one; the first call fails.
fn folder_in_memory(alloc: Global) -> Result<MemFolder, NoMemory> {
    let mut folder = MemFolder::new(alloc, list_of(alloc, 1)?);
    folder.put("box", "b", bytes_of(alloc, "xyz")?)?;
    folder.put("box", "a", List::new(alloc))?;
    folder.make("made")?;
    Ok(folder)
}

/// Whether the file `b` of the folder `box` is read, and not what isn't there.
fn reads_what_is_there<F: Folder>(alloc: Global, folder: &mut F) -> bool {
    read_of(alloc, folder, "b", 3) == 'w'
        && read_of(alloc, folder, "b", 2) == 'l'
        && read_of(alloc, folder, "c", 9) == 'f'
        && listed(alloc, folder, "none") == 'f'
}

/// Whether the first call fails, as listed, and the others answer.
fn listed_call_fails(alloc: Global) -> Result<bool, NoMemory> {
    let mut folder = folder_in_memory(alloc)?;
    Ok(
        listed(alloc, &mut folder, "box") == 'f'
            && listed(alloc, &mut folder, "box") == '2'
            && listed(alloc, &mut folder, "made") == '0'
            && reads_what_is_there(alloc, &mut folder),
    )
}

fn sure_source_reads(alloc: Global) -> Result<bool, NoMemory> {
    Ok(reads(&mut SureSource::new(bytes_of(alloc, "ab")?), 2, b'a'))
}

fn sure_folder_reads(alloc: Global) -> Result<bool, NoMemory> {
    let mut folder = SureFolder::new(alloc);
    folder.put("box", "b", bytes_of(alloc, "xyz")?)?;
    Ok(listed(alloc, &mut folder, "none") == '0' && read_of(alloc, &mut folder, "b", 3) == 'w')
}

#[test]
fn forms_in_memory_answer(rt: HostRuntime) {
    assert!(rt; is_so(listed_read_fails(rt.alloc())));
    assert!(rt; is_so(listed_and_roomless_writes_fail(rt.alloc())));
    assert!(rt; is_so(listed_call_fails(rt.alloc())));
    assert!(rt; is_so(sure_source_reads(rt.alloc())));
    assert!(rt; writes(&mut SureSink::new(), b"abc"));
    assert!(rt; is_so(sure_folder_reads(rt.alloc())));
}

#[test]
fn a_real_folder_is_listed_and_read(rt: HostRuntime) -> Result<(), Fail> {
    fs::create_dir_all(&rt, "box")?;
    fs::write(&rt, "box/b", "xyz")?;
    let mut folder = DirFolder::new(rt.clone()?);
    assert!(rt; listed(rt.alloc(), &mut folder, "box") == '1');
    assert!(rt; reads_what_is_there(rt.alloc(), &mut folder));
    fs::remove_dir_all(&rt, "box")?;
    Ok(())
}

/// Whether a file gives what it took, and then its end.
fn takes_and_gives(rt: &HostRuntime) -> io::Result<bool> {
    let is_taken = writes(&mut StdSink::new(fs::create(rt, "taken")?), b"xyz");
    let mut source = StdSource::new(fs::open(rt, "taken")?);
    Ok(is_taken && reads(&mut source, 3, b'x') && reads(&mut source, 0, 0))
}

/// Whether a file that is open for writing alone gives nothing.
fn gives_nothing(rt: &HostRuntime) -> io::Result<bool> {
    Ok(
        StdSource::new(fs::create(rt, "taken")?)
            .read(&mut [0; 4])
            .is_err(),
    )
}

/// Whether a file that is open for reading alone takes nothing.
fn takes_nothing(rt: &HostRuntime) -> io::Result<bool> {
    Ok(!writes(&mut StdSink::new(fs::open(rt, "taken")?), b"x"))
}

#[test]
fn a_real_file_takes_and_gives_bytes(rt: HostRuntime) {
    assert!(rt; matches!(takes_and_gives(&rt), Ok(true)));
    assert!(rt; matches!(gives_nothing(&rt), Ok(true)));
    assert!(rt; matches!(takes_nothing(&rt), Ok(true)));
    assert!(rt; fs::remove_file(&rt, "taken").is_ok());
}
