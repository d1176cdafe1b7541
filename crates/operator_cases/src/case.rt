ghost use Rattle.std.specs.Prelude.{◌≡◌, ◌<◌};

use crate::faults::{check_faults, numbers_behind, room_behind};
use crate::files::{Disk, Files, path_in};
use crate::manifests::put_manifests;
use crate::source_again::AgainSource;
use op_base::{List, Steps, Text};
use op_edges::{MemFolder, MemSink, MemSource, Source};
use operator_cli::{Status, operate};
use operator_tables::{Tally, Trouble, cell_of, number_of};
use std::alloc::Global;
use std::marker::Brand;
use std::sync::ledger::{Blank, Ledger};

// What a case hands the program, but for its input.
#[derive(Drop)]
struct Run {
    words: Vec<String>,
    manifests: MemFolder,
    out: MemSink,
    err: MemSink,
}

/// Runs the case of this name in the folder, and answers whether it does what it should.
pub fn run_case(
    alloc: Global,
    disk: &mut Disk,
    dir: &str,
    name: &str,
    tally: &mut Tally,
) -> Result<bool, Trouble> {
    let dir = path_in(alloc, dir, name)?;
    let files = Files::read(alloc, disk, dir.as_str())?;
    check_names(files.names.as_slice())?;
    let mut run = run_of(alloc, &files)?;
    put_manifests(alloc, disk, dir.as_str(), &files, &mut run.manifests)?;
    judge(alloc, &files, &mut run, name, tally)
}

// Each name is that of a file of a case.
fn check_names(names: &[Text]) -> Result<(), Trouble> {
    for name in names {
        if !is_known(name.as_str()) {
            return Err(Trouble::Unreadable("a file has a name that no case has"));
        }
    }
    Ok(())
}

fn is_known(name: &str) -> bool {
    match name {
        "args" | "folder" | "more" | "stdin" | "input" | "again" => true,
        "faults" | "out" | "err" | "status" => true,
        _ => name.starts_with("out.only-"),
    }
}

// The run of a case whose folder of manifests is still empty.
fn run_of(alloc: Global, files: &Files) -> Result<Run, Trouble> {
    let faults = files.text("faults")?;
    check_faults(faults)?;
    Ok(Run {
        words: words_of(alloc, files.text("args")?)?,
        manifests: MemFolder::new(alloc, numbers_behind(alloc, faults, "folder fails ")?),
        out: sink_of(alloc, faults, "out room ", "out fails ")?,
        err: sink_of(alloc, faults, "err room ", "err fails ")?,
    })
}

fn words_of(alloc: Global, text: &str) -> Result<Vec<String>, Trouble> {
    let mut words = Vec::new(alloc);
    for line in text.lines() {
        words.push(String::from_str(alloc, line)?)?;
    }
    Ok(words)
}

fn sink_of(alloc: Global, faults: &str, room: &str, fails: &str) -> Result<MemSink, Trouble> {
    let fails = numbers_behind(alloc, faults, fails)?;
    Ok(MemSink::new(alloc, room_behind(faults, room)?, fails)?)
}

// The bytes that the case gives as its input.
fn input_of(alloc: Global, files: &Files) -> Result<List<u8>, Trouble> {
    if !files.has("input") {
        return Ok(List::from_vec(files.bytes("stdin").to_vec(alloc)?));
    }
    let written = files.text("input")?;
    let cell = cell_of(alloc, written.strip_suffix('\n').unwrap_or(written))?;
    Ok(List::from_vec(cell.into_string().into_bytes()))
}

// Whether the program does what the case wants.
fn judge(
    alloc: Global,
    files: &Files,
    run: &mut Run,
    name: &str,
    tally: &mut Tally,
) -> Result<bool, Trouble> {
    let status = run_over_input(alloc, files, run)?;
    let is_status = status_alike(alloc, files, name, status, tally)?;
    let is_out = out_alike(alloc, files, name, run.out.taken(), tally)?;
    let is_err = tally.compare(name, ": err", files.bytes("err"), run.err.taken())?;
    Ok(is_status && is_out && is_err)
}

// Runs the program over the input of the case.
fn run_over_input(alloc: Global, files: &Files, run: &mut Run) -> Result<Status, Trouble> {
    let total = total_of(files)?;
    let fails = numbers_behind(alloc, files.text("faults")?, "input fails ")?;
    Ok(run_bytes(alloc, run, input_of(alloc, files)?, fails, total))
}

// How many bytes the input gives, where it begins again and again.
fn total_of(files: &Files) -> Result<Option<u64>, Trouble> {
    if !files.has("again") {
        return Ok(None);
    }
    Ok(Some(number_of(files.text("again")?.trim())?))
}

fn run_bytes(
    alloc: Global,
    run: &mut Run,
    bytes: List<u8>,
    fails: List<u64>,
    total: Option<u64>,
) -> Status {
    match total {
        Some(total) => run_once(alloc, run, &mut AgainSource::new(bytes, total, fails)),
        None => run_once(alloc, run, &mut MemSource::new(bytes, fails)),
    }
}

fn run_once<S: Source>(alloc: Global, run: &mut Run, input: &mut S) -> Status {
    run_counted::<S, Brand>(alloc, run, input, Blank::new(1))
}

// Runs the program. Its steps are counted in a new ledger.
fn run_counted<S: Source, L: Ledger>(
    alloc: Global,
    run: &mut Run,
    input: &mut S,
    blank: Blank,
) -> Status
    requires name { blank.name ≡ L.name }
    requires parts { blank.parts ≡ L.parts }
    requires some { 0 < L.parts }
{
    let mut steps: Steps<L> = Steps::new(blank);
    operate(
        alloc,
        run.words.as_slice(),
        &mut run.manifests,
        input,
        &mut run.out,
        &mut run.err,
        &mut steps,
    )
}

fn status_alike(
    alloc: Global,
    files: &Files,
    name: &str,
    status: Status,
    tally: &mut Tally,
) -> Result<bool, Trouble> {
    let code = status.code();
    let found = format!(in alloc; "{code}")?;
    let wanted = if files.has("status") {
        files.text("status")?.trim()
    } else {
        "0"
    };
    Ok(tally.compare(name, ": status", wanted.as_bytes(), found.as_bytes())?)
}

// What standard output takes, or what it takes for each of some namespaces.
fn out_alike(
    alloc: Global,
    files: &Files,
    name: &str,
    taken: &[u8],
    tally: &mut Tally,
) -> Result<bool, Trouble> {
    let mut is_shared = false;
    let mut is_alike = true;
    for file in files.names.as_slice() {
        if let Some(namespace) = file.as_str().strip_prefix("out.only-") {
            is_shared = true;
            let lines = lines_of(alloc, taken, namespace)?;
            let wanted = files.bytes(file.as_str());
            is_alike = tally.compare(name, ": out.only", wanted, lines.as_slice())? && is_alike;
        }
    }
    if !is_shared || files.has("out") {
        is_alike = tally.compare(name, ": out", files.bytes("out"), taken)? && is_alike;
    }
    Ok(is_alike)
}

// The lines that begin with the namespace and a tab.
fn lines_of(alloc: Global, taken: &[u8], namespace: &str) -> Result<Vec<u8>, Trouble> {
    let front = format!(in alloc; "{namespace}\t")?;
    let mut lines = Vec::new(alloc);
    for line in taken.split(|b| *b == b'\n') {
        if line.starts_with(front.as_bytes()) {
            lines.extend_from_slice(line)?;
            lines.push(b'\n')?;
        }
    }
    Ok(lines)
}
