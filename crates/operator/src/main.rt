//! The program `operator`: a compiler for the custom resources of the Prometheus Operator, and the server
//! that runs what it compiles.
//!
//! `operate` of the crate `operator_cli` is the whole program over what it is handed, and its contract is
//! the program's promise; `main` hands it the real folder, streams and words, and ends with its status.
#![tactic(auto)]

ghost use Rattle.std.specs.Prelude.{◌≡◌, ◌<◌};

use op_base::Steps;
use op_edges::{DirFolder, StdSink, StdSource, put_all};
use operator_cli::{Status, operate};
use std::env;
use std::io::ErrorKind;
use std::marker::Brand;
use std::process::ExitCode;
use std::sync::ledger::{Blank, Ledger};

fn main(rt: HostRuntime) -> ExitCode {
    let status = match words_of(&rt) {
        Ok(words) => start::<Brand>(&rt, words.as_slice(), Blank::new(1)),
        Err(status) => say(&rt, status),
    };
    ExitCode::from(status.code())
}

// Runs the program over the real folder and streams. Its steps are counted in a new ledger.
fn start<L: Ledger>(rt: &HostRuntime, words: &[String], blank: Blank) -> Status
    requires name { blank.name ≡ L.name }
    requires parts { blank.parts ≡ L.parts }
    requires some { 0 < L.parts }
{
    let Ok(system) = rt.clone() else {
        return say(rt, Status::NoMemory);
    };
    let mut folder = DirFolder::new(system);
    let mut input = StdSource::new(rt.stdin());
    let mut out = StdSink::new(rt.stdout());
    let mut err = StdSink::new(rt.stderr());
    let mut steps: Steps<L> = Steps::new(blank);
    operate(
        rt.alloc(),
        words,
        &mut folder,
        &mut input,
        &mut out,
        &mut err,
        &mut steps,
    )
}

// The words after the program's name. Words that aren't text have no reading.
fn words_of(rt: &HostRuntime) -> Result<Vec<String>, Status> {
    match env::args(rt) {
        Ok(args) => match args.skip(1).collect(rt.alloc()) {
            Ok(words) => Ok(words),
            Err(_) => Err(Status::NoMemory),
        },
        Err(error) => {
            if error.kind() == ErrorKind::OutOfMemory {
                Err(Status::NoMemory)
            } else {
                Err(Status::Usage)
            }
        }
    }
}

// Writes the text of a status that came before the program ran.
fn say(rt: &HostRuntime, status: Status) -> Status
    ensures { result ≡ status }
{
    let mut err = StdSink::new(rt.stderr());
    let _ = put_all(&mut err, status.text().as_bytes());
    status
}
