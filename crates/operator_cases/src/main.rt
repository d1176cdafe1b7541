//! The program `operator_cases`: it runs cases, which are data, and compares what the product gives with
//! what is wanted. `docs/cases.md` has the form of cases and tables.
//!
//! `groups.rt` walks through the folder, and `case.rt` runs one case; the library `operator_tables` judges
//! the rows of tables. Nothing here promises more than that it ends: what the calls give is promised
//! by their own contracts, and what is wanted is said by the data.
#![tactic(auto)]

mod case;
mod faults;
mod files;
mod groups;
mod manifests;
mod source_again;

use crate::groups::run_all;
use op_base::Text;
use op_edges::{DirFolder, StdSink, put_all};
use operator_tables::Trouble;
use std::env;
use std::process::ExitCode;

fn main(rt: HostRuntime) -> ExitCode {
    match run(&rt) {
        Ok(true) => ExitCode::SUCCESS,
        Ok(false) => ExitCode::FAILURE,
        Err(trouble) => complain(&rt, trouble),
    }
}

// Runs the cases of the folder that the one word names.
fn run(rt: &HostRuntime) -> Result<bool, Trouble> {
    let root = root_of(rt)?;
    let mut folder = DirFolder::new(rt.clone()?);
    let mut out = StdSink::new(rt.stdout());
    run_all(rt.alloc(), &mut folder, &mut out, root.as_str())
}

fn root_of(rt: &HostRuntime) -> Result<Text, Trouble> {
    let Ok(words) = env::args(rt) else {
        return Err(Trouble::Unreadable("the words aren't text"));
    };
    let words: Vec<String> = words.skip(1).collect(rt.alloc())?;
    match words.as_slice() {
        [root] => Ok(Text::from_str(rt.alloc(), root.as_str())?),
        _ => Err(Trouble::Unreadable("the words are one, a folder")),
    }
}

fn complain(rt: &HostRuntime, trouble: Trouble) -> ExitCode {
    let why = match trouble {
        Trouble::NoMemory => "memory was refused",
        Trouble::Unreadable(why) => why,
    };
    let mut err = StdSink::new(rt.stderr());
    let _ = put_all(&mut err, why.as_bytes());
    let _ = put_all(&mut err, b"\n");
    ExitCode::FAILURE
}
