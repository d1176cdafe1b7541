//! The tables of rows for one call each.

mod enforced;
mod evaluated;
mod expanded;
mod label_cells;
mod manifests;
mod matchers;
mod names;
mod patterns;
mod printed;
mod spans;
mod tokens;
mod types;
mod words;

use crate::cells::{cells_of, is_row};
use crate::compare::Tally;
use crate::trouble::Trouble;
pub use evaluated::store_of;
use op_base::{NoMemory, Text};
use srv_store::Store;
use std::alloc::Global;

/// The calls that have tables.
#[derive(Clone, Copy)]
pub enum Call {
    Enforced,
    Evaluated,
    Expanded,
    Manifests,
    Matchers,
    Names,
    Patterns,
    Printed,
    Spans,
    Tokens,
    Types,
    Words,
}

impl Call {
    /// The call whose tables stand in the folder of this name.
    pub fn of_name(name: &str) -> Option<Call> {
        match name {
            "enforced" => Some(Call::Enforced),
            "evaluated" => Some(Call::Evaluated),
            "expanded" => Some(Call::Expanded),
            "manifests" => Some(Call::Manifests),
            "matchers" => Some(Call::Matchers),
            "names" => Some(Call::Names),
            "patterns" => Some(Call::Patterns),
            "printed" => Some(Call::Printed),
            "spans" => Some(Call::Spans),
            "tokens" => Some(Call::Tokens),
            "types" => Some(Call::Types),
            "words" => Some(Call::Words),
            _ => None,
        }
    }
}

/// What is said of a row with too many cells or too few.
pub fn misfit() -> Result<Text, Trouble> {
    Err(Trouble::Unreadable("the row has too many cells or too few"))
}

/// The text of both parts.
pub fn said(alloc: Global, front: &str, rest: &str) -> Result<Text, NoMemory> {
    let mut text = Text::from_str(alloc, front)?;
    text.push_str(rest)?;
    Ok(text)
}

/// Counts the rows of a table.
pub fn judge_table(
    alloc: Global,
    call: Call,
    store: &Store,
    rows: &str,
    tally: &mut Tally,
) -> Result<(), NoMemory> {
    let mut number: u64 = 0;
    for row in rows.lines() {
        number = number.saturating_add(1);
        if is_row(row) {
            let name = format!(in alloc; "{number}")?;
            let outcome = is_alike(alloc, call, store, row, name.as_str(), tally);
            tally.count(name.as_str(), outcome)?;
        }
    }
    Ok(())
}

// Whether the call gives what the row's last cell wants.
fn is_alike(
    alloc: Global,
    call: Call,
    store: &Store,
    row: &str,
    name: &str,
    tally: &mut Tally,
) -> Result<bool, Trouble> {
    let cells = cells_of(alloc, row)?;
    let wanted = wanted_of(cells.as_slice());
    let found = match cells.as_slice() {
        [given @ .., _] => found(alloc, call, store, given)?,
        [] => misfit()?,
    };
    if !tally.compare(name, ":", wanted.as_bytes(), found.as_bytes())? {
        return Ok(false);
    }
    if !is_printed_again(call, wanted) {
        return Ok(true);
    }
    let again = printed::printed(alloc, wanted)?;
    Ok(tally.compare(
        name,
        ": printed again, it",
        wanted.as_bytes(),
        again.as_bytes(),
    )?)
}

// `=` stands for the text of the row.
fn wanted_of(cells: &[Text]) -> &str {
    match cells {
        [text, wanted] => {
            if wanted.as_str() == "=" {
                text.as_str()
            } else {
                wanted.as_str()
            }
        }
        [.., wanted] => wanted.as_str(),
        [] => "",
    }
}

// What is printed is printed again as itself.
fn is_printed_again(call: Call, wanted: &str) -> bool {
    match call {
        Call::Printed => !wanted.starts_with("!"),
        _ => false,
    }
}

fn found(alloc: Global, call: Call, store: &Store, given: &[Text]) -> Result<Text, Trouble> {
    match call {
        Call::Enforced => enforced::found(alloc, given),
        Call::Evaluated => evaluated::found(alloc, store, given),
        Call::Expanded => expanded::found(alloc, given),
        Call::Manifests => manifests::found(alloc, given),
        Call::Matchers => matchers::found(alloc, given),
        Call::Names => names::found(alloc, given),
        Call::Patterns => patterns::found(alloc, given),
        Call::Printed => printed::found(alloc, given),
        Call::Spans => spans::found(alloc, given),
        Call::Tokens => tokens::found(alloc, given),
        Call::Types => types::found(alloc, given),
        Call::Words => words::found(alloc, given),
    }
}
