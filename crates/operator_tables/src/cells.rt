use crate::trouble::Trouble;
use op_base::{List, Text};
use std::alloc::Global;

/// Whether the line of a table is a row. An empty line isn't, and neither is a comment.
pub fn is_row(line: &str) -> bool {
    !line.is_empty() && !line.starts_with("# ")
}

/// The cells of a row.
pub fn cells_of(alloc: Global, row: &str) -> Result<List<Text>, Trouble> {
    let mut cells = List::new(alloc);
    for written in row.split('\t') {
        cells.push(cell_of(alloc, written)?)?;
    }
    Ok(cells)
}

/// What a cell stands for.
pub fn cell_of(alloc: Global, written: &str) -> Result<Text, Trouble> {
    let mut cell = Text::new(alloc);
    let mut is_first = true;
    for piece in written.split('«') {
        if is_first {
            push_signs(&mut cell, piece)?;
            is_first = false;
        } else {
            push_repeated(alloc, &mut cell, piece)?;
        }
    }
    Ok(cell)
}

// Pushes what stands behind the opening quote of a repetition.
fn push_repeated(alloc: Global, cell: &mut Text, piece: &str) -> Result<(), Trouble> {
    let Some((repetition, rest)) = piece.split_once('»') else {
        return Err(Trouble::Unreadable("a repetition has no end"));
    };
    let Some((count, part)) = repetition.split_once(' ') else {
        return Err(Trouble::Unreadable("a repetition has no text"));
    };
    let count = number_of(count)?;
    let mut repeated = Text::new(alloc);
    push_signs(&mut repeated, part)?;
    push_times(cell, count, repeated.as_str())?;
    push_signs(cell, rest)
}

fn push_times(cell: &mut Text, count: u64, part: &str) -> Result<(), Trouble> {
    for _ in 0..count {
        cell.push_str(part)?;
    }
    Ok(())
}

// Pushes the text, with the signs that stand for a tab, a newline and a carriage return.
fn push_signs(cell: &mut Text, written: &str) -> Result<(), Trouble> {
    for sign in written.chars() {
        cell.push(meant(sign))?;
    }
    Ok(())
}

fn meant(sign: char) -> char {
    match sign {
        '␉' => '\t',
        '␊' => '\n',
        '␍' => '\r',
        _ => sign,
    }
}

/// The number that the text is in decimal.
pub fn number_of(text: &str) -> Result<u64, Trouble> {
    match text.parse::<u64>() {
        Ok(number) => Ok(number),
        Err(_) => Err(Trouble::Unreadable("a number is expected")),
    }
}
