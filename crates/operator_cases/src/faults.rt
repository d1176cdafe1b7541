use op_base::List;
use operator_tables::{Trouble, number_of};
use std::alloc::Global;

// The room of a sink where the case says nothing.
const ROOM: usize = 1 << 22;

/// Refuses a line that says nothing of calls that fail, or of a sink's room.
pub fn check_faults(text: &str) -> Result<(), Trouble> {
    for line in text.lines() {
        if !is_fault(line) {
            return Err(Trouble::Unreadable("a line of faults can't be read"));
        }
    }
    Ok(())
}

fn is_fault(line: &str) -> bool {
    line.starts_with("folder fails ")
        || line.starts_with("input fails ")
        || line.starts_with("out fails ")
        || line.starts_with("err fails ")
        || line.starts_with("out room ")
        || line.starts_with("err room ")
}

/// The numbers in the lines that begin with these words; none where there is no such line.
pub fn numbers_behind(alloc: Global, text: &str, words: &str) -> Result<List<u64>, Trouble> {
    let mut numbers = List::new(alloc);
    for line in text.lines() {
        if let Some(rest) = line.strip_prefix(words) {
            push_numbers(&mut numbers, rest)?;
        }
    }
    Ok(numbers)
}

fn push_numbers(numbers: &mut List<u64>, text: &str) -> Result<(), Trouble> {
    for word in text.split(' ') {
        numbers.push(number_of(word)?)?;
    }
    Ok(())
}

/// The room that the last line gives that begins with these words; 4 MiB where there is no such line.
pub fn room_behind(text: &str, words: &str) -> Result<usize, Trouble> {
    let mut room = ROOM;
    for line in text.lines() {
        if let Some(rest) = line.strip_prefix(words) {
            room = number_of(rest)? as usize;
        }
    }
    Ok(room)
}
