use crate::trouble::Trouble;
use op_base::{NoMemory, Text};
use std::alloc::Global;

// How many bytes of each side are shown where they differ.
const SHOWN: usize = 60;

/// How many of a group or table are alike, and what is said of the others.
#[derive(Drop)]
pub struct Tally {
    alloc: Global,
    name: Text,
    said: Text,
    alike: u64,
    different: u64,
}

impl Tally {
    /// Of a group or table of this name.
    pub fn new(alloc: Global, name: Text) -> Tally {
        Tally {
            alloc,
            name,
            said: Text::new(alloc),
            alike: 0,
            different: 0,
        }
    }

    /// Counts a case or row: whether it is alike, or why it isn't run.
    pub fn count(&mut self, name: &str, outcome: Result<bool, Trouble>) -> Result<(), NoMemory> {
        match outcome {
            Ok(true) => self.alike = self.alike.saturating_add(1),
            Ok(false) => self.different = self.different.saturating_add(1),
            Err(Trouble::Unreadable(why)) => {
                self.different = self.different.saturating_add(1);
                self.say_name(name, ": ")?;
                self.say_line(why)?;
            }
            Err(Trouble::NoMemory) => return Err(NoMemory),
        }
        Ok(())
    }

    /// Whether what is wanted was found of this thing, as of a stream. Where it wasn't, it says so.
    pub fn compare(
        &mut self,
        name: &str,
        what: &str,
        wanted: &[u8],
        found: &[u8],
    ) -> Result<bool, NoMemory> {
        let Some(at) = place_of(wanted, found) else {
            return Ok(true);
        };
        self.say_name(name, what)?;
        self.said.push_str(" differs at byte ")?;
        self.say_number(at as u64)?;
        self.say_line("")?;
        self.say_side("  wanted: ", wanted, at)?;
        self.say_side("  found:  ", found, at)?;
        Ok(false)
    }

    fn say_name(&mut self, name: &str, what: &str) -> Result<(), NoMemory> {
        self.said.push_str(self.name.as_str())?;
        self.said.push_str("/")?;
        self.said.push_str(name)?;
        self.said.push_str(what)
    }

    fn say_number(&mut self, number: u64) -> Result<(), NoMemory> {
        push_number(self.alloc, &mut self.said, number)
    }

    // Ends the line with this.
    fn say_line(&mut self, rest: &str) -> Result<(), NoMemory> {
        self.said.push_str(rest)?;
        self.said.push_str("\n")
    }

    fn say_side(&mut self, side: &str, bytes: &[u8], at: usize) -> Result<(), NoMemory> {
        self.said.push_str(side)?;
        if at >= bytes.len() {
            self.said.push_str("(its end)")?;
        }
        for b in bytes.iter().skip(at).take(SHOWN) {
            push_byte(self.alloc, &mut self.said, *b)?;
        }
        self.say_line("")
    }

    /// Whether all are alike.
    pub fn is_alike(&self) -> bool {
        self.different == 0
    }

    /// Says how many are alike, and how many aren't.
    pub fn close(&mut self) -> Result<(), NoMemory> {
        let (alike, different) = (self.alike, self.different);
        self.said.push_str(self.name.as_str())?;
        self.said.push_str(": ")?;
        self.say_number(alike)?;
        self.said.push_str(" alike")?;
        if different != 0 {
            self.said.push_str(", ")?;
            self.say_number(different)?;
            self.said.push_str(" not")?;
        }
        self.say_line("")
    }

    /// What was said: of those that differ, and once it is closed of how many are alike.
    pub fn text(&self) -> &str {
        self.said.as_str()
    }
}

/// Pushes the number in decimal.
pub fn push_number(alloc: Global, text: &mut Text, number: u64) -> Result<(), NoMemory> {
    text.push_str(format!(in alloc; "{number}")?.as_str())
}

// The place of the first byte that differs.
fn place_of(wanted: &[u8], found: &[u8]) -> Option<usize> {
    for (at, (one, other)) in wanted.iter().zip(found.iter()).enumerate() {
        if *one != *other {
            return Some(at);
        }
    }
    if wanted.len() == found.len() {
        return None;
    }
    Some(wanted.len().min(found.len()))
}

// A byte of ASCII that is printed stands for itself.
fn push_byte(alloc: Global, text: &mut Text, b: u8) -> Result<(), NoMemory> {
    match b {
        b'\n' => text.push_str("\\n"),
        b'\t' => text.push_str("\\t"),
        32..=126 => text.push(char::from(b)),
        _ => text.push_str(format!(in alloc; "\\x{b:02x}")?.as_str()),
    }
}
