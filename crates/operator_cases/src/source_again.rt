ghost use Rattle.std.specs.Prelude.{◌<◌, ◌≤◌, ◌^◌, length, OnErr};
ghost use Rattle.std.specs.Io.{ReadsAtMost};
ghost use Rattle.op_edges.specs.Causes.{Rose};

use op_base::List;
use op_edges::{Failed, Source};

/// A source that gives some bytes again and again, up to a number of bytes in all. It tells none of
/// them, so that no list holds them all.
#[derive(Drop)]
pub struct AgainSource {
    bytes: List<u8>,
    at: usize,
    left: u64,
    fails: List<u64>,
    calls: u64,
    faults: u64,
}

impl AgainSource {
    /// `total` bytes; `fails` lists the numbers of the reads that fail, counted from 1.
    pub fn new(bytes: List<u8>, total: u64, fails: List<u64>) -> AgainSource {
        AgainSource {
            bytes,
            at: 0,
            left: total,
            fails,
            calls: 0,
            faults: 0,
        }
    }
}

impl Source for AgainSource {
    ghost use Rattle.std.specs.Prelude.{None};

    ghost left = { λ _. None };

    ghost faults = { λ s. s.faults };

    fn read(&mut self, into: &mut [u8]) -> Result<usize, Failed>
        ensures bound { ReadsAtMost result into.new }
        ensures later { self.old.faults ≤ self.new.faults }
        ensures counted { self.new.faults < 2 ^ 64 }
        ensures failed { OnErr result (Rose self.old.faults self.new.faults) }
    {
        let faults = self.faults;
        self.calls = self.calls.saturating_add(1);
        if is_listed(self.fails.as_slice(), self.calls) {
            self.faults = faults.saturating_add(1);
            return Err(Failed);
        }
        let count = copy_part(rest(self.bytes.as_slice(), self.at, self.left), into);
        self.left = self.left.saturating_sub(count as u64);
        self.at = place_after(self.at, count, self.bytes.len());
        Ok(count)
    }
}

fn is_listed(numbers: &[u64], number: u64) -> bool {
    numbers.iter().any(|listed| *listed == number)
}

// The bytes from the place on, at most so many.
fn rest(bytes: &[u8], at: usize, most: u64) -> &[u8] {
    let Some(behind) = bytes.get(at..) else {
        return &[];
    };
    match behind.get(..most as usize) {
        Some(part) => part,
        None => behind,
    }
}

fn copy_part(part: &[u8], into: &mut [u8]) -> usize
    ensures { result ≤ length into.new }
{
    let count = part.len().min(into.len());
    into[..count].copy_from_slice(&part[..count]);
    count
}

// The place behind what was given, which is the first one behind the last byte.
fn place_after(at: usize, count: usize, len: usize) -> usize {
    let place = at.saturating_add(count);
    if place < len { place } else { 0 }
}
