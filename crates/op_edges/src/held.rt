ghost use Rattle.std.specs.Prelude.{◌≡◌, ◌≢◌, ◌+◌, ◌-◌, ◌<◌, ◌≤◌, [], ◌++◌, length, take, drop, vec_len, Ok, IfOk, OnOk, IsErrOf};
ghost use Rattle.op_edges.specs.Causes.{Rose};
ghost use Rattle.op_edges.specs.Told.{Told};
ghost use Rattle.op_edges.specs.Lines.{most_bytes};

use crate::source::Source;
use op_base::NoMemory;
use std::alloc::Global;
use std::marker::Model;

/// The most bytes that a reader takes from a source, but for one that shows that there are more.
pub const MOST_BYTES: usize = 268_435_456;

/// How many bytes are read at once.
const CHUNK: usize = 8192;

/// What a read brought.
#[derive(Clone, Copy, Debug, PartialEq, Eq)]
pub enum Got {
    More,
    Nothing,
    Failed,
}

/// Bytes that came from a source and are still held, and how many came in all.
#[derive(Drop)]
pub struct Held {
    buffer: Vec<u8>,
    at: usize,
    came: usize,
}

impl Model for Held {
    ghost use Rattle.std.specs.Prelude.{◌≤◌, ◌+◌, length, drop, vec_len};
    ghost use Rattle.op_edges.specs.Lines.{most_bytes};
    ghost use Rattle.op_edges.specs.Steps.{Holding};

    ghost Value = { Holding };

    ghost view = { λ it. record { bytes = drop it.at it.buffer.items; came = it.came } };

    ghost invariant = { λ it. (it.at ≤ vec_len it.buffer) × (vec_len it.buffer ≤ it.came + it.at)
        × (it.came ≤ most_bytes + 1) };
}

impl Held {
    /// Nothing is held.
    pub fn new(alloc: Global) -> Result<Held, NoMemory>
        ensures { IfOk result (λ held. held ≡ record { bytes = []; came = 0 }) }
    {
        Ok(Held {
            buffer: Vec::with_capacity(alloc, CHUNK)?,
            at: 0,
            came: 0,
        })
    }

    pub fn bytes(&self) -> &[u8]
        ensures { result.now ≡ self.now.bytes }
    {
        &self.buffer[self.at..]
    }

    pub fn came(&self) -> usize
        ensures came { result ≡ self.now.came }
        ensures held { length self.now.bytes ≤ self.now.came }
        ensures most { self.now.came ≤ most_bytes + 1 }
    {
        self.came
    }

    /// Lets the first `count` bytes go.
    pub fn skip(&mut self, count: usize)
        requires { count ≤ length self.old.bytes }
        ensures { self.new ≡ record self.old { bytes = drop count self.old.bytes } }
    {
        self.at += count;
    }

    /// Reads more bytes behind those that are held.
    pub fn fill<S: Source>(&mut self, source: &mut S) -> Result<Got, NoMemory>
        requires { self.old.came ≤ most_bytes }
        ensures told { Told (S.left source.old) (S.left source.new)
            (λ before after. OnOk result (self.old.bytes ++ before ≡ self.new.bytes ++ after)) }
        ensures sum { Told (S.left source.old) (S.left source.new)
            (λ before after. OnOk result
            (self.new.came + length after ≡ self.old.came + length before)) }
        ensures nothing { Told (S.left source.old) (S.left source.new)
            (λ before after. result ≡ Ok Got.Nothing → after ≡ []) }
        ensures front { take (length self.old.bytes) self.new.bytes ≡ self.old.bytes }
        ensures count { self.new.came + length self.old.bytes
            ≡ self.old.came + length self.new.bytes }
        ensures more { result ≡ Ok Got.More → length self.old.bytes < length self.new.bytes }
        ensures same { result ≢ Ok Got.More → self.new ≡ self.old }
        ensures later { S.faults source.old ≤ S.faults source.new }
        ensures failed { result ≡ Ok Got.Failed → Rose (S.faults source.old) (S.faults source.new) }
    {
        drop_front(&mut self.buffer, self.at);
        self.at = 0;
        let size = self.buffer.len();
        let mut chunk = [0; CHUNK];
        let room = CHUNK.min(MOST_BYTES + 1 - self.came);
        let got = read_into(source, &mut chunk[..room], &mut self.buffer);
        self.came += self.buffer.len() - size;
        got
    }
}

fn drop_front(buffer: &mut Vec<u8>, count: usize)
    requires { count ≤ vec_len buffer.old }
    ensures { buffer.new.items ≡ drop count buffer.old.items }
{
    if count > 0 {
        let rest = buffer.len() - count;
        buffer.copy_within(count.., 0);
        buffer.truncate(rest);
    }
}

/// Reads as many bytes as `chunk` has room for behind those of the buffer.
fn read_into<S: Source>(
    source: &mut S,
    chunk: &mut [u8],
    buffer: &mut Vec<u8>,
) -> Result<Got, NoMemory>
    requires { 0 < length chunk.old }
    ensures told { Told (S.left source.old) (S.left source.new)
        (λ before after. OnOk result (buffer.old.items ++ before ≡ buffer.new.items ++ after)) }
    ensures sum { Told (S.left source.old) (S.left source.new)
        (λ before after. OnOk result
        (vec_len buffer.new + length after ≡ vec_len buffer.old + length before)) }
    ensures nothing { Told (S.left source.old) (S.left source.new)
        (λ before after. result ≡ Ok Got.Nothing → after ≡ []) }
    ensures front { take (vec_len buffer.old) buffer.new.items ≡ buffer.old.items }
    ensures least { vec_len buffer.old ≤ vec_len buffer.new }
    ensures most { vec_len buffer.new ≤ vec_len buffer.old + length chunk.new }
    ensures more { result ≡ Ok Got.More → vec_len buffer.old < vec_len buffer.new }
    ensures same { result ≢ Ok Got.More → buffer.new.items ≡ buffer.old.items }
    ensures later { S.faults source.old ≤ S.faults source.new }
    ensures failed { result ≡ Ok Got.Failed → Rose (S.faults source.old) (S.faults source.new) }
{
    match source.read(chunk) {
        Err(_) => Ok(Got::Failed),
        Ok(count) => {
            if count == 0 {
                return Ok(Got::Nothing);
            }
            buffer.extend_from_slice(&chunk[..count])?;
            Ok(Got::More)
        }
    }
}
