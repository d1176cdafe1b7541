ghost use Rattle.std.specs.Prelude.{ℕ, ◌<◌, ◌≤◌, ◌^◌, List, OnOk, OnErr, Option};
ghost use Rattle.std.specs.Io.KnownBytes.{WriteAppends, Appends};
ghost use Rattle.op_edges.specs.Causes.{Rose};
ghost use Rattle.op_edges.specs.Streams.{TakesSome, AppendsPrefix};

use crate::source::Failed;

/// What takes bytes.
pub trait Sink {
    /// The bytes taken, where they are told.
    ghost taken: { Self → Option (List ℕ) };

    /// How often it failed.
    ghost faults: { Self → ℕ };

    /// Takes bytes from the front of `piece` and says how many, at least one where it isn't empty.
    fn write(&mut self, piece: &[u8]) -> Result<usize, Failed>
        ensures bound { TakesSome result piece.now }
        ensures bytes { WriteAppends (taken self.old) (taken self.new) result piece.now }
        ensures later { faults self.old ≤ faults self.new }
        ensures counted { faults self.new < 2 ^ 64 }
        ensures failed { OnErr result (Rose (faults self.old) (faults self.new)) };
}

/// Writes all the bytes, or a prefix of them where the sink fails. It takes no memory.
pub fn put_all<O: Sink>(sink: &mut O, bytes: &[u8]) -> Result<(), Failed>
    ensures ok { OnOk result (Appends (O.taken sink.old) (O.taken sink.new) bytes.now) }
    ensures prefix { OnErr result (AppendsPrefix (O.taken sink.old) (O.taken sink.new) bytes.now) }
    ensures later { O.faults sink.old ≤ O.faults sink.new }
    ensures failed { OnErr result (Rose (O.faults sink.old) (O.faults sink.new)) }
{
    let mut at = 0;
    while at < bytes.len() {
        at += sink.write(&bytes[at..])?;
    }
    Ok(())
}
