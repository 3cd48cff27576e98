//! `Files` and `Sink` with their contracts, and `write_all`.

ghost use Rattle.std.specs.Prelude.{◌≡◌, ◌≢◌, ◌≤◌, ◌<◌, ◌⊎◌, ℕ, List, [], Option, length, take};
ghost use Rattle.std.specs.Prelude.{IfOk, IfErr, IfSome, OnOk, OnErr, IsOk, IsErrOf};
ghost use Rattle.io_core.specs.Asked.{AddsName};
ghost use Rattle.io_core.specs.Count.{IsCount, Rose};
ghost use Rattle.io_core.specs.Piece.{Appended, AppendedPrefix};

use crate::faults::{ReadError, WriteError};
use std::alloc::Global;

/// Files that are read by name.
pub trait Files {
    /// The bytes that are held under a name, if the store tells them.
    ghost held: { Self → List ℕ → Option (List ℕ) };

    /// How many faults were met so far.
    ghost faults: { Self → ℕ };

    /// The names that were asked for, in their order.
    ghost asked: { Self → List (List ℕ) };

    /// The bytes of the file, if they are at most `limit`.
    fn read(&mut self, alloc: Global, name: &str, limit: usize) -> Result<Vec<u8>, ReadError>
        ensures stays { (n : List ℕ) → held self.new n ≡ held self.old n }

        // What is held under the name is answered, unless it is longer than the limit.
        ensures told { IfOk result (λ v. IfSome (held self.old name.now) (λ h. v.items ≡ h)) }
        ensures within { IfOk result (λ v. length v.items ≤ limit) }
        ensures too_long { IsErrOf result ReadError.TooLong
            → IfSome (held self.old name.now) (λ h. limit < length h) }

        // A failure is counted.
        ensures failed { IsErrOf result ReadError.Failed
            → Rose (faults self.old) (faults self.new) }
        ensures counts { faults self.old ≤ faults self.new }
        ensures bound { IsCount (faults self.new) }

        // The name is added, whatever the answer. Only want of memory may leave all as it was.
        ensures asks { OnOk result (AddsName (asked self.old) (asked self.new) name.now) }
        ensures asks_err { IfErr result (λ e. e ≢ ReadError.OutOfMemory
            → AddsName (asked self.old) (asked self.new) name.now) }
        ensures asks_memory { IsErrOf result ReadError.OutOfMemory
            → AddsName (asked self.old) (asked self.new) name.now
            ⊎ ((asked self.new ≡ asked self.old) × (faults self.new ≡ faults self.old)) };
}

/// What bytes are written to.
pub trait Sink {
    /// All the bytes that were written, if the sink tells them.
    ghost written: { Self → Option (List ℕ) };

    /// How many faults were met so far.
    ghost faults: { Self → ℕ };

    /// Takes bytes from the front of the piece, and answers how many.
    fn write(&mut self, alloc: Global, piece: &[u8]) -> Result<usize, WriteError>
        // An empty piece is never refused, and of another one some bytes are taken.
        ensures empty { piece.now ≡ [] → result ≡ Ok 0 }
        ensures some { IfOk result (λ n. 0 < length piece.now → 0 < n) }
        ensures within { IfOk result (λ n. n ≤ length piece.now) }

        ensures appended { IfOk result (λ n.
            Appended (written self.old) (written self.new) (take n piece.now)) }
        ensures kept { OnErr result (written self.new ≡ written self.old) }

        // A failure is counted.
        ensures failed { IsErrOf result WriteError.Failed
            → Rose (faults self.old) (faults self.new) }
        ensures counts { faults self.old ≤ faults self.new }
        ensures bound { IsCount (faults self.new) };
}

/// Writes the whole piece, by as many calls as the sink wants.
pub fn write_all<S: Sink>(out: &mut S, alloc: Global, piece: &[u8]) -> Result<(), WriteError>
    ensures empty { piece.now ≡ [] → IsOk result }
    ensures appended { OnOk result (Appended (S.written out.old) (S.written out.new) piece.now) }
    ensures prefix { OnErr result
        (AppendedPrefix (S.written out.old) (S.written out.new) piece.now) }

    // A failure is counted.
    ensures failed { IsErrOf result WriteError.Failed → Rose (S.faults out.old) (S.faults out.new) }
    ensures counts { S.faults out.old ≤ S.faults out.new }
    ensures bound { IsCount (S.faults out.old) → IsCount (S.faults out.new) }
{
    let mut at = 0;
    while at < piece.len() {
        let n = out.write(alloc, &piece[at..])?;
        at += n;
    }
    Ok(())
}
