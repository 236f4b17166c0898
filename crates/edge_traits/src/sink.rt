ghost use base.Fml.{GName};
ghost use Rattle.std.specs.Prelude.{◌≡◌, ℕ, ◌<◌, ◌≤◌, List, [], Option, None, length, take, IfOk, OnOk, OnErr};
ghost use Rattle.std.specs.Io.{WritesAtMost};
ghost use Rattle.std.specs.Io.KnownBytes.{WriteAppends, Appends};
ghost use Rattle.edge_traits.specs.Causes.{HasCause};

use crate::Failed;

/// A place outside that takes bytes, one after another.
pub trait Sink {
    /// The bytes that it holds, where the object tells them.
    ghost held: { Self → Option (List ℕ) };

    /// How many faults the sink has had.
    ghost faults: { Self → ℕ };

    /// What stands beside the sink in the same object, and no write changes: what a source there has left, and its
    /// faults.
    ghost beside: { Self → Option (List ℕ) × ℕ } = { λ _. (None, 0) };

    /// The references through which the object is reached, where it holds some. No write changes them.
    ghost names: { Self → List GName } = { λ _. [] };

    /// Appends the first bytes of `bytes`, and answers how many: at least one, where there are any.
    ///
    /// # Errors
    ///
    /// `Failed` where the sink had a fault, to take nothing being one. Then nothing was appended.
    fn write(&mut self, bytes: &[u8]) -> Result<usize, Failed>
        ensures bound { WritesAtMost result bytes.now }
        ensures moves { IfOk result (λ n. 0 < length bytes.now → 0 < n) }
        ensures bytes { WriteAppends (held self.old) (held self.new) result bytes.now }
        ensures beside { beside self.new ≡ beside self.old }
        ensures names { names self.new ≡ names self.old }
        ensures cause { HasCause (faults self.old) (faults self.new) result };
}

/// Appends all of `bytes` to the sink, by as many writes as it takes.
///
/// # Errors
///
/// `Failed` at the sink's first fault. Then some first bytes of `bytes` were appended.
pub fn write_all<K: Sink>(sink: &mut K, bytes: &[u8]) -> Result<(), Failed>
    ensures ok { OnOk result (Appends (K.held sink.old) (K.held sink.new) bytes.now) }
    ensures err { OnErr result ((n : ℕ) × (n ≤ length bytes.now)
        × Appends (K.held sink.old) (K.held sink.new) (take n bytes.now)) }
    ensures beside { K.beside sink.new ≡ K.beside sink.old }
    ensures names { K.names sink.new ≡ K.names sink.old }
    ensures cause { HasCause (K.faults sink.old) (K.faults sink.new) result }
{
    let mut done = 0;
    'pieces: while done < bytes.len() {
        done += sink.write(&bytes[done..])?;
    }
    Ok(())
}
