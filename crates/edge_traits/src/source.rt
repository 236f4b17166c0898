ghost use Rattle.std.specs.Prelude.{◌≡◌, ℕ, List, [], Option, None};
ghost use base.Fml.{GName};
ghost use Rattle.std.specs.Io.{ReadsAtMost};
ghost use Rattle.std.specs.Io.KnownBytes.{ReadConsumes};
ghost use Rattle.edge_traits.specs.Causes.{HasCause};

use crate::Failed;

/// Bytes that come from outside, one after another, until they end.
pub trait Source {
    /// The bytes that are left, where the object tells them.
    ghost left: { Self → Option (List ℕ) };

    /// How many faults the source has had.
    ghost faults: { Self → ℕ };

    /// What stands beside the source in the same object, and no read changes: what a sink there holds, and its faults.
    ghost beside: { Self → Option (List ℕ) × ℕ } = { λ _. (None, 0) };

    /// The references through which the object is reached, where it holds some. No read changes them.
    ghost names: { Self → List GName } = { λ _. [] };

    /// Takes the first bytes of what is left into the front of `buf`, and answers how many. It answers 0 for a `buf`
    /// that has room only at the end of the input.
    ///
    /// # Errors
    ///
    /// `Failed` where the source had a fault. Then nothing was taken, and `buf` may hold any bytes.
    fn read(&mut self, buf: &mut [u8]) -> Result<usize, Failed>
        ensures bound { ReadsAtMost result buf.old }
        ensures bytes { ReadConsumes (left self.old) (left self.new) result buf.new }
        ensures beside { beside self.new ≡ beside self.old }
        ensures names { names self.new ≡ names self.old }
        ensures cause { HasCause (faults self.old) (faults self.new) result };
}
