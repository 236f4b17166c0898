ghost use Rattle.std.specs.Prelude.{◌≡◌, ℕ, ◌<◌, ◌≤◌, ◌↔◌, Some, List, length, drop, IfOk, IsErr};
ghost use Rattle.std.specs.Io.{ReadsAtMost};
ghost use Rattle.std.specs.Io.KnownBytes.{ReadConsumes};
ghost use Rattle.edge_traits.specs.Causes.{HasCause};

use crate::schedule::Schedule;
use crate::{Failed, Source};

/// A source over bytes in memory, which tells what is left. A read gives at most `piece` bytes.
#[derive(Drop)]
pub struct MemSource {
    bytes: Vec<u8>,
    at: usize,
    piece: usize,
    schedule: Schedule,
    ghost inside: { at ≤ length bytes.items },
    ghost some_piece: { 0 < piece },
}

impl MemSource {
    ghost use Rattle.edge_traits.specs.Plans.{first_plan, read_plan, piece_of};

    /// A source of these bytes. The reads whose numbers, from 0 on, `failing` lists are faults.
    pub fn new(bytes: Vec<u8>, piece: usize, failing: Vec<u64>) -> MemSource
        requires { 0 < piece }
        ensures left { ⟦<MemSource as Source>⟧.left result ≡ Some bytes.items }
        ensures faults { ⟦<MemSource as Source>⟧.faults result ≡ 0 }
        ensures plan { read_plan result ≡ first_plan failing.items }
        ensures piece { piece_of result ≡ piece }
    {
        MemSource {
            bytes,
            at: 0,
            piece,
            schedule: Schedule::new(failing),
        }
    }
}

impl Source for MemSource {
    ghost use Rattle.edge_traits.specs.Plans.{FailsNext, later_plan, read_plan, piece_of};

    ghost left = { λ s. Some (drop s.at s.bytes.items) };

    ghost faults = { λ s. s.schedule.faults };

    fn read(&mut self, buf: &mut [u8]) -> Result<usize, Failed>
        ensures bound { ReadsAtMost result buf.old }
        ensures bytes { ReadConsumes (⟦<MemSource as Source>⟧.left self.old) (⟦<MemSource as Source>⟧.left self.new)
            result buf.new }
        ensures cause { HasCause (⟦<MemSource as Source>⟧.faults self.old) (⟦<MemSource as Source>⟧.faults self.new) result }

        // It fails at the numbers that are planned, and gives no more than a piece.
        ensures planned { IsErr result ↔ FailsNext (read_plan self.old) }
        ensures plan { read_plan self.new ≡ later_plan (read_plan self.old) }
        ensures piece { IfOk result (λ n. n ≤ piece_of self.old) }
        ensures pieces { piece_of self.new ≡ piece_of self.old }
    {
        if self.schedule.call_fails() {
            return Err(Failed);
        }
        let count = buf.len().min(self.piece).min(self.bytes.len() - self.at);
        let end = self.at + count;
        buf[..count].copy_from_slice(&self.bytes[self.at..end]);
        self.at = end;
        Ok(count)
    }
}
