ghost use Rattle.std.specs.Prelude.{◌≡◌, ℕ, ◌<◌, Some, List, [], length, IfOk, IsErr};
ghost use Rattle.std.specs.Io.{WritesAtMost};
ghost use Rattle.std.specs.Io.KnownBytes.{WriteAppends};
ghost use Rattle.edge_traits.specs.Causes.{HasCause};

use crate::schedule::Schedule;
use crate::{Failed, Sink};
use std::alloc::Global;

/// A sink into memory, which tells what it holds. A write that finds no memory is a fault.
#[derive(Drop)]
pub struct MemSink {
    held: Vec<u8>,
    schedule: Schedule,
}

impl MemSink {
    ghost use Rattle.edge_traits.specs.Plans.{first_plan, write_plan};

    /// A sink that holds nothing. The writes whose numbers, from 0 on, `failing` lists are faults.
    pub fn new(alloc: Global, failing: Vec<u64>) -> MemSink
        ensures held { ⟦<MemSink as Sink>⟧.held result ≡ Some [] }
        ensures faults { ⟦<MemSink as Sink>⟧.faults result ≡ 0 }
        ensures plan { write_plan result ≡ first_plan failing.items }
    {
        MemSink {
            held: Vec::new(alloc),
            schedule: Schedule::new(failing),
        }
    }

    /// The bytes that the sink holds.
    pub fn bytes(&self) -> &[u8]
        ensures { ⟦<MemSink as Sink>⟧.held self.now ≡ Some result.now }
    {
        self.held.as_slice()
    }
}

impl Sink for MemSink {
    ghost use Rattle.edge_traits.specs.Plans.{FailsNext, later_plan, write_plan};

    ghost held = { λ s. Some s.held.items };

    ghost faults = { λ s. s.schedule.faults };

    fn write(&mut self, bytes: &[u8]) -> Result<usize, Failed>
        ensures bound { WritesAtMost result bytes.now }
        ensures moves { IfOk result (λ n. 0 < length bytes.now → 0 < n) }
        ensures bytes { WriteAppends (⟦<MemSink as Sink>⟧.held self.old) (⟦<MemSink as Sink>⟧.held self.new) result bytes.now }
        ensures cause { HasCause (⟦<MemSink as Sink>⟧.faults self.old) (⟦<MemSink as Sink>⟧.faults self.new) result }

        // It fails at the numbers that are planned, else takes all, or finds no memory.
        ensures planned { FailsNext (write_plan self.old) → IsErr result }
        ensures plan { write_plan self.new ≡ later_plan (write_plan self.old) }
        ensures all { IfOk result (λ n. n ≡ length bytes.now) }
    {
        if self.schedule.call_fails() {
            return Err(Failed);
        }
        match self.held.extend_from_slice(bytes) {
            Ok(()) => Ok(bytes.len()),
            Err(_) => {
                self.schedule.faults.rise();
                Err(Failed)
            }
        }
    }
}
