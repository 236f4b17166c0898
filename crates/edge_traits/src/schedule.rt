ghost use Rattle.std.specs.Prelude.{◌≡◌, ◌+◌, ◌-◌, ◌^◌, ◌<◌, ◌↔◌, min, IsTrue, false, Contains};
ghost use Rattle.edge_traits.specs.Causes.{Rose};

use crate::faults::FaultCount;

/// Which calls of an object in memory are to fail, by their numbers from 0 on, and how many calls and faults it has had.
#[derive(Drop)]
pub struct Schedule {
    pub failing: Vec<u64>,
    pub calls: u64,
    pub faults: FaultCount,
}

impl Schedule {
    /// No call yet, and no fault.
    pub fn new(failing: Vec<u64>) -> Schedule
        ensures failing { result.failing ≡ failing }
        ensures calls { result.calls ≡ 0 }
        ensures faults { result.faults ≡ 0 }
    {
        Schedule {
            failing,
            calls: 0,
            faults: FaultCount::new(),
        }
    }

    /// Counts a call, and says whether it is to fail. Such a call is a fault.
    pub fn call_fails(&mut self) -> bool
        ensures listed { IsTrue result ↔ Contains self.old.failing.items self.old.calls }
        ensures calls { self.new.calls ≡ min (self.old.calls + 1) (2 ^ 64 - 1) }
        ensures failing { self.new.failing ≡ self.old.failing }
        ensures fails { IsTrue result → Rose self.old.faults self.new.faults }
        ensures works { result ≡ false → self.new.faults ≡ self.old.faults }
    {
        let call = self.calls;
        self.calls = call.saturating_add(1);
        if self.failing.contains(&call) {
            self.faults.rise();
            return true;
        }
        false
    }
}
