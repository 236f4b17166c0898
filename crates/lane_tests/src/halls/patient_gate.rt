//! A gate that waits for the turns of another one.

use hall::Gate;
use std::sync::Arc;
use std::sync::atomic::{AtomicU64, Ordering};
use std::thread;

/// How often somebody looks for what others count before going on all the same.
const MOST_LOOKS: u32 = 5_000_000;

/// Whether others counted so many in time.
fn comes(count: &AtomicU64, least: u64) -> bool {
    for _ in 0..MOST_LOOKS {
        if count.load(Ordering::SeqCst) >= least {
            return true;
        }
        thread::yield_now();
    }
    false
}

/// A gate that counts its turns where others see it, and stays shut in each until others counted so many, or it has looked too often.
#[derive(Drop)]
pub(crate) struct PatientGate {
    turns: Arc<AtomicU64>,
    others: Arc<AtomicU64>,
    least: u64,
    /// Whether it opened too soon.
    pub(crate) gave_up: bool,
}

impl PatientGate {
    pub(crate) fn new(turns: Arc<AtomicU64>, others: Arc<AtomicU64>, least: u64) -> PatientGate {
        PatientGate {
            turns,
            others,
            least,
            gave_up: false,
        }
    }
}

impl Gate for PatientGate {
    ghost goes = { λ _ _ _ _. Unit {0} };

    fn before(&mut self, _lane: u32, _place: u64) {
        self.turns.fetch_add(1, Ordering::SeqCst);
        self.gave_up = self.gave_up || !comes(&self.others, self.least);
    }
}
