//! A worker that flushes beside those at doors.
ghost use Rattle.std.specs.Prelude.{◌≡◌};
ghost use Rattle.access_lists.specs.Tokens.Bearer.{TokenTable};
ghost use Rattle.hall.specs.Passes.{who};
ghost use Rattle.rest_session.specs.Halls.Accounts.{HasAskedNothing, IsReady, account};
ghost use Rattle.rest_session.specs.declared.halls.flushing.TheConstants.{TURNS_BETWEEN};

use edge_traits::Disk;
use hall::{Hall, JournalDesk, Pass};
use service_histories::replies_are_replays;
use std::sync::Wait;
use std::sync::atomic::{AtomicU64, Ordering};
use std::time::Duration;

/// It flushes once so many turns of the register were passed since its last flush.
const TURNS_BETWEEN: u64 = 64;

/// The worker that flushes beside those at doors goes by 64 turns of the register.
pub fn limit_of_turns()
    ensures { TURNS_BETWEEN ≡ 64 }
{}

/// How long it sleeps between two looks, in milliseconds.
const PAUSE: u64 = 20;

/// Of so many workers at doors those that have ended are counted. Nothing is claimed of the count.
#[derive(Drop)]
pub(crate) struct Endings {
    count: AtomicU64,
    doors: u64,
}

impl Endings {
    pub fn new(doors: usize) -> Endings {
        Endings {
            count: AtomicU64::new(0),
            doors: doors as u64,
        }
    }

    /// One more has ended.
    pub fn add(&self) {
        self.count.fetch_add(1, Ordering::SeqCst);
        self.count.wake_all();
    }

    fn are_all(&self) -> bool {
        self.doors <= self.count.load(Ordering::SeqCst)
    }

    // Sleeps for a while, or until one more has ended.
    fn pause<R: Wait>(&self, rt: &R) {
        let ended = self.count.load(Ordering::SeqCst);
        if ended < self.doors {
            let low = (ended % (1 << 32)) as u32;
            self.count
                .park_timeout(rt, low, Duration::from_millis(PAUSE));
        }
    }
}

/// Flushes again and again, behind so many turns of the register, until all workers at doors have ended.
pub(crate) fn flush_beside<D: Disk + Drop, R: Wait>(
    rt: &R,
    hall: &Hall<JournalDesk<D>>,
    pass: &mut Pass<JournalDesk<D>>,
    doors: &Endings,
)
    requires ready { IsReady hall.now pass.old }
    ensures ready { IsReady hall.now pass.new }
    ensures same { who pass.new ≡ who pass.old }
    ensures nothing { (tokens : TokenTable)
        → HasAskedNothing (account tokens hall.now pass.old) (account tokens hall.now pass.new) }
{
    let mut last = 0;
    for _ in rt.forever() {
        last = flush_behind(rt, hall, pass, last);
        if doors.are_all() {
            return;
        }
        doors.pause(rt);
    }
    unreachable!()
}

// Flushes where so many turns were passed since the last flush. Gives how many there were at that flush. What couldn't be kept
// stays to be kept by a later one.
fn flush_behind<D: Disk + Drop, R: Wait>(
    rt: &R,
    hall: &Hall<JournalDesk<D>>,
    pass: &mut Pass<JournalDesk<D>>,
    last: u64,
) -> u64
    requires ready { IsReady hall.now pass.old }
    ensures ready { IsReady hall.now pass.new }
    ensures same { who pass.new ≡ who pass.old }
    ensures nothing { (tokens : TokenTable)
        → HasAskedNothing (account tokens hall.now pass.old) (account tokens hall.now pass.new) }
{
    replies_are_replays();
    let turns = hall.turns(pass);
    if turns.saturating_sub(last) < TURNS_BETWEEN {
        return last;
    }
    drop(hall.flush(rt, pass));
    turns
}
