//! The steps of a turn: a number is drawn, its turn is waited for, and it is passed on.
ghost use Rattle.std.specs.Prelude.{◌≡◌, ◌<◌, [], ◌∷◌, true, false};
ghost use Rattle.atomic_table.specs.Table.{rest};
ghost use Rattle.hall_rule.specs.declared.queue.Queue.TheVariants.{OfRegister};
ghost use Rattle.hall_rule.specs.Claims.{claim, numbers};
ghost use Rattle.hall_rule.specs.Seen.{queue_of};
ghost use Rattle.hall_rule.specs.Steps.{HasPassed, HasTaken};
ghost use Rattle.hall_rule.specs.Sums.{total};
ghost use Rattle.hall_rule.specs.WholeTurns.{IsReadyToPass, MayLook};
ghost use Rattle.hall.specs.ArrayMachines.{desk_machines, lanes_in, start_of};

use crate::desk::AtDesk;
use crate::hall::Hall;
use crate::plays::{Chair, DeskHall, DrawRegister, Leave, Look};
use hall_rule::{Queue, steps_keep_the_rule, steps_tell_what_was_seen};
use std::sync::Wait;
use std::time::Duration;
use std::{hint, thread};

/// So many looks are taken one right behind the other.
const LOOKS: u32 = 30;

/// Behind so many looks there is a sleep between two, and before that a yield. Who sleeps when its
/// turn comes holds up all behind it, and a turn is short: so sleeps come late.
const YIELDS: u32 = 2_030;

/// The first sleep is of a microsecond, and each of so many is twice as long as the one before.
const DOUBLINGS: u32 = 9;

/// A sleep ends early where the low half of the word has changed.
const HALF: u64 = 1 << 32;

impl<D: AtDesk> Hall<D> {
    // Draws the next number of the register.
    pub(crate) fn draw_register(&self, seat: &mut Chair<D>) -> u64
        requires table { seat.old.table_id ≡ self.now.table.shared.table_id }
        requires idle { (seat.old.me.0.live ≡ true)
            × (total (numbers OfRegister) seat.old.me.0.claims ≡ 0) }
        ensures table { (seat.new.table_id ≡ seat.old.table_id) × (seat.new.id ≡ seat.old.id) }
        ensures slots { seat.new.me.1 ≡ seat.old.me.1 }
        ensures drawn { seat.new.me.0 ≡ record seat.old.me.0 {
          claims = claim OfRegister result false ∷ seat.old.me.0.claims;
        } }
    {
        steps_keep_the_rule::<DeskHall<D>>();
        self.table.shared.fetch_add::<DrawRegister>(seat, 0, 1)
    }

    // Waits for the turn of the newest claim.
    pub(crate) fn wait<W: Wait>(&self, rt: &W, seat: &mut Chair<D>, queue: Queue, mine: u64)
        requires table { seat.old.table_id ≡ self.now.table.shared.table_id }
        requires may { (others : _)
            × MayLook (start_of self.now.table.shared.key) queue mine others seat.old.me.0 }
        ensures table { (seat.new.table_id ≡ seat.old.table_id) × (seat.new.id ≡ seat.old.id) }
        ensures taken { (others : _)
            → MayLook (start_of self.now.table.shared.key) queue mine others seat.old.me.0
            → HasTaken (desk_machines D.AtDesk
            (lanes_in (start_of self.now.table.shared.key)))
            (start_of self.now.table.shared.key) (claim queue mine false) others
            seat.old.me seat.new.me }
    {
        steps_keep_the_rule::<DeskHall<D>>();
        steps_tell_what_was_seen::<DeskHall<D>>();
        let limit = queue.limit();
        let word = queue.word();
        let mut looks = 0;
        for _ in rt.forever() {
            let now = self.table.shared.load::<Look<D>>(seat, word);
            if now == mine && mine < limit {
                return;
            }
            self.pause(rt, word, now, looks);
            looks = looks.saturating_add(1);
        }
        unreachable!()
    }

    // Passes the time between two looks at a word, the longer the more looks there were before.
    fn pause<W: Wait>(&self, rt: &W, word: usize, now: u64, looks: u32)
        requires { word < self.now.table.shared.table_id.words }
    {
        if looks < LOOKS {
            hint::spin_loop();
        } else if looks < YIELDS {
            thread::yield_now();
        } else {
            let low = (now % HALF) as u32;
            let moment = Duration::from_micros(1 << (looks - YIELDS).min(DOUBLINGS));
            self.table.shared.park_timeout(rt, word, low, moment);
        }
    }

    // Passes on the turn of the newest claim.
    pub(crate) fn leave(&self, seat: &mut Chair<D>, queue: Queue)
        requires table { seat.old.table_id ≡ self.now.table.shared.table_id }
        requires ready { (item : _) × (queue_of item ≡ queue)
            × IsReadyToPass (desk_machines D.AtDesk (lanes_in (start_of self.now.table.shared.key)))
            (start_of self.now.table.shared.key) item seat.old.me }
        ensures table { (seat.new.table_id ≡ seat.old.table_id) × (seat.new.id ≡ seat.old.id) }
        ensures slots { seat.new.me.1 ≡ rest seat.old.me.1 }
        ensures passed { (item : _)
            → IsReadyToPass (desk_machines D.AtDesk (lanes_in (start_of self.now.table.shared.key)))
            (start_of self.now.table.shared.key) item seat.old.me
            → HasPassed (desk_machines D.AtDesk (lanes_in (start_of self.now.table.shared.key)))
            (start_of self.now.table.shared.key) item seat.old.me.0 seat.new.me.0 }
    {
        steps_keep_the_rule::<DeskHall<D>>();
        steps_tell_what_was_seen::<DeskHall<D>>();
        self.table
            .shared
            .fetch_add::<Leave<D>>(seat, queue.word(), 1);
    }
}
