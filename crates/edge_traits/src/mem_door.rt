ghost use Rattle.std.specs.Prelude.{◌≡◌, ℕ, ◌+◌, ◌-◌, ◌≤◌, ◌↔◌, Some, List, [], length, reverse, vec_len, vec_capacity, IfOk, IsErr};
ghost use Rattle.edge_traits.specs.Causes.{HasCause};
ghost use Rattle.edge_traits.specs.Told.{GivesFirst, KeepsTold};
ghost use Rattle.edge_traits.specs.Doors.{given_count};

use crate::schedule::Schedule;
use crate::{Door, Failed, MemLink};
use std::alloc::{AllocError, Global};

/// A door in memory, which tells the links that are left, and keeps those that were given back in order.
#[derive(Drop)]
pub struct MemDoor {
    /// The links that are left, the last of them first.
    waiting: Vec<MemLink>,
    ended: Vec<MemLink>,
    total: usize,
    schedule: Schedule,
    ghost counted: { vec_len waiting + vec_len ended ≤ total },
    ghost room: { total ≤ vec_capacity ended },
}

impl MemDoor {
    ghost use Rattle.edge_traits.specs.Plans.{first_plan, door_plan};

    /// A door to these links, with room for as many ended ones. The calls of `next` whose numbers, from 0 on,
    /// `failing` lists are faults.
    ///
    /// # Errors
    ///
    /// `AllocError` where there is no memory for that room.
    pub fn new(
        alloc: Global,
        mut links: Vec<MemLink>,
        failing: Vec<u64>,
    ) -> Result<MemDoor, AllocError>
        ensures left { IfOk result (λ d. ⟦<MemDoor as Door>⟧.left d ≡ Some links.items) }
        ensures ended { IfOk result (λ d. ⟦<MemDoor as Door>⟧.ended d ≡ Some []) }
        ensures out { IfOk result (λ d. ⟦<MemDoor as Door>⟧.out d ≡ 0) }
        ensures faults { IfOk result (λ d. ⟦<MemDoor as Door>⟧.faults d ≡ 0) }
        ensures plan { IfOk result (λ d. door_plan d ≡ first_plan failing.items) }
    {
        let total = links.len();
        let ended = Vec::with_capacity(alloc, total)?;
        links.reverse();
        Ok(MemDoor {
            waiting: links,
            ended,
            total,
            schedule: Schedule::new(failing),
        })
    }

    /// The links that were given back, in order.
    pub fn ended(&self) -> &[MemLink]
        ensures { ⟦<MemDoor as Door>⟧.ended self.now ≡ Some result.now }
    {
        self.ended.as_slice()
    }
}

impl Door for MemDoor {
    ghost use Rattle.edge_traits.specs.Plans.{FailsNext, later_plan, door_plan};

    type Link = MemLink;

    ghost left = { λ d. Some (reverse d.waiting.items) };

    ghost ended = { λ d. Some d.ended.items };

    ghost out = { λ d. d.total - (vec_len d.waiting + vec_len d.ended) };

    ghost faults = { λ d. d.schedule.faults };

    fn next(&mut self) -> Result<Option<MemLink>, Failed>
        ensures links { GivesFirst (⟦<MemDoor as Door>⟧.left self.old) (⟦<MemDoor as Door>⟧.left self.new) result }
        ensures out { ⟦<MemDoor as Door>⟧.out self.new ≡ ⟦<MemDoor as Door>⟧.out self.old + given_count result }
        ensures ended { KeepsTold (⟦<MemDoor as Door>⟧.ended self.old) (⟦<MemDoor as Door>⟧.ended self.new) }
        ensures cause { HasCause (⟦<MemDoor as Door>⟧.faults self.old) (⟦<MemDoor as Door>⟧.faults self.new) result }

        // It fails at the numbers that are planned.
        ensures planned { IsErr result ↔ FailsNext (door_plan self.old) }
        ensures plan { door_plan self.new ≡ later_plan (door_plan self.old) }
    {
        if self.schedule.call_fails() {
            return Err(Failed);
        }
        Ok(self.waiting.pop())
    }

    fn give_back(&mut self, link: MemLink) {
        self.ended.push_reserved(link);
    }
}
