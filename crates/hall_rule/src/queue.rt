//! The queues of the hall: each has a list, a word that shows its length, and a slot.
ghost use Rattle.hall_rule.specs.Queues.{limit_of, word_of, slot_of};
ghost use Rattle.std.specs.Prelude.{◌≡◌};

/// Whose turns passes wait for: the register's, the desk's, or those of a lane.
#[derive(Clone, Copy)]
pub enum Queue {
    OfRegister,
    OfDesk,
    OfLane(u32),
}

impl Queue {
    /// The word that shows how many items the list has.
    pub fn word(self) -> usize
        ensures { result ≡ word_of self }
    {
        match self {
            Queue::OfRegister => 2,
            Queue::OfDesk => 3,
            Queue::OfLane(lane) => lane as usize + 4,
        }
    }

    /// The slot in which its machine lies.
    pub fn slot(self) -> usize
        ensures { result ≡ slot_of self }
    {
        match self {
            Queue::OfRegister => 0,
            Queue::OfDesk => 1,
            Queue::OfLane(lane) => lane as usize + 2,
        }
    }

    /// A number or a ticket from here on waits without end.
    pub fn limit(self) -> u64
        ensures { result ≡ limit_of self }
    {
        match self {
            Queue::OfRegister => 1 << 61,
            Queue::OfDesk => 1 << 61,
            Queue::OfLane(_) => 1 << 62,
        }
    }
}

/// A number or a ticket in hand. One that is held has its queue's turn. No value of it is made.
pub struct Claim {
    pub queue: Queue,
    pub number: u64,
    pub held: bool,
}
