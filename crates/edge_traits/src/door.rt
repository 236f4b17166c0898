ghost use Rattle.std.specs.Prelude.{◌≡◌, ℕ, ◌+◌, ◌<◌, List, Option};
ghost use Rattle.edge_traits.specs.Causes.{HasCause};
ghost use Rattle.edge_traits.specs.Told.{GivesFirst, GainsLast, KeepsTold};
ghost use Rattle.edge_traits.specs.Doors.{given_count};

use crate::{Failed, Link};

/// Where links come from, one after another, and where each is given back once its conversation has ended.
pub trait Door {
    type Link: Link;

    /// The links that are still to come, where the object tells them.
    ghost left: { Self → Option (List Self.Link) };

    /// The links that were given back, in order, where the object tells them.
    ghost ended: { Self → Option (List Self.Link) };

    /// How many links were given and not yet given back.
    ghost out: { Self → ℕ };

    /// How many faults the door has had.
    ghost faults: { Self → ℕ };

    /// The first of the links that are left. It answers `None` only where there is no further link.
    ///
    /// # Errors
    ///
    /// `Failed` where the door had a fault. Then it gave no link and lost none.
    fn next(&mut self) -> Result<Option<Self::Link>, Failed>
        ensures links { GivesFirst (left self.old) (left self.new) result }
        ensures out { out self.new ≡ out self.old + given_count result }
        ensures ended { KeepsTold (ended self.old) (ended self.new) }
        ensures cause { HasCause (faults self.old) (faults self.new) result };

    /// Takes a link back. It takes no memory, so more links must be out than were given back.
    fn give_back(&mut self, link: Self::Link)
        requires { 0 < out self.old }
        ensures ended { GainsLast (ended self.old) (ended self.new) link }
        ensures out { out self.new + 1 ≡ out self.old }
        ensures left { KeepsTold (left self.old) (left self.new) }
        ensures faults { faults self.new ≡ faults self.old };
}
