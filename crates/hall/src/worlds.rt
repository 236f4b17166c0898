//! With which worlds a hall may begin, and what is held of the world in which it ends.
ghost use Rattle.std.specs.Prelude.{ℕ};
ghost use Rattle.chunk_owner.specs.Owners.Records.{AreStillIn};
ghost use Rattle.service_core.specs.Journals.Begun.{begun};
ghost use Rattle.service_core.specs.Records.{IsWorldOf};
ghost use Rattle.service_core.specs.Worlds.{State};
ghost use Rattle.hall.specs.Passes.{EndedWorldsAreSaid, IsNewWorld};

use service_histories::{the_register_counts, worlds_close};

/// A world that was installed is new once its run has begun: `World::install` gave no place and no
/// ticket, and behind `World::begin_run` nothing of it is to be written.
pub fn installed_worlds_are_new()
    ensures { (held : _) (lanes : ℕ) (s : State)
        → IsWorldOf held lanes s → AreStillIn s.lanes → IsNewWorld (begun s) }
{
    the_register_counts();
}

/// Where nobody cut, what a journal held of the world with which a hall began says the world in which
/// it ended, but for what is to be written. So one keeping behind `Hall::close` makes it tell that
/// world.
pub fn ended_worlds_are_said<K>()
    ensures { EndedWorldsAreSaid K }
{
    worlds_close();
}
