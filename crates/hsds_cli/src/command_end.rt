ghost use Rattle.std.specs.Prelude.{◌≡◌, Some};

use crate::closed::Closed;
use crate::status::Status;

/// What a command came to, the disk, and how links left the world, where any were served.
#[derive(Drop)]
pub struct CommandEnd<D> {
    pub status: Status,
    pub disk: D,
    pub closed: Option<Closed>,
}

/// What a command came to, and the doors in their order. The disk is missing only where `serve` found no memory.
#[derive(Drop)]
pub struct WithDoors<D, F> {
    pub end: CommandEnd<Option<D>>,
    pub doors: Vec<F>,
}

impl<D> CommandEnd<D> {
    /// It, with doors of which nothing was asked.
    pub fn beside<F>(self, doors: Vec<F>) -> WithDoors<D, F>
        ensures { result ≡ record {
          end = record { status = self.status; disk = Some self.disk; closed = self.closed };
          doors = doors;
        } }
    {
        let CommandEnd {
            status,
            disk,
            closed,
        } = self;
        WithDoors {
            end: CommandEnd {
                status,
                disk: Some(disk),
                closed,
            },
            doors,
        }
    }
}
