//! Where a command listens.

ghost use Rattle.std.specs.Prelude.{◌≡◌, ◌≤◌, IfOk, IfSome, None, Some, map, option_map, string_bytes};
ghost use Rattle.command_words.specs.Commands.{command_of};
ghost use Rattle.command_words.specs.Views.{IsInRange, as_command};
ghost use Rattle.hsds_cli.specs.Files.{listening_for, listening_named};

use command_words::{Wanted, WordText, WordsFault, wanted};
use std::alloc::{AllocError, Global};

/// The address that a command listens at, and the number of its workers.
#[derive(Clone, Copy)]
pub struct Listening<'a> {
    pub address: WordText<'a>,
    pub workers: u32,
}

/// Where the command that the words are listens; nowhere where it is another than `serve`, or none.
///
/// # Errors
///
/// `AllocError` where there is no memory to read the words.
pub fn listening_of<'a>(
    alloc: Global,
    words: &'a [String],
) -> Result<Option<Listening<'a>>, AllocError>
    ensures listening { IfOk result (λ found. option_map listening_named found
        ≡ listening_for (command_of (map string_bytes words.entry.now))) }
    ensures few { IfOk result (λ found. IfSome found (λ l. l.workers ≤ 16)) }
{
    match wanted(alloc, words) {
        Ok(wanted) => Ok(listening_wanted(&wanted)),
        Err(WordsFault::Refused) => Ok(None),
        Err(WordsFault::NoMemory) => Err(AllocError),
    }
}

// Where a command listens.
fn listening_wanted<'a>(wanted: &Wanted<'a>) -> Option<Listening<'a>>
    requires range { IsInRange wanted.now }
    ensures listening { option_map listening_named result
        ≡ listening_for (Some (as_command wanted.now)) }
    ensures few { IfSome result (λ l. l.workers ≤ 16) }
{
    match wanted {
        Wanted::Serve {
            listen,
            workers,
            ..
        } => Some(Listening {
            address: *listen,
            workers: *workers,
        }),
        _ => None,
    }
}
