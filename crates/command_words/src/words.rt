ghost use Rattle.std.specs.Prelude.{◌≡◌, ◌↔◌, Some, None, is_some, IfOk, IsErrOf};
ghost use Rattle.std.specs.Prelude.{map, string_bytes};
ghost use Rattle.command_words.specs.Commands.{Command, IsCommand, command_of, pieces_in};
ghost use Rattle.command_words.specs.Views.{Answers, IsInRange, as_command};

use crate::app::{chosen, matched};
use crate::command::{Wanted, WordsFault};
use crate::reader::is_line;
use crate::row::row_named;
use std::alloc::{AllocError, Global};

/// The command that the words are, with its values:
///
/// - `init --config F --journal F --lanes N`, where N is 1 to 16, as 1 to 10 digits;
/// - `session --config F --journal F`;
/// - `serve --config F --journal F --listen A --workers N --links N`, where the N of `--workers` is 1 to 16 and that of
///   `--links` 1 to 65,536, each as 1 to 10 digits;
/// - `export PATH --journal F`, where PATH is a path that [`read_path`](object_ids::read_path) reads;
/// - `import PATH --journal F --owner U`, where U is `default` or the name of a user: a name of at most 255 bytes that
///   does not begin with `g:`;
/// - `sample N`, where N is 0 to 4,294,967,295, as 1 to 10 digits;
/// - `verify --journal F`.
///
/// The options, PATH and the N of `sample` stand in any order, each option at most once and PATH and
/// that N exactly once; an option is `--name value` or `--name=value`. A value, PATH and N aren't empty
/// and don't begin with `-`. Without its option the configuration's file is `hsds.toml`, the journal's
/// `hsds.journal`, the N of `init` is 4, A is `127.0.0.1:5101`, the workers are 4 with 1,000 links each, and U is
/// `default`.
///
/// # Errors
///
/// `Refused` exactly where the words are no command.
pub fn wanted<'a>(alloc: Global, words: &'a [String]) -> Result<Wanted<'a>, WordsFault>
    ensures ok { IfOk result
        (λ w. command_of (map string_bytes words.entry.now) ≡ Some (as_command w)) }
    ensures refused { IsErrOf result WordsFault.Refused
        → command_of (map string_bytes words.entry.now) ≡ None }

    // Each number is within the limits of its option.
    ensures range { IfOk result IsInRange }

    // The same by the parts of a line.
    ensures parts { (command : Command)
        → (command_of (map string_bytes words.entry.now) ≡ Some command)
        ↔ IsCommand (map string_bytes words.entry.now) command }
{
    read_words(alloc, words)
}

fn read_words<'a>(alloc: Global, words: &'a [String]) -> Result<Wanted<'a>, WordsFault>
    ensures answer { Answers result (command_of (map string_bytes words.entry.now)) }
    ensures range { IfOk result IsInRange }
{
    if !is_line_of_a_command(alloc, words)? {
        return Err(WordsFault::Refused);
    }
    let Ok(matches) = matched(alloc, words) else {
        return Err(WordsFault::NoMemory);
    };
    chosen(alloc, &matches)
}

// Whether the words are a command's name and a line of its row, whatever its values.
fn is_line_of_a_command(alloc: Global, words: &[String]) -> Result<bool, AllocError>
    ensures { IfOk result (λ b. b ≡ is_some (pieces_in (map string_bytes words.now))) }
{
    let Some((name, rest)) = words.split_first() else {
        return Ok(false);
    };
    match row_named(name.as_str()) {
        Some(row) => is_line(alloc, row, rest),
        None => Ok(false),
    }
}
