//! The files that a command opens.

ghost use Rattle.std.specs.Prelude.{◌≡◌, IfOk, None, Some, map, string_bytes};
ghost use Rattle.command_words.specs.Commands.{command_of};
ghost use Rattle.command_words.specs.Views.{as_command};
ghost use Rattle.hsds_cli.specs.Files.{files_for, files_named, options_for};

use command_words::{Wanted, WordText, WordsFault, wanted};
use std::alloc::{AllocError, Global};
use std::fs::OpenOptions;

/// How a journal's file is opened.
#[derive(Clone, Copy, Debug, PartialEq, Eq)]
pub enum Access {
    /// It stands, and is read.
    Read,
    /// It stands, and is read and written.
    Change,
    /// It is made where there is none, and read and written. One that stands is left as it is.
    Make,
}

/// The name of a journal's file, and how it is opened.
#[derive(Clone, Copy)]
pub struct JournalFile<'a> {
    pub name: WordText<'a>,
    pub access: Access,
}

/// The files that a command opens: the configuration's, which is read, and the journal's.
#[derive(Clone, Copy)]
pub struct CommandFiles<'a> {
    pub config: Option<WordText<'a>>,
    pub journal: Option<JournalFile<'a>>,
}

/// The files of the command that the words are. Words that are none have none.
///
/// # Errors
///
/// `AllocError` where there is no memory to read the words.
pub fn files_of<'a>(alloc: Global, words: &'a [String]) -> Result<CommandFiles<'a>, AllocError>
    ensures { IfOk result (λ files.
        files_named files ≡ files_for (command_of (map string_bytes words.entry.now))) }
{
    match wanted(alloc, words) {
        Ok(wanted) => Ok(files_wanted(&wanted)),
        Err(WordsFault::Refused) => Ok(CommandFiles {
            config: None,
            journal: None,
        }),
        Err(WordsFault::NoMemory) => Err(AllocError),
    }
}

// The files of a command.
fn files_wanted<'a>(wanted: &Wanted<'a>) -> CommandFiles<'a>
    ensures { files_named result ≡ files_for (Some (as_command wanted.now)) }
{
    match wanted {
        Wanted::Init {
            config,
            journal,
            ..
        } => both(*config, *journal, Access::Make),
        Wanted::Session { config, journal } => both(*config, *journal, Access::Change),
        Wanted::Serve {
            config,
            journal,
            ..
        } => both(*config, *journal, Access::Change),
        Wanted::Import { journal, .. } => alone(*journal, Access::Change),
        Wanted::Export { journal, .. } => alone(*journal, Access::Read),
        Wanted::Verify { journal } => alone(*journal, Access::Read),
        Wanted::Sample { .. } => CommandFiles {
            config: None,
            journal: None,
        },
    }
}

// A configuration and a journal.
fn both<'a>(config: &'a str, name: &'a str, access: Access) -> CommandFiles<'a>
    ensures { files_named result
        ≡ record { config = Some config.entry.now; journal = Some (name.entry.now, access) } }
{
    CommandFiles {
        config: Some(config),
        journal: Some(JournalFile { name, access }),
    }
}

// A journal without a configuration.
fn alone(name: &str, access: Access) -> CommandFiles<'_>
    ensures { files_named result
        ≡ record { config = None; journal = Some (name.entry.now, access) } }
{
    CommandFiles {
        config: None,
        journal: Some(JournalFile { name, access }),
    }
}

/// How the system is asked for a journal's file.
pub fn options_for(access: Access) -> OpenOptions
    ensures { result ≡ options_for access }
{
    let mut options = OpenOptions::new();
    options.read(true);
    match access {
        Access::Read => options,
        Access::Change => {
            options.write(true);
            options
        }
        Access::Make => {
            options.write(true);
            options.create(true);
            options
        }
    }
}
