ghost use Rattle.std.specs.Prelude.{◌≡◌, ◌≤◌, true, false, is_some, Some, None, Ok, IfOk, IfErr, IfSome};
ghost use Rattle.std.specs.Prelude.{IsErrOf, map};
ghost use Rattle.std.specs.Prelude.{codes, string_bytes};
ghost use Rattle.std.specs.Prelude.{option_map, option_and_then};
ghost use Rattle.clap.specs.Words.{app_of, rule_of, found_of, rows_of, first_of, kind_of};
ghost use Rattle.clap.specs.Words.{subcommand_rows_of};
ghost use Rattle.clap.specs.Simple.{new_rule, subcommand_of, with_rule, with_subcommand};
ghost use Rattle.clap.specs.declared.builder.Command.TheViews.{out-Command as fields_of};
ghost use Rattle.command_words.specs.Apps.{given_option, app_for, bare_app, hsds_app};
ghost use Rattle.command_words.specs.Apps.{command_found, found_values};
ghost use Rattle.command_words.specs.Commands.{config_in, count_in, export_of, export_row, import_of};
ghost use Rattle.command_words.specs.Commands.{import_row};
ghost use Rattle.command_words.specs.Commands.{init_of, init_row, journal_in, lanes_in, links_in};
ghost use Rattle.command_words.specs.Commands.{listen_in, n_in, owner_in, owner_of, path_in, pieces_in};
ghost use Rattle.command_words.specs.Commands.{sample_of, sample_row, serve_of, serve_row, session_of};
ghost use Rattle.command_words.specs.Commands.{session_row, text_in, verify_of, verify_row, workers_in};
ghost use Rattle.command_words.specs.Views.{Answers, IsInRange};

use crate::command::{
    DEFAULT_CONFIG, DEFAULT_JOURNAL, DEFAULT_LANES, DEFAULT_LINKS, DEFAULT_LISTEN, DEFAULT_OWNER,
    DEFAULT_WORKERS, MAX_LANES, MAX_LINKS, MAX_OWNER_LEN, MAX_WORKERS, Wanted, WordsFault,
};
use crate::number::number_between;
use crate::row::{EXPORT, IMPORT, INIT, SAMPLE, SERVE, SESSION, VERIFY};
use clap::error::ErrorKind;
use clap::{Arg, ArgMatches, Command, Error};
use object_ids::{DomainPath, Name, read_path};
use std::alloc::{AllocError, Global};

/// What `clap` reads of the words. Where they are a line of a command's row it fails only for want
/// of memory.
pub fn matched<'a>(alloc: Global, words: &'a [String]) -> Result<ArgMatches<'a>, Error>
    ensures found { IfOk result (λ m. subcommand_rows_of m
        ≡ subcommand_of hsds_app (map string_bytes words.entry.now)) }
    ensures memory { IfErr result (λ e.
        is_some (pieces_in (map string_bytes words.entry.now)) ≡ true
        → kind_of e ≡ ErrorKind.OutOfMemory) }
{
    let app = hsds_app(alloc)?;
    app.try_get_matches_from(words)
}

/// The command that was found.
pub fn chosen<'a>(alloc: Global, matches: &ArgMatches<'a>) -> Result<Wanted<'a>, WordsFault>
    ensures command { Answers result
        (option_and_then command_found (subcommand_rows_of matches.now)) }
    ensures range { IfOk result IsInRange }
{
    match matches.subcommand() {
        Some((name, below)) => command_from(alloc, name, below),
        None => Err(WordsFault::Refused),
    }
}

fn hsds_app<'a>(alloc: Global) -> Result<Command<'a>, AllocError>
    ensures { IfOk result (λ c. app_of c ≡ hsds_app) }
{
    let app = bare_app(alloc);
    let app = with_command(app, init_app(alloc)?)?;
    let app = with_command(app, session_app(alloc)?)?;
    let app = with_command(app, serve_app(alloc)?)?;
    let app = with_command(app, export_app(alloc)?)?;
    let app = with_command(app, import_app(alloc)?)?;
    let app = with_command(app, sample_app(alloc)?)?;
    with_command(app, verify_app(alloc)?)
}

fn bare_app<'a>(alloc: Global) -> Command<'a>
    ensures app { app_of result ≡ bare_app }
    ensures own { (fields_of result).has_globals ≡ false }
{
    Command::new(alloc, "hsds")
        .no_binary_name(true)
        .disable_help_flag(true)
        .disable_help_subcommand(true)
        .subcommand_required(true)
}

fn with_command<'a>(app: Command<'a>, below: Command<'a>) -> Result<Command<'a>, AllocError>
    requires own { (fields_of below).has_globals ≡ false }
    ensures { IfOk result (λ c.
        app_of c ≡ with_subcommand (app_of app.entry) (app_of below.entry).top) }
{
    app.subcommand(below)
}

fn init_app<'a>(alloc: Global) -> Result<Command<'a>, AllocError>
    ensures { IfOk result (λ c. (app_of c ≡ app_for init_row) × ((fields_of c).has_globals ≡ false)) }
{
    with_files(alloc, Command::new(alloc, INIT.name))?.arg(option(alloc, "lanes"))
}

fn session_app<'a>(alloc: Global) -> Result<Command<'a>, AllocError>
    ensures { IfOk result (λ c.
        (app_of c ≡ app_for session_row) × ((fields_of c).has_globals ≡ false)) }
{
    with_files(alloc, Command::new(alloc, SESSION.name))
}

// A command with options for the files of the configuration and of the journal.
fn with_files<'a>(alloc: Global, app: Command<'a>) -> Result<Command<'a>, AllocError>
    requires own { (fields_of app).has_globals ≡ false }
    ensures { IfOk result (λ c.
        (app_of c ≡ with_rule (with_rule (app_of app.entry) (given_option (codes "config")))
        (given_option (codes "journal"))) × ((fields_of c).has_globals ≡ false)) }
{
    app.arg(option(alloc, "config"))?
        .arg(option(alloc, "journal"))
}

fn serve_app<'a>(alloc: Global) -> Result<Command<'a>, AllocError>
    ensures { IfOk result (λ c.
        (app_of c ≡ app_for serve_row) × ((fields_of c).has_globals ≡ false)) }
{
    with_files(alloc, Command::new(alloc, SERVE.name))?
        .arg(option(alloc, "listen"))?
        .arg(option(alloc, "workers"))?
        .arg(option(alloc, "links"))
}

fn export_app<'a>(alloc: Global) -> Result<Command<'a>, AllocError>
    ensures { IfOk result (λ c.
        (app_of c ≡ app_for export_row) × ((fields_of c).has_globals ≡ false)) }
{
    Command::new(alloc, EXPORT.name)
        .arg(option(alloc, "journal"))?
        .arg(place(alloc, "path"))
}

fn import_app<'a>(alloc: Global) -> Result<Command<'a>, AllocError>
    ensures { IfOk result (λ c.
        (app_of c ≡ app_for import_row) × ((fields_of c).has_globals ≡ false)) }
{
    Command::new(alloc, IMPORT.name)
        .arg(option(alloc, "journal"))?
        .arg(option(alloc, "owner"))?
        .arg(place(alloc, "path"))
}

fn sample_app<'a>(alloc: Global) -> Result<Command<'a>, AllocError>
    ensures { IfOk result (λ c.
        (app_of c ≡ app_for sample_row) × ((fields_of c).has_globals ≡ false)) }
{
    Command::new(alloc, SAMPLE.name).arg(place(alloc, "n"))
}

fn verify_app<'a>(alloc: Global) -> Result<Command<'a>, AllocError>
    ensures { IfOk result (λ c.
        (app_of c ≡ app_for verify_row) × ((fields_of c).has_globals ≡ false)) }
{
    Command::new(alloc, VERIFY.name).arg(option(alloc, "journal"))
}

fn option<'a>(alloc: Global, name: &'a str) -> Arg<'a>
    ensures rule { rule_of result ≡ given_option name.entry.now }
    ensures own { result.global ≡ false }
{
    Arg::new(alloc, name).long(name)
}

fn place<'a>(alloc: Global, name: &'a str) -> Arg<'a>
    ensures rule { rule_of result ≡ new_rule name.entry.now }
    ensures own { result.global ≡ false }
{
    Arg::new(alloc, name)
}

fn command_from<'a>(
    alloc: Global,
    name: &str,
    matches: &ArgMatches<'a>,
) -> Result<Wanted<'a>, WordsFault>
    ensures command { Answers result
        (command_found (name.now, rows_of (found_of matches.now))) }
    ensures range { IfOk result IsInRange }
{
    if name == INIT.name {
        return init_from(matches);
    }
    if name == SESSION.name {
        return Ok(session_from(matches));
    }
    if name == SERVE.name {
        return serve_from(matches);
    }
    if name == EXPORT.name {
        return export_from(alloc, matches);
    }
    if name == IMPORT.name {
        return import_from(alloc, matches);
    }
    if name == SAMPLE.name {
        return sample_from(matches);
    }
    if name == VERIFY.name {
        return Ok(verify_from(matches));
    }
    Err(WordsFault::Refused)
}

fn init_from<'a>(matches: &ArgMatches<'a>) -> Result<Wanted<'a>, WordsFault>
    ensures command { Answers result (init_of (found_values (rows_of (found_of matches.now)))) }
    ensures range { IfOk result IsInRange }
{
    match lanes_from(matches) {
        Some(lanes) => Ok(Wanted::Init {
            config: config_from(matches),
            journal: journal_from(matches),
            lanes,
        }),
        None => Err(WordsFault::Refused),
    }
}

fn session_from<'a>(matches: &ArgMatches<'a>) -> Wanted<'a>
    ensures command { Answers (Ok result)
        (session_of (found_values (rows_of (found_of matches.now)))) }
    ensures range { IsInRange result }
{
    Wanted::Session {
        config: config_from(matches),
        journal: journal_from(matches),
    }
}

fn serve_from<'a>(matches: &ArgMatches<'a>) -> Result<Wanted<'a>, WordsFault>
    ensures command { Answers result (serve_of (found_values (rows_of (found_of matches.now)))) }
    ensures range { IfOk result IsInRange }
{
    match (workers_from(matches), links_from(matches)) {
        (Some(workers), Some(links)) => Ok(Wanted::Serve {
            config: config_from(matches),
            journal: journal_from(matches),
            listen: listen_from(matches),
            workers,
            links,
        }),
        _ => Err(WordsFault::Refused),
    }
}

fn export_from<'a>(alloc: Global, matches: &ArgMatches<'a>) -> Result<Wanted<'a>, WordsFault>
    ensures command { Answers result (export_of (found_values (rows_of (found_of matches.now)))) }
    ensures range { IfOk result IsInRange }
{
    Ok(Wanted::Export {
        path: path_from(alloc, matches)?,
        journal: journal_from(matches),
    })
}

fn import_from<'a>(alloc: Global, matches: &ArgMatches<'a>) -> Result<Wanted<'a>, WordsFault>
    ensures command { Answers result (import_of (found_values (rows_of (found_of matches.now)))) }
    ensures range { IfOk result IsInRange }
{
    Ok(Wanted::Import {
        path: path_from(alloc, matches)?,
        journal: journal_from(matches),
        owner: owner_from(alloc, matches)?,
    })
}

fn sample_from<'a>(matches: &ArgMatches<'a>) -> Result<Wanted<'a>, WordsFault>
    ensures command { Answers result (sample_of (found_values (rows_of (found_of matches.now)))) }
    ensures range { IfOk result IsInRange }
{
    match n_from(matches) {
        Some(n) => Ok(Wanted::Sample { n }),
        None => Err(WordsFault::Refused),
    }
}

fn verify_from<'a>(matches: &ArgMatches<'a>) -> Wanted<'a>
    ensures command { Answers (Ok result)
        (verify_of (found_values (rows_of (found_of matches.now)))) }
    ensures range { IsInRange result }
{
    Wanted::Verify {
        journal: journal_from(matches),
    }
}

fn config_from<'a>(matches: &ArgMatches<'a>) -> &'a str
    ensures { result.now ≡ config_in (found_values (rows_of (found_of matches.now))) }
{
    value_or(matches, "config", DEFAULT_CONFIG)
}

fn journal_from<'a>(matches: &ArgMatches<'a>) -> &'a str
    ensures { result.now ≡ journal_in (found_values (rows_of (found_of matches.now))) }
{
    value_or(matches, "journal", DEFAULT_JOURNAL)
}

fn listen_from<'a>(matches: &ArgMatches<'a>) -> &'a str
    ensures { result.now ≡ listen_in (found_values (rows_of (found_of matches.now))) }
{
    value_or(matches, "listen", DEFAULT_LISTEN)
}

fn path_from(alloc: Global, matches: &ArgMatches) -> Result<DomainPath, WordsFault>
    ensures ok { IfOk result (λ p. path_in (found_values (rows_of (found_of matches.now))) ≡ Some p) }
    ensures refused { IsErrOf result WordsFault.Refused
        → path_in (found_values (rows_of (found_of matches.now))) ≡ None }
{
    match value_in(matches, "path") {
        Some(text) => Ok(read_path(alloc, text)?),
        None => Err(WordsFault::Refused),
    }
}

fn owner_from(alloc: Global, matches: &ArgMatches) -> Result<Name, WordsFault>
    ensures ok { IfOk result (λ n. owner_in (found_values (rows_of (found_of matches.now))) ≡ Some n) }
    ensures refused { IsErrOf result WordsFault.Refused
        → owner_in (found_values (rows_of (found_of matches.now))) ≡ None }
{
    owner_named(alloc, value_or(matches, "owner", DEFAULT_OWNER))
}

fn owner_named(alloc: Global, text: &str) -> Result<Name, WordsFault>
    ensures ok { IfOk result (λ n. owner_of text.now ≡ Some n) }
    ensures refused { IsErrOf result WordsFault.Refused → owner_of text.now ≡ None }
{
    if text.starts_with("g:") {
        return Err(WordsFault::Refused);
    }
    Ok(Name::read(alloc, text, MAX_OWNER_LEN)?)
}

fn lanes_from(matches: &ArgMatches) -> Option<u32>
    ensures number { result ≡ lanes_in (found_values (rows_of (found_of matches.now))) }
    ensures inside { IfSome result (λ n. (1 ≤ n) × (n ≤ 16)) }
{
    count_in(matches, "lanes", DEFAULT_LANES, MAX_LANES)
}

fn workers_from(matches: &ArgMatches) -> Option<u32>
    ensures number { result ≡ workers_in (found_values (rows_of (found_of matches.now))) }
    ensures inside { IfSome result (λ n. (1 ≤ n) × (n ≤ 16)) }
{
    count_in(matches, "workers", DEFAULT_WORKERS, MAX_WORKERS)
}

fn links_from(matches: &ArgMatches) -> Option<u32>
    ensures number { result ≡ links_in (found_values (rows_of (found_of matches.now))) }
    ensures inside { IfSome result (λ n. (1 ≤ n) × (n ≤ 65536)) }
{
    count_in(matches, "links", DEFAULT_LINKS, MAX_LINKS)
}

fn n_from(matches: &ArgMatches) -> Option<u32>
    ensures { result ≡ n_in (found_values (rows_of (found_of matches.now))) }
{
    number_between(value_in(matches, "n")?, 0, u32::MAX)
}

// The number of an option that counts from 1 on, where it lies within the limit.
fn count_in(matches: &ArgMatches, name: &str, default: u32, most: u32) -> Option<u32>
    requires some { 1 ≤ default }
    requires within { default ≤ most }
    ensures number { result
        ≡ count_in name.now default most (found_values (rows_of (found_of matches.now))) }
    ensures inside { IfSome result (λ n. (1 ≤ n) × (n ≤ most)) }
{
    match value_in(matches, name) {
        None => Some(default),
        Some(text) => number_between(text, 1, most),
    }
}

fn value_or<'a>(matches: &ArgMatches<'a>, name: &str, default: &'a str) -> &'a str
    ensures { result.now
        ≡ text_in name.now default.entry.now (found_values (rows_of (found_of matches.now))) }
{
    value_in(matches, name).unwrap_or(default)
}

fn value_in<'a>(matches: &ArgMatches<'a>, name: &str) -> Option<&'a str>
    ensures { option_map (λ s. s.now) result ≡ first_of name.now (rows_of (found_of matches.now)) }
{
    matches.get_str(name)
}
