//! The lines that commands print.

ghost use Rattle.std.specs.Prelude.{◌≡◌, ◌≤◌, ℕ, take, length, string_bytes, IfOk, OnOk, OnErr};
ghost use Rattle.std.specs.Io.KnownBytes.{Appends};
ghost use Rattle.edge_traits.specs.Causes.{HasCause};
ghost use Rattle.hsds_cli.specs.Lines.{import_line, made_line, verify_line};

use flush_journal::Report;
use json_import::adoption::Counts;
use std::alloc::{AllocError, Global};

/// What `init` prints of the folders and domains that it kept.
pub fn made_line(
    alloc: Global,
    lanes: u32,
    folders: u64,
    domains: u64,
) -> Result<String, AllocError>
    ensures { IfOk result (λ line. string_bytes line ≡ made_line lanes folders domains) }
{
    format!(in alloc; "lanes {lanes}, folders {folders}, domains {domains}\n")
}

/// What `verify` prints of a journal's numbers and its run.
pub fn report_line(alloc: Global, report: Report, run: u32) -> Result<String, AllocError>
    ensures { IfOk result (λ line. string_bytes line ≡ verify_line report run) }
{
    let Report {
        version,
        lanes,
        batches,
        end,
    } = report;
    format!(in alloc; "version {version}, lanes {lanes}, run {run}, batches {batches}, end {end}\n")
}

/// What `import` prints of how much the document held.
pub fn counts_line(alloc: Global, counts: Counts) -> Result<String, AllocError>
    ensures { IfOk result (λ line. string_bytes line ≡ import_line counts) }
{
    let Counts {
        groups,
        datasets,
        datatypes,
    } = counts;
    format!(in alloc; "groups {groups}, datasets {datasets}, datatypes {datatypes}\n")
}
