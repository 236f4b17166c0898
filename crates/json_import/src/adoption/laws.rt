//! What holds of exports and of imports. No program calls this function; its contract is a law.

ghost use Rattle.json_import.specs.Adoption.Laws.{DomainsAreSound, ExportsAreLoaded, ExportsComeBack, LinesAreLoaded};

use crate::round_trips::domains_are_loaded;
use documents::reader::document_or_fault;

/// The text that an export printed of a domain is loaded as what the domain held, in any world that a journal's records
/// describe: also with a line feed behind it, as a program prints it. Where what was loaded of that line is adopted, the new
/// domain is exported as what the first one held, under the fresh ids.
pub fn exports_are_loaded()
    ensures sound { DomainsAreSound }
    ensures loads { ExportsAreLoaded }
    ensures line { LinesAreLoaded }
    ensures again { ExportsComeBack }
{
    domains_are_loaded();
    document_or_fault();
}
