//! A document from a source, and its adoption.

ghost use Rattle.std.specs.Prelude.{◌≡◌, ◌≤◌, IfErr, IfOk};
ghost use Rattle.service_core.specs.Records.{WorldStillSays};
ghost use Rattle.service_core.specs.Worlds.{seen};
ghost use Rattle.edge_traits.specs.SourceTexts.Texts.{IsTaken};
ghost use Rattle.json_import.specs.Kept.Documents.{IsDocument};
ghost use Rattle.json_import.specs.Kept.Parts.{IsAdopted, IsUnadopted, IsUnloaded, outcome_of};

use crate::adoption::{AdoptFault, Counts, adopt};
use crate::kept::outcome::Outcome;
use documents::reader::{DocFault, Loaded, MAX_DOCUMENT, read_document};
use edge_traits::Source;
use edge_traits::source_texts::{TextFault, read_text};
use object_ids::{DomainPath, Name};
use service_core::World;
use std::alloc::Global;

/// Why no document was adopted.
#[derive(Clone, Copy)]
pub(crate) enum Unadopted {
    /// The source had a fault.
    Unread,
    /// The text is too long or no document, or the document can't be adopted.
    Refused,
    /// Memory ran out.
    NoMemory,
}

impl From<TextFault> for Unadopted {
    ghost use Rattle.json_import.specs.Kept.Parts.{of_text};

    ghost from_gives = { λ fault e. e ≡ of_text fault };

    fn from(fault: TextFault) -> Unadopted {
        match fault {
            TextFault::TooLong => Unadopted::Refused,
            TextFault::ReadFault => Unadopted::Unread,
            TextFault::NoMemory => Unadopted::NoMemory,
        }
    }
}

impl From<DocFault> for Unadopted {
    ghost use Rattle.json_import.specs.Kept.Parts.{of_document};

    ghost from_gives = { λ fault e. e ≡ of_document fault };

    fn from(fault: DocFault) -> Unadopted {
        match fault {
            DocFault::Refused { .. } => Unadopted::Refused,
            DocFault::NoMemory => Unadopted::NoMemory,
        }
    }
}

impl From<AdoptFault> for Unadopted {
    ghost use Rattle.json_import.specs.Kept.Parts.{of_adoption};

    ghost from_gives = { λ fault e. e ≡ of_adoption fault };

    fn from(fault: AdoptFault) -> Unadopted {
        match fault {
            AdoptFault::NoFolder | AdoptFault::Taken | AdoptFault::Limit { .. } => {
                Unadopted::Refused
            }
            AdoptFault::NoMemory => Unadopted::NoMemory,
        }
    }
}

impl From<Unadopted> for Outcome {
    ghost from_gives = { λ why outcome. outcome ≡ outcome_of why };

    fn from(why: Unadopted) -> Outcome {
        match why {
            Unadopted::Unread => Outcome::Unread,
            Unadopted::Refused => Outcome::Refused,
            Unadopted::NoMemory => Outcome::NoMemory,
        }
    }
}

/// Reads a document from a source, and makes it a new domain of an owner at a path of a world.
pub(crate) fn adopt_input<S: Source>(
    alloc: Global,
    path: &DomainPath,
    owner: &Name,
    input: &mut S,
    world: &mut World,
) -> Result<Counts, Unadopted>
    ensures ok { IfOk result (λ counts. IsAdopted (S.left input.old) (S.left input.new)
        (seen world.old) path.now owner.now counts (seen world.new)) }
    ensures err { IfErr result (IsUnadopted (S.left input.old) (S.left input.new)
        (S.faults input.old) (S.faults input.new) (seen world.old) path.now) }
    ensures taken { IsTaken (S.left input.old) (S.left input.new) }
    ensures later { S.faults input.old ≤ S.faults input.new }
    ensures says { IfOk result (λ _. WorldStillSays world.old world.new) }
{
    let loaded = read_input(alloc, input)?;
    Ok(adopt(alloc, world, path, owner, loaded)?)
}

// The document that a source has.
fn read_input<S: Source>(alloc: Global, input: &mut S) -> Result<Loaded, Unadopted>
    ensures ok { IfOk result (IsDocument (S.left input.old) (S.left input.new)) }
    ensures err { IfErr result (IsUnloaded (S.left input.old) (S.left input.new)
        (S.faults input.old) (S.faults input.new)) }
    ensures taken { IsTaken (S.left input.old) (S.left input.new) }
    ensures later { S.faults input.old ≤ S.faults input.new }
{
    let text = read_text(alloc, input, MAX_DOCUMENT)?;
    Ok(read_document(alloc, text.as_slice())?)
}
