//! Why a text or a tree is no document.

ghost use Rattle.std.specs.Prelude.{◌≡◌, []};
ghost use Rattle.documents.specs.Parts.Faults.{RefusesWhole, Tells, fault};
ghost use Rattle.documents.specs.Parts.Paths.{under};
ghost use Rattle.documents.specs.declared.parts.faults.AttributesFault.TheVariants.{Doc};
ghost use Rattle.documents.specs.declared.parts.faults.DocFault.TheVariants.{NoMemory};

use crate::parts::paths::DocPath;
use std::alloc::{AllocError, AllocFailed, Global};

/// What is wrong with a document.
#[derive(Clone, Copy, Debug, PartialEq, Eq)]
pub enum DocCause {
    /// The text has too many bytes.
    TooLong,
    /// The text is no JSON.
    BadJson,
    /// A part is missing or of the wrong form, or an id is none or stands twice.
    NotADocument,
    /// A type is missing or none.
    BadType,
    /// A shape is none.
    BadShape,
    /// A value is none of its type and shape.
    BadValue,
    /// The creation properties of a dataset are none.
    BadLayout,
    /// The name of an attribute or the title of a link is missing, is none, or stands twice.
    BadName,
    /// A link is none, or leads to an id that the document lacks.
    BadLink,
    /// A list has too many members, or an attribute too many bytes.
    Limit,
}

/// Why a document was not read: memory ran out, or something in it is wrong.
#[derive(Debug, Drop)]
pub enum DocFault {
    /// Memory ran out.
    NoMemory,
    /// The document is refused.
    Refused {
        /// Where it is wrong, from the top down to the key that is missing or wrong.
        path: DocPath,
        /// What is wrong there.
        cause: DocCause,
    },
}

impl From<AllocError> for DocFault {
    ghost from_gives = { λ _ e. e ≡ NoMemory };

    fn from(_error: AllocError) -> DocFault {
        DocFault::NoMemory
    }
}

impl<T: Drop> From<AllocFailed<T>> for DocFault {
    ghost from_gives = { λ _ e. e ≡ NoMemory };

    fn from(_error: AllocFailed<T>) -> DocFault {
        DocFault::NoMemory
    }
}

/// Why the attributes of an object were not read.
#[derive(Debug, Drop)]
pub enum AttributesFault {
    /// One has more than [`MAX_ATTRIBUTE_CELLS`](crate::parts::MAX_ATTRIBUTE_CELLS) cells.
    TooManyCells,
    /// The document is refused, or memory ran out.
    Doc(DocFault),
}

impl From<DocFault> for AttributesFault {
    ghost from_gives = { λ fault e. e ≡ Doc fault };

    fn from(fault: DocFault) -> AttributesFault {
        AttributesFault::Doc(fault)
    }
}

impl From<AllocError> for AttributesFault {
    ghost from_gives = { λ _ e. e ≡ Doc NoMemory };

    fn from(_error: AllocError) -> AttributesFault {
        AttributesFault::Doc(DocFault::NoMemory)
    }
}

/// The refusal of the whole document. Takes no memory.
pub fn refused_whole(alloc: Global, cause: DocCause) -> DocFault
    ensures told { Tells result (fault [] cause) }
    ensures whole { RefusesWhole cause result }
{
    DocFault::Refused {
        path: DocPath::top(alloc),
        cause,
    }
}

/// The refusal of what stands at a path.
#[tactic(auto, unfolding(crate::specs::Parts::Faults::fault))]
pub fn refused(alloc: Global, path: &str, cause: DocCause) -> DocFault
    ensures { Tells result (fault path.now cause) }
{
    match DocPath::shown(alloc, path) {
        Ok(path) => DocFault::Refused { path, cause },
        Err(AllocError) => DocFault::NoMemory,
    }
}

/// The refusal of what stands at a key below a path.
pub fn refused_at(alloc: Global, path: &str, key: &str, cause: DocCause) -> DocFault
    ensures { Tells result (fault (under path.now key.now) cause) }
{
    match DocPath::under(alloc, path, key) {
        Ok(path) => refused(alloc, path.text(), cause),
        Err(AllocError) => DocFault::NoMemory,
    }
}
