//! The types of datasets and of committed datatypes of a document.

ghost use Rattle.std.specs.Prelude.{◌≡◌};
ghost use Rattle.json_trees.specs.Shown.{shown};
ghost use Rattle.documents.specs.Parts.Types.{kind_at};
ghost use Rattle.documents.specs.Parts.Faults.{Answers};

use crate::parts::faults::{DocCause, DocFault, refused_at};
use crate::parts::sound_types::SoundType;
use hdf_types::{TypeFault, read_type};
use serde_json::Value;
use std::alloc::Global;

/// The type that stands at the key `type` of an object of a document.
///
/// # Errors
///
/// `BadType` where there is none, or want of memory.
pub fn read_kind(alloc: Global, path: &str, tree: Option<&Value>) -> Result<SoundType, DocFault>
    ensures { Answers result (kind_at path.now (shown tree.entry)) }
{
    let Some(tree) = tree else {
        return Err(refused_at(alloc, path, "type", DocCause::BadType));
    };
    match read_type(alloc, tree) {
        Ok(kind) => Ok(SoundType::new(kind)),
        Err(TypeFault::NoMemory) => Err(DocFault::NoMemory),
        Err(TypeFault::Refused { .. }) => Err(refused_at(alloc, path, "type", DocCause::BadType)),
    }
}
