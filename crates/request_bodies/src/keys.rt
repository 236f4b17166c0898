//! Bodies of one key, and entries.

ghost use Rattle.std.specs.Prelude.{◌≡◌, IfOk, IsErrOf};
ghost use Rattle.object_ops.specs.Conditions.{AreDims};
ghost use Rattle.object_ops.specs.declared.refusals.Refusal.TheVariants.{BadField};
ghost use Rattle.request_bodies.specs.Bodies.{dims_at, folder_in, rights_in};
ghost use Rattle.request_bodies.specs.Refusing.{Answers};
ghost use Rattle.request_bodies.specs.declared.faults.BodyFault.TheVariants.{NoMemory};

use crate::faults::BodyFault;
use access_lists::{Rights, read_entry};
use json_trees::Tree;
use object_ops::{FieldWord, Refusal};
use shapes::{Dims, read_dims};

/// Whether a folder is made (PUT of a folder or a domain): the truth value `folder`, false where there is
/// none. It takes no memory.
///
/// # Errors
///
/// `BadField` with `folder` where it is no truth value.
pub fn folder_of(body: &Tree) -> Result<bool, BodyFault>
    ensures exact { Answers result (folder_in body.now) }
    ensures memory { IsErrOf result NoMemory → ⊥ }
{
    match body.value().get("folder") {
        None => Ok(false),
        Some(tree) => Ok(tree.as_bool().ok_or(bad_field(FieldWord::Folder))?),
    }
}

/// The rights of an entry (PUT of an entry). It takes no memory.
///
/// # Errors
///
/// `BadField` with `acl` where one of the six keys is no truth value.
pub fn rights_of(body: &Tree) -> Result<Rights, BodyFault>
    ensures exact { Answers result (rights_in body.now) }
    ensures memory { IsErrOf result NoMemory → ⊥ }
{
    Ok(read_entry(body.value()).ok_or(bad_field(FieldWord::Acl))?)
}

/// The dims at the key `shape` (PUT of a dataset's shape). It takes no memory.
///
/// # Errors
///
/// `BadField` with `shape` where there are none.
pub fn dims_of(body: &Tree) -> Result<Dims, BodyFault>
    ensures exact { Answers result (dims_at body.now) }
    ensures memory { IsErrOf result NoMemory → ⊥ }
    ensures sound { IfOk result AreDims }
{
    match body.value().get("shape") {
        None => Err(BodyFault::Refused(bad_field(FieldWord::Shape))),
        Some(tree) => Ok(read_dims(tree).ok_or(bad_field(FieldWord::Shape))?),
    }
}

/// A key that is missing or of the wrong form.
pub(crate) fn bad_field(field: FieldWord) -> Refusal
    ensures { result ≡ BadField field }
{
    Refusal::BadField { field }
}
