//! The parameters of a path: ids, names and titles.

ghost use Rattle.std.specs.Prelude.{◌≡◌, IfOk, option_map};
ghost use Rattle.std.specs.Cow.{cow_str_bytes};
ghost use Rattle.groups_links.specs.Titles.{IsGoodTitle};
ghost use Rattle.object_ops.specs.Conditions.{IsShort};
ghost use Rattle.request_bodies.specs.Refusing.{Answers, or_refuse};
ghost use Rattle.request_bodies.specs.Bodies.{id_in};
ghost use Rattle.object_ops.specs.declared.refusals.Refusal.TheVariants.{BadField};
ghost use Rattle.object_ops.specs.declared.words.FieldWord.TheVariants.{Id};
ghost use Rattle.rest_requests.specs.Parameters.{id_at, name_at, parameter_at, title_at};

use crate::queries::{parameter, path_part};
use object_ids::{Kind, Name, ObjectId};
use object_ops::{FieldWord, Refusal};
use request_bodies::{BodyFault, id_of_kind, name_of, title_of};
use std::alloc::{AllocError, Global};
use std::borrow::CowStr;

/// Where the first parameter stands among the parts of a path, and the second.
pub(crate) const FIRST: usize = 2;

pub(crate) const SECOND: usize = 4;

fn parameter_at(alloc: Global, path: &str, place: usize) -> Result<Option<CowStr<'_>>, AllocError>
    ensures { IfOk result (λ text. option_map cow_str_bytes text ≡ parameter_at path.now place) }
{
    match path_part(path, place) {
        Some(part) => parameter(alloc, part),
        None => Ok(None),
    }
}

/// The id of an object of this kind that stands in a path.
pub(crate) fn id_at(alloc: Global, kind: Kind, path: &str) -> Result<ObjectId, BodyFault>
    ensures exact { Answers result (id_at kind path.now) }
    ensures kind { IfOk result (λ id. id.kind ≡ kind) }
{
    match parameter_at(alloc, path, FIRST)? {
        Some(text) => id_named(kind, text.as_str()),
        None => Err(bad_id()),
    }
}

fn id_named(kind: Kind, text: &str) -> Result<ObjectId, BodyFault>
    ensures exact { Answers result (or_refuse (BadField Id) (id_in kind text.now)) }
    ensures kind { IfOk result (λ id. id.kind ≡ kind) }
{
    match id_of_kind(kind, text) {
        Some(id) => Ok(id),
        None => Err(bad_id()),
    }
}

fn bad_id() -> BodyFault
    ensures { result ≡ BodyFault.Refused (BadField Id) }
{
    BodyFault::Refused(Refusal::BadField {
        field: FieldWord::Id,
    })
}

/// The name of an attribute or an entry that stands in a path.
pub(crate) fn name_at(alloc: Global, path: &str, place: usize) -> Result<Name, BodyFault>
    ensures exact { Answers result (name_at place path.now) }
    ensures short { IfOk result IsShort }
{
    match parameter_at(alloc, path, place)? {
        Some(text) => name_of(alloc, text.as_str()),
        None => Err(BodyFault::Refused(Refusal::BadName)),
    }
}

/// The title of a link that stands in a path.
pub(crate) fn title_at(alloc: Global, path: &str) -> Result<Name, BodyFault>
    ensures exact { Answers result (title_at path.now) }
    ensures good { IfOk result IsGoodTitle }
{
    match parameter_at(alloc, path, SECOND)? {
        Some(text) => title_of(alloc, text.as_str()),
        None => Err(BodyFault::Refused(Refusal::BadName)),
    }
}
