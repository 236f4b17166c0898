//! Ids, names, titles, and where links lead.

ghost use Rattle.std.specs.Prelude.{◌≡◌, IfOk, IfSome};
ghost use Rattle.groups_links.specs.IdTexts.{id_of as id_in_text};
ghost use Rattle.groups_links.specs.Targets.{IsSoundLink};
ghost use Rattle.groups_links.specs.Titles.{IsGoodTitle};
ghost use Rattle.object_ops.specs.Conditions.{IsShort};
ghost use Rattle.request_bodies.specs.Bodies.{id_in, link_fault, name_fault, name_in, same_kind, target_in};
ghost use Rattle.request_bodies.specs.Bodies.{title_in};
ghost use Rattle.request_bodies.specs.Refusing.{Answers};

use crate::faults::BodyFault;
use crate::keys::bad_field;
use groups_links::{LinkFault, LinkTo, good_title, read_link};
use json_trees::Tree;
use object_ids::{Kind, Name, NameFault, ObjectId, read_id};
use object_ops::{FieldWord, Refusal};
use std::alloc::Global;

/// The most bytes of a name or a title.
pub const MAX_NAME: usize = 255;

impl From<NameFault> for BodyFault {
    ghost from_gives = { λ fault e. e ≡ name_fault fault };

    fn from(fault: NameFault) -> BodyFault {
        match fault {
            NameFault::BadName => BodyFault::Refused(Refusal::BadName),
            NameFault::NoMemory => BodyFault::NoMemory,
        }
    }
}

impl From<LinkFault> for BodyFault {
    ghost from_gives = { λ fault e. e ≡ link_fault fault };

    fn from(fault: LinkFault) -> BodyFault {
        match fault {
            LinkFault::NotALink => BodyFault::Refused(bad_field(FieldWord::Link)),
            LinkFault::NoMemory => BodyFault::NoMemory,
        }
    }
}

/// The id of this kind that a text is. It takes no memory.
pub fn id_of_kind(kind: Kind, text: &str) -> Option<ObjectId>
    ensures exact { result ≡ id_in kind text.now }
    ensures kind { IfSome result (λ id. id.kind ≡ kind) }
{
    match id_of(text) {
        Some(id) if is_kind(id.kind, kind) => Some(id),
        _ => None,
    }
}

fn is_kind(found: Kind, wanted: Kind) -> bool
    ensures { result ≡ same_kind found wanted }
{
    found == wanted
}

fn id_of(text: &str) -> Option<ObjectId>
    ensures { result ≡ id_in_text text.now }
{
    read_id(text)
}

/// The name of an attribute or an entry that a text is.
///
/// # Errors
///
/// `BadName` where it is no name of at most [`MAX_NAME`] bytes.
pub fn name_of(alloc: Global, text: &str) -> Result<Name, BodyFault>
    ensures exact { Answers result (name_in text.now) }
    ensures short { IfOk result IsShort }
{
    Ok(Name::read(alloc, text, MAX_NAME)?)
}

/// The title that a text is: a name without a slash.
///
/// # Errors
///
/// `BadName` where it is none.
pub fn title_of(alloc: Global, text: &str) -> Result<Name, BodyFault>
    ensures exact { Answers result (title_in text.now) }
    ensures good { IfOk result IsGoodTitle }
{
    let title = name_of(alloc, text)?;
    if good_title(&title) {
        Ok(title)
    } else {
        Err(BodyFault::Refused(Refusal::BadName))
    }
}

/// Where a new link leads (PUT of a link).
///
/// # Errors
///
/// `BadField` with `link` where the body spells no link.
pub fn target_of(alloc: Global, body: &Tree) -> Result<LinkTo, BodyFault>
    ensures exact { Answers result (target_in body.now) }
    ensures sound { IfOk result IsSoundLink }
{
    Ok(read_link(alloc, body.value())?)
}
