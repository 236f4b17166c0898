//! The bodies of refusals.

ghost use Rattle.std.specs.Prelude.{◌≡◌, IfOk, codes};
ghost use Rattle.serde_json.specs.View.{view};
ghost use Rattle.serde_json.specs.Data.{object, no_members};
ghost use Rattle.object_ids.specs.Ids.{text_of_id};
ghost use Rattle.object_ids.specs.Limits.{limit_word};
ghost use Rattle.access_lists.specs.RightWords.{right_name};
ghost use Rattle.object_ops.specs.Words.{class_name};
ghost use Rattle.object_ops.specs.Refusals.{refusal_tree, reason_alone, text_member, number_member};

use crate::refusals::Refusal;
use crate::select_trees::select_json;
use crate::value_trees::value_json;
use access_lists::Right;
use hdf_types::Class;
use object_ids::{LimitKind, ObjectId, id_text};
use serde_json::{Value, json};
use std::alloc::{AllocError, Global};

/// The body of a refusal's answer: an object with its `reason`, and what the reason speaks of. `path` is where the
/// request was decided; it stands in the body at the key `domain` where the reason speaks of a folder or a domain.
///
/// # Errors
///
/// Only where memory runs out.
pub fn refusal_json(alloc: Global, path: &str, refusal: &Refusal) -> Result<Value, AllocError>
    ensures { IfOk result (λ tree. view tree ≡ refusal_tree path.now refusal.now) }
{
    let reason = refusal.reason();
    match refusal {
        Refusal::BadField { field } => of_field(alloc, field.word(), reason),
        Refusal::UnsupportedType { class } => of_class(alloc, class_name(*class), reason),
        Refusal::BadShape { fault } => of_fault(alloc, fault.word(), reason),
        Refusal::NoDomain => of_domain(alloc, path, reason),
        Refusal::Forbidden { right } => forbidden(alloc, path, reason, *right),
        Refusal::NoObject { id } => of_id(alloc, id, reason),
        Refusal::Gone { id } => of_id(alloc, id, reason),
        Refusal::BadSelect {
            fault,
            axis,
            byte,
            index,
        } => {
            let axis = axis.map(u64::from);
            select_json(alloc, fault.word(), reason, axis, *byte, *index)
        }
        Refusal::TooMany { count, limit } => too_many(alloc, reason, *count, *limit),
        Refusal::BadValue {
            fault,
            place,
            got,
            want,
        } => value_json(alloc, fault.word(), reason, *got, *place, *want),
        Refusal::Taken { name } => of_name(alloc, name.text(), reason),
        Refusal::NotEmpty => of_domain(alloc, path, reason),
        Refusal::NoName { name } => of_name(alloc, name.text(), reason),
        Refusal::Limit { limit, what } => limit_json(alloc, reason, *limit, *what),
        Refusal::JournalFull { end, need, room } => full_json(alloc, reason, *end, *need, *room),
        _ => alone(alloc, reason),
    }
}

fn class_name(class: Class) -> &'static str
    ensures { result.now ≡ class_name class }
{
    match class {
        Class::Float => "H5T_FLOAT",
        Class::Reference => "H5T_REFERENCE",
        Class::Vlen => "H5T_VLEN",
        Class::Opaque => "H5T_OPAQUE",
        Class::Bitfield => "H5T_BITFIELD",
        Class::Array => "H5T_ARRAY",
        Class::Enum => "H5T_ENUM",
        Class::Time => "H5T_TIME",
        Class::String => "H5T_STRING",
    }
}

fn alone(alloc: Global, reason: &str) -> Result<Value, AllocError>
    ensures { IfOk result (λ tree. view tree ≡ object (reason_alone reason.now)) }
{
    json!(in alloc; {"reason": reason})
}

fn of_field(alloc: Global, text: &str, reason: &str) -> Result<Value, AllocError>
    ensures { IfOk result (λ tree. view tree
        ≡ object (text_member (codes "field") text.now (reason_alone reason.now))) }
{
    json!(in alloc; {"field": text, "reason": reason})
}

fn of_class(alloc: Global, text: &str, reason: &str) -> Result<Value, AllocError>
    ensures { IfOk result (λ tree. view tree
        ≡ object (text_member (codes "class") text.now (reason_alone reason.now))) }
{
    json!(in alloc; {"class": text, "reason": reason})
}

fn of_fault(alloc: Global, text: &str, reason: &str) -> Result<Value, AllocError>
    ensures { IfOk result (λ tree. view tree
        ≡ object (text_member (codes "fault") text.now (reason_alone reason.now))) }
{
    json!(in alloc; {"fault": text, "reason": reason})
}

fn of_domain(alloc: Global, text: &str, reason: &str) -> Result<Value, AllocError>
    ensures { IfOk result (λ tree. view tree
        ≡ object (text_member (codes "domain") text.now (reason_alone reason.now))) }
{
    json!(in alloc; {"domain": text, "reason": reason})
}

fn of_id_text(alloc: Global, text: &str, reason: &str) -> Result<Value, AllocError>
    ensures { IfOk result (λ tree. view tree
        ≡ object (text_member (codes "id") text.now (reason_alone reason.now))) }
{
    json!(in alloc; {"id": text, "reason": reason})
}

fn of_name(alloc: Global, text: &str, reason: &str) -> Result<Value, AllocError>
    ensures { IfOk result (λ tree. view tree
        ≡ object (text_member (codes "name") text.now (reason_alone reason.now))) }
{
    json!(in alloc; {"name": text, "reason": reason})
}

fn of_id(alloc: Global, id: &ObjectId, reason: &str) -> Result<Value, AllocError>
    ensures { IfOk result (λ tree. view tree
        ≡ object (text_member (codes "id") (text_of_id id.now) (reason_alone reason.now))) }
{
    let text = id_text(alloc, id)?;
    of_id_text(alloc, text.as_str(), reason)
}

fn forbidden(alloc: Global, path: &str, reason: &str, right: Right) -> Result<Value, AllocError>
    ensures { IfOk result (λ tree. view tree ≡ object (text_member (codes "domain") path.now
        (text_member (codes "reason") reason.now
        (text_member (codes "right") (right_name right) no_members)))) }
{
    let word = right.name();
    json!(in alloc; {"domain": path, "reason": reason, "right": word})
}

fn too_many(alloc: Global, reason: &str, count: u64, limit: u64) -> Result<Value, AllocError>
    ensures { IfOk result (λ tree. view tree ≡ object (number_member (codes "count") count
        (number_member (codes "limit") limit (reason_alone reason.now)))) }
{
    json!(in alloc; {"count": count, "limit": limit, "reason": reason})
}

fn limit_json(alloc: Global, reason: &str, limit: u64, what: LimitKind) -> Result<Value, AllocError>
    ensures { IfOk result (λ tree. view tree ≡ object (number_member (codes "limit") limit
        (text_member (codes "reason") reason.now
        (text_member (codes "what") (limit_word what) no_members)))) }
{
    let word = what.word();
    json!(in alloc; {"limit": limit, "reason": reason, "what": word})
}

fn full_json(
    alloc: Global,
    reason: &str,
    end: u64,
    need: u64,
    room: u64,
) -> Result<Value, AllocError>
    ensures { IfOk result (λ tree. view tree ≡ object (number_member (codes "end") end
        (number_member (codes "need") need (text_member (codes "reason") reason.now
        (number_member (codes "room") room no_members))))) }
{
    json!(in alloc; {"end": end, "need": need, "reason": reason, "room": room})
}
