//! What is answered and changed of an object's attributes.

ghost use Rattle.std.specs.Prelude.{◌≡◌, IfOk, false, codes};
ghost use Rattle.hdf_values.specs.Attributes.{content, IsSoundAttribute};
ghost use Rattle.shapes.specs.declared.printing.Form.TheVariants.{Rest};
ghost use Rattle.attributes.specs.AttributeTrees.{attributes_list};
ghost use Rattle.object_ops.specs.Replies.{Follows, only};
ghost use Rattle.object_ops.specs.Conditions.{IsShort};
ghost use Rattle.object_ops.specs.declared.replies.Reply.TheVariants.{Done};
ghost use Rattle.object_acts.specs.Acts.{attribute_put, attribute_read, drop_from};

use crate::names::{no_name, taken};
use attributes::{Attributes, MAX_ATTRIBUTES, NoName, PutFault, attribute_json};
use hdf_values::Attribute;
use object_ids::{LimitKind, Name};
use object_ops::{Refusal, Reply};
use shapes::Form;
use std::alloc::{AllocError, Global};

/// A new attribute.
pub(crate) fn put_attribute(
    alloc: Global,
    attributes: &mut Attributes,
    name: &Name,
    attribute: &Attribute,
) -> Result<Reply, AllocError>
    requires name { IsShort name.now }
    requires attribute { IsSoundAttribute (content attribute.now) }
    ensures { Follows (attribute_put name.now attribute.now attributes.old) attributes.old
        result attributes.new }
{
    let attribute = attribute.copy(alloc)?;
    match attributes.put(name.copy()?, attribute) {
        Ok(()) => Ok(Reply::done(alloc, 201)),
        Err(PutFault::Taken) => taken(name),
        Err(PutFault::Limit) => Ok(Reply::Refused(Refusal::Limit {
            limit: MAX_ATTRIBUTES as u64,
            what: LimitKind::Attributes,
        })),
        Err(PutFault::NoMemory) => Err(AllocError),
    }
}

/// The removal of an attribute.
pub(crate) fn drop_attribute(
    alloc: Global,
    attributes: &mut Attributes,
    name: &Name,
) -> Result<Reply, AllocError>
    ensures { Follows (drop_from name.now attributes.old) attributes.old result attributes.new }
{
    match attributes.remove(name) {
        Ok(()) => Ok(Reply::done(alloc, 200)),
        Err(NoName) => no_name(name),
    }
}

/// One attribute, with its value.
pub(crate) fn get_attribute(
    alloc: Global,
    attributes: &Attributes,
    name: &Name,
) -> Result<Reply, AllocError>
    ensures { IfOk result (λ r. r ≡ attribute_read name.now attributes.now) }
{
    match attributes.get(name) {
        Some(attribute) => {
            let tree = attribute_json(alloc, name, attribute, Form::Rest, true)?;
            Ok(Reply::with(200, tree))
        }
        None => no_name(name),
    }
}

/// All attributes, in byte order of their names, without their values.
pub(crate) fn list_attributes(alloc: Global, attributes: &Attributes) -> Result<Reply, AllocError>
    ensures { IfOk result (λ r. r ≡ Done 200
        (only (codes "attributes") (attributes_list attributes.now Rest false))) }
{
    let tree = attributes.list(alloc, Form::Rest, false)?;
    Reply::keyed(alloc, 200, "attributes", tree)
}
