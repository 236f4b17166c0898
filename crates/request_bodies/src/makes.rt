//! What a POST makes, and where it is linked.

ghost use Rattle.std.specs.Prelude.{◌≡◌, IfOk, IfSome, option_and_then, option_map};
ghost use Rattle.json_trees.specs.Shown.{shown};
ghost use Rattle.serde_json.specs.View.{view};
ghost use Rattle.hdf_types.specs.Types.{IsSoundType};
ghost use Rattle.hdf_types.specs.Views.{elem as elem_of};
ghost use Rattle.shapes.specs.Shapes.{IsSound};
ghost use Rattle.object_ids.specs.declared.ids.Kind.TheVariants.{Group};
ghost use Rattle.object_ops.specs.Conditions.{IsGroup, IsSoundMake, IsSoundPlace};
ghost use Rattle.request_bodies.specs.Bodies.{id_in};
ghost use Rattle.request_bodies.specs.Makes.{class_given, dataset_in, grid_in, group_in, linked};
ghost use Rattle.request_bodies.specs.Makes.{made_in, make_in, shape_in, title_text, type_in};
ghost use Rattle.request_bodies.specs.Refusing.{Answers, Gives};

use crate::attributes::shape_refusal;
use crate::faults::BodyFault;
use crate::keys::bad_field;
use crate::links::{id_of_kind, title_of};
use crate::properties::properties_of;
use hdf_types::{Cause, ElemType, TypeFault, read_type};
use json_trees::{Tree, member_text};
use object_ids::{Kind, ObjectId};
use object_ops::{FieldWord, LinkPlace, Make, Refusal};
use serde_json::Value;
use shapes::{Shape, read_shape};
use std::alloc::Global;

/// What a POST of a kind makes, and where it is linked.
///
/// A dataset and a committed datatype have a `type`, and a dataset may have `shape`, `maxdims` and
/// `creationProperties`: a `layout`, a `fillValue`, and `filters`, an empty list. A `link` has the `id` of a
/// group and a `name`.
///
/// # Errors
///
/// In this order: `BadField` with `type`, with `creationProperties`, with `link`; `UnsupportedType`,
/// `BadShape`, `BadName`. Creation properties are judged only where the type and the shape are accepted.
pub fn make_of(
    alloc: Global,
    kind: Kind,
    body: &Tree,
) -> Result<(Make, Option<LinkPlace>), BodyFault>
    ensures exact { Answers result (make_in kind body.now) }
    ensures make { IfOk result (λ made. IsSoundMake made.0) }
    ensures place { IfOk result (λ made. IsSoundPlace made.1) }
{
    let made = made_of(alloc, kind, body.value())?;
    linked(alloc, made, body.value().get("link"))
}

// What is made; inside, what is refused only behind a bad link.
fn made_of(alloc: Global, kind: Kind, body: &Value) -> Result<Result<Make, Refusal>, BodyFault>
    ensures exact { Answers result (made_in kind (view body.now)) }
    ensures sound { IfOk result (λ made. IfOk made IsSoundMake) }
{
    match kind {
        Kind::Group => Ok(Ok(Make::Group)),
        Kind::Datatype => {
            let elem = type_of(alloc, body.get("type"))?;
            Ok(elem.map(|elem| Make::Datatype { elem }))
        }
        Kind::Dataset => dataset_of(alloc, body),
    }
}

fn dataset_of(alloc: Global, body: &Value) -> Result<Result<Make, Refusal>, BodyFault>
    ensures exact { Answers result (dataset_in (view body.now)) }
    ensures sound { IfOk result (λ made. IfOk made IsSoundMake) }
{
    let elem = type_of(alloc, body.get("type"))?;
    match grid_of(elem, body) {
        Ok((elem, shape)) => {
            let given = body.get("creationProperties");
            let properties = properties_of(alloc, &elem, &shape, given)?;
            Ok(Ok(Make::Dataset {
                elem,
                shape,
                layout: properties.layout,
                fill: properties.fill,
            }))
        }
        Err(late) => Ok(Err(late)),
    }
}

// The type, and then the shape.
fn grid_of(elem: Result<ElemType, Refusal>, body: &Value) -> Result<(ElemType, Shape), Refusal>
    ensures exact { result ≡ grid_in elem (shape_in (view body.now)) }
    ensures elem { IfOk elem (λ e. IsSoundType (elem_of e))
        → IfOk result (λ grid. IsSoundType (elem_of grid.0)) }
    ensures shape { IfOk result (λ grid. IsSound grid.1) }
{
    let elem = elem?;
    let shape = shape_of(body)?;
    Ok((elem, shape))
}

// The type at a key; inside, the refusal of a class that isn't supported.
fn type_of(alloc: Global, tree: Option<&Value>) -> Result<Result<ElemType, Refusal>, BodyFault>
    ensures exact { Answers result (type_in (shown tree.entry)) }
    ensures sound { IfOk result (λ kind. IfOk kind (λ e. IsSoundType (elem_of e))) }
{
    let Some(tree) = tree else {
        return Err(BodyFault::Refused(bad_field(FieldWord::Type)));
    };
    match read_type(alloc, tree) {
        Ok(elem) => Ok(Ok(elem)),
        Err(fault) => class_of(&fault),
    }
}

fn class_of(fault: &TypeFault) -> Result<Result<ElemType, Refusal>, BodyFault>
    ensures exact { result ≡ class_given fault.now }
    ensures none { IfOk result (λ kind. IfOk kind (λ e. ⊥)) }
{
    match fault {
        TypeFault::NoMemory => Err(BodyFault::NoMemory),
        TypeFault::Refused {
            cause: Cause::Unsupported { class },
            ..
        } => Ok(Err(Refusal::UnsupportedType { class: *class })),
        TypeFault::Refused { .. } => Err(BodyFault::Refused(bad_field(FieldWord::Type))),
    }
}

fn shape_of(body: &Value) -> Result<Shape, Refusal>
    ensures exact { result ≡ shape_in (view body.now) }
    ensures sound { IfOk result IsSound }
{
    read_shape(body.get("shape"), body.get("maxdims")).map_err(shape_refusal)
}

// The form of the link, then what was kept of the type and the shape, then the title.
fn linked(
    alloc: Global,
    made: Result<Make, Refusal>,
    link: Option<&Value>,
) -> Result<(Make, Option<LinkPlace>), BodyFault>
    requires { IfOk made IsSoundMake }
    ensures exact { Answers result (linked made (shown link.entry)) }
    ensures make { IfOk result (λ made. IsSoundMake made.0) }
    ensures place { IfOk result (λ made. IsSoundPlace made.1) }
{
    let Some(link) = link else {
        return Ok((made?, None));
    };
    let group = group_of(link)?;
    let text = title_text(link)?;
    let make = made?;
    let title = title_of(alloc, text)?;
    Ok((make, Some(LinkPlace { group, title })))
}

fn group_of(link: &Value) -> Result<ObjectId, BodyFault>
    ensures exact { Answers result (group_in (view link.now)) }
    ensures group { IfOk result IsGroup }
{
    Ok(group_id(member_text(link, "id")).ok_or(bad_field(FieldWord::Link))?)
}

fn group_id(text: Option<&str>) -> Option<ObjectId>
    ensures exact { result ≡ option_and_then (id_in Group) (option_map (λ t. t.now) text.entry) }
    ensures group { IfSome result IsGroup }
{
    id_of_kind(Kind::Group, text?)
}

fn title_text(link: &Value) -> Result<&str, BodyFault>
    ensures { Gives (λ text. text.now) result (title_text (view link.now)) }
{
    Ok(member_text(link, "name").ok_or(bad_field(FieldWord::Link))?)
}
