//! The object that a body is the text of.

ghost use Rattle.std.specs.Prelude.{◌≡◌, ◌≢◌, ◌↔◌, [], IfOk, IsErrOf, IsUtf8};
ghost use Rattle.serde_json.specs.Errors.{IsMemory};
ghost use Rattle.serde_json.specs.View.{view};
ghost use Rattle.hdf_types.specs.Types.{IsSoundType};
ghost use Rattle.hdf_types.specs.Views.{elem as elem_of};
ghost use Rattle.object_acts.specs.Objects.{IsOfKind, IsSoundBody, IsTrackedBody, kind_of_body};
ghost use Rattle.object_acts.specs.declared.objects.Body.TheVariants.{Dataset};
ghost use Rattle.chunk_store.specs.Marks.{IsTracked};
ghost use Rattle.object_records.specs.Readings.{Reads};
ghost use Rattle.object_records.specs.Entries.{entry_of, kept_of};
ghost use Rattle.object_records.specs.Objects.{dataset_in, kept_in, object_of_body, spelled_in};
ghost use Rattle.object_records.specs.Objects.{IsFresh, type_in};

use crate::BodyFault;
use crate::creations::creation_in;
use crate::links::links_in;
use crate::names::attributes_in;
use chunk_store::Array;
use hdf_types::{ElemType, read_type};
use object_acts::{Body, Object};
use object_ids::Kind;
use serde_json::{Error, Value};
use shapes::read_shape;
use std::alloc::Global;

/// The object of a kind that a body is the text of; of a dataset each cell has the fill, and no
/// chunk has changed.
///
/// # Errors
///
/// [`BodyFault::NoObject`] exactly where there is none, or [`BodyFault::NoMemory`], which comes only of
/// a body that is UTF-8 and isn't empty.
pub fn read_object(alloc: Global, kind: Kind, body: &[u8]) -> Result<Object, BodyFault>
    ensures reads { Reads entry_of result (object_of_body kind body.now) }
    ensures memory { IsErrOf result BodyFault.NoMemory → IsUtf8 body.now × (body.now ≢ []) }
    ensures kind { IfOk result (IsOfKind kind) }
    ensures fresh { IfOk result (λ o. IsFresh o.body) }
    ensures tracked { IfOk result (λ o. IsTrackedBody (λ _. []) o.body) }
{
    let Ok(text) = str::from_utf8(body) else {
        return Err(BodyFault::NoObject);
    };
    match Value::from_str(alloc, text) {
        Ok(tree) => object_in(alloc, kind, &tree),
        Err(error) => Err(json_fault(&error)),
    }
}

// Memory ran out exactly where `serde_json` says so; else the text is no JSON, and so no object's.
fn json_fault(error: &Error) -> BodyFault
    ensures { (result ≡ BodyFault.NoMemory) ↔ IsMemory error.now }
{
    if error.is_memory() {
        BodyFault::NoMemory
    } else {
        BodyFault::NoObject
    }
}

/// The object of a kind that a tree spells.
///
/// # Errors
///
/// [`BodyFault::NoObject`] exactly where there is none, or [`BodyFault::NoMemory`].
pub fn object_in(alloc: Global, kind: Kind, tree: &Value) -> Result<Object, BodyFault>
    ensures reads { Reads entry_of result (spelled_in kind (view tree.now)) }
    ensures kind { IfOk result (IsOfKind kind) }
    ensures fresh { IfOk result (λ o. IsFresh o.body) }
    ensures tracked { IfOk result (λ o. IsTrackedBody (λ _. []) o.body) }
{
    if !tree.is_object() {
        return Err(BodyFault::NoObject);
    }
    let attributes = attributes_in(alloc, tree.get("attributes"))?;
    let body = body_in(alloc, kind, tree)?;
    Ok(Object { attributes, body })
}

fn body_in(alloc: Global, kind: Kind, tree: &Value) -> Result<Body, BodyFault>
    ensures reads { Reads kept_of result (kept_in kind (view tree.now)) }
    ensures kind { IfOk result (λ b. kind_of_body b ≡ kind) }
    ensures sound { IfOk result IsSoundBody }
    ensures fresh { IfOk result IsFresh }
    ensures tracked { IfOk result (IsTrackedBody (λ _. [])) }
{
    match kind {
        Kind::Group => Ok(Body::Group(links_in(alloc, tree.get("links"))?)),
        Kind::Dataset => Ok(Body::Dataset(array_in(alloc, tree)?)),
        Kind::Datatype => Ok(Body::Datatype(type_in(alloc, tree)?)),
    }
}

fn array_in(alloc: Global, tree: &Value) -> Result<Array, BodyFault>
    ensures reads { Reads (λ array. kept_of (Dataset array)) result (dataset_in (view tree.now)) }
    ensures fresh { IfOk result (λ array. IsFresh (Dataset array)) }
    ensures tracked { IfOk result (IsTracked (λ _. [])) }
{
    let elem = type_in(alloc, tree)?;
    let shape = read_shape(tree.get("shape"), None)?;
    let creation = creation_in(alloc, &elem, &shape, tree.get("creationProperties"))?;
    Ok(Array::new(alloc, elem, shape, creation.layout, creation.fill)?)
}

fn type_in(alloc: Global, tree: &Value) -> Result<ElemType, BodyFault>
    ensures reads { Reads elem_of result (type_in (view tree.now)) }
    ensures sound { IfOk result (λ e. IsSoundType (elem_of e)) }
{
    let Some(tree) = tree.get("type") else {
        return Err(BodyFault::NoObject);
    };
    Ok(read_type(alloc, tree)?)
}
