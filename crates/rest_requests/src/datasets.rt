//! What is asked of the shape, the type and the elements of a dataset.

ghost use Rattle.std.specs.Prelude.{◌≡◌, IfOk, codes};
ghost use Rattle.object_ops.specs.Conditions.{IsSoundOp};
ghost use Rattle.rest_requests.specs.Queries.Pairs.{pairs_of, value_of};
ghost use Rattle.request_bodies.specs.Refusing.{Answers};
ghost use Rattle.rest_requests.specs.Operations.{get_elem, get_points, get_shape, get_value, put_shape, put_value};

use crate::parameters::id_at;
use crate::queries::first_value;
use object_ids::Kind;
use object_ops::{Op, SelectText};
use request_bodies::{BodyFault, body_of, dims_of, points_of, value_body_of, write_of};
use std::alloc::{AllocError, Global};

pub(crate) fn get_shape(alloc: Global, path: &str) -> Result<Op, BodyFault>
    ensures exact { Answers result (get_shape path.now) }
    ensures sound { IfOk result IsSoundOp }
{
    let id = id_at(alloc, Kind::Dataset, path)?;
    Ok(Op::GetShape { id })
}

pub(crate) fn put_shape(alloc: Global, path: &str, body: &[u8]) -> Result<Op, BodyFault>
    ensures exact { Answers result (put_shape path.now body.now) }
    ensures sound { IfOk result IsSoundOp }
{
    let tree = body_of(alloc, body)?;
    let id = id_at(alloc, Kind::Dataset, path)?;
    let dims = dims_of(&tree)?;
    Ok(Op::PutShape { id, dims })
}

pub(crate) fn get_elem(alloc: Global, path: &str) -> Result<Op, BodyFault>
    ensures exact { Answers result (get_elem path.now) }
    ensures sound { IfOk result IsSoundOp }
{
    let id = id_at(alloc, Kind::Dataset, path)?;
    Ok(Op::GetElem { id })
}

pub(crate) fn get_value(alloc: Global, path: &str, query: &str) -> Result<Op, BodyFault>
    ensures exact { Answers result (get_value path.now query.now) }
    ensures sound { IfOk result IsSoundOp }
{
    let id = id_at(alloc, Kind::Dataset, path)?;
    let select = select_of(alloc, query)?;
    Ok(Op::GetValue { id, select })
}

fn select_of(alloc: Global, query: &str) -> Result<Option<SelectText>, AllocError>
    ensures { IfOk result (λ select. select ≡ value_of (codes "select") (pairs_of query.now)) }
{
    match first_value(alloc, query, "select")? {
        Some(text) => Ok(Some(SelectText::from_string(text.into_owned(alloc)?))),
        None => Ok(None),
    }
}

pub(crate) fn put_value(alloc: Global, path: &str, body: &[u8]) -> Result<Op, BodyFault>
    ensures exact { Answers result (put_value path.now body.now) }
    ensures sound { IfOk result IsSoundOp }
{
    let asked = value_body_of(alloc, body)?;
    let id = id_at(alloc, Kind::Dataset, path)?;
    let (part, value) = write_of(asked)?;
    Ok(Op::PutValue { id, part, value })
}

pub(crate) fn get_points(alloc: Global, path: &str, body: &[u8]) -> Result<Op, BodyFault>
    ensures exact { Answers result (get_points path.now body.now) }
    ensures sound { IfOk result IsSoundOp }
{
    let asked = value_body_of(alloc, body)?;
    let id = id_at(alloc, Kind::Dataset, path)?;
    let points = points_of(asked)?;
    Ok(Op::GetPoints { id, points })
}
