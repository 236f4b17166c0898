//! What is answered.

ghost use Rattle.std.specs.Prelude.{◌≡◌, IfOk, codes};
ghost use Rattle.serde_json.specs.View.{view};
ghost use Rattle.hdf_types.specs.Types.{IsSoundType};
ghost use Rattle.hdf_types.specs.Views.{elem};
ghost use Rattle.shapes.specs.RowMajor.{cell_count};
ghost use Rattle.hdf_values.specs.Nested.{AreEncoded, nested_decoded};
ghost use Rattle.object_ops.specs.Replies.{nothing, only};
ghost use Rattle.object_ops.specs.declared.replies.Reply.TheVariants.{Done};

use crate::body::Body;
use crate::refusals::Refusal;
use hdf_types::ElemType;
use serde_json::{Value, json};
use shapes::Dims;
use std::alloc::{AllocError, Global};
use std::collections::BTreeMap;

/// The answer to a request.
#[derive(Drop)]
pub enum Reply {
    /// It was done.
    Done {
        /// The status (RFC 9110, section 15.3).
        status: u16,
        /// The body.
        body: Body,
    },
    /// It was refused.
    Refused(Refusal),
}

impl Reply {
    /// That it was done, with `{}` as the body. It takes no memory.
    pub fn done(alloc: Global, status: u16) -> Reply
        ensures { result ≡ Done status nothing }
    {
        Reply::with(status, no_key(alloc))
    }

    /// That it was done, with a tree as the body.
    pub fn with(status: u16, tree: Value) -> Reply
        ensures { result ≡ Done status (view tree) }
    {
        Reply::Done {
            status,
            body: Body::of(tree),
        }
    }

    /// That it was done, with the status 200 and the elements that bytes are at the key `value` as the body. It takes no
    /// memory: the bytes are kept.
    pub fn cells(kind: ElemType, extents: Dims, bytes: Vec<u8>) -> Reply
        requires sound { IsSoundType (elem kind) }
        requires encoded { AreEncoded (elem kind) (cell_count extents) bytes.items }
        ensures { result ≡ Done 200
            (only (codes "value") (nested_decoded (elem kind) extents bytes.items)) }
    {
        Reply::Done {
            status: 200,
            body: Body::cells(kind, extents, bytes),
        }
    }

    /// That it was done, with a tree at one key as the body.
    ///
    /// # Errors
    ///
    /// Only where memory runs out.
    pub fn keyed(
        alloc: Global,
        status: u16,
        key: &'static str,
        tree: Value,
    ) -> Result<Reply, AllocError>
        ensures { IfOk result (λ r. r ≡ Done status (only key.now (view tree))) }
    {
        let body = at_key(alloc, key, tree)?;
        Ok(Reply::with(status, body))
    }
}

fn no_key(alloc: Global) -> Value
    ensures { view result ≡ nothing }
{
    Value::Object(BTreeMap::new(alloc))
}

fn at_key(alloc: Global, key: &'static str, tree: Value) -> Result<Value, AllocError>
    ensures { IfOk result (λ v. view v ≡ only key.now (view tree)) }
{
    json!(in alloc; {key: tree})
}
