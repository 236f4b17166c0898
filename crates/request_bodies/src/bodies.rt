//! The object that a body is.

ghost use Rattle.std.specs.Prelude.{◌≡◌, ◌⊎◌};
ghost use Rattle.serde_json.specs.Errors.{IsMemory};
ghost use Rattle.serde_json.specs.View.{view};
ghost use Rattle.request_bodies.specs.Bodies.{body_in, object_in};
ghost use Rattle.json_trees.specs.Trees.{tree_in};
ghost use Rattle.request_bodies.specs.Refusing.{Answers, Gives, or_refuse};
ghost use Rattle.request_bodies.specs.declared.faults.BodyFault.TheVariants.{NoMemory, Refused};
ghost use Rattle.object_ops.specs.declared.refusals.Refusal.TheVariants.{BadJson};

use crate::faults::BodyFault;
use json_trees::Tree;
use object_ops::Refusal;
use serde_json::{Error, Map, Value};
use std::alloc::Global;

/// The object of a body. An empty body stands for `{}`.
///
/// # Errors
///
/// `BadJson` where `serde_json` reads no object from the bytes.
pub fn body_of(alloc: Global, bytes: &[u8]) -> Result<Tree, BodyFault>
    ensures { Answers result (body_in bytes.now) }
{
    if bytes.is_empty() {
        return Ok(Tree::new(Value::Object(Map::new(alloc))));
    }
    Ok(Tree::new(object(alloc, bytes)?))
}

fn object(alloc: Global, bytes: &[u8]) -> Result<Value, BodyFault>
    ensures { Gives view result (or_refuse BadJson (object_in bytes.now)) }
{
    let tree = parsed(alloc, bytes)?;
    if tree.is_object() {
        Ok(tree)
    } else {
        Err(BodyFault::Refused(Refusal::BadJson))
    }
}

fn parsed(alloc: Global, bytes: &[u8]) -> Result<Value, BodyFault>
    ensures { Gives view result (or_refuse BadJson (tree_in bytes.now)) }
{
    Value::from_slice(alloc, bytes).map_err(json_fault)
}

// Memory ran out where `serde_json` says so, and nowhere else.
fn json_fault(error: Error) -> BodyFault
    ensures { ((result ≡ NoMemory) × IsMemory error)
        ⊎ ((result ≡ Refused BadJson) × ¬ (IsMemory error)) }
{
    if error.is_memory() {
        BodyFault::NoMemory
    } else {
        BodyFault::Refused(Refusal::BadJson)
    }
}
