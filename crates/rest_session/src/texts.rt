//! The texts of answers' bodies: compact JSON.

ghost use Rattle.std.specs.Prelude.{◌≡◌, ◌≤◌, IfOk, Some, codes, false, string_bytes};
ghost use Rattle.serde_json.specs.Data.{depth, object};
ghost use Rattle.serde_json.specs.Read.{max_depth, read};
ghost use Rattle.serde_json.specs.View.{view};
ghost use Rattle.serde_json.specs.Written.{has_float};
ghost use Rattle.object_ops.specs.Refusals.{reason_alone, refusal_tree};
ghost use Rattle.service_core.specs.declared.answers.What.TheVariants.{Replied};
ghost use Rattle.service_core.specs.AnswerTrees.Exact.{IsExact};
ghost use Rattle.rest_session.specs.Responses.{IsJson, body_text, body_tree};

use object_ops::{Body, Refusal, Reply, refusal_json};
use serde_json::{Value, json};
use service_core::{Answer, What};
use std::alloc::{AllocError, Global};

/// The text of the body of an answer to a request that was decided at `path`.
///
/// # Errors
///
/// Only where memory runs out.
pub fn answer_text(alloc: Global, path: &str, answer: &Answer) -> Result<String, AllocError>
    requires { IsExact answer.now.what }
    ensures text { IfOk result (λ text. string_bytes text ≡ body_text path.now answer.now.what) }
    ensures reads_back { IfOk result (λ text. depth (body_tree path.now answer.now.what) ≤ max_depth
        → read (string_bytes text) ≡ Some (body_tree path.now answer.now.what)) }
{
    what_text(alloc, path, &answer.what)
}

// The same for what is answered, without its place.
fn what_text(alloc: Global, path: &str, what: &What) -> Result<String, AllocError>
    requires { IsExact what.now }
    ensures { IfOk result (λ text. IsJson (body_tree path.now what.now) (string_bytes text)) }
{
    match what {
        What::Replied(outcome) => outcome_text(alloc, path, outcome),
        What::Denied { right } => {
            refusal_text(alloc, path, &Refusal::Forbidden { right: *right })
        }
        What::NoMemory => no_memory_text(alloc),
    }
}

// The body where a request was done or refused.
fn outcome_text(alloc: Global, path: &str, outcome: &Reply) -> Result<String, AllocError>
    requires { IsExact (Replied outcome.now) }
    ensures { IfOk result (λ text. IsJson (body_tree path.now (Replied outcome.now))
        (string_bytes text)) }
{
    match outcome {
        Reply::Done { body, .. } => tree_text(alloc, body),
        Reply::Refused(refusal) => refusal_text(alloc, path, refusal),
    }
}

/// The body of a refusal that was decided at `path`.
pub fn refusal_text(alloc: Global, path: &str, refusal: &Refusal) -> Result<String, AllocError>
    ensures { IfOk result (λ text. IsJson (refusal_tree path.now refusal.now)
        (string_bytes text)) }
{
    refusal_json(alloc, path, refusal)?.to_string(alloc)
}

// The body where memory was wanting.
fn no_memory_text(alloc: Global) -> Result<String, AllocError>
    ensures { IfOk result (λ text. IsJson (object (reason_alone (codes "no-memory")))
        (string_bytes text)) }
{
    no_memory_tree(alloc)?.to_string(alloc)
}

fn no_memory_tree(alloc: Global) -> Result<Value, AllocError>
    ensures { IfOk result (λ tree. view tree ≡ object (reason_alone (codes "no-memory"))) }
{
    json!(in alloc; {"reason": "no-memory"})
}

// The compact JSON of a body.
fn tree_text(alloc: Global, body: &Body) -> Result<String, AllocError>
    requires { has_float body.now ≡ false }
    ensures { IfOk result (λ text. IsJson body.now (string_bytes text)) }
{
    body.text(alloc)
}
