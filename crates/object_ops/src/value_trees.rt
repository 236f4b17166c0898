//! The bodies of refusals of values.

ghost use Rattle.std.specs.Prelude.{◌≡◌, IfOk, Option, codes};
ghost use Rattle.serde_json.specs.View.{view};
ghost use Rattle.serde_json.specs.Data.{object, no_members};
ghost use Rattle.object_ops.specs.Refusals.{text_member, number_member, maybe_member};

use serde_json::{Value, json};
use std::alloc::{AllocError, Global};

/// What is wrong with a value, at the place of an element or with the lengths of a list.
pub(crate) fn value_json(
    alloc: Global,
    fault: &str,
    reason: &str,
    got: Option<u64>,
    place: Option<u64>,
    want: Option<u64>,
) -> Result<Value, AllocError>
    ensures { IfOk result (λ tree. view tree ≡ object (text_member (codes "fault") fault.now
        (maybe_member (codes "got") got (maybe_member (codes "place") place
        (text_member (codes "reason") reason.now
        (maybe_member (codes "want") want no_members)))))) }
{
    match (got, place, want) {
        (None, None, None) => with_none(alloc, fault, reason),
        (None, None, Some(w)) => with_want(alloc, fault, reason, w),
        (None, Some(p), None) => with_place(alloc, fault, reason, p),
        (None, Some(p), Some(w)) => with_place_want(alloc, fault, reason, p, w),
        (Some(g), None, None) => with_got(alloc, fault, reason, g),
        (Some(g), None, Some(w)) => with_got_want(alloc, fault, reason, g, w),
        (Some(g), Some(p), None) => with_got_place(alloc, fault, reason, g, p),
        (Some(g), Some(p), Some(w)) => with_all(alloc, fault, reason, g, p, w),
    }
}

fn with_none(alloc: Global, fault: &str, reason: &str) -> Result<Value, AllocError>
    ensures { IfOk result (λ tree. view tree
        ≡ object (text_member (codes "fault") fault.now
        (text_member (codes "reason") reason.now no_members))) }
{
    json!(in alloc; {"fault": fault, "reason": reason})
}

fn with_want(alloc: Global, fault: &str, reason: &str, want: u64) -> Result<Value, AllocError>
    ensures { IfOk result (λ tree. view tree
        ≡ object (text_member (codes "fault") fault.now
        (text_member (codes "reason") reason.now (number_member (codes "want") want
        no_members)))) }
{
    json!(in alloc; {"fault": fault, "reason": reason, "want": want})
}

fn with_place(alloc: Global, fault: &str, reason: &str, place: u64) -> Result<Value, AllocError>
    ensures { IfOk result (λ tree. view tree
        ≡ object (text_member (codes "fault") fault.now (number_member (codes "place") place
        (text_member (codes "reason") reason.now no_members)))) }
{
    json!(in alloc; {"fault": fault, "place": place, "reason": reason})
}

fn with_place_want(
    alloc: Global,
    fault: &str,
    reason: &str,
    place: u64,
    want: u64,
) -> Result<Value, AllocError>
    ensures { IfOk result (λ tree. view tree
        ≡ object (text_member (codes "fault") fault.now (number_member (codes "place") place
        (text_member (codes "reason") reason.now (number_member (codes "want") want
        no_members))))) }
{
    json!(in alloc; {"fault": fault, "place": place, "reason": reason, "want": want})
}

fn with_got(alloc: Global, fault: &str, reason: &str, got: u64) -> Result<Value, AllocError>
    ensures { IfOk result (λ tree. view tree
        ≡ object (text_member (codes "fault") fault.now (number_member (codes "got") got
        (text_member (codes "reason") reason.now no_members)))) }
{
    json!(in alloc; {"fault": fault, "got": got, "reason": reason})
}

fn with_got_want(
    alloc: Global,
    fault: &str,
    reason: &str,
    got: u64,
    want: u64,
) -> Result<Value, AllocError>
    ensures { IfOk result (λ tree. view tree
        ≡ object (text_member (codes "fault") fault.now (number_member (codes "got") got
        (text_member (codes "reason") reason.now (number_member (codes "want") want
        no_members))))) }
{
    json!(in alloc; {"fault": fault, "got": got, "reason": reason, "want": want})
}

fn with_got_place(
    alloc: Global,
    fault: &str,
    reason: &str,
    got: u64,
    place: u64,
) -> Result<Value, AllocError>
    ensures { IfOk result (λ tree. view tree
        ≡ object (text_member (codes "fault") fault.now (number_member (codes "got") got
        (number_member (codes "place") place (text_member (codes "reason") reason.now
        no_members))))) }
{
    json!(in alloc; {"fault": fault, "got": got, "place": place, "reason": reason})
}

fn with_all(
    alloc: Global,
    fault: &str,
    reason: &str,
    got: u64,
    place: u64,
    want: u64,
) -> Result<Value, AllocError>
    ensures { IfOk result (λ tree. view tree
        ≡ object (text_member (codes "fault") fault.now (number_member (codes "got") got
        (number_member (codes "place") place (text_member (codes "reason") reason.now
        (number_member (codes "want") want no_members)))))) }
{
    json!(in alloc; {"fault": fault, "got": got, "place": place, "reason": reason, "want": want})
}
