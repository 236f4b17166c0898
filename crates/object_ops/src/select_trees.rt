//! The bodies of refusals of selections.

ghost use Rattle.std.specs.Prelude.{◌≡◌, IfOk, Option, codes};
ghost use Rattle.serde_json.specs.View.{view};
ghost use Rattle.serde_json.specs.Data.{object};
ghost use Rattle.object_ops.specs.Refusals.{reason_alone, text_member, number_member, maybe_member};

use serde_json::{Value, json};
use std::alloc::{AllocError, Global};

/// What is wrong with a selection, at the axis, the byte or the point that is at fault.
pub(crate) fn select_json(
    alloc: Global,
    fault: &str,
    reason: &str,
    axis: Option<u64>,
    byte: Option<u64>,
    index: Option<u64>,
) -> Result<Value, AllocError>
    ensures { IfOk result (λ tree. view tree ≡ object (maybe_member (codes "axis") axis
        (maybe_member (codes "byte") byte (text_member (codes "fault") fault.now
        (maybe_member (codes "index") index (reason_alone reason.now)))))) }
{
    match (axis, byte, index) {
        (None, None, None) => at_none(alloc, fault, reason),
        (None, None, Some(i)) => at_index(alloc, fault, reason, i),
        (None, Some(b), None) => at_byte(alloc, fault, reason, b),
        (None, Some(b), Some(i)) => at_byte_index(alloc, fault, reason, b, i),
        (Some(a), None, None) => at_axis(alloc, fault, reason, a),
        (Some(a), None, Some(i)) => at_axis_index(alloc, fault, reason, a, i),
        (Some(a), Some(b), None) => at_axis_byte(alloc, fault, reason, a, b),
        (Some(a), Some(b), Some(i)) => at_all(alloc, fault, reason, a, b, i),
    }
}

fn at_none(alloc: Global, fault: &str, reason: &str) -> Result<Value, AllocError>
    ensures { IfOk result (λ tree. view tree
        ≡ object (text_member (codes "fault") fault.now (reason_alone reason.now))) }
{
    json!(in alloc; {"fault": fault, "reason": reason})
}

fn at_index(alloc: Global, fault: &str, reason: &str, index: u64) -> Result<Value, AllocError>
    ensures { IfOk result (λ tree. view tree
        ≡ object (text_member (codes "fault") fault.now (number_member (codes "index") index
        (reason_alone reason.now)))) }
{
    json!(in alloc; {"fault": fault, "index": index, "reason": reason})
}

fn at_byte(alloc: Global, fault: &str, reason: &str, byte: u64) -> Result<Value, AllocError>
    ensures { IfOk result (λ tree. view tree
        ≡ object (number_member (codes "byte") byte (text_member (codes "fault") fault.now
        (reason_alone reason.now)))) }
{
    json!(in alloc; {"byte": byte, "fault": fault, "reason": reason})
}

fn at_byte_index(
    alloc: Global,
    fault: &str,
    reason: &str,
    byte: u64,
    index: u64,
) -> Result<Value, AllocError>
    ensures { IfOk result (λ tree. view tree
        ≡ object (number_member (codes "byte") byte (text_member (codes "fault") fault.now
        (number_member (codes "index") index (reason_alone reason.now))))) }
{
    json!(in alloc; {"byte": byte, "fault": fault, "index": index, "reason": reason})
}

fn at_axis(alloc: Global, fault: &str, reason: &str, axis: u64) -> Result<Value, AllocError>
    ensures { IfOk result (λ tree. view tree
        ≡ object (number_member (codes "axis") axis (text_member (codes "fault") fault.now
        (reason_alone reason.now)))) }
{
    json!(in alloc; {"axis": axis, "fault": fault, "reason": reason})
}

fn at_axis_index(
    alloc: Global,
    fault: &str,
    reason: &str,
    axis: u64,
    index: u64,
) -> Result<Value, AllocError>
    ensures { IfOk result (λ tree. view tree
        ≡ object (number_member (codes "axis") axis (text_member (codes "fault") fault.now
        (number_member (codes "index") index (reason_alone reason.now))))) }
{
    json!(in alloc; {"axis": axis, "fault": fault, "index": index, "reason": reason})
}

fn at_axis_byte(
    alloc: Global,
    fault: &str,
    reason: &str,
    axis: u64,
    byte: u64,
) -> Result<Value, AllocError>
    ensures { IfOk result (λ tree. view tree
        ≡ object (number_member (codes "axis") axis (number_member (codes "byte") byte
        (text_member (codes "fault") fault.now (reason_alone reason.now))))) }
{
    json!(in alloc; {"axis": axis, "byte": byte, "fault": fault, "reason": reason})
}

fn at_all(
    alloc: Global,
    fault: &str,
    reason: &str,
    axis: u64,
    byte: u64,
    index: u64,
) -> Result<Value, AllocError>
    ensures { IfOk result (λ tree. view tree
        ≡ object (number_member (codes "axis") axis (number_member (codes "byte") byte
        (text_member (codes "fault") fault.now (number_member (codes "index") index
        (reason_alone reason.now)))))) }
{
    json!(in alloc; {"axis": axis, "byte": byte, "fault": fault, "index": index, "reason": reason})
}
