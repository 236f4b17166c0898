//! What may cross threads.

use crate::ops::Op;
use crate::replies::Reply;

/// What is asked may be sent to another thread.
pub fn op_is_sent(op: &Op) {
    is_sent(op);
}

/// An answer may be sent to another thread.
pub fn reply_is_sent(reply: &Reply) {
    is_sent(reply);
}

fn is_sent<T: Send>(_value: &T) {}
