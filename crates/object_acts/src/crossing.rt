//! Objects may cross threads.

use crate::objects::Object;

/// An object may be sent to another thread.
pub fn object_is_sent(object: &Object) {
    is_sent(object);
}

fn is_sent<T: Send>(_value: &T) {}
