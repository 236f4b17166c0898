//! That lanes may cross threads.

use crate::owner::Owner;

/// A lane may be sent to another thread.
pub fn owner_is_sent(owner: &Owner) {
    is_sent(owner);
}

/// A lane may be read by several threads.
pub fn owner_is_shared(owner: &Owner) {
    is_shared(owner);
}

fn is_sent<T: Send>(_value: &T) {}

fn is_shared<T: Sync>(_value: &T) {}
