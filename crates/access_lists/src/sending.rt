//! What may cross threads.

use crate::people::Caller;
use crate::tokens::TokenTable;

/// A caller may go to another thread.
pub fn caller_is_sent(caller: &Caller) {
    is_sent(caller);
}

/// Several threads may look up who sends a request.
pub fn tokens_are_shared(tokens: &TokenTable) {
    is_shared(tokens);
}

fn is_sent<T: Send>(_value: &T) {}

fn is_shared<T: Sync>(_value: &T) {}
