//! What may cross threads.

use crate::desk::AtDesk;
use crate::hall::Hall;
use crate::pass::Pass;

/// A pass may go to another thread.
pub fn pass_is_sent<D: AtDesk + Send>(pass: &Pass<D>) {
    is_sent(pass);
}

/// A hall may be shared by several threads.
pub fn hall_is_shared<D: AtDesk + Send>(hall: &Hall<D>) {
    is_shared(hall);
}

fn is_sent<T: Send>(_value: &T) {}

fn is_shared<T: Sync>(_value: &T) {}
