//! What may cross threads.

use crate::register::Register;
use crate::tickets::{CutTickets, Tickets};

/// A register may go to another thread.
pub fn register_is_sent(register: &Register) {
    is_sent(register);
}

/// Tickets may go to another thread.
pub fn tickets_are_sent(tickets: &Tickets) {
    is_sent(tickets);
}

/// Those of a cut may go to another thread.
pub fn cut_tickets_are_sent(tickets: &CutTickets) {
    is_sent(tickets);
}

fn is_sent<T: Send>(_value: &T) {}
