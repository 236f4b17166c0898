//! Decides requests: each at its place, by the access list in force there, and gives out the turns of lanes that it takes.
//!
//! [`installed`] makes the register from the records that a journal held.
#![tactic(auto)]

mod changes;
mod counts;
mod cuts;
pub mod installed;
mod installs;
mod laws;
mod looking;
mod marks;
mod register;
mod replies;
mod sending;
mod tickets;
mod verdicts;

pub use installs::InstallFault;
pub use laws::{
    cuts_tell_registers, decisions_continue, decisions_keep, kept_registers_are_described,
    verdicts_come_exactly,
};
pub use register::Register;
pub use sending::{cut_tickets_are_sent, register_is_sent, tickets_are_sent};
pub use tickets::{CutTickets, Tickets, Turn};
pub use verdicts::Verdict;
