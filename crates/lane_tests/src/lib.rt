//! Tests of a service that is taken apart into a register, the owners of two lanes and a journal: lists of events, with
//! the answers of one world in order of places, and after each event what every crash leaves. And tests of a hall over
//! the same parts, asked by many callers at a time, and by two links.
//!
//! Where a cut finds no memory in one lane, and where a link does, no list here can say: the laws over lists of
//! `examples` show it, `tears` and `turns` there.
#![tactic(auto)]

#[cfg(test)]
mod events;
pub mod examples;
#[cfg(test)]
mod halls;
#[cfg(test)]
mod kept;
#[cfg(test)]
mod lanes;
#[cfg(test)]
mod lists;
#[cfg(test)]
mod openings;
#[cfg(test)]
mod pictures;
#[cfg(test)]
mod requests;
#[cfg(test)]
mod services;
#[cfg(test)]
mod steps;
