//! What a pass knows. Contracts speak of these types; a value is made of `Opening` alone.
use crate::queue::Claim;
use lane_histories::{Keeping, LaneItem, RegisterItem};
use std::collections::LinkedList;
use std::snapshot::Snapshot;

/// The lists of a history: the register's, each lane's, and that of the keepings. Beside them each
/// lane's owner as it was when the lane was cut last with memory, or as the hall began with it.
pub struct Lists<Q, V, T, R, N> {
    pub register: LinkedList<RegisterItem<Q, V>>,
    pub lanes: LinkedList<LinkedList<LaneItem<T, R>>>,
    pub keepings: LinkedList<Keeping>,
    pub was: LinkedList<N>,
}

/// The machines as they begin; of the desk, what it is known by.
pub struct Start<M, N, E> {
    pub register: M,
    pub owners: LinkedList<N>,
    pub desk: E,
}

/// What a pass knows of the hall, and what it has in hand.
pub struct View<Q, V, T, R, N, X> {
    /// Not spent by a join.
    pub live: bool,
    pub number: u32,
    /// Numbers that it may give to new passes.
    pub spare: LinkedList<u32>,
    /// Numbers of the passes that were joined into it.
    pub joined: LinkedList<u32>,
    /// The claims in hand, the newest first.
    pub claims: LinkedList<Claim>,
    /// With what the hall began.
    pub start: Option<X>,
    /// The lists as far as it has seen them.
    pub seen: Lists<Q, V, T, R, N>,
    /// The numbers and the lists of a pass that was joined last, until a load has told what they
    /// mean.
    pub guests: LinkedList<u32>,
    pub guest_seen: Lists<Q, V, T, R, N>,
}

/// What the hall is told when it is made.
pub struct Opening<M, N, E> {
    pub register: Snapshot<M>,
    pub owners: Snapshot<Vec<N>>,
    pub desk: Snapshot<E>,
    pub passes: u32,
}

impl<M, N, E> Drop for Opening<M, N, E> {
    fn drop(self) {
        let Self {
            register: _,
            owners: _,
            desk: _,
            passes: _,
        } = self;
    }
}
