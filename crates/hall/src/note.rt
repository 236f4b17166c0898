//! The note beside a journal's desk.

use crate::plays::Knowledge;
use atomic_table::{Badge, Split};
use hall_rule::View;
use journal_desk::Note;
use service_core::World;
use std::snapshot::Snapshot;

/// Cuts a note off a seat, which stays as it was.
pub(crate) struct Noting;

impl<Q, V, T, R, N, X> Split<View<Q, V, T, R, N, X>> for Noting {
    ghost use Rattle.hall_rule.specs.Rule.{note_of};

    ghost left = { λ v. v };

    ghost right = { note_of };
}

/// A badge that was cut off a pass, with all that the pass knew: the lists, and with what the hall
/// began. Before the desk's first turn it is blank, and beside it is the world. The hall knows its
/// desk by a `K`.
pub struct HallNote<K> {
    pub badge: Badge<Knowledge<K>>,
    pub world: Option<Snapshot<World>>,
}

impl<K> Drop for HallNote<K> {
    fn drop(self) {
        let Self { badge: _, world: _ } = self;
    }
}

impl<K> Note for HallNote<K> {
    ghost use Rattle.service_histories.specs.KeptArrays.{array_kept};
    ghost use Rattle.hall.specs.Notes.{hall_notes};

    ghost kept = { array_kept };

    ghost start = { λ lanes n. (hall_notes lanes).start n };

    ghost history = { λ lanes n. (hall_notes lanes).history n };

    ghost was = { λ lanes n. (hall_notes lanes).was n };
}
