//! The hall itself.
ghost use Rattle.std.specs.Prelude.{◌≡◌, ◌+◌, ◌≤◌, [], vec_capacity};
ghost use Rattle.hall.specs.ArrayMachines.{lanes_in, start_of};

use crate::desk::AtDesk;
use crate::plays::{Begun, Law, Place, Sight};
use atomic_table::Table;
use chunk_owner::Owner;
use service_core::Owners;
use std::alloc::Global;

/// A register, the owners of its lanes and a desk, at which passes take turns.
pub struct Hall<D: AtDesk> {
    pub(crate) alloc: Global,
    pub(crate) table: Table<Place<D>, Sight<D>, Begun<D>, Law<D>, Global>,

    // Room for the owners, when the hall is closed.
    pub(crate) taken: Vec<Owner>,
    pub(crate) owners: Owners,
    ghost room: { (taken.items ≡ [])
        × (lanes_in (start_of table.shared.key) ≤ vec_capacity taken) },
    ghost lanes: { (owners.owners ≡ [])
        × (owners.room ≡ lanes_in (start_of table.shared.key)) },
    ghost sized: { (table.shared.table_id.words ≡ lanes_in (start_of table.shared.key) + 4)
        × (table.shared.table_id.slots ≡ lanes_in (start_of table.shared.key) + 2) },
}
