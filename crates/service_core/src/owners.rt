//! The owners of a world's lanes, taken apart and put together again.

ghost use Rattle.std.specs.Prelude.{◌≡◌, ◌++◌, ◌∷◌, ◌<◌, [], length, MatchOption};
ghost use Rattle.std.specs.Option.{option_copied};
ghost use Rattle.std.specs.List.{slice_get};
ghost use Rattle.service_core.specs.Worlds.{full_of};

use chunk_owner::Owner;
use std::alloc::Global;
use std::marker::Model;

/// The owners of some first lanes, from lane 0 on, and room for those of all lanes.
#[derive(Drop)]
pub struct Owners {
    alloc: Global,
    room: usize,
    owners: Vec<Owner>,
}

impl Model for Owners {
    ghost use Rattle.std.specs.Prelude.{ℕ, ◌≤◌, List, refl, vec_len, vec_capacity};
    ghost use Rattle.std.specs.Coded.{code_by, coded×, coded_ℕ, coded_list};
    ghost use Rattle.chunk_owner.specs.Lanes.{Lane};
    ghost use Rattle.chunk_owner.specs.contracts.owner.Owner as owner_row;
    ghost use Rattle.service_core.specs.Worlds.{OwnerList};

    ghost Value = { OwnerList };

    ghost coded = { code_by (List Lane × ℕ)
        (coded× (coded_list owner_row.the_row.coded) coded_ℕ)
        (λ l. (l.owners, l.room)) (λ p. record { owners = p.0; room = p.1 }) (λ _. refl) };

    ghost view = { λ a. record { owners = a.owners.items; room = a.room } };

    ghost invariant = { λ a. (vec_len a.owners ≤ a.room) × (a.room ≤ vec_capacity a.owners) };
}

impl Owners {
    // Those of all lanes.
    pub(crate) fn of_all(alloc: Global, owners: Vec<Owner>) -> Owners
        ensures { result ≡ full_of owners.items }
    {
        let room = owners.len();
        Owners {
            alloc,
            room,
            owners,
        }
    }

    pub(crate) fn into_all(self) -> (Global, Vec<Owner>)
        ensures { result.1.items ≡ self.owners }
    {
        let Owners {
            alloc,
            room: _room,
            owners,
        } = self;
        (alloc, owners)
    }

    /// How many there are.
    pub fn len(&self) -> usize
        ensures { result ≡ length self.now.owners }
    {
        self.owners.len()
    }

    /// How many there is room for.
    pub fn room(&self) -> usize
        ensures { result ≡ self.now.room }
    {
        self.room
    }

    /// The owner of a lane, where it is there.
    pub fn lane(&self, lane: u32) -> Option<&Owner>
        ensures { option_copied result ≡ slice_get self.now.owners lane }
    {
        self.owners.as_slice().get(lane as usize)
    }

    /// Takes out the last one; none where none is left. Takes no memory.
    pub fn pop(&mut self) -> Option<Owner>
        ensures owners { MatchOption result ((self.old.owners ≡ []) × (self.new.owners ≡ []))
            (λ owner. self.old.owners ≡ self.new.owners ++ owner ∷ []) }
        ensures room { self.new.room ≡ self.old.room }
    {
        self.owners.pop()
    }

    /// Puts one last, where fewer are there than the room. Takes no memory.
    pub fn push(&mut self, owner: Owner)
        requires { length self.old.owners < self.old.room }
        ensures owners { self.new.owners ≡ self.old.owners ++ owner ∷ [] }
        ensures room { self.new.room ≡ self.old.room }
    {
        self.owners.push_reserved(owner);
    }
}
