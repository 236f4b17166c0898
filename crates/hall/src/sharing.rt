//! How a hall begins and ends, and how passes are cut in two and joined.
ghost use Rattle.std.specs.Prelude.{◌≡◌, ◌+◌, ◌≤◌, [], ◌∷◌, ℕ, length, max, slice_get, true, IfOk};
ghost use Rattle.std.specs.Prelude.{Some};
ghost use Rattle.chunk_owner.specs.Lanes.{IsWhole, Lane};
ghost use Rattle.hall_rule.specs.Joins.{HasJoined};
ghost use Rattle.hall_rule.specs.Rule.{AreUnused, given_by_split, left_by_split};
ghost use Rattle.hall_rule.specs.Seen.{nothing};
ghost use Rattle.lane_histories.specs.Histories.{places};
ghost use Rattle.hall.specs.ArrayMachines.{lanes_in, machines, start_of};
ghost use Rattle.hall.specs.Passes.{HasBegun, HasEnded, IsDeskAtEnd, IsNewWorld, IsPassOf, TookIn};
ghost use Rattle.hall.specs.Passes.{names_of, opening, own_entries, passes_of, seen_by, view_of, who};

use crate::desk::{AtDesk, NotedDesk};
use crate::hall::Hall;
use crate::pass::Pass;
use crate::plays::{ArrayHall, Chair, Count, DeskHall, Learn, Share, Spare};
use atomic_table::Table;
use chunk_owner::Owner;
use hall_rule::{
    Opening, halls_begin_and_end, lay, steps_keep_the_rule, steps_tell_what_was_seen, take_machines,
};
use service_core::{Owners, World};
use service_histories::{worlds_close, worlds_open};
use std::alloc::{AllocError, Global};
use std::snapshot::Snapshot;

// The owners, in order, taken out of their room.
fn taken_out(alloc: Global, owners: &mut Owners) -> Result<Vec<Owner>, AllocError>
    ensures taken { IfOk result (λ v. v.items ≡ owners.old.owners) }
    ensures emptied { IfOk result (λ _. owners.new.owners ≡ []) }
    ensures room { owners.new.room ≡ owners.old.room }
{
    let mut taken = Vec::with_capacity(alloc, owners.len())?;
    'owners: while let Some(owner) = owners.pop() {
        taken.push_reserved(owner);
    }
    taken.reverse();
    Ok(taken)
}

// The owners, in order, put back into their room.
fn put_back(owners: &mut Owners, taken: Vec<Owner>)
    requires empty { owners.old.owners ≡ [] }
    requires room { length taken.items ≤ owners.old.room }
    ensures { owners.new.owners ≡ taken.items }
{
    for owner in taken {
        owners.push(owner);
    }
}

// What holds of each owner.
fn are_whole(owners: &[Owner])
    ensures { (lane : ℕ) (owner : Lane) → slice_get owners.now lane ≡ Some owner → IsWhole owner }
{
    for owner in owners {
        owner.is_whole();
    }
}

impl<D: AtDesk> Hall<D> {
    /// A hall over a world and a desk, for so many passes. The first pass has the number 0 and may
    /// give the others away. All memory that the passes need is taken here.
    ///
    /// # Errors
    ///
    /// Only where memory runs out; the world and the desk are dropped.
    pub fn begin(
        alloc: Global,
        world: World,
        desk: D,
        passes: u32,
    ) -> Result<(Hall<D>, Pass<D>), AllocError>
        requires some_pass { 1 ≤ passes }
        requires new { IsNewWorld world }

        // The desk's note is empty, and it has told nothing.
        requires since { D.IsSince desk (record {
          register = world.register;
          owners = world.lanes;
          desk = D.known desk;
        }) }
        requires note { D.note desk world.lanes ≡ nothing world.lanes }
        requires told { D.HasTold desk (D.known desk) [] }
        ensures begun { IfOk result (λ h. HasBegun h.0 h.1 world passes) }
        ensures desk { IfOk result (λ h. (opening h.0).desk ≡ D.known desk) }
    {
        world.is_whole();
        worlds_open();
        halls_begin_and_end::<DeskHall<D>>();
        let (register, mut owners) = world.parts();
        let lanes = owners.len();
        let machines = taken_out(alloc, &mut owners)?;
        let desk = NotedDesk {
            desk,
            register: Snapshot::of(&register),
            owners: Snapshot::of(&machines),
        };
        let about = Opening {
            register: Snapshot::of(&register),
            owners: Snapshot::of(&machines),
            desk: desk.desk.known_by(),
            passes,
        };
        let words = vec![in alloc; 0u64; lanes + 4]?;
        let taken = Vec::with_capacity(alloc, lanes)?;
        let slots = lay(alloc, register, machines, desk)?;
        let Ok((table, seat)) = Table::new(alloc, words.as_slice(), slots, &about) else {
            return Err(AllocError);
        };
        let hall = Hall {
            alloc,
            table,
            taken,
            owners,
        };
        Ok((hall, Pass { seat, front: 0 }))
    }

    fn split_seat(&self, seat: &mut Chair<D>) -> Chair<D>
        requires table { seat.old.table_id ≡ self.now.table.shared.table_id }
        requires live { (seat.old.me.0.live ≡ true) × (seat.old.me.0.guests ≡ []) }
        requires spare { (y : ℕ) × (ys : _) × (seat.old.me.0.spare ≡ y ∷ ys) }
        ensures table { (seat.new.table_id ≡ seat.old.table_id)
            × (result.table_id ≡ seat.old.table_id) }
        ensures slots { (seat.new.me.1 ≡ seat.old.me.1) × (result.me.1 ≡ []) }
        ensures kept { seat.new.me.0 ≡ left_by_split seat.old.me.0 }
        ensures given { result.me.0 ≡ given_by_split seat.old.me.0 }
        ensures unused { AreUnused seat.old.me.0 }
    {
        steps_keep_the_rule::<DeskHall<D>>();
        self.table.shared.load::<Spare>(seat, 0);
        self.table.shared.split_seat::<Share>(seat)
    }

    /// A new pass, which has seen what the old one has, under the first of the old one's spare
    /// numbers, which no entry names. Takes no memory.
    pub fn split(&self, pass: &mut Pass<D>) -> Pass<D>
        requires of_this_hall { IsPassOf self.now pass.old }
        requires spare { (y : ℕ) × (ys : _) × ((view_of pass.old).spare ≡ y ∷ ys) }
        ensures of_this_hall { IsPassOf self.now pass.new }
        ensures of_this_hall_too { IsPassOf self.now result }
        ensures kept { view_of pass.new ≡ left_by_split (view_of pass.old) }
        ensures given { view_of result ≡ given_by_split (view_of pass.old) }
        ensures unused { own_entries result ≡ [] }
        ensures fronts { (pass.new.front ≡ pass.old.front) × (result.front ≡ pass.old.front) }
    {
        let seat = self.split_seat(&mut pass.seat);
        Pass {
            seat,
            front: pass.front,
        }
    }

    fn join_seat(&self, seat: &mut Chair<D>, other: Chair<D>)
        requires table { seat.old.table_id ≡ self.now.table.shared.table_id }
        requires other_table { other.table_id ≡ self.now.table.shared.table_id }
        requires mine { (seat.old.me.0.live ≡ true) × (seat.old.me.0.guests ≡ [])
            × (seat.old.me.0.start ≡ Some (start_of self.now.table.shared.key)) }
        requires theirs { (other.me.0.live ≡ true) × (other.me.0.guests ≡ [])
            × (other.me.0.claims ≡ []) × (other.me.1 ≡ []) }
        ensures table { seat.new.table_id ≡ seat.old.table_id }
        ensures slots { seat.new.me.1 ≡ seat.old.me.1 }
        ensures joined { HasJoined (machines (lanes_in (start_of self.now.table.shared.key)))
            (start_of self.now.table.shared.key) seat.old.me.0 other.me.0 seat.new.me.0 }
    {
        steps_keep_the_rule::<DeskHall<D>>();
        steps_tell_what_was_seen::<DeskHall<D>>();
        self.table.shared.join_seat::<Share>(seat, other);
        self.table.shared.load::<Learn<D>>(seat, 0);
    }

    /// Takes in another pass, with its number and all that it has seen.
    pub fn join(&self, pass: &mut Pass<D>, other: Pass<D>)
        requires of_this_hall { IsPassOf self.now pass.old }
        requires of_this_hall_too { IsPassOf self.now other }
        ensures of_this_hall { IsPassOf self.now pass.new }
        ensures joined { HasJoined (machines (lanes_in (opening self.now))) (opening self.now)
            (view_of pass.old) (view_of other) (view_of pass.new) }
        ensures mine { TookIn (view_of pass.new) (view_of pass.old) }
        ensures theirs { TookIn (view_of pass.new) (view_of other) }
        ensures names { length (names_of pass.new)
            ≡ length (names_of pass.old) + length (names_of other) }
        ensures front { pass.new.front ≡ max pass.old.front other.front }
    {
        steps_tell_what_was_seen::<ArrayHall<D>>();
        let Pass { seat, front } = other;
        self.join_seat(&mut pass.seat, seat);
        pass.front = pass.front.max(front);
    }

    /// How many turns of the register were passed so far, at least those that the pass has seen.
    /// Waits for nobody.
    pub fn turns(&self, pass: &mut Pass<D>) -> u64
        requires of_this_hall { IsPassOf self.now pass.old }
        ensures of_this_hall { IsPassOf self.now pass.new }
        ensures same { (who pass.new ≡ who pass.old) × (view_of pass.new ≡ view_of pass.old)
            × (pass.new.front ≡ pass.old.front) }
        ensures turns { length (seen_by pass.old).register ≤ result }
    {
        steps_keep_the_rule::<DeskHall<D>>();
        self.table.shared.load::<Count>(&mut pass.seat, 2)
    }

    /// The world where one legal history has brought it, which begins with all that the pass had
    /// seen, and what that history has made of the desk. Every other pass was joined.
    pub fn close(self, pass: Pass<D>) -> (World, D)
        requires of_this_hall { IsPassOf self pass }
        requires whole { length (names_of pass) ≡ passes_of self }
        ensures ended { HasEnded (opening self) (view_of pass) result.0 }
        ensures desk { (end : HasEnded (opening self) (view_of pass) result.0)
            × IsDeskAtEnd D.AtDesk (opening self) end.seen result.1 }

        // The pass's front is the number of all entries.
        ensures front { pass.front ≡ places (seen_by pass).register }
    {
        halls_begin_and_end::<DeskHall<D>>();
        worlds_close();
        let Hall {
            alloc: _alloc,
            table,
            mut taken,
            mut owners,
        } = self;
        let lanes = owners.room();
        let Pass {
            seat,
            front: _front,
        } = pass;
        let closed = table.close_with(seat);
        let (register, desk) = take_machines(closed, &mut taken, lanes);
        are_whole(taken.as_slice());
        put_back(&mut owners, taken);
        (World::of_parts(register, owners), desk.into_desk())
    }
}
