//! What lies in a slot: a machine, and beside it, for the proofs alone, what its last turn adds to
//! the list.
ghost use Rattle.std.specs.Prelude.{◌≡◌, ◌++◌, [], ◌∷◌, ℕ, ◌+◌, ◌<◌, ◌≤◌, false, None, map, length};
ghost use Rattle.std.specs.Prelude.{slice_index_or, vec_capacity, OnOk, IfOk};
ghost use Rattle.std.specs.Mem.Slots.{IsFull, slots_len, slots_filled, slots_items};
ghost use Rattle.std.specs.Mem.Slots.Ownership.{Filled};
ghost use mathlib.Core.Option.{some};
ghost use lib.ListN.{get_elem?};
ghost use Rattle.hall_rule.specs.Homes.{IsEmptied, lane_home, register_home, desk_home};

use atomic_table::Closed;
use lane_histories::Outcome;
use std::alloc::{AllocError, Global};
use std::snapshot::Snapshot;

/// What a turn of the register did: it decided a request, drew a cut, or was cut, with or without
/// memory. The place and the cut's number are those that the lists seen give.
pub enum RegisterNews<Q, V> {
    Asks {
        asked: Snapshot<Q>,
        verdict: Snapshot<V>,
    },
    Draws,
    Cuts(bool),
}

/// What a turn of a lane did with the ticket in hand: a part of a request, or a cut that found
/// memory or didn't.
pub enum LaneNews<R> {
    Acts(Outcome<Snapshot<R>>),
    Cuts(bool),
}

/// The register's slot.
pub struct RegisterSlot<M, Q, V> {
    pub register: M,
    pub news: Option<RegisterNews<Q, V>>,
}

/// A lane's slot, with the owner of its objects.
pub struct LaneSlot<N, R> {
    pub owner: N,
    pub news: Option<LaneNews<R>>,
}

/// What a slot of the table has. `Away` lies there while the machine is in a pass's hands. The desk
/// of a journal tells itself what its last turn adds.
pub enum Slot<M, N, P, Q, V, R> {
    Away,
    AtRegister(RegisterSlot<M, Q, V>),
    AtDesk(P),
    AtLane(LaneSlot<N, R>),
}

impl<Q, V> Drop for RegisterNews<Q, V> {
    fn drop(self) {
        match self {
            RegisterNews::Asks {
                asked: _,
                verdict: _,
            } => {}
            RegisterNews::Draws => {}
            RegisterNews::Cuts(_) => {}
        }
    }
}

impl<R> Drop for LaneNews<R> {
    fn drop(self) {
        match self {
            LaneNews::Acts(outcome) => match outcome {
                Outcome::Done(_) => {}
                Outcome::Short => {}
                Outcome::Skipped => {}
            },
            LaneNews::Cuts(_) => {}
        }
    }
}

impl<M: Drop, Q, V> Drop for RegisterSlot<M, Q, V> {
    fn drop(self) {
        let Self {
            register: _,
            news: _,
        } = self;
    }
}

impl<N: Drop, R> Drop for LaneSlot<N, R> {
    fn drop(self) {
        let Self { owner: _, news: _ } = self;
    }
}

impl<M: Drop, N: Drop, P: Drop, Q, V, R> Drop for Slot<M, N, P, Q, V, R> {
    fn drop(self) {
        match self {
            Slot::Away => {}
            Slot::AtRegister(_) => {}
            Slot::AtDesk(_) => {}
            Slot::AtLane(_) => {}
        }
    }
}

impl<M: Drop, N: Drop, P: Drop, Q, V, R> Slot<M, N, P, Q, V, R> {
    ghost use Rattle.hall_rule.specs.declared.slot.Slot.TheVariants.{AtRegister, AtDesk, AtLane};

    pub fn into_register_slot(self) -> RegisterSlot<M, Q, V>
        requires { (s : _) × (self ≡ AtRegister s) }
        ensures { self ≡ AtRegister result }
    {
        match self {
            Slot::AtRegister(s) => s,
            _ => unreachable!(),
        }
    }

    pub fn into_desk(self) -> P
        requires { (s : _) × (self ≡ AtDesk s) }
        ensures { self ≡ AtDesk result }
    {
        match self {
            Slot::AtDesk(s) => s,
            _ => unreachable!(),
        }
    }

    pub fn into_lane_slot(self) -> LaneSlot<N, R>
        requires { (s : _) × (self ≡ AtLane s) }
        ensures { self ≡ AtLane result }
    {
        match self {
            Slot::AtLane(s) => s,
            _ => unreachable!(),
        }
    }
}

/// Each owner comes into a slot, behind those that are there.
pub fn add_lanes<M: Drop, N: Drop, P: Drop, Q, V, R>(
    slots: &mut Vec<Slot<M, N, P, Q, V, R>>,
    owners: Vec<N>,
) -> Result<(), AllocError>
    ensures { OnOk result (slots.new.items ≡ slots.old.items ++ map lane_home owners.items) }
{
    for owner in owners {
        slots.push(Slot::AtLane(LaneSlot { owner, news: None }))?;
    }
    Ok(())
}

/// The slots of a hall in which nothing was done.
pub fn lay<M: Drop, N: Drop, P: Drop, Q, V, R>(
    alloc: Global,
    register: M,
    owners: Vec<N>,
    desk: P,
) -> Result<Vec<Slot<M, N, P, Q, V, R>>, AllocError>
    ensures laid { IfOk result (λ v. v.items
        ≡ register_home register ∷ (desk_home desk ∷ map lane_home owners.items)) }
    ensures count { IfOk result (λ v. length v.items ≡ length owners.items + 2) }
{
    let mut slots = Vec::new(alloc);
    slots.push(Slot::AtRegister(RegisterSlot {
        register,
        news: None,
    }))?;
    slots.push(Slot::AtDesk(desk))?;
    add_lanes(&mut slots, owners)?;
    Ok(slots)
}

impl<M: Drop, Q, V> RegisterSlot<M, Q, V> {
    pub fn into_register(self) -> M
        ensures { result ≡ self.register }
    {
        let Self { register, news: _ } = self;
        register
    }
}

impl<N: Drop, R> LaneSlot<N, R> {
    pub fn into_owner(self) -> N
        ensures { result ≡ self.owner }
    {
        let Self { owner, news: _ } = self;
        owner
    }
}

/// Each owner comes out of its slot, in order.
pub fn take_lanes<M: Drop, N: Drop, P: Drop, Q, V, R>(
    closed: &mut Closed<Slot<M, N, P, Q, V, R>, Global>,
    room: &mut Vec<N>,
    lanes: usize,
)
    requires count { slots_len closed.old.slots ≡ lanes + 2 }
    requires filled { Filled (slots_filled closed.old.slots) 2 (lanes + 2) }
    requires emptied { IsEmptied (slots_filled closed.old.slots) 2 }
    requires owners { (lane : ℕ) → lane < lanes
        → (s : _) × (get_elem? (slots_items closed.old.slots) (lane + 2) ≡ some (Slot.AtLane s)) }
    requires room { (room.old.items ≡ []) × (lanes ≤ vec_capacity room.old) }
    ensures emptied { IsEmptied (slots_filled closed.new.slots) (slots_len closed.new.slots) }
    ensures count { length room.new.items ≡ lanes }
    ensures owners { (lane : ℕ) → lane < lanes
        → (s : _) × (get_elem? (slots_items closed.old.slots) (lane + 2) ≡ some (Slot.AtLane s))
        × (get_elem? room.new.items lane ≡ some s.owner) }
{
    for lane in 0..lanes {
        let slot = closed.take(lane + 2).into_lane_slot();
        room.push_reserved(slot.into_owner());
    }
}

/// The machines come out of their slots, the owners into `room`, and the table is freed.
pub fn take_machines<M: Drop, N: Drop, P: Drop, Q, V, R>(
    mut closed: Closed<Slot<M, N, P, Q, V, R>, Global>,
    room: &mut Vec<N>,
    lanes: usize,
) -> (M, P)
    requires count { slots_len closed.slots ≡ lanes + 2 }
    requires filled { IsFull closed.slots }
    requires register { (s : _)
        × (get_elem? (slots_items closed.slots) 0 ≡ some (Slot.AtRegister s)) }
    requires desk { (s : _) × (get_elem? (slots_items closed.slots) 1 ≡ some (Slot.AtDesk s)) }
    requires owners { (lane : ℕ) → lane < lanes
        → (s : _) × (get_elem? (slots_items closed.slots) (lane + 2) ≡ some (Slot.AtLane s)) }
    requires room { (room.old.items ≡ []) × (lanes ≤ vec_capacity room.old) }
    ensures register { (s : _) × (get_elem? (slots_items closed.slots) 0 ≡ some (Slot.AtRegister s))
        × (result.0 ≡ s.register) }
    ensures desk { get_elem? (slots_items closed.slots) 1 ≡ some (Slot.AtDesk result.1) }
    ensures count { length room.new.items ≡ lanes }
    ensures owners { (lane : ℕ) → lane < lanes
        → (s : _) × (get_elem? (slots_items closed.slots) (lane + 2) ≡ some (Slot.AtLane s))
        × (get_elem? room.new.items lane ≡ some s.owner) }
{
    let register = closed.take(0).into_register_slot().into_register();
    let desk = closed.take(1).into_desk();
    take_lanes(&mut closed, room, lanes);
    closed.free();
    (register, desk)
}
