//! The rule of the hall's table, and what each kind of step tells.

use crate::desk::{AtDesk, NotedDesk};
use atomic_table::{Join, Play, Seat, Split, TableRule};
use chunk_owner::Owner;
use hall_rule::{Opening, RuledHall, Slot, Start, View};
use object_ops::Reply;
use register::{Register, Verdict};
use service_histories::{Asked, Task};
use std::marker::PhantomData;

/// What a pass knows, of a hall that knows its desk by a `K`.
pub(crate) type Knowledge<K> = View<Asked, Verdict, Task, Reply, Owner, Start<Register, Owner, K>>;

/// What a pass knows.
pub(crate) type Sight<D> = Knowledge<<D as AtDesk>::KnownBy>;

/// A slot of the table.
pub(crate) type Place<D> = Slot<Register, Owner, NotedDesk<D>, Asked, Verdict, Reply>;

/// What a pass steps with.
pub(crate) type Chair<D> = Seat<Place<D>, Sight<D>>;

/// What the table is told when it is made.
pub(crate) type Begun<D> = Opening<Register, Owner, <D as AtDesk>::KnownBy>;

/// The register and the owners of the array service's hall, for the laws of halls.
pub(crate) struct ArrayHall<D> {
    of: PhantomData<D>,
}

impl<D: AtDesk> RuledHall for ArrayHall<D> {
    ghost use Rattle.service_histories.specs.ArrayServices.{array_service};
    ghost use Rattle.register.specs.Decided.{RegisterState};
    ghost use Rattle.chunk_owner.specs.Lanes.{Lane};
    ghost use Rattle.hall_rule.specs.declared.view.Start.{Start};
    ghost use Rattle.hall.specs.ArrayMachines.{machines};

    ghost service = { array_service };

    ghost hall = { λ lanes. record {
      Register = RegisterState;
      Owner = Lane;
      Desk = Start RegisterState Lane D.KnownBy;
      KnownBy = D.KnownBy;
      machines = machines lanes;
    } };
}

/// And with the desk that lies beside them.
pub(crate) struct DeskHall<D> {
    of: PhantomData<D>,
}

impl<D: AtDesk> RuledHall for DeskHall<D> {
    ghost use Rattle.service_histories.specs.ArrayServices.{array_service};
    ghost use Rattle.register.specs.Decided.{RegisterState};
    ghost use Rattle.chunk_owner.specs.Lanes.{Lane};
    ghost use Rattle.hall.specs.declared.desk.NotedDesk.{NotedDesk};
    ghost use Rattle.hall.specs.ArrayMachines.{desk_machines};

    ghost service = { array_service };

    ghost hall = { λ lanes. record {
      Register = RegisterState;
      Owner = Lane;
      Desk = NotedDesk D;
      KnownBy = D.KnownBy;
      machines = desk_machines D.AtDesk lanes;
    } };
}

/// The rule of the table.
pub(crate) struct Law<D> {
    of: PhantomData<D>,
}

impl<D: AtDesk> TableRule<Place<D>, Sight<D>, Begun<D>> for Law<D> {
    ghost use Rattle.hall.specs.ArrayMachines.{desk_machines, lanes_in, start_of};
    ghost use Rattle.hall_rule.specs.Rule.{FollowsRule, first_view};

    ghost holds = { λ key. FollowsRule (desk_machines D.AtDesk (lanes_in (start_of key)))
        key.passes (start_of key) };

    ghost first = { λ key. first_view key.passes (start_of key).owners (start_of key) };
}

/// A number of the register comes into hand.
pub(crate) struct DrawRegister;

impl<Z, Q, V, T, R, N, X> Play<Z, View<Q, V, T, R, N, X>> for DrawRegister {
    ghost use Rattle.hall_rule.specs.declared.queue.Queue.TheVariants.{OfRegister};
    ghost use Rattle.hall_rule.specs.Steps.{HasDrawn};

    ghost then = { HasDrawn OfRegister };
}

/// A number of the desk comes into hand.
pub(crate) struct DrawDesk;

impl<Z, Q, V, T, R, N, X> Play<Z, View<Q, V, T, R, N, X>> for DrawDesk {
    ghost use Rattle.hall_rule.specs.declared.queue.Queue.TheVariants.{OfDesk};
    ghost use Rattle.hall_rule.specs.Steps.{HasDrawn};

    ghost then = { HasDrawn OfDesk };
}

/// A look for the turn of the newest claim.
pub(crate) struct Look<D> {
    of: PhantomData<D>,
}

impl<D: AtDesk> Play<Place<D>, Sight<D>> for Look<D> {
    ghost use Rattle.hall.specs.ArrayMachines.{desk_machines, lanes_known};
    ghost use Rattle.hall_rule.specs.Steps.{HasLooked};

    ghost then = { λ st me. HasLooked (desk_machines D.AtDesk (lanes_known me.0)) st me };
}

/// The turn of the newest claim is passed on.
pub(crate) struct Leave<D> {
    of: PhantomData<D>,
}

impl<D: AtDesk> Play<Place<D>, Sight<D>> for Leave<D> {
    ghost use Rattle.hall.specs.ArrayMachines.{desk_machines, lanes_known};
    ghost use Rattle.hall_rule.specs.Steps.{PassesTurn};

    ghost then = { λ st me. PassesTurn (desk_machines D.AtDesk (lanes_known me.0)) st me };
}

/// A load behind a join, which tells what the lists are.
pub(crate) struct Learn<D> {
    of: PhantomData<D>,
}

impl<D: AtDesk> Play<Place<D>, Sight<D>> for Learn<D> {
    ghost use Rattle.hall.specs.ArrayMachines.{desk_machines, lanes_known};
    ghost use Rattle.hall_rule.specs.Steps.{HasLearnt};

    ghost then = { λ st me. HasLearnt (desk_machines D.AtDesk (lanes_known me.0)) st me };
}

/// A look at the register's word with nothing in hand.
pub(crate) struct Count;

impl<Z, Q, V, T, R, N, X> Play<Z, View<Q, V, T, R, N, X>> for Count {
    ghost use Rattle.hall_rule.specs.Steps.{HasCounted};

    ghost then = { HasCounted };
}

/// A load before a split, which tells that nothing was asked under the spare numbers.
pub(crate) struct Spare;

impl<Z, Q, V, T, R, N, X> Play<Z, View<Q, V, T, R, N, X>> for Spare {
    ghost use Rattle.hall_rule.specs.Steps.{HasSpared};

    ghost then = { HasSpared };
}

/// A pass is cut in two, or two are joined.
pub(crate) struct Share;

impl<Q, V, T, R, N, X> Split<View<Q, V, T, R, N, X>> for Share {
    ghost use Rattle.hall_rule.specs.Rule.{given_by_split, left_by_split};

    ghost left = { left_by_split };

    ghost right = { given_by_split };
}

impl<Q, V, T, R, N, X> Join<View<Q, V, T, R, N, X>> for Share {
    ghost use Rattle.hall_rule.specs.Rule.{merged, spent_view};

    ghost both = { merged };

    ghost spent = { spent_view };
}
