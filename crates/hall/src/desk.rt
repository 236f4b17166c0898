//! What lies at the desk's slot.
ghost use Rattle.std.specs.Prelude.{◌≡◌, ℕ, List, Option};
ghost use Rattle.chunk_owner.specs.Lanes.{Lane};
ghost use Rattle.lane_histories.specs.declared.items.Keeping.{Keeping};
ghost use Rattle.lane_histories.specs.declared.items.Reach.{Reach};
ghost use Rattle.register.specs.Decided.{RegisterState};
ghost use Rattle.service_histories.specs.ArrayServices.{array_service};
ghost use Rattle.hall_rule.specs.declared.view.Start.{Start};
ghost use Rattle.hall_rule.specs.Seen.{SeenLists};

use chunk_owner::Owner;
use register::Register;
use std::snapshot::Snapshot;

/// A desk, which lies beside the register and the lanes of a hall. Whoever holds its turn cuts
/// them, and adds a keeping to the history.
pub trait AtDesk: Drop {
    /// By what a hall knows the desk with which it began.
    type KnownBy;

    /// What that is.
    ghost known: { Self → Self.KnownBy };

    /// The desk is one that a hall which began so may have made of its own.
    ghost IsSince: { Self → Start RegisterState Lane Self.KnownBy → Type 0 };

    /// The lists as they were seen in the desk's last turn, in a hall that began with these owners.
    ghost note: { Self → List Lane → SeenLists (array_service 0) Lane };

    /// What its turn adds to the history.
    ghost news: { Self → Option Keeping };

    /// How far what its disk holds reaches, and the disk's moment when that was reached.
    ghost reach: { Self → Reach };

    ghost moment: { Self → ℕ };

    /// A desk that was known by this may have come to be it by turns that added these keepings.
    ghost HasTold: { Self → Self.KnownBy → List Keeping → Type 0 };

    /// By what a hall that begins with it will know it.
    fn known_by(&self) -> Snapshot<Self::KnownBy>
        ensures { result.value ≡ known self.now };
}

/// A desk without keepings.
impl AtDesk for () {
    ghost use Rattle.std.specs.Prelude.{None};
    ghost use Rattle.hall_rule.specs.Seen.{nothing};

    type KnownBy = ();

    ghost known = { λ d. d };

    ghost IsSince = { λ d start. Unit {0} };

    ghost note = { λ d owners. nothing owners };

    ghost news = { λ d. None };

    ghost reach = { λ d. record { c = 0; p = 0 } };

    ghost moment = { λ d. 0 };

    ghost HasTold = { λ d known keepings. Unit {0} };

    fn known_by(&self) -> Snapshot<()> {
        Snapshot::of(self)
    }
}

/// A desk, and for the proofs the register and the owners with which the hall began.
pub struct NotedDesk<D> {
    pub desk: D,
    pub register: Snapshot<Register>,
    pub owners: Snapshot<Vec<Owner>>,
}

impl<D: Drop> Drop for NotedDesk<D> {
    fn drop(self) {
        let Self {
            desk: _,
            register: _,
            owners: _,
        } = self;
    }
}

impl<D> NotedDesk<D> {
    pub fn into_desk(self) -> D
        ensures { result ≡ self.desk }
    {
        let Self {
            desk,
            register: _,
            owners: _,
        } = self;
        desk
    }
}
