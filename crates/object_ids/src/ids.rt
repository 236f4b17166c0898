ghost use Rattle.std.specs.Prelude.{◌≡◌, ◌<◌, ◌≤◌};
ghost use Rattle.std.proofs.Common.{rules};
ghost use Rattle.std.specs.Cmp.{partial_order_from_own_ties};
ghost use Rattle.std.specs.Cmp.Rules.{comparing};
ghost use Rattle.std.specs.Ordering.{as_partial_cmp};
ghost use Rattle.object_ids.specs.Ids.{lane_of};
ghost use Rattle.object_ids.specs.IdOrder.{kind_rank, id_order, id_eq};

use std::cmp::Ordering;
use std::marker::Model;

/// What an object is.
#[derive(Clone, Copy, Debug, PartialEq, Eq)]
pub enum Kind {
    Group,
    Dataset,
    Datatype,
}

impl Kind {
    // Where the kind stands in the order of ids.
    fn rank(self) -> u8
        ensures { result ≡ kind_rank self }
    {
        match self {
            Kind::Group => 0,
            Kind::Dataset => 1,
            Kind::Datatype => 2,
        }
    }
}

/// The id of an object, which no other object ever has. Ids stand in the order of their kinds, then of their domains,
/// runs and serials.
#[derive(Clone, Copy, Debug)]
pub struct ObjectId {
    pub kind: Kind,
    /// The number of the domain in which the object was made, below 2^48.
    pub domain: u64,
    /// The run of the service in which it was made, below 2^22.
    pub run: u32,
    /// Its number in that run, below 2^40.
    pub serial: u64,
}

impl Model for ObjectId {
    ghost use Rattle.std.specs.Prelude.{◌^◌, ◌<◌};
    ghost use Rattle.object_ids.specs.IdValues.{Id};

    ghost Value = { Id };

    ghost view = { λ a. record { kind = a.kind; domain = a.domain; run = a.run; serial = a.serial } };

    ghost invariant = { λ a. (a.domain < 2 ^ 48) × (a.run < 2 ^ 22) × (a.serial < 2 ^ 40) };

    ghost inverse = { λ id. record { kind = id.kind; domain = id.domain; run = id.run; serial = id.serial } };
}

/// The lane of an id, of so many lanes.
pub fn lane(id: &ObjectId, lanes: u32) -> u32
    requires some { 1 ≤ lanes }
    ensures lane { result ≡ lane_of lanes id.now }
    ensures below { result < lanes }
{
    (id.serial % u64::from(lanes)) as u32
}

impl PartialEq for ObjectId {
    ghost eq = { id_eq };

    ghost laws = { Prim.search (comparing, rules) depth 9 };

    fn eq(&self, other: &ObjectId) -> bool {
        self.kind.rank() == other.kind.rank()
            && (self.domain == other.domain
                && (self.run == other.run && self.serial == other.serial))
    }
}

impl Eq for ObjectId {
    ghost laws = { Prim.search (comparing, rules) depth 9 };
}

impl Ord for ObjectId {
    ghost cmp = { id_order };

    ghost total = { Prim.search (comparing, rules) depth 9 };

    ghost matches_partial_cmp = { Prim.search (comparing, rules) depth 9 };

    ghost matches_eq = { Prim.search (comparing, rules) depth 9 };

    fn cmp(&self, other: &ObjectId) -> Ordering {
        self.kind.rank().cmp(&other.kind.rank()).then(
            self.domain.cmp(&other.domain).then(
                self.run
                    .cmp(&other.run)
                    .then(self.serial.cmp(&other.serial)),
            ),
        )
    }
}

impl PartialOrd for ObjectId {
    ghost partial_cmp = { as_partial_cmp id_order };

    ghost laws = { partial_order_from_own_ties (Prim.search (comparing, rules) depth 9) (Prim.search (comparing, rules) depth 9) };

    fn partial_cmp(&self, other: &ObjectId) -> Option<Ordering> {
        Some(self.cmp(other))
    }
}
