//! The turns of lanes that a request takes.

ghost use Rattle.std.specs.Prelude.{◌≡◌, ℕ, [], ◌∷◌, Some, None, List, MatchOption, drop};
ghost use Rattle.object_ops.specs.declared.grants.Grant.{Grant};
ghost use Rattle.register.specs.Tickets.{Issue, turns_from};

use crate::counts::Counts;
use object_ops::{Grant, Step};
use std::marker::Model;

/// One turn: it comes when the lane has taken as many turns as the ticket says.
#[derive(Clone, Copy, Debug, PartialEq, Eq)]
pub struct Turn {
    /// The lane.
    pub lane: u32,
    /// The number of the turn in its lane.
    pub ticket: u64,
    /// The part of the request that is done in the turn; none where the objects of a domain are dropped.
    pub step: Option<Step>,
}

/// The turns that a granted request still has to take, and what was fixed when it was granted. They must be spent: `finish`
/// is the only end, and it takes tickets of which no turn is left.
pub struct Tickets {
    place: u64,
    grant: Grant,
    first: Option<Turn>,
    second: Option<Turn>,
    lane: usize,
    counts: Counts,
}

impl Model for Tickets {
    ghost use Rattle.std.specs.Prelude.{ℕ, List, refl};
    ghost use Rattle.std.specs.Coded.{code_by, coded×, coded_ℕ, coded_list};
    ghost use Rattle.object_ops.specs.declared.grants.Grant.{Grant};
    ghost use Rattle.object_ops.specs.contracts.grants.Grant as grant_row;
    ghost use Rattle.register.specs.contracts.tickets.Turn as turn_row;
    ghost use Rattle.register.specs.declared.tickets.Turn.{Turn};
    ghost use Rattle.register.specs.Tickets.{Issue, turns_left};

    ghost Value = { Issue };

    ghost coded = { code_by (ℕ × (Grant × List Turn))
        (coded× coded_ℕ (coded× grant_row.the_row.coded (coded_list turn_row.the_row.coded)))
        (λ t. (t.place, (t.grant, t.left)))
        (λ p. record { place = p.0; grant = p.1.0; left = p.1.1 }) (λ _. refl) };

    ghost view = { λ a. record { place = a.place; grant = a.grant; left = turns_left a.first a.second a.lane a.counts } };
}

impl Tickets {
    pub(crate) fn one(place: u64, grant: &Grant, turn: Turn) -> Tickets
        ensures { result ≡ record { place = place; grant = grant.now; left = turn ∷ [] } }
    {
        Tickets {
            place,
            grant: *grant,
            first: Some(turn),
            second: None,
            lane: 0,
            counts: Counts::new(),
        }
    }

    pub(crate) fn two(place: u64, grant: &Grant, first: Turn, second: Turn) -> Tickets
        ensures { result ≡ record { place = place; grant = grant.now; left = first ∷ second ∷ [] } }
    {
        Tickets {
            place,
            grant: *grant,
            first: Some(first),
            second: Some(second),
            lane: 0,
            counts: Counts::new(),
        }
    }

    // A turn of each lane.
    pub(crate) fn of_lanes(place: u64, grant: &Grant, counts: &Counts) -> Tickets
        ensures { result ≡ record { place = place; grant = grant.now; left = turns_from 0 counts.now } }
    {
        Tickets {
            place,
            grant: *grant,
            first: None,
            second: None,
            lane: 0,
            counts: *counts,
        }
    }

    /// The request's place.
    pub fn place(&self) -> u64
        ensures { result ≡ self.now.place }
    {
        self.place
    }

    /// What was fixed when the request was granted.
    pub fn grant(&self) -> Grant
        ensures { result ≡ self.now.grant }
    {
        self.grant
    }

    /// The next turn, which is then no longer left; none where no turn is left. Takes no memory.
    pub fn next(&mut self) -> Option<Turn>
        ensures turn { MatchOption result ((self.old.left ≡ []) × (self.new.left ≡ []))
            (λ t. self.old.left ≡ t ∷ self.new.left) }
        ensures place { self.new.place ≡ self.old.place }
        ensures grant { self.new.grant ≡ self.old.grant }
    {
        if let Some(turn) = self.first {
            self.first = None;
            return Some(turn);
        }
        if let Some(turn) = self.second {
            self.second = None;
            return Some(turn);
        }
        next_lane(&mut self.lane, &self.counts)
    }

    /// Ends tickets of which no turn is left.
    pub fn finish(self)
        requires { self.left ≡ [] }
    {
        let Tickets {
            place: _place,
            grant: _grant,
            first: _first,
            second: _second,
            lane: _lane,
            counts: _counts,
        } = self;
    }
}

/// The turns that a drawn cut still has to take, one of each lane. They must be spent: `finish` is the only end, and it takes
/// tickets of which no turn is left.
pub struct CutTickets {
    lane: usize,
    counts: Counts,
}

impl Model for CutTickets {
    ghost use Rattle.std.specs.Prelude.{List, drop};
    ghost use Rattle.std.specs.Coded.{coded_list};
    ghost use Rattle.register.specs.Tickets.{turns_from};
    ghost use Rattle.register.specs.contracts.tickets.Turn as turn_row;
    ghost use Rattle.register.specs.declared.tickets.Turn.{Turn};

    ghost Value = { List Turn };

    ghost coded = { coded_list turn_row.the_row.coded };

    ghost view = { λ a. turns_from a.lane (drop a.lane a.counts) };
}

impl CutTickets {
    // A turn of each lane.
    pub(crate) fn of_lanes(counts: &Counts) -> CutTickets
        ensures { result ≡ turns_from 0 counts.now }
    {
        CutTickets {
            lane: 0,
            counts: *counts,
        }
    }

    /// The next turn, which is then no longer left; none where no turn is left. Takes no memory.
    pub fn next(&mut self) -> Option<Turn>
        ensures { MatchOption result ((self.old ≡ []) × (self.new ≡ []))
            (λ t. self.old ≡ t ∷ self.new) }
    {
        next_lane(&mut self.lane, &self.counts)
    }

    /// Ends a cut of which no turn is left.
    pub fn finish(self)
        requires { self ≡ [] }
    {
        let CutTickets {
            lane: _lane,
            counts: _counts,
        } = self;
    }
}

// The turn of a lane, and then of the lane after it.
fn next_lane(lane: &mut usize, counts: &Counts) -> Option<Turn>
    ensures { MatchOption result
        ((turns_from lane.old (drop lane.old counts.now) ≡ [])
        × (turns_from lane.new (drop lane.new counts.now) ≡ []))
        (λ t. turns_from lane.old (drop lane.old counts.now)
        ≡ t ∷ turns_from lane.new (drop lane.new counts.now)) }
{
    let at = *lane;
    if at >= counts.len() {
        return None;
    }
    *lane = at + 1;
    Some(Turn {
        lane: at as u32,
        ticket: counts.get(at),
        step: None,
    })
}
