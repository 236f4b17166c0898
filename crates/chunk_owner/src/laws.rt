//! What holds of every step.

ghost use Rattle.chunk_owner.specs.Laws.{GoneWhereGiven, NoObjectElsewhere, OthersAreHidden, OthersStay};
ghost use Rattle.chunk_owner.specs.Laws.{RefusalsLeaveAll, ReadsLeaveAll, OthersAreLeft, OthersAreUnlinked};
ghost use Rattle.chunk_owner.specs.LaneLaws.{ActsAtHome, AddsOnlyGiven, DropsInEach, IsFoundAtHome, JoinedAreOne};
ghost use Rattle.chunk_owner.specs.LaneLaws.{WholeIsJoined, WithoutForgets, MarksAreOfLane, KeysAreOfOneId};
ghost use Rattle.chunk_owner.specs.LaneLaws.{KeysAreOfOneLane, OthersLeaveSaid, OthersLeaveDescribed};
ghost use Rattle.chunk_owner.specs.LaneLaws.{OthersLeaveLane, OthersLeaveDescribedLane};

use object_acts::refusals_leave_the_object;

/// An id without an object is gone exactly where it was given before; every other one has no object, and one of another
/// domain has none whatever stands there.
pub fn ids_without_objects()
    ensures gone { GoneWhereGiven }
    ensures elsewhere { NoObjectElsewhere }
    ensures hidden { OthersAreHidden }
{}

/// A step leaves each object but the one that it touches.
pub fn others_stay()
    ensures { OthersStay }
{}

/// A refused step leaves all objects as requests see them.
pub fn refusals_leave_all()
    ensures { RefusalsLeaveAll }
{
    refusals_leave_the_object();
}

/// What reads an object leaves all objects, whatever it answers.
pub fn reads_leave_all()
    ensures { ReadsLeaveAll }
{}

/// A request on an object of another domain, or on a group there that is to have a new object, is answered that there
/// is no such object, whatever stands there, and leaves all objects.
pub fn other_domains_are_left()
    ensures object { OthersAreLeft }
    ensures link { OthersAreUnlinked }
{}

/// An object that a step adds has the id of the domain's root, or the fresh one.
pub fn steps_add_only_what_was_given()
    ensures { AddsOnlyGiven }
{}

/// The objects of lanes are those of one map, in which each stands as in the lane of its id. No other map has them so.
pub fn lanes_are_joined()
    ensures joined { WholeIsJoined }
    ensures found { IsFoundAtHome }
    ensures one { JoinedAreOne }
{}

/// A step among all objects answers what it answers in the lane of the id that it touches, and leaves what it leaves
/// there; every other lane stays.
pub fn steps_are_taken_at_home()
    ensures { ActsAtHome }
{}

/// A domain is dropped by dropping it in each lane.
pub fn domains_are_dropped_in_each_lane()
    ensures forgets { WithoutForgets }
    ensures each { DropsInEach }
{}

/// What a cut of a lane writes has keys of ids of the lane, and no key is of two lanes.
pub fn keys_are_of_one_lane()
    ensures marks { MarksAreOfLane }
    ensures id { KeysAreOfOneId }
    ensures lane { KeysAreOfOneLane }
{}

/// Records of which none has a key of an id leave what is said and what is described there; so do those of other lanes
/// and of the register with all of a lane.
pub fn other_records_leave_a_lane()
    ensures said { OthersLeaveSaid }
    ensures described { OthersLeaveDescribed }
    ensures lane { OthersLeaveLane }
    ensures objects { OthersLeaveDescribedLane }
{}
