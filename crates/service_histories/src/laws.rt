//! What holds of every history of the service. No program calls these functions; the contract of
//! each is the law.

ghost use Rattle.std.specs.Prelude.{ℕ};
ghost use Rattle.lane_histories.specs.Laws.{CataloguesStay, CoresAreLegal, CoresStandForLists};
ghost use Rattle.lane_histories.specs.Laws.{CutPairsAreKept, CutsStayTold, EntriesAreFound};
ghost use Rattle.lane_histories.specs.Laws.{ImagesAreKept, KeepingsLast, KeepingsTell};
ghost use Rattle.lane_histories.specs.Laws.{OutcomesAreFound, OwnEntriesAreInOrder};
ghost use Rattle.lane_histories.specs.Laws.{OwnEntriesAreLater, OwnEntriesGrow, OwnEntriesStay};
ghost use Rattle.lane_histories.specs.Laws.{PrefixesAreLegal};
ghost use Rattle.lane_histories.specs.Laws.{RepliesAreReplays, RepliesStay};
ghost use Rattle.lane_histories.specs.Laws.{ReplaysAreLegal, ReplaysAreProducts, StaysKept};
ghost use Rattle.lane_histories.specs.Laws.{TicketsAreNumbered, TicketsStay, TurnsComeInOrder};
ghost use Rattle.lane_histories.specs.Laws.{VerdictsAreOfTheirPlaces};
ghost use Rattle.lane_histories.specs.Laws.{WholeAnswersArePlain, WholeIsPlain};
ghost use Rattle.lane_histories.specs.Ready.{GivesOut};
ghost use Rattle.lane_histories.specs.Since.{SaysAll, TurnsStaySince};
ghost use Rattle.service_histories.specs.ArrayServices.{array_service};
ghost use Rattle.service_histories.specs.Calls.{CutsLeave, DecisionsAnswer, DropsAct, DropsFindMemory};
ghost use Rattle.service_histories.specs.Calls.{DropsReply, StepsAct, TurnsAreAtHome};
ghost use Rattle.service_histories.specs.Closings.{LeftWorldsAreSaid, WorldsClose};
ghost use Rattle.service_histories.specs.Closings.{WorldsCloseSeen};
ghost use Rattle.service_histories.specs.Counts.{FreshRegistersHaveRoom, InstallsAreFresh};
ghost use Rattle.service_histories.specs.Counts.{RegistersCount};
ghost use Rattle.service_histories.specs.Cuttings.{KeptRegistersAreParts, OwnerCutsTell};
ghost use Rattle.service_histories.specs.Cuttings.{OwnersMark, RegisterCutsTell, SaidCutsAreTold};
ghost use Rattle.service_histories.specs.Images.{ImagesOpen};
ghost use Rattle.service_histories.specs.JournalParts.{array_contents};
ghost use Rattle.service_histories.specs.KeptArrays.{OwnerCutsWrite, RegisterCutsWrite};
ghost use Rattle.service_histories.specs.KeptObjects.{KeptObjectsStand};
ghost use Rattle.service_histories.specs.Markings.{array_marking};
ghost use Rattle.service_histories.specs.PlainSteps.{AllDoneExactly, EntriesAreSteps};
ghost use Rattle.service_histories.specs.PlainSteps.{HistoriesAreReplays, ReplaysAreSteps};
ghost use Rattle.service_histories.specs.Readies.{TurnsFindWhatTheyNeed, array_readiness};
ghost use Rattle.service_histories.specs.Tellings.{InstallsAreTold, KeptRegistersAreSince};
ghost use Rattle.service_histories.specs.Tellings.{KeptWorldsAreDescribed, KeptWorldsAreTold};
ghost use Rattle.service_histories.specs.Tellings.{OwnersAreSaid, WorldsOpen, WorldsToldAreOne};
ghost use Rattle.service_histories.specs.Wants.{WantsAreTold};

use crate::service::ArrayService;
use chunk_owner::installs::records_tell_one;
use flush_journal::last_record_wins;
use object_records::keys::record_keys_differ;
use register::{decisions_continue, decisions_keep};
use service_core::described::{described_registers_stand, described_worlds_stand};
use service_core::places_and_tickets_tell_nothing;

/// A legal history is legal at each earlier moment; each verdict is one that the register may give
/// as it is at the place of its request; and a lane takes its turns in the order of their tickets.
pub fn histories_are_legal()
    ensures prefixes { (lanes : ℕ) → PrefixesAreLegal (array_service lanes) }
    ensures verdicts { (lanes : ℕ) → VerdictsAreOfTheirPlaces (array_service lanes) }
    ensures catalogues { (lanes : ℕ) → CataloguesStay (array_service lanes) }
    ensures order { (lanes : ℕ) → TurnsComeInOrder (array_service lanes) }
    ensures numbers { (lanes : ℕ) → TicketsAreNumbered (array_service lanes) }
    ensures tickets { (lanes : ℕ) → TicketsStay (array_service lanes) }
{
    lane_histories::prefixes_are_legal::<ArrayService>();
    lane_histories::verdicts_are_of_their_places::<ArrayService>();
    lane_histories::turns_come_in_order::<ArrayService>();
}

/// The lists are legal exactly where the replay of one world, place by place, may come so; what a
/// place was answered is what that replay answers there, and stays so as the history grows.
pub fn replies_are_replays()
    ensures product { (lanes : ℕ) → ReplaysAreProducts (array_service lanes) }
    ensures legal { (lanes : ℕ) → ReplaysAreLegal (array_service lanes) }
    ensures replay { (lanes : ℕ) → RepliesAreReplays (array_service lanes) }
    ensures stay { (lanes : ℕ) → RepliesStay (array_service lanes) }
    ensures entry { (lanes : ℕ) → EntriesAreFound (array_service lanes) }
    ensures outcome { (lanes : ℕ) → OutcomesAreFound (array_service lanes) }
{
    lane_histories::replays_are_products::<ArrayService>();
    lane_histories::replies_are_replays::<ArrayService>();
}

/// A place is told that memory was wanting exactly where its verdict says so, or one of its turns
/// found none.
pub fn wants_of_memory_are_told()
    ensures { (lanes : ℕ) → WantsAreTold lanes }
{
    lane_histories::wants_of_memory_are_told::<ArrayService>();
}

/// Where each ticket was passed and each turn found memory, the world and the answers are those of
/// requests done one after another; and one such request is a step of `World::step`. So a history
/// in which all was done and no memory was wanting is the replay of one world, in order of places.
/// Such a history is a legal one in which each ticket was passed, and neither a verdict nor a turn
/// found no memory.
pub fn whole_histories_are_plain()
    ensures world { (lanes : ℕ) → WholeIsPlain (array_service lanes) }
    ensures answers { (lanes : ℕ) → WholeAnswersArePlain (array_service lanes) }
    ensures entry { (lanes : ℕ) → EntriesAreSteps lanes }
    ensures replay { (lanes : ℕ) → ReplaysAreSteps lanes }
    ensures history { (lanes : ℕ) → HistoriesAreReplays lanes }
    ensures done { (lanes : ℕ) → AllDoneExactly lanes }
{
    lane_histories::whole_histories_are_plain::<ArrayService>();
    decisions_keep();
    places_and_tickets_tell_nothing();
}

/// The entries of one pass stand in the order of their places, each once. They stay as the history
/// grows, and each that comes has a place that wasn't given before; what a pass asks is one more of
/// its own, and none of another's.
pub fn own_entries_are_in_order()
    ensures stay { (lanes : ℕ) → OwnEntriesStay (array_service lanes) }
    ensures grow { (lanes : ℕ) → OwnEntriesGrow (array_service lanes) }
    ensures order { (lanes : ℕ) → OwnEntriesAreInOrder (array_service lanes) }
    ensures later { (lanes : ℕ) → OwnEntriesAreLater (array_service lanes) }
{
    lane_histories::own_entries_are_in_order::<ArrayService>();
}

/// A decision of the register is an entry's: its verdict may come, and leaves the register that it
/// leaves. A drawn cut and a cut of the register leave what their items leave, with memory or
/// without. A step of an owner, and the drop of a domain's objects, leave what their turns leave; a
/// step may find no memory; a drop always finds it, and replies what its place is answered.
pub fn calls_are_events()
    ensures decision { DecisionsAnswer }
    ensures cut { (lanes : ℕ) → CutsLeave lanes }
    ensures step { (lanes : ℕ) → StepsAct lanes }
    ensures drop { DropsAct }
    ensures reply { DropsReply }
    ensures memory { (lanes : ℕ) → DropsFindMemory lanes }
{}

/// Of a domain that is kept each object is kept as the lane's first items left it; of another one
/// some may be gone, and nothing else stands there.
pub fn kept_objects_stand()
    ensures { (lanes : ℕ) → KeptObjectsStand lanes }
{}

/// The places and the tickets that the register gave are those that its list adds. A register that
/// is installed gave none; and as long as a list that it began with has fewer than 2^61 places and
/// fewer than 2^62 tickets of each lane, a place and a ticket of each lane are left.
pub fn the_register_counts()
    ensures counts { (lanes : ℕ) → RegistersCount lanes }
    ensures room { (lanes : ℕ) → FreshRegistersHaveRoom lanes }
    ensures fresh { InstallsAreFresh }
{
    decisions_keep();
    decisions_continue();
}

/// What is kept from a history is kept, with the same numbers, from each longer one.
pub fn what_is_kept_stays_kept()
    ensures { (lanes : ℕ) → StaysKept (array_service lanes) }
{
    lane_histories::what_is_kept_stays_kept::<ArrayService>();
}

/// Records that tell each lane and the register as they were at their last cuts tell a world that
/// is kept, as long as the register's was the last of all; and they still tell them as requests and
/// turns come.
pub fn cut_pairs_are_kept()
    ensures kept { (lanes : ℕ) → CutPairsAreKept (array_service lanes) (array_contents lanes) }
    ensures stay { (lanes : ℕ) → CutsStayTold (array_service lanes) (array_contents lanes) }
{
    lane_histories::cut_pairs_are_kept::<ArrayService>();
}

/// After any events from the opening the history is legal, the register and each lane are those of
/// their lists, and whatever a crash leaves tells a world that is kept at least as far as the
/// desk's own numbers say. Those are of the last batch that was answered Ok, and never fall.
pub fn events_keep()
    ensures legal { (lanes : ℕ) → CoresAreLegal (array_service lanes) (array_contents lanes) }
    ensures lists { (lanes : ℕ) → CoresStandForLists (array_service lanes) (array_contents lanes) }
    ensures images { (lanes : ℕ) → ImagesAreKept (array_service lanes) (array_contents lanes) }
    ensures numbers { (lanes : ℕ) → KeepingsTell (array_service lanes) (array_contents lanes) }
    ensures last { (lanes : ℕ) → KeepingsLast (array_service lanes) (array_contents lanes) }
{
    lane_histories::events_keep::<ArrayService>();
}

/// In a legal history the next turn of a lane finds its objects as `Owner::act` needs them: the
/// step is one of its request's, what it makes has an id without an object, the domain's root is a
/// group, and the object that it touches is of the lane.
pub fn turns_are_ready()
    ensures gives { (lanes : ℕ) → GivesOut (array_service lanes) (array_readiness lanes) }
    ensures ready { (lanes : ℕ) → TurnsFindWhatTheyNeed lanes }
    ensures home { (lanes : ℕ) → TurnsAreAtHome lanes }
{
    decisions_keep();
    lane_histories::turns_are_ready::<ArrayService>();
}

/// By its marks alone an owner knows that its cut makes what was cut tell its lane as it stands,
/// where that said the lane as it was at its last cut; and its records leave what is told of each
/// other lane, and of the register. What says each owner so tells all cuts. Such a cut is one that
/// a desk asks for.
pub fn cuts_tell_the_lane()
    ensures says { (lanes : ℕ) → SaysAll (array_marking lanes) }
    ensures marks { (lanes : ℕ) → OwnersMark lanes }
    ensures turn { (lanes : ℕ) → TurnsStaySince (array_marking lanes) }
    ensures cut { (lanes : ℕ) → OwnerCutsTell lanes }
    ensures all { (lanes : ℕ) → SaidCutsAreTold lanes }
    ensures write { (lanes : ℕ) → OwnerCutsWrite lanes }
{
    lane_histories::cuts_tell_the_lane::<ArrayService>();
    last_record_wins();
    record_keys_differ();
}

/// So does the register's cut, and its records leave what is told of each lane; a desk asks for such
/// a one too. Where nothing of a register is marked, what `is_described` says of it is what the cut
/// needs.
pub fn cuts_tell_the_register()
    ensures cut { (lanes : ℕ) → RegisterCutsTell lanes }
    ensures write { (lanes : ℕ) → RegisterCutsWrite lanes }
    ensures part { KeptRegistersAreParts }
{
    last_record_wins();
}

/// A world before its first request: the ids of its objects were given, each object stands in the
/// lane of its id, and what is held says each of its owners. A register of which all is kept is
/// since itself.
pub fn worlds_open()
    ensures world { (lanes : ℕ) → WorldsOpen lanes }
    ensures owners { (lanes : ℕ) → OwnersAreSaid lanes }
    ensures register { KeptRegistersAreSince }
{}

/// The register that a legal history leaves, and the owners of all lanes with the objects that it
/// leaves them, are a world: each owner stands in its lane, and the id of each object was given. It
/// is seen as the history leaves it. What is held of a world of which all was kept says each world
/// that is since it.
pub fn worlds_close()
    ensures built { (lanes : ℕ) → WorldsClose lanes }
    ensures seen { (lanes : ℕ) → WorldsCloseSeen lanes }
    ensures said { (lanes : ℕ) → LeftWorldsAreSaid lanes }
{
    decisions_keep();
    lane_histories::turns_are_ready::<ArrayService>();
}

/// What is held of a world of which all is kept tells it, lane by lane. What is held tells one
/// world. What tells a world that is kept from a legal history describes it, so that it opens again;
/// and a world that is installed from it is the one that it tells, at the begin of the next run.
pub fn worlds_are_told()
    ensures all { (lanes : ℕ) → KeptWorldsAreTold lanes }
    ensures described { (lanes : ℕ) → KeptWorldsAreDescribed lanes }
    ensures installed { (lanes : ℕ) → InstallsAreTold lanes }
    ensures one { (lanes : ℕ) → WorldsToldAreOne lanes }
{
    decisions_keep();
    lane_histories::turns_are_ready::<ArrayService>();
    described_registers_stand();
    records_tell_one();
}

/// After any events from the opening, whatever a crash leaves is the journal of a world: no key is
/// at fault, so it opens again, as a world that is kept.
pub fn images_open()
    ensures { (lanes : ℕ) → ImagesOpen lanes }
{
    events_keep();
    worlds_are_told();
    described_worlds_stand();
}
