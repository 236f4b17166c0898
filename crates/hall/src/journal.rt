//! The desk of a journal, as it lies in a hall.
ghost use Rattle.std.specs.Prelude.{◌≡◌, ℕ, None, Some, length, option_map, slice_get};
ghost use Rattle.chunk_owner.specs.Lanes.{Lane};
ghost use Rattle.flush_journal.specs.Standing.{disk_of, pending_of};
ghost use Rattle.service_histories.specs.Markings.{IsOwner};

use crate::desk::AtDesk;
use crate::note::HallNote;
use atomic_table::Badge;
use edge_traits::Disk;
use flush_journal::{Journal, Why};
use journal_desk::Desk;
use lane_histories::Reach;
use service_core::{Owners, World};
use service_histories::{cuts_tell_the_lane, cuts_tell_the_register, worlds_are_told, worlds_open};
use std::alloc::Global;
use std::snapshot::Snapshot;

/// The desk of a journal. Its turn keeps what was done.
#[derive(Drop)]
pub struct JournalDesk<D: Disk> {
    pub(crate) desk: Desk<D, HallNote<Snapshot<Journal<D>>>>,
    pub(crate) lanes: u32,

    // The journal with which it began.
    pub(crate) first: Snapshot<Journal<D>>,

    // The desk as its last turn found it, and what was done in that turn. From these is its keeping.
    pub(crate) before: Snapshot<Desk<D, HallNote<Snapshot<Journal<D>>>>>,
    pub(crate) turn: Option<DeskNews>,
}

/// What is asked of the desk in its turn.
#[derive(Clone, Copy)]
pub enum DeskWork {
    /// A flush.
    Flush,
    /// A flush, but where the place is kept already nothing.
    FlushPast { place: u64 },
    /// A keeping of the catalogue.
    KeepRegister,
    /// A look at how many places are kept.
    Look,
}

/// What was asked in a turn, and the answer.
#[derive(Drop)]
pub struct DeskNews {
    pub work: DeskWork,
    pub result: Snapshot<Result<u64, Why>>,
}

impl<D: Disk + Drop> AtDesk for JournalDesk<D> {
    ghost use Rattle.hall.specs.JournalDesks.{AreTold, IsJournalSince, keeping_by};
    ghost use Rattle.hall.specs.Notes.{of_lanes, seen_in};

    type KnownBy = Snapshot<Journal<D>>;

    ghost known = { λ d. d.first };

    ghost IsSince = { λ d start. (d.lanes ≡ length start.owners)
        × IsJournalSince D.Disk d.desk start };

    ghost note = { λ d owners. of_lanes (length owners) (seen_in d.desk.note) };

    ghost news = { λ d. option_map (keeping_by D.Disk d.before.value d.desk) d.turn };

    ghost reach = { λ d. d.desk.kept };

    ghost moment = { λ d. D.moment d.desk.at };

    ghost HasTold = { λ d first keepings.
        AreTold D.Disk first.value d.desk keepings };

    fn known_by(&self) -> Snapshot<Snapshot<Journal<D>>> {
        Snapshot::of(&self.first)
    }
}

// What holds of each owner.
fn are_owners(owners: &Owners, lanes: u32)
    requires { length owners.now.owners ≡ lanes }
    ensures { (lane : ℕ) (owner : Lane) → slice_get owners.now.owners lane ≡ Some owner
        → IsOwner owner }
{
    for lane in 0..lanes {
        let Some(owner) = owners.lane(lane) else {
            unreachable!()
        };
        owner.is_whole();
        owner.is_described();
    }
}

impl<D: Disk> JournalDesk<D> {
    ghost use Rattle.std.specs.Prelude.{◌≤◌, List, []};
    ghost use Rattle.std.specs.List.{AllByRecursion};
    ghost use Rattle.hall_rule.specs.Seen.{nothing};
    ghost use Rattle.journal_desk.specs.Desks.{HoldsAsFar, HoldsKept};
    ghost use Rattle.journal_desk.specs.Keepings.{HasKept, lists};
    ghost use Rattle.lane_histories.specs.Desks.{nowhere};
    ghost use Rattle.lane_histories.specs.Histories.{IsIn, places};
    ghost use Rattle.lane_histories.specs.KeptContents.{IsAsFar};
    ghost use Rattle.lane_histories.specs.declared.items.Answer.TheVariants.{Kept};
    ghost use Rattle.lane_histories.specs.declared.items.Keeping.{Keeping};
    ghost use Rattle.service_histories.specs.KeptArrays.{array_kept};
    ghost use Rattle.hall.specs.JournalDesks.{AreTold, HoldsWorld, IsJournalSince};
    ghost use Rattle.hall.specs.Notes.{hall_notes, of_lanes, seen_in};
    ghost use Rattle.hall.specs.Passes.{IsNewWorld};

    /// The desk of a journal that holds a world, for a hall that begins with the world. No request
    /// came to it yet, nothing was cut, and nothing is pending.
    pub fn begin(alloc: Global, world: World, journal: Journal<D>) -> (World, JournalDesk<D>)
        requires new { IsNewWorld world }
        requires idle { pending_of journal ≡ None }
        requires holds { D.honest → HoldsWorld D.Disk journal world }
        ensures world { result.0 ≡ world }
        ensures lanes { result.1.lanes ≡ length world.lanes }
        ensures since { IsJournalSince D.Disk result.1.desk (record {
          register = world.register;
          owners = world.lanes;
          desk = result.1.first;
        }) }
        ensures note { of_lanes (length world.lanes) (seen_in result.1.desk.note)
            ≡ nothing world.lanes }
        ensures first { result.1.first.value ≡ journal }
        ensures told { AreTold D.Disk result.1.first.value result.1.desk [] }
        ensures disk { result.1.desk.disk ≡ disk_of journal }
        ensures idle { (result.1.desk.pending ≡ None) × (result.1.desk.building ≡ []) }
        ensures reach { (result.1.desk.cut ≡ nowhere) × (result.1.desk.kept ≡ nowhere) }
        ensures turn { result.1.turn ≡ None }
    {
        worlds_open();
        worlds_are_told();
        cuts_tell_the_lane();
        cuts_tell_the_register();
        let (register, owners) = world.parts();
        register.is_described();
        let lanes = register.lanes();
        are_owners(&owners, lanes);
        let world = World::of_parts(register, owners);
        let first = Snapshot::of(&journal);
        let note = HallNote {
            badge: Badge::blank(),
            world: Some(Snapshot::of(&world)),
        };
        let desk = Desk::begin(alloc, lanes, journal, note);
        desk.images_are_kept();
        let before = Snapshot::of(&desk);
        (
            world,
            JournalDesk {
                desk,
                lanes,
                first,
                before,
                turn: None,
            },
        )
    }

    /// Whatever a crash leaves of the disk is kept from the note's lists: with the numbers that are
    /// kept, or with those of the batch that is pending, which are no smaller.
    pub fn images_are_kept(&self)
        ensures images { D.honest → (image : List ℕ) → D.images self.now.desk.disk image
            → HoldsAsFar (array_kept self.now.desk.lanes)
            ((hall_notes self.now.desk.lanes).start self.now.desk.note)
            (lists D.Disk (hall_notes self.now.desk.lanes) self.now.desk) self.now.desk.kept image }
        ensures settled { D.honest → self.now.desk.pending ≡ None
            → (image : List ℕ) → D.images self.now.desk.disk image
            → HoldsKept (array_kept self.now.desk.lanes)
            ((hall_notes self.now.desk.lanes).start self.now.desk.note)
            (lists D.Disk (hall_notes self.now.desk.lanes) self.now.desk) self.now.desk.kept image }
        ensures since { D.honest → HasKept D.Disk (hall_notes self.now.desk.lanes) self.now.desk
            (D.moment self.now.desk.disk) self.now.desk.kept }
    {
        self.desk.images_are_kept();
    }

    /// For each keeping in the note that was answered Ok: whatever a crash since its moment left is
    /// kept with numbers at least as large. So it is for what the desk keeps, since it was reached.
    /// None of these moments is later than the disk's. No keeping in the note reaches farther.
    pub fn keepings_are_kept(&self)
        ensures each { D.honest → (k : Keeping)
            → IsIn (lists D.Disk (hall_notes self.now.desk.lanes) self.now.desk).keepings k
            → k.answer ≡ Kept
            → HasKept D.Disk (hall_notes self.now.desk.lanes) self.now.desk k.moment k.own }
        ensures own { D.honest → HasKept D.Disk (hall_notes self.now.desk.lanes) self.now.desk
            (D.moment self.now.desk.at) self.now.desk.kept }
        ensures moments { D.honest → (k : Keeping)
            → IsIn (lists D.Disk (hall_notes self.now.desk.lanes) self.now.desk).keepings k
            → k.answer ≡ Kept → k.moment ≤ D.moment self.now.desk.disk }
        ensures reached { D.honest → D.moment self.now.desk.at ≤ D.moment self.now.desk.disk }
        ensures far { AllByRecursion (λ k. IsAsFar k.own self.now.desk.kept)
            (lists D.Disk (hall_notes self.now.desk.lanes) self.now.desk).keepings }
    {
        self.desk.keepings_are_kept();
    }

    /// How far what the disk holds reaches: to no place that isn't in the note's lists.
    pub fn kept(&self) -> Reach
        ensures reach { result ≡ self.now.desk.kept }
        ensures few { self.now.desk.kept.c ≤ places (seen_in self.now.desk.note).register }
    {
        self.desk.reach_is_of_cuts();
        self.desk.kept()
    }

    /// The disk.
    pub fn into_disk(self) -> D
        ensures { result ≡ self.desk.disk }
    {
        let JournalDesk {
            desk,
            lanes: _lanes,
            first: _,
            before: _,
            turn: _,
        } = self;
        desk.into_disk()
    }
}
