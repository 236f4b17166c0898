//! The desk itself.
ghost use Rattle.std.specs.Prelude.{◌≡◌, ◌≢◌, ◌+◌, ◌≤◌, ℕ, List, [], None, Some, Ok};
ghost use Rattle.std.specs.Prelude.{OnOk, OnErr, IfOk, IfErr, IsErr};
ghost use Rattle.std.specs.List.{AllByRecursion};
ghost use Rattle.flush_journal.specs.Batches.{records};
ghost use Rattle.flush_journal.specs.Files.{Content};
ghost use Rattle.flush_journal.specs.Frames.{frame_size};
ghost use Rattle.flush_journal.specs.Records.{Record};
ghost use Rattle.flush_journal.specs.Standing.{IsSettled, disk_of, pending_of};
ghost use Rattle.flush_journal.specs.Tries.{Tries, Writes};
ghost use Rattle.flush_journal.specs.Unchanged.{SameDisk};
ghost use Rattle.lane_histories.specs.Cuts.{IsCutTo, IsOfCuts, last_cut, register_cut};
ghost use Rattle.lane_histories.specs.KeptContents.{IsAsFar};
ghost use Rattle.lane_histories.specs.Histories.{IsIn, places};
ghost use Rattle.lane_histories.specs.Legal.{IsLegal};
ghost use Rattle.lane_histories.specs.declared.items.Answer.TheVariants.{Kept};
ghost use Rattle.lane_histories.specs.declared.items.Keeping.{Keeping};
ghost use Rattle.journal_desk.specs.Standing.{Standing};
ghost use Rattle.journal_desk.specs.Desks.{HoldsAsFar, HoldsKept};
ghost use Rattle.journal_desk.specs.Keepings.{AreItsKeepings, Continues, HasKept, IsAllKept};
ghost use Rattle.journal_desk.specs.Keepings.{IsFullWhere, IsUpTo, MayRefuseTurn, SameJournal};
ghost use Rattle.journal_desk.specs.Keepings.{SettlesFirst};
ghost use Rattle.journal_desk.specs.Cuts.{CutsAll, CutsEach, CutsLanes, CutsRegister, Resumes};
ghost use Rattle.journal_desk.specs.Owed.{AppendsCuts, OwesCuts, since_held};
ghost use Rattle.journal_desk.specs.Notes.{at_lanes};

use crate::note::Note;
use crate::turns::Turns;
use edge_traits::Disk;
use flush_journal::{Batch, Journal, Why};
use lane_histories::Reach;
use std::alloc::{AllocError, Global};
use std::marker::Model;
use std::mem;
use std::snapshot::Snapshot;

/// A journal, what its next batch will have, and how far it reaches. To a contract it is a
/// `Standing`.
#[derive(Drop)]
pub struct Desk<D: Disk, N: Note> {
    alloc: Global,

    // Over how many lanes the note is read.
    lanes: u32,
    journal: Journal<D>,

    // What was cut and not appended yet.
    building: Batch,

    // How far the last cuts reach, and a batch that is pending.
    cut: Reach,

    // How far what the disk holds reaches.
    kept: Reach,

    // The journal as it was when that was reached, and the note as it was when that was cut.
    at: Snapshot<Journal<D>>,
    since: Snapshot<N>,
    note: N,
}

impl<D: Disk, N: Note> Model for Desk<D, N> {
    ghost use Rattle.journal_desk.specs.Standing.{Standing};

    ghost Value = { Standing D N };

    ghost use Rattle.flush_journal.specs.Batches.{records};
    ghost use Rattle.flush_journal.specs.Standing.{disk_of};
    ghost use Rattle.journal_desk.specs.Desks.{IsSoundDesk};
    ghost use Rattle.journal_desk.specs.Standing.{standing_of};

    ghost view = { λ d. standing_of d.lanes d.journal (records d.building) d.cut d.kept
        (disk_of d.at.value) d.since.value d.note };

    ghost invariant = { λ d. IsSoundDesk (N.kept d.lanes) (N.start d.lanes d.note)
        (N.history d.lanes d.since.value) (N.was d.lanes d.since.value)
        (N.history d.lanes d.note) (N.was d.lanes d.note) d.journal (records d.building)
        d.cut d.kept (disk_of d.at.value) };
}

impl<D: Disk, N: Note> Desk<D, N> {
    ghost use Rattle.flush_journal.specs.Standing.{end_of};
    ghost use Rattle.lane_histories.specs.Desks.{nowhere};
    ghost use Rattle.lane_histories.specs.Since.{SaysAll};
    ghost use Rattle.journal_desk.specs.Desks.{Opens, no_history};

    /// A desk at the opening, before any request. The journal says each lane and tells the
    /// catalogue as they begin.
    pub fn begin(alloc: Global, lanes: u32, journal: Journal<D>, note: N) -> Desk<D, N>
        requires none { N.history lanes note ≡ no_history (N.kept lanes).service }
        requires idle { pending_of journal ≡ None }
        requires says_all { SaysAll (N.kept lanes).marking }
        requires opens { D.honest
            → Opens (N.kept lanes) (N.start lanes note) (N.was lanes note) journal }
        ensures lanes { result.lanes ≡ lanes }
        ensures disk { (result.disk ≡ disk_of journal) × (result.at ≡ disk_of journal)
            × (result.end ≡ end_of journal) }
        ensures idle { (result.pending ≡ None) × (result.building ≡ []) }
        ensures reach { (result.cut ≡ nowhere) × (result.kept ≡ nowhere) }
        ensures note { (result.note ≡ note) × (result.since ≡ note) }
    {
        let at = Snapshot::of(&journal);
        let since = Snapshot::of(&note);
        let none = Reach { c: 0, p: 0 };
        Desk {
            alloc,
            lanes,
            journal,
            building: Batch::new(alloc),
            cut: none,
            kept: none,
            at,
            since,
            note,
        }
    }

    /// Whatever a crash leaves of the disk is kept from the note's lists: with the numbers `kept`,
    /// or with those of the batch that is pending, which are no smaller.
    pub fn images_are_kept(&self)
        ensures images { D.honest → (image : List ℕ) → D.images self.now.disk image
            → HoldsAsFar (N.kept self.now.lanes) (N.start self.now.lanes self.now.note)
            (N.history self.now.lanes self.now.note) self.now.kept image }
        ensures settled { D.honest → self.now.pending ≡ None
            → (image : List ℕ) → D.images self.now.disk image
            → HoldsKept (N.kept self.now.lanes) (N.start self.now.lanes self.now.note)
            (N.history self.now.lanes self.now.note) self.now.kept image }
        ensures since { D.honest
            → HasKept D.Disk (at_lanes N.Note self.now.lanes) self.now (D.moment self.now.disk)
            self.now.kept }
    {
        let _ = &self.journal;
    }

    /// For each keeping in the note that was answered Ok: whatever a crash since its moment left is
    /// kept with numbers at least as large. So it is for `kept`, since the disk was as `at` says.
    /// None of these moments is later than the disk's. No keeping in the note reaches farther than
    /// `kept`.
    pub fn keepings_are_kept(&self)
        ensures each { D.honest → (i : Keeping)
            → IsIn (N.history self.now.lanes self.now.note).keepings i → i.answer ≡ Kept
            → HasKept D.Disk (at_lanes N.Note self.now.lanes) self.now i.moment i.own }
        ensures own { D.honest
            → HasKept D.Disk (at_lanes N.Note self.now.lanes) self.now (D.moment self.now.at)
            self.now.kept }
        ensures moments { D.honest → (i : Keeping)
            → IsIn (N.history self.now.lanes self.now.note).keepings i → i.answer ≡ Kept
            → i.moment ≤ D.moment self.now.disk }
        ensures reached { D.honest → D.moment self.now.at ≤ D.moment self.now.disk }
        ensures far { AllByRecursion (λ i. IsAsFar i.own self.now.kept)
            (N.history self.now.lanes self.now.note).keepings }
    {
        let _ = &self.journal;
    }

    /// The numbers of the last cuts, by the note's lists: the places at the last drawn cut that was
    /// done in every lane, and at the last register cut that found memory, each 0 before there is
    /// one. `kept` has the numbers of earlier cuts.
    pub fn reach_is_of_cuts(&self)
        ensures lanes { IsCutTo (N.kept self.now.lanes).service
            (N.history self.now.lanes self.now.note) self.now.cut.c }
        ensures register { self.now.cut.p
            ≡ register_cut (N.history self.now.lanes self.now.note).register }
        ensures kept { IsOfCuts (N.kept self.now.lanes).service
            (N.history self.now.lanes self.now.note) self.now.kept }
        ensures far { IsAsFar self.now.kept self.now.cut }
        ensures legal { IsLegal (N.kept self.now.lanes).service
            (N.start self.now.lanes self.now.note) (N.history self.now.lanes self.now.note) }
    {
        let _ = &self.journal;
    }

    /// What is pending, or was cut and not appended yet, is just what cuts of lanes and of the
    /// catalogue added since what is kept was cut, in their order, and all of it. While a batch is
    /// pending, nothing is cut.
    pub fn owed_is_of_cuts(&self)
        ensures owed { OwesCuts (N.kept self.now.lanes) (N.start self.now.lanes self.now.note)
            (N.history self.now.lanes self.now.since) (N.was self.now.lanes self.now.since)
            (N.history self.now.lanes self.now.note) (N.was self.now.lanes self.now.note)
            self.now.pending self.now.building self.now.kept }
    {
        let _ = &self.journal;
    }

    /// How far what the disk holds reaches.
    pub fn kept(&self) -> Reach
        ensures { result ≡ self.now.kept }
    {
        self.kept
    }

    /// The disk. Whatever a crash leaves of it is kept from the note's lists.
    pub fn into_disk(self) -> D
        ensures disk { result ≡ self.disk }
        ensures images { D.honest → (image : List ℕ) → D.images result image
            → HoldsAsFar (N.kept self.lanes) (N.start self.lanes self.note)
            (N.history self.lanes self.note) self.kept image }
    {
        self.journal.into_disk()
    }

    /// Brings the note up to lists that are longer by what others did since the desk's last turn.
    pub fn resume(&mut self, note: N)
        requires start { N.start self.old.lanes note ≡ N.start self.old.lanes self.old.note }
        requires was { N.was self.old.lanes note ≡ N.was self.old.lanes self.old.note }
        requires legal { IsLegal (N.kept self.old.lanes).service (N.start self.old.lanes note)
            (N.history self.old.lanes note) }
        requires resumes { Resumes (N.history self.old.lanes self.old.note)
            (N.history self.old.lanes note) self.old.kept }
        requires keepings { AreItsKeepings D.Disk (at_lanes N.Note self.old.lanes) self.old
            (N.history self.old.lanes note) }
        ensures continues { Continues D.Disk (at_lanes N.Note self.old.lanes) self.old self.new }
        ensures note { self.new ≡ record self.old { note = note } }
    {
        self.note = note;
    }

    /// Writes the batch that is pending, where there is one: just that, behind the journal's end. On
    /// a disk that has stopped it is refused.
    ///
    /// # Errors
    ///
    /// `DiskFault` only where the disk had a fault, and `JournalFull` exactly where the batch
    /// doesn't fit behind the journal's end. The batch stays pending.
    pub fn settle(&mut self) -> Result<(), Why>
        ensures continues { Continues D.Disk (at_lanes N.Note self.old.lanes) self.old self.new }
        ensures ok { OnOk result (self.new.pending ≡ None) }
        ensures written { (rs : List Record) → self.old.pending ≡ Some rs
            → OnOk result ((self.new.kept ≡ self.old.cut) × (self.new.at ≡ self.new.disk)) }
        ensures idle { self.old.pending ≡ None → self.new ≡ self.old }
        ensures nothing { self.old.pending ≡ None → result ≡ Ok tt }
        ensures err { OnErr result ((self.new.pending ≡ self.old.pending)
            × (self.new.kept ≡ self.old.kept) × (self.new.at ≡ self.old.at)) }
        ensures grown { (rs : List Record) → self.old.pending ≡ Some rs
            → OnOk result (self.new.end ≡ self.old.end + frame_size rs) }
        ensures stays { OnErr result (self.new.end ≡ self.old.end) }
        ensures since { OnOk result (self.new.since ≡ since_held self.old) }
        ensures unwritten { OnErr result (self.new.since ≡ self.old.since) }
        ensures same { (self.new.building ≡ self.old.building) × (self.new.cut ≡ self.old.cut)
            × (self.new.note ≡ self.old.note) }
        ensures cause { IfErr result (MayRefuseTurn D.Disk self.old self.new) }
        ensures full { IsFullWhere D.Disk self.new result }
        ensures first { SettlesFirst D.Disk self.old self.new result }
        ensures stopped { self.old.pending ≢ None → D.stopped self.old.disk → IsErr result }
    {
        if self.journal.pending() {
            self.journal.settle()?;
            self.kept = self.cut;
            self.at = Snapshot::of(&self.journal);
            self.since = Snapshot::of(&self.note);
        }
        Ok(())
    }

    /// Draws a cut at the register, and cuts each lane in its turn. Answers how many places had
    /// been given at the drawn cut.
    ///
    /// # Errors
    ///
    /// Only where memory runs out in a lane. The other lanes are cut all the same.
    pub fn cut_lanes<T: Turns<N>>(&mut self, turns: &mut T) -> Result<u64, AllocError>
        requires idle { self.old.pending ≡ None }
        requires here { IsUpTo N.Note self.old (T.lanes turns.old) (T.seen turns.old) }
        requires lanes { T.next_lane turns.old ≡ (N.kept (T.lanes turns.old)).service.lanes }
        requires ready { T.ready turns.old }
        ensures continues { Continues D.Disk (at_lanes N.Note self.old.lanes) self.old self.new }
        ensures here { IsUpTo N.Note self.new (T.lanes turns.new) (T.seen turns.new) }
        ensures lanes { T.next_lane turns.new ≡ (N.kept (T.lanes turns.new)).service.lanes }
        ensures ready { T.ready turns.new }
        ensures fixed { T.fixed turns.new ≡ T.fixed turns.old }
        ensures journal { SameJournal self.old self.new }
        ensures ok { IfOk result (λ c. (self.new.cut.c ≡ c)
            × (places (N.history self.old.lanes self.old.note).register ≤ c)) }
        ensures err { OnErr result (self.new.cut ≡ self.old.cut) }
        ensures order { OnOk result ((number : ℕ) × CutsLanes (N.kept self.old.lanes).service
            (N.history self.old.lanes self.old.note) (N.history self.old.lanes self.new.note)
            number self.new.cut.c) }
    {
        let c = turns.draw_cut();
        let whole = cut_each(turns, &mut self.building);
        self.note = turns.note();
        if !whole {
            return Err(AllocError);
        }
        self.cut.c = c;
        Ok(c)
    }

    /// Cuts the register.
    ///
    /// # Errors
    ///
    /// Only where memory runs out.
    pub fn cut_register<T: Turns<N>>(&mut self, turns: &mut T) -> Result<(), AllocError>
        requires idle { self.old.pending ≡ None }
        requires here { IsUpTo N.Note self.old (T.lanes turns.old) (T.seen turns.old) }
        requires lanes { T.next_lane turns.old ≡ (N.kept (T.lanes turns.old)).service.lanes }
        requires ready { T.ready turns.old }
        ensures continues { Continues D.Disk (at_lanes N.Note self.old.lanes) self.old self.new }
        ensures here { IsUpTo N.Note self.new (T.lanes turns.new) (T.seen turns.new) }
        ensures lanes { T.next_lane turns.new ≡ (N.kept (T.lanes turns.new)).service.lanes }
        ensures ready { T.ready turns.new }
        ensures fixed { T.fixed turns.new ≡ T.fixed turns.old }
        ensures journal { SameJournal self.old self.new }
        ensures last { OnOk result
            (last_cut None (N.history self.new.lanes self.new.note).register ≡ Some self.new.cut.p) }
        ensures ok { OnOk result ((self.new.cut.c ≡ self.old.cut.c)
            × (places (N.history self.old.lanes self.old.note).register ≤ self.new.cut.p)) }
        ensures err { OnErr result (self.new.cut ≡ self.old.cut) }
        ensures drawn { T.drawn turns.new ≡ T.drawn turns.old }
        ensures order { OnOk result (CutsRegister (N.kept self.old.lanes).service
            (N.history self.old.lanes self.old.note) (N.history self.old.lanes self.new.note)
            self.new.cut.p) }
    {
        let places = turns.cut_register(&mut self.building);
        self.note = turns.note();
        self.cut.p = places?;
        Ok(())
    }

    /// Appends what was cut, as one batch behind the journal's end, where the last of the cuts is one
    /// of the register that found memory. On a disk that has stopped it is refused, unless nothing
    /// was cut.
    ///
    /// # Errors
    ///
    /// `DiskFault` only where the disk had a fault, and `JournalFull` exactly where the batch
    /// doesn't fit behind the journal's end. What was cut is then pending.
    pub fn append(&mut self) -> Result<(), Why>
        requires idle { self.old.pending ≡ None }
        requires register { last_cut None (N.history self.old.lanes self.old.note).register
            ≡ Some self.old.cut.p }
        ensures continues { Continues D.Disk (at_lanes N.Note self.old.lanes) self.old self.new }
        ensures ok { OnOk result ((self.new.pending ≡ None) × (self.new.kept ≡ self.old.cut)
            × (self.new.at ≡ self.new.disk)) }
        ensures err { OnErr result ((self.new.pending ≡ Some self.old.building)
            × (self.new.kept ≡ self.old.kept) × (self.new.at ≡ self.old.at)) }
        ensures grown { self.old.building ≢ []
            → OnOk result (self.new.end ≡ self.old.end + frame_size self.old.building) }
        ensures stays { OnErr result (self.new.end ≡ self.old.end) }
        ensures nothing { self.old.building ≡ [] → self.new.end ≡ self.old.end }
        ensures wrote { AppendsCuts (at_lanes N.Note self.old.lanes) self.old self.new result }
        ensures same { (self.new.building ≡ []) × (self.new.cut ≡ self.old.cut)
            × (self.new.note ≡ self.old.note) }
        ensures cause { IfErr result (MayRefuseTurn D.Disk self.old self.new) }
        ensures full { IsFullWhere D.Disk self.new result }
        ensures stopped { self.old.building ≢ [] → D.stopped self.old.disk → IsErr result }
    {
        append_all(self.alloc, &mut self.journal, &mut self.building)?;
        self.kept = self.cut;
        self.at = Snapshot::of(&self.journal);
        self.since = Snapshot::of(&self.note);
        Ok(())
    }

    /// Keeps all that was done: writes what is pending, cuts each lane and then the register, once
    /// each, and appends just what was cut. Answers how many places are kept, which are at least those that had been given.
    /// Where a batch is pending on a disk that has stopped, or doesn't fit, it is refused, and
    /// nothing is cut.
    ///
    /// # Errors
    ///
    /// `DiskFault` only where the disk had a fault, and `JournalFull` exactly where the batch that
    /// is pending then doesn't fit behind the journal's end; or `NoMemory`, where nothing is pending
    /// then. After each, what was cut is pending or stays to be appended.
    pub fn flush<T: Turns<N>>(&mut self, turns: &mut T) -> Result<u64, Why>
        requires here { IsUpTo N.Note self.old (T.lanes turns.old) (T.seen turns.old) }
        requires lanes { T.next_lane turns.old ≡ (N.kept (T.lanes turns.old)).service.lanes }
        requires ready { T.ready turns.old }
        ensures continues { Continues D.Disk (at_lanes N.Note self.old.lanes) self.old self.new }
        ensures here { IsUpTo N.Note self.new (T.lanes turns.new) (T.seen turns.new) }
        ensures lanes { T.next_lane turns.new ≡ (N.kept (T.lanes turns.new)).service.lanes }
        ensures ready { T.ready turns.new }
        ensures fixed { T.fixed turns.new ≡ T.fixed turns.old }
        ensures ok { IfOk result (λ c. (self.new.kept.c ≡ c)
            × (places (N.history self.old.lanes self.old.note).register ≤ c)) }
        ensures all { OnOk result (IsAllKept self.new) }
        ensures wrote { AppendsCuts (at_lanes N.Note self.old.lanes) self.old self.new result }
        ensures cause { IfErr result (MayRefuseTurn D.Disk self.old self.new) }
        ensures full { IsFullWhere D.Disk self.new result }
        ensures first { SettlesFirst D.Disk self.old self.new result }
        ensures order { OnOk result ((number : ℕ) × CutsAll (N.kept self.old.lanes).service
            (N.history self.old.lanes self.old.note) (N.history self.old.lanes self.new.note)
            number self.new.cut.c self.new.cut.p) }
        ensures stopped { self.old.pending ≢ None → D.stopped self.old.disk → IsErr result }
    {
        self.settle()?;
        let places = self.cut_lanes(turns)?;
        self.cut_register(turns)?;
        self.append()?;
        Ok(places)
    }

    /// Keeps the catalogue, with what earlier cuts of lanes left to be appended: as `flush`,
    /// without the lanes' cuts, so no cut is drawn. Answers the places of the catalogue, which are
    /// at least those that had been given.
    ///
    /// # Errors
    ///
    /// Those of `flush`.
    pub fn keep_register<T: Turns<N>>(&mut self, turns: &mut T) -> Result<u64, Why>
        requires here { IsUpTo N.Note self.old (T.lanes turns.old) (T.seen turns.old) }
        requires lanes { T.next_lane turns.old ≡ (N.kept (T.lanes turns.old)).service.lanes }
        requires ready { T.ready turns.old }
        ensures continues { Continues D.Disk (at_lanes N.Note self.old.lanes) self.old self.new }
        ensures here { IsUpTo N.Note self.new (T.lanes turns.new) (T.seen turns.new) }
        ensures lanes { T.next_lane turns.new ≡ (N.kept (T.lanes turns.new)).service.lanes }
        ensures ready { T.ready turns.new }
        ensures fixed { T.fixed turns.new ≡ T.fixed turns.old }
        ensures uncut { (T.drawn turns.new ≡ T.drawn turns.old)
            × (self.new.cut.c ≡ self.old.cut.c) }
        ensures ok { IfOk result (λ p. (self.new.kept.p ≡ p)
            × (places (N.history self.old.lanes self.old.note).register ≤ p)) }
        ensures all { OnOk result (IsAllKept self.new) }
        ensures wrote { AppendsCuts (at_lanes N.Note self.old.lanes) self.old self.new result }
        ensures cause { IfErr result (MayRefuseTurn D.Disk self.old self.new) }
        ensures full { IsFullWhere D.Disk self.new result }
        ensures first { SettlesFirst D.Disk self.old self.new result }
        ensures order { OnOk result (CutsRegister (N.kept self.old.lanes).service
            (N.history self.old.lanes self.old.note) (N.history self.old.lanes self.new.note)
            self.new.cut.p) }
        ensures stopped { self.old.pending ≢ None → D.stopped self.old.disk → IsErr result }
    {
        self.settle()?;
        self.cut_register(turns)?;
        self.append()?;
        Ok(self.kept.p)
    }
}

// Appends all that was cut, and leaves nothing of it.
fn append_all<D: Disk>(
    alloc: Global,
    journal: &mut Journal<D>,
    building: &mut Batch,
) -> Result<(), Why>
    requires idle { pending_of journal.old ≡ None }
    ensures writes { D.honest → (c : Content) → IsSettled journal.old c
        → Writes journal.old journal.new c (records building.old) result }
    ensures tries { records building.old ≢ []
        → Tries journal.old journal.new (records building.old) result }
    ensures stopped { records building.old ≢ [] → D.stopped (disk_of journal.old) → IsErr result }
    ensures empty { records building.old ≡ [] → result ≡ Ok tt }
    ensures untouched { records building.old ≡ [] → journal.new ≡ journal.old }
    ensures same { SameDisk D.Disk (disk_of journal.old) (disk_of journal.new) }
    ensures none { records building.new ≡ [] }
{
    let batch = mem::replace(building, Batch::new(alloc));
    journal.append(batch)
}

// Cuts each lane, and answers whether all found memory.
fn cut_each<N: Note, T: Turns<N>>(turns: &mut T, building: &mut Batch) -> bool
    requires legal { IsLegal (N.kept (T.lanes turns.old)).service
        (N.start (T.lanes turns.old) (T.seen turns.old))
        (N.history (T.lanes turns.old) (T.seen turns.old)) }
    requires lanes { T.next_lane turns.old ≡ 0 }
    requires ready { T.ready turns.old }
    ensures cut { CutsEach (N.kept (T.lanes turns.old))
        (N.start (T.lanes turns.old) (T.seen turns.old))
        (N.history (T.lanes turns.old) (T.seen turns.old))
        (N.history (T.lanes turns.old) (T.seen turns.new))
        (N.was (T.lanes turns.old) (T.seen turns.old))
        (N.was (T.lanes turns.old) (T.seen turns.new))
        (T.drawn turns.old).0 (T.drawn turns.old).1
        (N.kept (T.lanes turns.old)).service.lanes result
        (records building.old) (records building.new) }
    ensures lanes { T.next_lane turns.new ≡ (N.kept (T.lanes turns.old)).service.lanes }
    ensures start { N.start (T.lanes turns.old) (T.seen turns.new)
        ≡ N.start (T.lanes turns.old) (T.seen turns.old) }
    ensures same { T.lanes turns.new ≡ T.lanes turns.old }
    ensures ready { T.ready turns.new }
    ensures fixed { T.fixed turns.new ≡ T.fixed turns.old }
{
    let lanes = turns.lane_count();
    let mut whole = true;
    let mut lane = 0;
    while lane < lanes {
        whole &= turns.cut_lane(building).is_ok();
        lane += 1;
    }
    whole
}
