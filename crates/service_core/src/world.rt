//! The world.

ghost use Rattle.std.specs.Prelude.{◌≡◌, ◌↔◌, ℕ, IsTrue, ◌+◌, ◌<◌, ◌≤◌, List, [], ◌∷◌, length, None, IfErr, IfOk, IfSome, OnErr, OnOk, option_map};
ghost use Rattle.std.specs.FinMap.{empty, get, insert};
ghost use Rattle.std.specs.Option.{option_copied};
ghost use Rattle.object_ids.specs.Ids.{lane_of};
ghost use Rattle.object_acts.specs.Objects.{IsOfKind, IsTrackedBody, unmarked};
ghost use Rattle.chunk_owner.specs.Lanes.{AreOfKind, AreShown};
ghost use Rattle.domains.specs.Changes.{Blames, domain_fault, root_of};
ghost use Rattle.flush_journal.specs.Batches.{records};
ghost use Rattle.flush_journal.specs.Files.{Content};
ghost use Rattle.flush_journal.specs.Records.{Held, put_record};
ghost use Rattle.flush_journal.specs.Standing.{IsSettled, disk_of, pending_of};
ghost use Rattle.flush_journal.specs.Tries.{Tries, Writes};
ghost use Rattle.flush_journal.specs.Unchanged.{SameDisk};
ghost use Rattle.flush_journal.specs.Cuts.Cuts.{AppendsOnce, IsCut};
ghost use Rattle.containers.specs.TextMaps.Nexts.{IsKeyStep, IsNext};
ghost use Rattle.domains.specs.Contents.{IsCatalogue};
ghost use Rattle.object_ops.specs.Conditions.{IsSoundOp};
ghost use Rattle.register.specs.Kept.{IsUsedUp, MatchFault, MatchUsed, RegisterSays, TellsUsed, run_kept};
ghost use Rattle.register.specs.Decided.{HasRoom, IsRegister, domain_added, domain_refused, fresh_given, serial_limit};
ghost use Rattle.chunk_owner.specs.Owners.Joined.{AreLanes, whole};
ghost use Rattle.chunk_owner.specs.Owners.Records.{AreStillIn, AreUndropped, LanesStillSay};
ghost use Rattle.chunk_owner.specs.Slots.Slots.{IsMarkedIn};
ghost use Rattle.chunk_owner.specs.declared.slots.slot.Mark.TheVariants.{Changed};
ghost use Rattle.service_core.specs.Cutting.{CutsInTurn, StopsCut};
ghost use Rattle.service_core.specs.Described.Told.{AreWhole};
ghost use Rattle.service_core.specs.Marking.{AddsLaneMarks, AddsRequestMarks, AddsWorldMarks};
ghost use Rattle.service_core.specs.Marking.{MarksVerdict};
ghost use Rattle.service_core.specs.Records.{DescribesWorld, IsCutRecord, IsKept, IsSameWorld};
ghost use Rattle.service_core.specs.Records.{IsWorldFault, IsWorldMarked};
ghost use Rattle.service_core.specs.Records.{IsWorldOf, OrNoMemory, TellsKey, WorldSays};
ghost use Rattle.service_core.specs.Records.{WorldStillSays, run_record};
ghost use Rattle.service_core.specs.Steps.{IsGiven, IsWorld, Obeys, Steps};
ghost use Rattle.service_core.specs.Turns.{IsServable};
ghost use Rattle.service_core.specs.Worlds.{IsBuilt, IsFreshId, IsNew, full_of, lesser, seen};
ghost use Rattle.service_core.specs.Worlds.{with_object, with_register};

use crate::answers::{Answer, What};
use crate::faults::bad_record;
use crate::owners::Owners;
use crate::strays::first_stray;
use crate::turns::serve;
use access_lists::Caller;
use chunk_owner::Owner;
use chunk_owner::owners::{are_described, are_whole as lanes_are_whole, cut_lanes, install_lanes};
use domains::{CatFault, Catalogue, Node};
use edge_traits::Disk;
use flush_journal::{Batch, Journal, Recovered, Why};
use object_acts::Object;
use object_ids::{DomainPath, Kind, Name, ObjectId, lane};
use object_ops::{Op, Reply, Request};
use object_records::keys::{run_body, run_key};
use register::{InstallFault, Register, Verdict};
use std::alloc::{AllocError, Global};
use std::cmp::Ordering;
use std::marker::Model;

/// The catalogue with what was given out, and the objects of all lanes.
#[derive(Drop)]
pub struct World {
    alloc: Global,
    register: Register,
    owners: Vec<Owner>,
}

impl Model for World {
    ghost use Rattle.std.specs.Prelude.{refl, List};
    ghost use Rattle.std.specs.Coded.{code_by, coded×, coded_list};
    ghost use Rattle.chunk_owner.specs.Lanes.{Lane};
    ghost use Rattle.chunk_owner.specs.contracts.owner.Owner as owner_row;
    ghost use Rattle.register.specs.Decided.{RegisterState};
    ghost use Rattle.register.specs.contracts.register.Register as register_row;
    ghost use Rattle.service_core.specs.Worlds.{IsBuilt, State};

    ghost Value = { State };

    ghost coded = { code_by (RegisterState × List Lane)
        (coded× register_row.the_row.coded (coded_list owner_row.the_row.coded))
        (λ s. (s.register, s.lanes)) (λ p. record { register = p.0; lanes = p.1 }) (λ _. refl) };

    ghost view = { λ a. record { register = a.register; lanes = a.owners.items } };

    ghost invariant = { λ a. IsBuilt a.register a.owners.items };
}

impl World {
    /// A world without objects, over as many lanes as the register has.
    ///
    /// # Errors
    ///
    /// Only where memory runs out.
    pub fn new(alloc: Global, register: Register) -> Result<World, AllocError>
        ensures world { IfOk result (λ world. seen world
            ≡ record { register = register; objects = empty }) }

        // Where nothing is held, that tells the world if it tells the register.
        ensures says { IfOk result (λ world. RegisterSays register empty → WorldSays world empty) }
        ensures undropped { IfOk result (λ world. AreUndropped world.lanes) }
    {
        let owners = new_owners(alloc, register.lanes())?;
        Ok(World {
            alloc,
            register,
            owners,
        })
    }

    /// The world that a journal's records describe, at the begin of the run after the kept one. Nothing but the run has
    /// changed since they were written. Its arrays take the bytes of their chunks over.
    ///
    /// # Errors
    ///
    /// `RunsUsed` exactly where no record of the register is at fault and the kept run is the last; else `BadRecord` exactly
    /// where a key is at fault, with the least one of the register, else of the first lane that has one, else of no part. Or
    /// `NoMemory`.
    pub fn install(alloc: Global, lanes: u32, mut kept: Recovered) -> Result<World, InstallFault>
        requires some_lane { 1 ≤ lanes }
        requires few_lanes { lanes ≤ 16 }
        ensures described { IfOk result (λ world. IsWorldOf kept lanes world) }
        ensures says { IfOk result (λ world. WorldSays world kept) }
        ensures still { IfOk result (λ world. AreStillIn world.lanes) }
        ensures fault { IfErr result (λ e. MatchFault e (IsWorldFault lanes kept)) }
        ensures used { IfErr result (λ e. MatchUsed e (IsUsedUp kept)) }
        ensures told { IsUsedUp kept → TellsUsed result }

        // A key at fault is named exactly where there is one, and a run is left.
        ensures named { (key : List ℕ) → IsWorldFault lanes kept key → (IsUsedUp kept → ⊥)
            → TellsKey key result }
    {
        let register = Register::install(alloc, lanes, &kept)?;
        let next = register.catalogue().next_number();
        let owners = install_lanes(alloc, lanes, register.run() - 1, next, &mut kept)?;
        match first_stray(&kept) {
            Some(key) => Err(bad_record(alloc, key)),
            None => Ok(World {
                alloc,
                register,
                owners,
            }),
        }
    }

    /// The register and the owners of all its lanes, for those who run them side by side. Takes no memory.
    pub fn parts(self) -> (Register, Owners)
        ensures register { result.0 ≡ self.register }
        ensures owners { result.1 ≡ full_of self.lanes }
        ensures built { IsBuilt self.register self.lanes }
    {
        let World {
            alloc,
            register,
            owners,
        } = self;
        (register, Owners::of_all(alloc, owners))
    }

    /// The world of a register and the owners of all its lanes, in order, whose objects were all given. Takes no memory.
    pub fn of_parts(register: Register, owners: Owners) -> World
        requires { IsBuilt register owners.owners }
        ensures { result ≡ record { register = register; lanes = owners.owners } }
    {
        let (alloc, owners) = owners.into_all();
        World {
            alloc,
            register,
            owners,
        }
    }

    /// That the id of each object, and the root of each domain, was given, and that each object is of its id's kind and seen
    /// without marks.
    pub fn is_whole(&self)
        ensures objects { IsWorld (seen self.now) }
        ensures roots { IsRegister self.now.register }
        ensures catalogue { IsCatalogue self.now.register.catalogue }
    {
        is_sound(&self.register);
        are_whole(self.owners.as_slice());
    }

    /// How many places were given.
    pub fn places(&self) -> u64
        ensures { result ≡ self.now.register.places }
    {
        self.register.places()
    }

    /// The folders and domains.
    pub fn catalogue(&self) -> &Catalogue
        ensures { result.now ≡ self.now.register.catalogue }
    {
        self.register.catalogue()
    }

    /// The run, below 2^22.
    pub fn run(&self) -> u32
        ensures { result ≡ self.now.register.run }
    {
        self.register.run()
    }

    /// How many serials of this run are left.
    pub fn serials_left(&self) -> u64
        ensures { result + self.now.register.serial ≡ serial_limit }
    {
        self.register.serials_left()
    }

    /// Whether there is room for one request more: fewer than 2^62 places, and fewer than 2^62 tickets of each lane, were
    /// given.
    pub fn has_room(&self) -> bool
        ensures { IsTrue result ↔ HasRoom self.now.register }
    {
        self.register.has_room()
    }

    /// The folder or domain at a path.
    pub fn node(&self, path: &DomainPath) -> Option<&Node>
        ensures { option_copied result ≡ get self.now.register.catalogue.nodes path.now }
    {
        self.register.catalogue().find(path)
    }

    /// The object of an id.
    pub fn object(&self, id: &ObjectId) -> Option<&Object>
        ensures value { option_map unmarked (option_copied result) ≡ get (seen self.now).objects id.now }
        ensures kind { IfSome (option_copied result) (IsOfKind id.now.kind) }
    {
        let lane = lane(id, self.register.lanes());
        self.owners[lane as usize].object(id)
    }

    /// The least id behind another that an object has, or the least of all.
    pub fn next_id(&self, after: Option<&ObjectId>) -> Option<ObjectId>
        ensures least { IsNext (seen self.now).objects (option_copied after.entry) result }
        ensures step { IsKeyStep (seen self.now).objects (option_copied after.entry) result }
    {
        next_in(self.owners.as_slice(), after)
    }

    /// Makes a domain without a request, so that no place is taken. Its root has the next serial.
    ///
    /// # Errors
    ///
    /// Those of [`Catalogue::make_domain`], and then `Limit` where no serial is left. After an error all is as it was.
    pub fn make_domain(&mut self, path: &DomainPath, owner: &Name) -> Result<ObjectId, CatFault>
        ensures ok { OnOk result (self.new
            ≡ with_register self.old (domain_added self.old.register path.now owner.now)) }
        ensures root { IfOk result (λ root. root ≡ root_of self.old.register.catalogue.next
            self.old.register.run self.old.register.serial) }
        ensures err { OnErr result (self.new ≡ self.old) }
        ensures why { Blames result
            (domain_refused self.old.register (domain_fault self.old.register.catalogue path.now)) }
        ensures says { WorldStillSays self.old self.new }
    {
        self.register.make_domain(path, owner)
    }

    /// The id of an object that is to be put into the domain of a number, with the next serial; none where no serial is
    /// left.
    pub fn fresh(&mut self, kind: Kind, number: u64) -> Option<ObjectId>
        requires number { number < self.old.register.catalogue.next }
        ensures id { result ≡ (fresh_given self.old.register kind number).0 }
        ensures world { self.new
            ≡ with_register self.old (fresh_given self.old.register kind number).1 }
        ensures fresh { IfSome result (IsFreshId kind number (seen self.new)) }
        ensures says { WorldStillSays self.old self.new }
    {
        self.register.fresh(kind, number)
    }

    /// Puts an object, of whose chunks none was cut, at an id that was given and has none.
    ///
    /// # Errors
    ///
    /// Only where memory runs out, or where a dataset of this id was removed since the last cut; the world is as it was then.
    pub fn put_object(&mut self, id: ObjectId, object: Object) -> Result<(), AllocError>
        requires given { IsGiven self.old.register id }
        requires new { get (seen self.old).objects id ≡ None }
        requires kind { IsOfKind id.kind object }
        requires fresh { IsTrackedBody (λ _. []) object.body }
        ensures ok { OnOk result (seen self.new ≡ with_object (seen self.old) id (unmarked object)) }
        ensures err { OnErr result (self.new ≡ self.old) }
        ensures says { WorldStillSays self.old self.new }
        ensures alone { AddsWorldMarks (IsMarkedIn id Changed object.body) self.old self.new }
        ensures undropped { AreUndropped self.old.lanes → AreUndropped self.new.lanes }
    {
        let lane = lane(&id, self.register.lanes());
        put_in(self.owners.as_mut_slice(), lane, id, object)
    }

    /// Appends the records of what changed since the last cut, and takes it as kept: what is held then tells the whole world.
    /// Those of the register come first, then those of each lane.
    ///
    /// # Errors
    ///
    /// Only where memory runs out. In the register, all is as it was; in a lane, the register and the lanes before it are cut
    /// whole, that lane and all later ones are as they were, and behind the records of the others nothing was appended.
    pub fn cut(&mut self, into: &mut Batch) -> Result<(), AllocError>
        ensures cut { (base : Held) → IsCut (IsWorldMarked self.old) base
            (records into.old) (records into.new)
            (λ held. WorldSays self.old base → WorldSays self.new held) }
        ensures bodies { AppendsOnce (IsCutRecord self.old) (records into.old) (records into.new) }
        ensures order { OnOk result (CutsInTurn self.old (records into.old) (records into.new)) }
        ensures kept { OnOk result (IsKept self.new) }
        ensures same { IsSameWorld self.old self.new }
        ensures stops { OnErr result (StopsCut self.old self.new
            (records into.old) (records into.new)) }
    {
        lanes_are_whole(self.owners.as_slice());
        self.register.cut(into)?;
        cut_lanes(self.owners.as_mut_slice(), into)
    }

    /// Each object stands at an id that may have a record, and each of its parts can be spelled. Once all is kept, what is
    /// held describes the world: each of its records keeps to the rules, no other is there, and an install finds the same
    /// folders, domains and objects. Takes no memory, and looks at no object.
    pub fn is_described(&self)
        ensures described { IsKept self.now → (held : Held) → WorldSays self.now held
            → DescribesWorld held self.now.register.run (seen self.now) }
        ensures whole { AreWhole (seen self.now).objects }
    {
        is_sound(&self.register);
        self.register.is_described();
        are_described(self.owners.as_slice());
    }

    /// Writes the record of the run to a journal, before the first id of the run is given.
    ///
    /// # Errors
    ///
    /// Those of [`Journal::append`], and `NoMemory`, for which the journal is as it was.
    pub fn begin_run<D: Disk>(&mut self, journal: &mut Journal<D>) -> Result<(), Why>
        requires idle { pending_of journal.old ≡ None }
        ensures writes { D.honest → (c : Content) → IsSettled journal.old c
            → OrNoMemory result (journal.new ≡ journal.old)
            (Writes journal.old journal.new c (run_record self.old.register ∷ []) result) }
        ensures tries { OrNoMemory result (journal.new ≡ journal.old)
            (Tries journal.old journal.new (run_record self.old.register ∷ []) result) }
        ensures same { SameDisk D.Disk (disk_of journal.old) (disk_of journal.new) }
        ensures ok { OnOk result (self.new ≡ with_register self.old (run_kept self.old.register)) }
        ensures err { OnErr result (self.new ≡ self.old) }
        ensures says { OnOk result ((held : Held) → WorldSays self.old held
            → WorldSays self.new (put_record (run_record self.old.register) held)) }
    {
        lanes_are_whole(self.owners.as_slice());
        let mut batch = Batch::new(self.alloc);
        batch.push(&run_key(), &run_body(self.register.run()))?;
        journal.append(batch)?;
        self.register.run_is_kept();
        Ok(())
    }

    /// Answers one request, at the next place.
    ///
    /// The list in force decides, then the catalogue changes, or each step of the request is done to its object. Where
    /// memory runs out, the steps before the one that found none stand.
    pub fn step(&mut self, caller: &Caller, request: &Request) -> Answer
        requires room { HasRoom self.old.register }
        requires op { IsSoundOp request.now.op }
        ensures steps { Steps (seen self.old) caller.now request.now result (seen self.new) }
        ensures says { WorldStillSays self.old self.new }

        // Only what the request changes is marked for the next cut, and nothing of a step that found no memory.
        ensures alone { AddsRequestMarks self.old caller.now request.now result.what self.new }
    {
        is_sound(&self.register);
        let place = self.register.places();
        let verdict = self.register.decide(caller, request);
        let what = obey(self.alloc, self.owners.as_mut_slice(), &request.op, verdict);
        Answer { place, what }
    }
}

// What holds of the objects of some lanes.
fn are_whole(owners: &[Owner])
    ensures kinds { AreOfKind (whole owners.now) }
    ensures shown { AreShown (whole owners.now) }
{
    for owner in owners {
        owner.is_whole();
    }
}

// The least id behind another that an object of some lanes has.
fn next_in(owners: &[Owner], after: Option<&ObjectId>) -> Option<ObjectId>
    ensures least { IsNext (whole owners.now) (option_copied after.entry) result }
    ensures step { IsKeyStep (whole owners.now) (option_copied after.entry) result }
{
    let mut least = None;
    for owner in owners {
        least = lesser(least, owner.next_id(after));
    }
    least
}

// The lesser of two ids, where there are two.
fn lesser(one: Option<ObjectId>, other: Option<ObjectId>) -> Option<ObjectId>
    ensures { result ≡ lesser one other }
{
    let Some(first) = one else {
        return other;
    };
    let Some(second) = other else {
        return one;
    };
    match second.cmp(&first) {
        Ordering::Less => Some(second),
        _ => Some(first),
    }
}

// An object is put into the lane of its id.
fn put_in(owners: &mut [Owner], lane: u32, id: ObjectId, object: Object) -> Result<(), AllocError>
    requires lane { lane < length owners.old }
    requires lanes { AreLanes (length owners.old) 0 owners.old }
    requires home { lane_of (length owners.old) id ≡ lane }
    requires new { get (whole owners.old) id ≡ None }
    requires kind { IsOfKind id.kind object }
    requires fresh { IsTrackedBody (λ _. []) object.body }
    ensures ok { OnOk result (whole owners.new ≡ insert (whole owners.old) id (unmarked object)) }
    ensures err { OnErr result (owners.new ≡ owners.old) }
    ensures lanes { AreLanes (length owners.old) 0 owners.new }
    ensures says { LanesStillSay owners.old owners.new }
    ensures alone { AddsLaneMarks (IsMarkedIn id Changed object.body)
        owners.old owners.new }
    ensures undropped { AreUndropped owners.old → AreUndropped owners.new }
{
    let owner = &mut owners[lane as usize];
    owner.put_object(id, object)
}

// What holds of every register.
fn is_sound(register: &Register)
    ensures register { IsRegister register.now }
    ensures catalogue { IsCatalogue register.now.catalogue }
{
    let _lanes = register.lanes();
    let _next = register.catalogue().next_number();
}

// What is answered once a request is decided.
fn obey(alloc: Global, owners: &mut [Owner], op: &Op, verdict: Verdict) -> What
    requires lanes { AreLanes (length owners.old) 0 owners.old }
    requires op { IsSoundOp op.now }
    requires ready { IsServable (length owners.old) op.now verdict (whole owners.old) }
    ensures obeys { Obeys op.now verdict (whole owners.old) result (whole owners.new) }
    ensures lanes { AreLanes (length owners.old) 0 owners.new }
    ensures says { LanesStillSay owners.old owners.new }
    ensures alone { MarksVerdict op.now verdict owners.old result owners.new }
{
    match verdict {
        Verdict::Granted(tickets) => match serve(alloc, owners, tickets, op) {
            Ok(reply) => What::Replied(reply),
            Err(_) => What::NoMemory,
        },
        Verdict::Answered(reply) => What::Replied(reply),
        Verdict::Denied { right } => What::Denied { right },
        Verdict::Refused(refusal) => What::Replied(Reply::Refused(refusal)),
        Verdict::NoMemory => What::NoMemory,
    }
}

fn new_owners(alloc: Global, lanes: u32) -> Result<Vec<Owner>, AllocError>
    ensures { IfOk result (λ owners. IsNew lanes owners.items) }
{
    let mut owners = Vec::new(alloc);
    for lane in 0..lanes {
        owners.push(Owner::new(alloc, lane, lanes))?;
    }
    Ok(owners)
}
