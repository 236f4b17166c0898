//! The owner of a lane's objects.

ghost use Rattle.std.specs.Prelude.{◌≡◌, ◌≢◌, ◌<◌, ℕ, List, [], None, IfErr, IfSome, OnOk, OnErr, option_map};
ghost use Rattle.std.specs.FinMap.{empty, get, insert};
ghost use Rattle.std.specs.Option.{option_copied};
ghost use Rattle.containers.specs.TextMaps.Nexts.{IsNext, IsKeyStep};
ghost use Rattle.object_ids.specs.IdValues.{Id};
ghost use Rattle.object_ids.specs.Ids.{InRange, lane_of};
ghost use Rattle.object_ids.specs.declared.ids.Kind.TheVariants.{Dataset, Group};
ghost use Rattle.object_ops.specs.Replies.{Follows};
ghost use Rattle.object_ops.specs.Conditions.{IsSoundOp};
ghost use Rattle.object_acts.specs.Arrays.Marked.{IsDone};
ghost use Rattle.object_acts.specs.Objects.{unmarked, IsOfKind, IsTrackedBody};
ghost use Rattle.flush_journal.specs.Batches.{records};
ghost use Rattle.flush_journal.specs.Records.{Held};
ghost use Rattle.flush_journal.specs.Cuts.Cuts.{AppendsEach, IsCut};
ghost use Rattle.chunk_owner.specs.Slots.Bodies.{IsSlotRecord, IsUndropped};
ghost use Rattle.chunk_owner.specs.Slots.Marking.{AddsMarks, IsToForget};
ghost use Rattle.chunk_owner.specs.Slots.Slots.{AreStill, Describes, IsMarked, IsMarkedIn, Says, StillSays};
ghost use Rattle.chunk_owner.specs.declared.slots.slot.Mark.TheVariants.{Changed};
ghost use Rattle.object_records.specs.Keys.Keys.{IsSubject};
ghost use Rattle.chunk_owner.specs.Installs.Records.{IsOfLane};
ghost use Rattle.chunk_owner.specs.Installs.Walks.{Blames, Installs, IsRefused, subject_of};
ghost use Rattle.chunk_owner.specs.Lanes.{AreShown, AreWholeObjects, IsWhole, IsSameLane, Forgets};
ghost use Rattle.chunk_owner.specs.Acts.{acted, touched, HasFresh, IsStepOf, IsTouchedIn};
ghost use Rattle.chunk_owner.specs.Marks.{IsStepMark};

use crate::installs::{LaneKey, RecordFault, install_record};
use crate::slots::{
    Changes, Slot, cut, forget, next_id, note_domain, object, put, records_describe,
};
use crate::steps::{act_in, note_step};
use flush_journal::Batch;
use object_acts::Object;
use object_ids::{IdMap, ObjectId};
use object_ops::{Grant, Op, Reply, Step};
use std::alloc::{AllocError, Global};
use std::marker::Model;

/// The objects of one lane: those whose ids are of the lane, of so many lanes. Beside them stands what changed since the
/// last cut.
#[derive(Drop)]
pub struct Owner {
    alloc: Global,
    lane: u32,
    lanes: u32,
    slots: IdMap<Slot>,
    changes: Changes,
}

impl Model for Owner {
    ghost use Rattle.std.specs.Prelude.{ℕ, refl};
    ghost use Rattle.std.specs.FinMap as map;
    ghost use Rattle.std.specs.Coded.{code_by, coded×, coded_ℕ};
    ghost use Rattle.object_ids.specs.IdOrder.{id_order};
    ghost use Rattle.object_ids.specs.contracts.ids.ObjectId as id;
    ghost use Rattle.object_acts.specs.contracts.objects.Object as object;
    ghost use Rattle.object_acts.specs.declared.objects.Object.{Object};
    ghost use Rattle.chunk_owner.specs.contracts.slots.slot.Slot as slot;
    ghost use Rattle.chunk_owner.specs.declared.slots.slot.Slot.{Slot};
    ghost use Rattle.chunk_owner.specs.Slots.Listed.{AreListed};
    ghost use Rattle.chunk_owner.specs.Lanes.{AreSlotsOf, Lane, lane_with};

    ghost Value = { Lane };

    ghost coded = { code_by (ℕ × (ℕ × (map.FinMap id_order Object × map.FinMap id_order Slot)))
        (coded× coded_ℕ (coded× coded_ℕ (coded× (map.code id.the_row.coded object.the_row.coded) (map.code id.the_row.coded slot.the_row.coded))))
        (λ l. (l.lane, (l.lanes, (l.objects, l.slots))))
        (λ p. record { lane = p.0; lanes = p.1.0; objects = p.1.1.0; slots = p.1.1.1 }) (λ _. refl) };

    ghost view = { λ a. lane_with a.lane a.lanes a.slots };

    ghost invariant = { λ a. AreSlotsOf a.lane a.lanes a.slots × AreListed a.changes a.slots };
}

impl Owner {
    /// A lane without objects. It takes no memory.
    pub fn new(alloc: Global, lane: u32, lanes: u32) -> Owner
        requires { lane < lanes }
        ensures { result ≡ record { lane = lane; lanes = lanes; objects = empty; slots = empty } }
    {
        Owner {
            alloc,
            lane,
            lanes,
            slots: IdMap::new(alloc),
            changes: Changes::new(alloc),
        }
    }

    /// Installs what a record of the lane tells, beside the kept run and the number that the next domain takes.
    ///
    /// # Errors
    ///
    /// `BadRecord` where it can't stand; else `NoMemory`.
    pub(crate) fn install_record(
        &mut self,
        run: u32,
        next: u64,
        of: &LaneKey,
        body: Vec<u8>,
    ) -> Result<(), RecordFault>
        requires of { IsSubject (subject_of of.now) }
        requires own { IsOfLane self.old.lanes self.old.lane (subject_of of.now) }
        ensures done { OnOk result
            (Installs run next (subject_of of.now) body.items self.old.slots self.new.slots) }
        ensures bad { IfErr result (λ e.
            Blames e (IsRefused run next (subject_of of.now) body.items self.old.slots)) }
        ensures same { IsSameLane self.old self.new }
    {
        install_record(self.alloc, run, next, &mut self.slots, of, body)
    }

    /// That each object is of the lane and of its id's kind, and is seen without marks.
    pub fn is_whole(&self)
        ensures own { IsWhole self.now }
        ensures shown { AreShown self.now.objects }
    {
        let _lane = self.lane;
    }

    /// That each object stands at an id that may have a record, and that each of its parts can be spelled; and that what is
    /// held describes the objects, where nothing changed since the last cut. It looks at none of them.
    pub fn is_described(&self)
        ensures described { AreStill self.now.slots → (id : Id) (held : Held)
            → Says (get self.now.slots id) id held → Describes held id (get self.now.objects id) }
        ensures whole { AreWholeObjects self.now.objects }
    {
        records_describe();
        let _lane = self.lane;
    }

    /// The object of an id.
    pub fn object(&self, id: &ObjectId) -> Option<&Object>
        ensures value { option_map unmarked (option_copied result) ≡ get self.now.objects id.now }
        ensures kind { IfSome (option_copied result) (IsOfKind id.now.kind) }
    {
        object(&self.slots, id)
    }

    /// The least id behind another, or the least of all.
    pub fn next_id(&self, after: Option<&ObjectId>) -> Option<ObjectId>
        ensures least { IsNext self.now.objects (option_copied after.entry) result }
        ensures step { IsKeyStep self.now.objects (option_copied after.entry) result }
    {
        next_id(&self.slots, after)
    }

    /// What one step of a request answers, and what it leaves of the object that it touches. All other objects stay, and
    /// an error leaves every object as it was.
    ///
    /// # Errors
    ///
    /// Only where memory runs out; a write that would add too many bytes of chunks is told so too.
    pub fn act(&mut self, op: &Op, step: Step, grant: &Grant) -> Result<Reply, AllocError>
        requires op { IsSoundOp op.now }
        requires step { IsStepOf op.now step }
        requires touched { IsTouchedIn self.old.lane self.old.lanes (touched grant.now op.now step) }
        requires fresh { HasFresh grant.now op.now self.old.objects }
        requires root { grant.now.root.kind ≡ Group }
        ensures acts { Follows (acted grant.now op.now step self.old.objects) self.old.objects
            result self.new.objects }
        ensures says { StillSays self.old.slots self.new.slots }
        ensures alone { AddsMarks (λ key. IsDone result
            × IsStepMark grant.now op.now step self.old.slots key) self.old.slots self.new.slots }
        ensures same { IsSameLane self.old self.new }
    {
        let done = act_in(self.alloc, &mut self.slots, op, step, grant);
        note_step(&mut self.changes, &self.slots, op, step, grant);
        done
    }

    /// Puts an object, of whose chunks none was cut, at an id of the lane that has none. It takes the place of a group or a
    /// datatype that was removed since the last cut.
    ///
    /// # Errors
    ///
    /// Only where memory runs out, or where a dataset of this id was removed since the last cut; the lane is as it was then.
    pub fn put_object(&mut self, id: ObjectId, object: Object) -> Result<(), AllocError>
        requires lane { lane_of self.old.lanes id ≡ self.old.lane }
        requires new { get self.old.objects id ≡ None }
        requires kind { IsOfKind id.kind object }
        requires fresh { IsTrackedBody (λ _. []) object.body }
        ensures ok { OnOk result (self.new.objects ≡ insert self.old.objects id (unmarked object)) }
        ensures err { OnErr result (self.new ≡ self.old) }
        ensures free { OnErr result (id.kind ≢ Dataset → get self.old.slots id ≡ None) }
        ensures says { StillSays self.old.slots self.new.slots }
        ensures alone { AddsMarks (IsMarkedIn id Changed object.body)
            self.old.slots self.new.slots }
        ensures undropped { IsUndropped self.old.slots → IsUndropped self.new.slots }
        ensures same { IsSameLane self.old self.new }
    {
        let done = put(&mut self.slots, id, object);
        self.changes.note(&self.slots, &id);
        done
    }

    /// Removes the objects of the domain of a number. It looks at the ids of that domain alone.
    pub fn forget(&mut self, number: u64)
        ensures rest { Forgets number self.old.objects self.new.objects }
        ensures says { StillSays self.old.slots self.new.slots }
        ensures alone { AddsMarks (IsToForget number (get self.old.slots))
            self.old.slots self.new.slots }
        ensures same { IsSameLane self.old self.new }
    {
        forget(&mut self.slots, number);
        note_domain(&mut self.changes, &self.slots, number);
    }

    /// Appends the records of what changed since the last cut, and takes it as kept: what is held then says of each id
    /// what stands there. All objects stay.
    ///
    /// # Errors
    ///
    /// Only where memory runs out; then the lane and the batch are as they were.
    pub fn cut(&mut self, into: &mut Batch) -> Result<(), AllocError>
        ensures cut { (base : Held) → IsCut (IsMarked self.old.slots) base
            (records into.old) (records into.new)
            (λ held. (id : Id) → InRange id → Says (get self.old.slots id) id base
            → Says (get self.new.slots id) id held) }
        ensures bodies { AppendsEach (IsSlotRecord self.old.slots)
            (records into.old) (records into.new) }
        ensures still { OnOk result (AreStill self.new.slots) }
        ensures marks { (key : List ℕ) → IsMarked self.new.slots key → IsMarked self.old.slots key }
        ensures objects { self.new.objects ≡ self.old.objects }
        ensures same { IsSameLane self.old self.new }
        ensures err { OnErr result (self.new ≡ self.old) }
        ensures back { OnErr result (records into.new ≡ records into.old) }
    {
        cut(self.alloc, &mut self.slots, &mut self.changes, into)
    }
}
