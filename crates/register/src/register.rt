//! The register: what decides over requests.

ghost use Rattle.std.specs.Prelude.{◌≡◌, ◌↔◌, ◌+◌, ◌<◌, ◌≤◌, ◌^◌, All, IsTrue, Some, None, length};
ghost use Rattle.std.specs.Prelude.{true, IfErr, IfOk, OnErr, OnOk};
ghost use Rattle.std.specs.FinMap as map;
ghost use Rattle.std.specs.Option.{option_copied};
ghost use Rattle.domains.specs.Changes.{Blames, domain_fault, entry_fault, make_fault, remove_fault, root_of};
ghost use Rattle.domains.specs.Contents.{IsCatalogue, IsFolderAt, NumberFits, class_at};
ghost use Rattle.domains.specs.NodeTrees.{node_tree};
ghost use Rattle.domains.specs.declared.classes.Node.{Node};
ghost use Rattle.domains.specs.declared.classes.NodeClass.TheVariants.{Domain};
ghost use Rattle.flush_journal.specs.Batches.{records};
ghost use Rattle.flush_journal.specs.Records.{Held};
ghost use Rattle.containers.specs.TextMaps.Fronts.{IsLeast};
ghost use Rattle.object_ops.specs.Needs.{decided_at, right_for};
ghost use Rattle.object_ops.specs.declared.replies.Reply.TheVariants.{Done};
ghost use Rattle.flush_journal.specs.Cuts.Cuts.{AppendsEach, IsCut};
ghost use Rattle.register.specs.Decided.{AreGivenOut, Decides, HasRoom, IsRegister, acls_body, children_body};
ghost use Rattle.register.specs.Decided.{domain_added, domain_made, domain_refused, entry_put, first_serial, fits};
ghost use Rattle.register.specs.Decided.{folder_made, foreign, fresh_given};
ghost use Rattle.register.specs.Decided.{drawn, forgotten, grant_of, granted, in_domain, make_granted};
ghost use Rattle.register.specs.Decided.{node_made, node_removed, object_granted, one_step};
ghost use Rattle.register.specs.Decided.{opened, serial_limit};
ghost use Rattle.register.specs.Grants.{IfGranted, IsGrantOf, IsIssueOf, turns_of};
ghost use Rattle.register.specs.Kept.{AddsInTurn, AreTexts, IsInstalled, IsRegisterMarked, IsRegisterRecord, IsUsedUp};
ghost use Rattle.register.specs.Kept.{MatchFault, MatchUsed, RegisterSays, TellsUsed, all_kept, installed, run_kept};
ghost use Rattle.register.specs.Looks.{DecidesUncounted, MaySettle, Settles, SettlesOp};
ghost use Rattle.register.specs.Looks.{VerdictAnswers, VerdictAnswersEntry};
ghost use Rattle.register.specs.Marks.{no_marks};
ghost use Rattle.register.specs.Tickets.{Issues, turns_from};
ghost use Rattle.register.specs.Installed.Registers.{DescribesRegister, IsRegisterFault};

use crate::changes::{make_domain, make_folder, remove_node, set_entry};
use crate::counts::{Counts, MAX_LANES, all_counted, issue};
use crate::cuts::append_whole;
use crate::installed::install;
use crate::installs::InstallFault;
use crate::laws::kept_registers_are_described;
use crate::looking::{Looked, look};
use crate::marks::Marks;
use crate::replies::{
    acl_verdict, acls_verdict, answered, limit, made_reply, node_verdict, owner_of, refused,
};
use crate::tickets::{CutTickets, Tickets};
use crate::verdicts::Verdict;
use access_lists::{Caller, Rights};
use domains::{CatFault, Catalogue, NodeClass};
use flush_journal::{Batch, Recovered};
use groups_links::LinkTo;
use object_ids::{DomainPath, Kind, LimitKind, Name, ObjectId};
use object_ops::{Grant, LinkPlace, Make, Op, Refusal, Reply, Request, Step, needs};
use std::alloc::{AllocError, Global};
use std::marker::Model;

/// The serials of a run are below this one.
pub(crate) const SERIAL_LIMIT: u64 = 0x100_0000_0000;

// The last run.
const LAST_RUN: u32 = 0x3f_ffff;

// Fewer places, and fewer tickets of each lane, are given than this.
const ROOM: u64 = 0x4000_0000_0000_0000;

/// The folders and domains, and what was given out so far: places, serials, and tickets of each lane.
#[derive(Drop)]
pub struct Register {
    alloc: Global,
    catalogue: Catalogue,
    run: u32,
    serial: u64,
    places: u64,
    issued: Counts,
    marks: Marks,
}

impl Model for Register {
    ghost use Rattle.std.specs.Prelude.{ℕ, List, refl};
    ghost use Rattle.std.specs.Coded.{code_by, coded×, coded_ℕ, coded_list};
    ghost use Rattle.domains.specs.Contents.{Contents};
    ghost use Rattle.domains.specs.contracts.catalogue.Catalogue as catalogue_row;
    ghost use Rattle.register.specs.Decided.{IsRegister, RegisterState};
    ghost use Rattle.register.specs.Marks.{Marked};
    ghost use Rattle.register.specs.contracts.marks.Marks as marks_row;

    ghost Value = { RegisterState };

    ghost coded = { code_by (Contents × (Marked × (ℕ × (ℕ × (ℕ × List ℕ)))))
        (coded× catalogue_row.the_row.coded (coded× marks_row.the_row.coded
        (coded× coded_ℕ (coded× coded_ℕ (coded× coded_ℕ (coded_list coded_ℕ))))))
        (λ d. (d.catalogue, (d.marks, (d.run, (d.serial, (d.places, d.issued))))))
        (λ p. record {
          catalogue = p.0;
          marks = p.1.0;
          run = p.1.1.0;
          serial = p.1.1.1.0;
          places = p.1.1.1.1.0;
          issued = p.1.1.1.1.1;
        })
        (λ _. refl) };

    ghost view = { λ a. record {
      catalogue = a.catalogue;
      run = a.run;
      serial = a.serial;
      places = a.places;
      issued = a.issued;
      marks = a.marks;
    } };

    ghost invariant = { λ a. IsRegister (record {
      catalogue = a.catalogue;
      run = a.run;
      serial = a.serial;
      places = a.places;
      issued = a.issued;
      marks = a.marks;
    }) };
}

impl Register {
    /// A register at the begin of a run: no place and no ticket was given. Takes no memory.
    ///
    /// The first serial is 0; of run 0 it is the number of domains, whose roots have the serials before it.
    pub fn new(alloc: Global, catalogue: Catalogue, lanes: u32, run: u32) -> Register
        requires run { run < 2 ^ 22 }
        requires some_lane { 1 ≤ lanes }
        requires few_lanes { lanes ≤ 16 }
        requires roots { AreGivenOut catalogue run (first_serial catalogue run) }
        ensures opened { result ≡ opened catalogue lanes run }

        // Where nothing is held, that tells the register: all of it is to be written.
        ensures says { RegisterSays result map.empty }
    {
        let serial = first_serial(&catalogue, run);
        Register {
            alloc,
            catalogue,
            run,
            serial,
            places: 0,
            issued: Counts::repeated(0, lanes as usize),
            marks: Marks::all(alloc),
        }
    }

    /// The register that a journal's records describe, at the begin of the run after the kept one: no place and no ticket was
    /// given, and of all records that of the run alone is to be written.
    ///
    /// # Errors
    ///
    /// `BadRecord` with the least key of the register whose record is missing or can't stand; `RunsUsed` exactly where none
    /// is and the kept run is the last; or `NoMemory`.
    pub fn install(alloc: Global, lanes: u32, kept: &Recovered) -> Result<Register, InstallFault>
        requires some_lane { 1 ≤ lanes }
        requires few_lanes { lanes ≤ 16 }
        ensures described { IfOk result (λ r. IsInstalled kept.now lanes r) }
        ensures says { IfOk result (λ r. RegisterSays r kept.now) }
        ensures fault { IfErr result (λ e. MatchFault e (IsLeast (IsRegisterFault kept.now))) }
        ensures used { IfErr result (λ e. MatchUsed e (IsUsedUp kept.now)) }
        ensures told { IsUsedUp kept.now → TellsUsed result }
    {
        match install(alloc, kept) {
            Ok(kept) => {
                if kept.run >= LAST_RUN {
                    return Err(InstallFault::RunsUsed);
                }
                Ok(Register::begin(alloc, kept.catalogue, lanes, kept.run + 1))
            }
            Err(fault) => Err(InstallFault::from(fault)),
        }
    }

    // A register of which nothing but the run is new.
    fn begin(alloc: Global, catalogue: Catalogue, lanes: u32, run: u32) -> Register
        requires run { run < 2 ^ 22 }
        requires some_lane { 1 ≤ lanes }
        requires few_lanes { lanes ≤ 16 }
        requires roots { AreGivenOut catalogue run 0 }
        ensures { result ≡ installed catalogue lanes run }
    {
        Register {
            alloc,
            catalogue,
            run,
            serial: 0,
            places: 0,
            issued: Counts::repeated(0, lanes as usize),
            marks: Marks::of_run(alloc),
        }
    }

    /// Appends the records of what changed since the last cut, and takes it as kept: what is held then tells the whole
    /// register. The record of the run comes first, then that of the next domain's number, then those of nodes.
    ///
    /// # Errors
    ///
    /// Only where memory runs out. Then the batch is as it was, and so are all marks.
    pub fn cut(&mut self, into: &mut Batch) -> Result<(), AllocError>
        ensures cut { (base : Held) → IsCut (IsRegisterMarked self.old) base
            (records into.old) (records into.new)
            (λ held. RegisterSays self.old base → RegisterSays self.new held) }
        ensures bodies { AppendsEach (λ r. IsRegisterMarked self.old r.0 × IsRegisterRecord self.old r)
            (records into.old) (records into.new) }
        ensures order { OnOk result (AddsInTurn self.old.run self.old.catalogue self.old.marks
            (records into.old) (records into.new)) }
        ensures still { OnOk result (self.new ≡ all_kept self.old) }
        ensures err { OnErr result (self.new ≡ self.old) }
        ensures back { OnErr result (records into.new ≡ records into.old) }
    {
        append_whole(self.alloc, self.run, &self.catalogue, &self.marks, into)?;
        self.marks.clear();
        Ok(())
    }

    /// Takes the record of the run as kept.
    pub fn run_is_kept(&mut self)
        ensures { self.new ≡ run_kept self.old }
    {
        self.marks.clear_run();
    }

    /// Where nothing is marked, what is held describes the register: each of its records keeps to the rules, and an install
    /// finds the same run, catalogue and next number. Takes no memory.
    pub fn is_described(&self)
        ensures { self.now.marks ≡ no_marks → (held : Held) → RegisterSays self.now held
            → DescribesRegister held self.now.run self.now.catalogue }
    {
        kept_registers_are_described();
        let _lanes = self.lanes();
        have_texts(self.catalogue());
    }

    /// How many places were given.
    pub fn places(&self) -> u64
        ensures { result ≡ self.now.places }
    {
        self.places
    }

    /// The folders and domains.
    pub fn catalogue(&self) -> &Catalogue
        ensures { result.now ≡ self.now.catalogue }
    {
        &self.catalogue
    }

    /// How many serials of this run are left.
    pub fn serials_left(&self) -> u64
        ensures { result + self.now.serial ≡ serial_limit }
    {
        SERIAL_LIMIT - self.serial
    }

    /// The run, below 2^22.
    pub fn run(&self) -> u32
        ensures { result ≡ self.now.run }
    {
        self.run
    }

    /// How many lanes there are, from 1 to 16.
    pub fn lanes(&self) -> u32
        ensures lanes { result ≡ length self.now.issued }
        ensures valid { IsRegister self.now }
    {
        self.issued.len() as u32
    }

    /// Whether there is room for one request more: fewer than 2^62 places, and fewer than 2^62 tickets of each lane, were
    /// given.
    pub fn has_room(&self) -> bool
        ensures { IsTrue result ↔ HasRoom self.now }
    {
        self.places < ROOM && has_tickets(&self.issued)
    }

    /// Decides a request, which takes the next place.
    ///
    /// First a folder or domain of the wanted class must stand at the path that decides, then its access list must give the
    /// caller the right; what else speaks against the request comes after. A request that names or makes an object takes
    /// no memory, nor does a denial. Where memory runs out the place alone is taken.
    pub fn decide(&mut self, caller: &Caller, request: &Request) -> Verdict
        requires { HasRoom self.old }
        ensures decides { Decides self.old caller.now request.now result self.new }

        // The tickets of a granted request are of its steps, each in the lane of the object that it touches; each is the next
        // of its lane, and no other is given.
        ensures issue { IfGranted result (IsIssueOf self.old request.now.op) }
        ensures issues { Issues self.old.issued (turns_of result) self.new.issued }

        // What is granted is of the domain at the request's path.
        ensures grant { IfGranted result (IsGrantOf self.old self.new request.now.path) }
        ensures run { self.new.run ≡ self.old.run }
        ensures lanes { length self.new.issued ≡ length self.old.issued }
        ensures serial { self.old.serial ≤ self.new.serial }
        ensures next { self.old.catalogue.next ≤ self.new.catalogue.next }

        // What changes is marked: what is held tells all else as it did.
        ensures says { (held : Held) → RegisterSays self.old held → RegisterSays self.new held }
    {
        let verdict = self.verdict(caller, request);
        self.places += 1;
        verdict
    }

    /// Draws a cut: one turn of each lane, in the order of the lanes. It has no place. Takes no memory.
    pub fn draw_cut(&mut self) -> CutTickets
        requires { HasRoom self.old }
        ensures turns { result ≡ turns_from 0 self.old.issued }
        ensures counted { self.new ≡ drawn self.old }
        ensures says { (held : Held) → RegisterSays self.old held → RegisterSays self.new held }
    {
        let tickets = CutTickets::of_lanes(&self.issued);
        self.issued = all_counted(&self.issued);
        tickets
    }

    /// Makes a domain without a request, so that no place is taken. Its root has the next serial.
    ///
    /// # Errors
    ///
    /// Those of [`Catalogue::make_domain`], and then `Limit` where no serial is left. After an error all is as it was.
    pub fn make_domain(&mut self, path: &DomainPath, owner: &Name) -> Result<ObjectId, CatFault>
        ensures ok { OnOk result (self.new ≡ domain_added self.old path.now owner.now) }
        ensures root { IfOk result (λ root. root ≡ root_of self.old.catalogue.next self.old.run self.old.serial) }
        ensures err { OnErr result (self.new ≡ self.old) }
        ensures why { Blames result (domain_refused self.old (domain_fault self.old.catalogue path.now)) }
        ensures says { (held : Held) → RegisterSays self.old held → RegisterSays self.new held }
    {
        let _number = self.catalogue.domain_number(path)?;
        if self.serial >= SERIAL_LIMIT {
            return Err(CatFault::Limit {
                what: LimitKind::Serial,
            });
        }
        let root = make_domain(
            &mut self.catalogue,
            &mut self.marks,
            path,
            owner,
            self.run,
            self.serial,
        )?;
        self.serial += 1;
        Ok(root)
    }

    /// The id of an object that is to be made in the domain of a number, with the next serial; none where no serial is
    /// left.
    pub fn fresh(&mut self, kind: Kind, number: u64) -> Option<ObjectId>
        requires number { number < self.old.catalogue.next }
        ensures given { (result, self.new) ≡ fresh_given self.old kind number }
        ensures says { (held : Held) → RegisterSays self.old held → RegisterSays self.new held }
    {
        let _next = self.catalogue.next_number();
        if self.serial >= SERIAL_LIMIT {
            return None;
        }
        let id = ObjectId {
            kind,
            domain: number,
            run: self.run,
            serial: self.serial,
        };
        self.serial += 1;
        Some(id)
    }

    // The verdict, before the place is counted.
    fn verdict(&mut self, caller: &Caller, request: &Request) -> Verdict
        requires { HasRoom self.old }
        ensures leaves { DecidesUncounted self.old caller.now request.now result self.new }
        ensures some_lane { 0 < length self.old.issued }
        ensures places { self.new.places ≡ self.old.places }
    {
        match look(&self.catalogue, caller, request) {
            Looked::Missing => Verdict::Refused(Refusal::NoDomain),
            Looked::Denied => denied(request),
            Looked::Allowed { class } => self.grant(caller, request, &class),
        }
    }

    // The verdict where the right is given, at a folder or domain of the wanted class.
    fn grant(&mut self, caller: &Caller, request: &Request, class: &NodeClass) -> Verdict
        requires room { HasRoom self.old }
        requires there { class_at self.old.catalogue (decided_at request.now) ≡ Some class.now }
        requires fits { fits request.now.op class.now ≡ true }
        requires number { NumberFits class.now }
        ensures settles { (node : Node)
            → map.get self.old.catalogue.nodes (decided_at request.now) ≡ Some node
            → node.class ≡ class.now
            → SettlesOp request.now.op (granted self.old caller.now request.now.path request.now.op node)
            self.old result self.new }
        ensures places { self.new.places ≡ self.old.places }
    {
        let path = &request.path;
        match &request.op {
            Op::GetNode => self.node(path),
            Op::PutNode { folder } => self.put_node(caller, path, *folder),
            Op::Flush => Verdict::Answered(Reply::done(self.alloc, 204)),
            Op::DropNode => self.drop_node(path, class),
            Op::ListNodes => self.children(path),
            Op::GetAcls => self.acls(path),
            Op::GetAcl { name } => self.acl(path, name),
            Op::PutAcl { name, rights } => self.put_entry(path, name, *rights),
            op => self.grant_object(class, op),
        }
    }
    // ---- folders and domains

    fn node(&self, path: &DomainPath) -> Verdict
        ensures { (node : Node) → map.get self.now.catalogue.nodes path.now ≡ Some node
            → VerdictAnswers (Done 200 (node_tree node)) result }
    {
        match self.catalogue.find(path) {
            Some(node) => node_verdict(self.alloc, node),
            None => Verdict::Refused(Refusal::NoDomain),
        }
    }

    fn children(&self, path: &DomainPath) -> Verdict
        requires { IsFolderAt self.now.catalogue path.now }
        ensures { VerdictAnswers (Done 200 (children_body self.now.catalogue path.now)) result }
    {
        match self.catalogue.children(self.alloc, path) {
            Ok(children) => answered(Reply::keyed(self.alloc, 200, "domains", children)),
            Err(fault) => refused(self.alloc, path, fault),
        }
    }

    fn put_node(&mut self, caller: &Caller, path: &DomainPath, folder: bool) -> Verdict
        requires { HasRoom self.old }
        ensures settles { MaySettle (node_made self.old caller.now path.now folder) self.old result self.new }
        ensures places { self.new.places ≡ self.old.places }
    {
        match owner_of(self.alloc, caller) {
            Ok(owner) => {
                if folder {
                    self.put_folder(path, &owner)
                } else {
                    self.put_domain(path, &owner)
                }
            }
            Err(AllocError) => Verdict::NoMemory,
        }
    }

    fn put_folder(&mut self, path: &DomainPath, owner: &Name) -> Verdict
        ensures settles { MaySettle
            (folder_made self.old path.now owner.now (make_fault self.old.catalogue path.now))
            self.old result self.new }
        ensures places { self.new.places ≡ self.old.places }
    {
        let Ok(reply) = made_reply(self.alloc, &NodeClass::Folder, owner) else {
            return Verdict::NoMemory;
        };
        match make_folder(&mut self.catalogue, &mut self.marks, path, owner) {
            Ok(()) => {}
            Err(fault) => return refused(self.alloc, path, fault),
        }
        Verdict::Answered(reply)
    }

    // What the catalogue refuses comes before the last serial, and a refusal takes no serial.
    fn put_domain(&mut self, path: &DomainPath, owner: &Name) -> Verdict
        ensures settles { MaySettle
            (domain_made self.old path.now owner.now (domain_fault self.old.catalogue path.now))
            self.old result self.new }
        ensures places { self.new.places ≡ self.old.places }
    {
        match self.catalogue.domain_number(path) {
            Err(fault) => refused(self.alloc, path, fault),
            Ok(number) => {
                if self.serial >= SERIAL_LIMIT {
                    return limit(LimitKind::Serial);
                }
                self.put_numbered(path, owner, number)
            }
        }
    }

    // A domain that nothing speaks against.
    fn put_numbered(&mut self, path: &DomainPath, owner: &Name, number: u64) -> Verdict
        requires number { number ≡ self.old.catalogue.next }
        requires fits { number < 2 ^ 48 }
        requires serial { self.old.serial < serial_limit }
        requires free { domain_fault self.old.catalogue path.now ≡ None }
        ensures settles { MaySettle
            (domain_made self.old path.now owner.now (domain_fault self.old.catalogue path.now))
            self.old result self.new }
        ensures places { self.new.places ≡ self.old.places }
    {
        let root = ObjectId {
            kind: Kind::Group,
            domain: number,
            run: self.run,
            serial: self.serial,
        };
        let Ok(reply) = made_reply(self.alloc, &NodeClass::Domain { number, root }, owner) else {
            return Verdict::NoMemory;
        };
        let made = make_domain(
            &mut self.catalogue,
            &mut self.marks,
            path,
            owner,
            self.run,
            self.serial,
        );
        match made {
            Ok(_) => {}
            Err(fault) => return refused(self.alloc, path, fault),
        }
        self.serial += 1;
        Verdict::Answered(reply)
    }

    fn drop_node(&mut self, path: &DomainPath, class: &NodeClass) -> Verdict
        requires { HasRoom self.old }
        ensures settles { MaySettle
            (node_removed self.old path.now class.now (remove_fault self.old.catalogue path.now))
            self.old result self.new }
        ensures places { self.new.places ≡ self.old.places }
    {
        match remove_node(&mut self.catalogue, &mut self.marks, path) {
            Ok(()) => {}
            Err(fault) => return refused(self.alloc, path, fault),
        }
        self.forget(class)
    }

    // Of a removed domain the objects are dropped in each lane.
    fn forget(&mut self, class: &NodeClass) -> Verdict
        requires { HasRoom self.old }
        ensures settles { Settles (forgotten self.old class.now) result self.new }
        ensures places { self.new.places ≡ self.old.places }
    {
        match class {
            NodeClass::Folder => Verdict::Answered(Reply::done(self.alloc, 200)),
            NodeClass::Domain { number, root } => {
                let grant = self.grant_of(*number, root, None);
                let tickets = Tickets::of_lanes(self.places, &grant, &self.issued);
                self.issued = all_counted(&self.issued);
                Verdict::Granted(tickets)
            }
        }
    }

    // ---- access lists

    fn acls(&self, path: &DomainPath) -> Verdict
        ensures { (node : Node) → map.get self.now.catalogue.nodes path.now ≡ Some node
            → VerdictAnswers (Done 200 (acls_body node.list)) result }
    {
        match self.catalogue.find(path) {
            Some(node) => acls_verdict(self.alloc, &node.list),
            None => Verdict::Refused(Refusal::NoDomain),
        }
    }

    fn acl(&self, path: &DomainPath, name: &Name) -> Verdict
        ensures { (node : Node) → map.get self.now.catalogue.nodes path.now ≡ Some node
            → VerdictAnswersEntry name.now (map.get node.list name.now) result }
    {
        match self.catalogue.find(path) {
            Some(node) => acl_verdict(self.alloc, &node.list, name),
            None => Verdict::Refused(Refusal::NoDomain),
        }
    }

    fn put_entry(&mut self, path: &DomainPath, name: &Name, rights: Rights) -> Verdict
        ensures settles { MaySettle (entry_put self.old path.now name.now rights
            (entry_fault self.old.catalogue path.now name.now)) self.old result self.new }
        ensures places { self.new.places ≡ self.old.places }
    {
        match set_entry(&mut self.catalogue, &mut self.marks, path, name, rights) {
            Ok(()) => {}
            Err(fault) => return refused(self.alloc, path, fault),
        }
        Verdict::Answered(Reply::done(self.alloc, 201))
    }

    // ---- objects

    fn grant_object(&mut self, class: &NodeClass, op: &Op) -> Verdict
        requires room { HasRoom self.old }
        requires number { NumberFits class.now }
        ensures settles { Settles (in_domain self.old op.now class.now) result self.new }
        ensures places { self.new.places ≡ self.old.places }
    {
        match class {
            NodeClass::Folder => Verdict::Refused(Refusal::NoDomain),
            NodeClass::Domain { number, root } => self.grant_in(*number, root, op),
        }
    }

    fn grant_in(&mut self, number: u64, root: &ObjectId, op: &Op) -> Verdict
        requires room { HasRoom self.old }
        requires number { number < 2 ^ 48 }
        ensures settles { Settles (in_domain self.old op.now (Domain number root.now)) result self.new }
        ensures places { self.new.places ≡ self.old.places }
    {
        match op {
            Op::MakeObject { make, link } => self.grant_make(number, root, make, link),
            Op::PutLink { link, .. } => self.grant_link(number, root, op, link),
            _ => self.grant_step(number, root, op.id()),
        }
    }

    // A hard link leads to an object of the same domain.
    fn grant_link(&mut self, number: u64, root: &ObjectId, op: &Op, link: &LinkTo) -> Verdict
        requires { HasRoom self.old }
        ensures settles { Settles
            (object_granted self.old number root.now op.now (foreign number link.now)) result self.new }
        ensures places { self.new.places ≡ self.old.places }
    {
        if let LinkTo::Hard(target) = link {
            if target.domain != number {
                return Verdict::Refused(Refusal::NoObject { id: *target });
            }
        }
        self.grant_step(number, root, op.id())
    }

    // One step, in the lane of the object.
    fn grant_step(&mut self, number: u64, root: &ObjectId, id: Option<&ObjectId>) -> Verdict
        requires { HasRoom self.old }
        ensures settles { Settles (one_step self.old number root.now (option_copied id.entry)) result self.new }
        ensures places { self.new.places ≡ self.old.places }
    {
        let Some(id) = id else {
            return Verdict::Refused(Refusal::NoDomain);
        };
        let grant = self.grant_of(number, root, None);
        let turn = issue(&mut self.issued, id, Step::Only);
        Verdict::Granted(Tickets::one(self.places, &grant, turn))
    }

    // A new object takes the next serial.
    fn grant_make(
        &mut self,
        number: u64,
        root: &ObjectId,
        make: &Make,
        link: &Option<LinkPlace>,
    ) -> Verdict
        requires room { HasRoom self.old }
        requires number { number < 2 ^ 48 }
        ensures settles { Settles (make_granted self.old number root.now make.now link.now) result self.new }
        ensures places { self.new.places ≡ self.old.places }
    {
        if self.serial >= SERIAL_LIMIT {
            return limit(LimitKind::Serial);
        }
        let fresh = ObjectId {
            kind: make.kind(),
            domain: number,
            run: self.run,
            serial: self.serial,
        };
        self.serial += 1;
        let grant = self.grant_of(number, root, Some(fresh));
        match link {
            None => {
                let turn = issue(&mut self.issued, &fresh, Step::Only);
                Verdict::Granted(Tickets::one(self.places, &grant, turn))
            }
            Some(place) => {
                let first = issue(&mut self.issued, &place.group, Step::Link);
                let second = issue(&mut self.issued, &fresh, Step::Make);
                Verdict::Granted(Tickets::two(self.places, &grant, first, second))
            }
        }
    }

    // What a request of a domain is granted with.
    fn grant_of(&self, number: u64, root: &ObjectId, fresh: Option<ObjectId>) -> Grant
        ensures { result ≡ grant_of self.now number root.now fresh }
    {
        Grant {
            number,
            root: *root,
            fresh,
            run: self.run,
            serial: self.serial,
        }
    }
}

// Whether each lane has room for one ticket more.
fn has_tickets(counts: &Counts) -> bool
    ensures { IsTrue result ↔ All (λ n. n < 2 ^ 62) counts.now }
{
    counts.as_slice().iter().all(|count| *count < ROOM)
}

// Each path is a text.
fn have_texts(catalogue: &Catalogue)
    ensures texts { AreTexts catalogue.now }
    ensures valid { IsCatalogue catalogue.now }
{
    let _tree = catalogue.as_map().as_tree();
}

// The serial with which a run begins.
fn first_serial(catalogue: &Catalogue, run: u32) -> u64
    ensures value { result ≡ first_serial catalogue.now run }
    ensures most { result ≤ serial_limit }
{
    if run == 0 { catalogue.domains() } else { 0 }
}

// A caller is denied for want of the right that the request needs.
fn denied(request: &Request) -> Verdict
    ensures { result ≡ Verdict.Denied (right_for request.now.op) }
{
    let (_, right) = needs(request);
    Verdict::Denied { right }
}
