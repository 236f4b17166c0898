//! A service taken apart, beside the same requests answered by one world.

ghost use Rattle.std.specs.Prelude.{◌≡◌, ◌+◌, [], length};
ghost use Rattle.chunk_owner.specs.Owners.Joined.{AreLanes};
ghost use Rattle.object_ops.specs.Conditions.{IsSoundOp};

use crate::kept::Past;
use crate::lanes::{Lane, Task};
use crate::openings::{begun_on, is_appended, world_on};
use crate::pictures::{Picture, picture_of};
use crate::requests::{answer_of, denial_text, read_row, refusal_text, reply_text, tokens};
use access_lists::Caller;
use edge_traits::MemDisk;
use flush_journal::{Batch, Journal};
use object_ops::{Grant, Reply, Request, on_text};
use register::{CutTickets, Register, Tickets, Turn, Verdict};
use rest_requests::Tokens;
use service_core::{Owners, World};
use std::alloc::{AllocError, Global};
use std::mem;
use std::test::Fail;

/// A request at its place: what one world answers, what the lanes answered so far, how many turns are left, whether its
/// link was done, of one that has a turn for it, and what was granted.
#[derive(Drop)]
pub(crate) struct Entry {
    pub(crate) row: &'static str,
    pub(crate) wanted: String,
    pub(crate) reply: String,
    pub(crate) left: u8,
    pub(crate) linked: Option<bool>,
    grant: Option<Grant>,
}

/// What is kept surely: all of the places below `c`, and the catalogue of `p` places or a later one.
#[derive(Clone, Copy, PartialEq, Eq)]
pub(crate) struct Reach {
    pub(crate) c: usize,
    pub(crate) p: usize,
}

/// What the desk knows: at how many places the last cut was drawn, and how many of its tickets are out; the numbers of
/// the cuts that were done; whether the last cut was the register's; what is kept, and what is pending.
#[derive(Drop)]
pub(crate) struct Desk {
    drawn: usize,
    out: u8,
    whole: Reach,
    ready: bool,
    own: Reach,
    pending: Option<Reach>,
}

/// One world that is asked the same, with those who ask, and its pictures behind so many requests.
#[derive(Drop)]
struct Beside {
    tokens: Tokens,
    world: World,
    pictures: Vec<Picture>,
}

/// A world taken apart, and its journal.
struct Apart {
    register: Register,
    first: Lane,
    second: Lane,
    journal: Journal<MemDisk>,
}

#[derive(Drop)]
pub(crate) struct Service {
    alloc: Global,
    beside: Beside,
    register: Register,
    first: Lane,
    second: Lane,
    journal: Journal<MemDisk>,
    building: Batch,
    entries: Vec<Entry>,
    desk: Desk,
}

/// Tickets of at most two turns, spent.
#[derive(Clone, Copy)]
struct Given {
    grant: Grant,
    first: Option<Turn>,
    second: Option<Turn>,
}

fn drain(tickets: &mut Tickets)
    ensures { tickets.new.left ≡ [] }
{
    'rest: while let Some(_) = tickets.next() {}
}

fn drain_cut(tickets: &mut CutTickets)
    ensures { tickets.new ≡ [] }
{
    'rest: while let Some(_) = tickets.next() {}
}

fn spend(mut tickets: Tickets) -> Given {
    let grant = tickets.grant();
    let first = tickets.next();
    let second = tickets.next();
    drain(&mut tickets);
    tickets.finish();
    Given {
        grant,
        first,
        second,
    }
}

fn spend_cut(mut tickets: CutTickets) -> (Option<Turn>, Option<Turn>) {
    let first = tickets.next();
    let second = tickets.next();
    drain_cut(&mut tickets);
    tickets.finish();
    (first, second)
}

/// The last of some owners, which is that of the lane of a number.
fn last_lane(alloc: Global, owners: &mut Owners, number: u32) -> Result<Lane, Fail>
    requires lanes { AreLanes 2 0 owners.old.owners }
    requires count { length owners.old.owners ≡ number + 1 }
    ensures lanes { AreLanes 2 0 owners.new.owners }
    ensures count { length owners.new.owners ≡ number }
{
    match owners.pop() {
        Some(owner) => Ok(Lane::new(alloc, number, owner)),
        None => Err(Fail::from("no owner")),
    }
}

/// The register and the two lanes of a world.
fn taken_apart(alloc: Global, world: World) -> Result<(Register, Lane, Lane), Fail> {
    let (register, mut owners) = world.parts();
    if register.lanes() != 2 {
        return Err(Fail::from("another number of lanes"));
    }
    let second = last_lane(alloc, &mut owners, 1)?;
    let first = last_lane(alloc, &mut owners, 0)?;
    Ok((register, first, second))
}

const NOTHING: Reach = Reach { c: 0, p: 0 };

impl Desk {
    fn new() -> Desk {
        Desk {
            drawn: 0,
            out: 0,
            whole: NOTHING,
            ready: false,
            own: NOTHING,
            pending: None,
        }
    }

    /// A ticket of a drawn cut is out.
    fn hand_out(&mut self) {
        self.out = self.out.saturating_add(1);
    }

    /// A lane was cut.
    fn hand_in(&mut self) {
        self.out = self.out.saturating_sub(1);
        if self.out == 0 {
            self.whole.c = self.drawn;
        }
    }
}

/// The picture of the world behind no request.
fn first_pictures(alloc: Global, world: &World) -> Result<Vec<Picture>, Fail> {
    let mut pictures = Vec::new(alloc);
    pictures.push(picture_of(alloc, world)?)?;
    Ok(pictures)
}

/// The world that a journal of these bytes holds, which was asked nothing yet.
fn begun_beside(alloc: Global, bytes: &[u8]) -> Result<Beside, Fail> {
    let world = world_on(alloc, bytes)?;
    let pictures = first_pictures(alloc, &world)?;
    Ok(Beside {
        tokens: tokens(alloc)?,
        world,
        pictures,
    })
}

/// The parts of the world that a journal of these bytes holds, of whose disk some calls fail.
fn begun_apart(alloc: Global, bytes: &[u8], failing: Vec<u64>) -> Result<Apart, Fail> {
    let (world, journal) = begun_on(alloc, bytes, failing)?;
    let (register, first, second) = taken_apart(alloc, world)?;
    Ok(Apart {
        register,
        first,
        second,
        journal,
    })
}

/// The service of these parts, at the first place.
fn service_of(alloc: Global, beside: Beside, apart: Apart) -> Service {
    let Apart {
        register,
        first,
        second,
        journal,
    } = apart;
    Service {
        alloc,
        beside,
        register,
        first,
        second,
        journal,
        building: Batch::new(alloc),
        entries: Vec::new(alloc),
        desk: Desk::new(),
    }
}

/// The service over a journal of these bytes, of whose disk some calls fail.
pub(crate) fn begun_service(
    alloc: Global,
    bytes: &[u8],
    failing: Vec<u64>,
) -> Result<Service, Fail> {
    let beside = begun_beside(alloc, bytes)?;
    let apart = begun_apart(alloc, bytes, failing)?;
    Ok(service_of(alloc, beside, apart))
}

fn count_of(given: &Given) -> u8 {
    u8::from(given.first.is_some()) + u8::from(given.second.is_some())
}

impl Entry {
    fn new(alloc: Global, row: &'static str, wanted: String) -> Entry {
        Entry {
            row,
            wanted,
            reply: String::new(alloc),
            left: 0,
            linked: None,
            grant: None,
        }
    }

    /// It is replied to so.
    pub(crate) fn tell(&mut self, alloc: Global, path: &str, reply: &Reply) -> Result<(), Fail> {
        self.reply = reply_text(alloc, path, reply)?;
        Ok(())
    }
}

impl Beside {
    /// What the one world answers, of which a picture is kept.
    fn answer(&mut self, alloc: Global, caller: &Caller, request: &Request) -> Result<String, Fail>
        requires { IsSoundOp request.now.op }
    {
        let wanted = answer_of(alloc, &mut self.world, caller, request)?;
        self.keep_picture(alloc)?;
        Ok(wanted)
    }

    fn keep_picture(&mut self, alloc: Global) -> Result<(), Fail> {
        self.pictures.push(picture_of(alloc, &self.world)?)?;
        Ok(())
    }
}

/// A turn of a request that was granted.
fn take_granted(
    lane: &mut Lane,
    tokens: &Tokens,
    entry: &mut Entry,
    task: Task,
) -> Result<(), Fail> {
    match entry.grant {
        Some(grant) => lane.take(tokens, entry, task, grant),
        None => Err(Fail::from("a turn that wasn't granted")),
    }
}

fn take_turn(
    lane: &mut Lane,
    tokens: &Tokens,
    entries: &mut [Entry],
    task: Task,
) -> Result<(), Fail> {
    match entries.get_mut(task.place) {
        Some(entry) => take_granted(lane, tokens, entry, task),
        None => Err(Fail::from("a turn of no request")),
    }
}

impl Service {
    /// A request of a name at the next place, which is decided there, and answered by the one world.
    pub(crate) fn ask(&mut self, row: &'static str) -> Result<(), Fail> {
        let (caller, request) = read_row(self.alloc, &self.beside.tokens, row)?;
        self.ask_as(row, &caller, &request)
    }

    /// The request of a row.
    fn ask_as(&mut self, row: &'static str, caller: &Caller, request: &Request) -> Result<(), Fail>
        requires { IsSoundOp request.now.op }
    {
        let wanted = self.beside.answer(self.alloc, caller, request)?;
        self.enter(Entry::new(self.alloc, row, wanted), caller, request)
    }

    fn enter(&mut self, entry: Entry, caller: &Caller, request: &Request) -> Result<(), Fail> {
        if !self.register.has_room() {
            return Err(Fail::from("no room"));
        }
        let path = on_text(request);
        match self.register.decide(caller, request) {
            Verdict::Granted(tickets) => self.grant(entry, spend(tickets)),
            Verdict::Answered(reply) => self.reply(entry, reply_text(self.alloc, path, &reply)),
            Verdict::Denied { right } => self.reply(entry, denial_text(self.alloc, path, right)),
            Verdict::Refused(refusal) => {
                self.reply(entry, refusal_text(self.alloc, path, &refusal))
            }
            Verdict::NoMemory => Err(Fail::from("no memory")),
        }
    }

    /// The next place is that of a granted request, whose turns are given to the lanes.
    fn grant(&mut self, mut entry: Entry, given: Given) -> Result<(), Fail> {
        self.give(given.first)?;
        self.give(given.second)?;
        entry.left = count_of(&given);
        entry.grant = Some(given.grant);
        self.entries.push(entry)?;
        Ok(())
    }

    /// The next place is that of a request that is answered at once.
    fn reply(&mut self, mut entry: Entry, text: Result<String, AllocError>) -> Result<(), Fail> {
        entry.reply = text?;
        self.entries.push(entry)?;
        Ok(())
    }

    /// A turn of the request at the next place is given to its lane.
    fn give(&mut self, turn: Option<Turn>) -> Result<(), Fail> {
        match turn {
            Some(turn) => self.hand(turn, false),
            None => Ok(()),
        }
    }

    /// A turn of a drawn cut is given to its lane.
    fn give_cut(&mut self, turn: Option<Turn>) -> Result<(), Fail> {
        match turn {
            Some(turn) => {
                self.desk.hand_out();
                self.hand(turn, true)
            }
            None => Ok(()),
        }
    }

    fn hand(&mut self, turn: Turn, is_cut: bool) -> Result<(), Fail> {
        let place = self.entries.len();
        match turn.lane {
            0 => self.first.give(turn, place, is_cut),
            _ => self.second.give(turn, place, is_cut),
        }
    }

    /// Whether a cut may begin: nothing is pending, and no ticket of a cut is out.
    fn rests(&self) -> bool {
        !self.journal.pending() && self.desk.out == 0
    }

    pub(crate) fn draw_cut(&mut self) -> Result<(), Fail> {
        if !self.rests() || !self.register.has_room() {
            return Err(Fail::from("no cut may be drawn"));
        }
        let (first, second) = spend_cut(self.register.draw_cut());
        self.give_cut(first)?;
        self.give_cut(second)?;
        self.desk.drawn = self.entries.len();
        self.desk.ready = false;
        Ok(())
    }

    pub(crate) fn cut_register(&mut self) -> Result<(), Fail> {
        if !self.rests() {
            return Err(Fail::from("no register may be cut"));
        }
        self.register.cut(&mut self.building)?;
        self.desk.whole.p = self.entries.len();
        self.desk.ready = true;
        Ok(())
    }

    /// The next turn of a lane.
    pub(crate) fn turn(&mut self, number: u32) -> Result<(), Fail> {
        let task = self.next_task(number)?;
        if task.is_cut {
            self.cut(number, task)
        } else {
            self.take(number, task)
        }
    }

    fn next_task(&self, number: u32) -> Result<Task, Fail> {
        match number {
            0 => self.first.next_task(),
            _ => self.second.next_task(),
        }
    }

    fn cut(&mut self, number: u32, task: Task) -> Result<(), Fail> {
        self.cut_lane(number, task)?;
        self.desk.hand_in();
        Ok(())
    }

    fn cut_lane(&mut self, number: u32, task: Task) -> Result<(), Fail> {
        match number {
            0 => self.first.cut(task, &mut self.building),
            _ => self.second.cut(task, &mut self.building),
        }
    }

    fn take(&mut self, number: u32, task: Task) -> Result<(), Fail> {
        let entries = self.entries.as_mut_slice();
        match number {
            0 => take_turn(&mut self.first, &self.beside.tokens, entries, task),
            _ => take_turn(&mut self.second, &self.beside.tokens, entries, task),
        }
    }

    /// What was cut is written to the journal; whether that was done.
    pub(crate) fn append(&mut self) -> Result<bool, Fail> {
        if !self.rests() || !self.desk.ready {
            return Err(Fail::from("nothing may be appended"));
        }
        let batch = mem::replace(&mut self.building, Batch::new(self.alloc));
        let done = is_appended(&mut self.journal, batch)?;
        self.desk.pending = Some(self.desk.whole);
        if done {
            self.settled();
        }
        Ok(done)
    }

    /// What is pending is written again; whether that was done.
    pub(crate) fn settle(&mut self) -> bool {
        let done = self.journal.settle().is_ok();
        if done {
            self.settled();
        }
        done
    }

    fn settled(&mut self) {
        if let Some(reach) = self.desk.pending {
            self.desk.own = reach;
        }
        self.desk.pending = None;
    }

    pub(crate) fn is_pending(&self) -> bool {
        self.journal.pending()
    }

    /// The disk as it stands, with what was done.
    pub(crate) fn stop(self) -> (MemDisk, Past) {
        let Service {
            first,
            second,
            journal,
            entries,
            beside,
            desk,
            ..
        } = self;
        let past = Past {
            entries,
            pictures: beside.pictures,
            first: first.into_passed(),
            second: second.into_passed(),
            own: desk.own,
            pending: desk.pending,
        };
        (journal.into_disk(), past)
    }
}
