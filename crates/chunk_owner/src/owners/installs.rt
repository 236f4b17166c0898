//! All lanes, made from records.

ghost use Rattle.std.specs.Prelude.{◌≡◌, ◌∷◌, ◌≤◌, ◌<◌, ℕ, List, Some, length, option_map, take};
ghost use Rattle.std.specs.Prelude.{IfErr, IfOk, OnOk};
ghost use Rattle.std.specs.FinMap.{get};
ghost use Rattle.std.specs.Option.{option_copied};
ghost use Rattle.containers.specs.TextMaps.Nexts.{IsNext};
ghost use Rattle.flush_journal.specs.Records.{Held, Record};
ghost use Rattle.object_records.specs.InstallFaults.{MatchFault};
ghost use Rattle.object_records.specs.Keys.Keys.{IsSubject};
ghost use Rattle.chunk_owner.specs.Installs.Walks.{Blames, subject_of};
ghost use Rattle.chunk_owner.specs.Lanes.{AreWholeObjects};
ghost use Rattle.chunk_owner.specs.Owners.Joined.{AreLanes, whole};
ghost use Rattle.chunk_owner.specs.Owners.Records.{AreFaultless, AreGivenUpTo, AreSoundIn, AreStillIn};
ghost use Rattle.chunk_owner.specs.Owners.Records.{DescribesObjects, HasOthersAlone, IsFirstFault, KeepsOthers, LanesSay};
ghost use Rattle.chunk_owner.specs.Owners.Walks.{AreNew, AreNumbered, AreWalks, HasLane, InstallsIn};
ghost use Rattle.chunk_owner.specs.Owners.Walks.{IsJudged, IsRefusedIn, IsWalked, TakesOut};

use crate::Owner;
use crate::installs::{InstallFault, LaneKey, RecordFault, lane_key_at, lane_of_key};
use crate::owners::are_whole;
use crate::slots::records_describe;
use flush_journal::Recovered;
use std::alloc::{AllocError, Global};

/// The owners of so many lanes, as records describe their objects beside the kept run and the number that the next domain
/// takes. Nothing has changed since they were written. The records of objects and chunks are taken out, each once, and an
/// array has the bytes of its chunks as they were held; all other records stay.
///
/// # Errors
///
/// `BadRecord` with the least key at fault of the first lane that has one; or `NoMemory`.
pub fn install_lanes(
    alloc: Global,
    lanes: u32,
    run: u32,
    next: u64,
    kept: &mut Recovered,
) -> Result<Vec<Owner>, InstallFault>
    requires { 1 ≤ lanes }
    ensures count { IfOk result (λ owners. length owners.items ≡ lanes) }
    ensures lanes { IfOk result (λ owners. AreLanes lanes 0 owners.items) }
    ensures described { IfOk result (λ owners. DescribesObjects kept.old (whole owners.items)) }
    ensures says { IfOk result (λ owners. LanesSay owners.items kept.old) }
    ensures still { IfOk result (λ owners. AreStillIn owners.items) }
    ensures given { IfOk result (λ owners. AreGivenUpTo run next (whole owners.items)) }
    ensures whole { IfOk result (λ owners. AreWholeObjects (whole owners.items)) }
    ensures rules { IfOk result (λ _. AreSoundIn lanes run next kept.old) }
    ensures faultless { IfOk result (λ _. AreFaultless lanes run next kept.old) }
    ensures others { IfOk result (λ _. KeepsOthers kept.old kept.new) }
    ensures taken { IfOk result (λ _. HasOthersAlone kept.new) }
    ensures fault { IfErr result (λ e. MatchFault e (IsFirstFault lanes run next kept.old)) }
{
    records_describe();
    let Ok((owners, bad)) = walk_records(alloc, lanes, run, next, kept) else {
        return Err(InstallFault::NoMemory);
    };
    are_whole(owners.as_slice());
    match bad {
        Some(key) => Err(InstallFault::BadRecord { key }),
        None => Ok(owners),
    }
}

// The owners of the lanes in front of the first that has a key at fault, and its least such key.
fn walk_records(
    alloc: Global,
    lanes: u32,
    run: u32,
    next: u64,
    kept: &mut Recovered,
) -> Result<(Vec<Owner>, Option<Vec<u8>>), AllocError>
    requires { 1 ≤ lanes }
    ensures walked { IfOk result (λ w.
        IsWalked lanes run next kept.old w.0.items (option_map (λ k. k.items) w.1)) }
    ensures others { IfOk result (λ _. KeepsOthers kept.old kept.new) }
    ensures taken { IfOk result (λ _. HasOthersAlone kept.new) }
{
    let mut owners = new_owners(alloc, lanes)?;
    let mut bad = None;
    let mut at = next_key(alloc, kept, None)?;
    while let Some(key) = at {
        at = next_key(alloc, kept, Some(key.as_slice()))?;
        if !take_record(lanes, run, next, &mut owners, kept, key.as_slice())? {
            bad = Some(key);
        }
    }
    Ok((owners, bad))
}

fn new_owners(alloc: Global, lanes: u32) -> Result<Vec<Owner>, AllocError>
    ensures count { IfOk result (λ owners. length owners.items ≡ lanes) }
    ensures new { IfOk result (λ owners. AreNew lanes 0 owners.items) }
{
    let mut owners = Vec::new(alloc);
    for lane in 0..lanes {
        owners.push(Owner::new(alloc, lane, lanes))?;
    }
    Ok(owners)
}

// A copy of the least key, or of the least behind another.
fn next_key(
    alloc: Global,
    kept: &Recovered,
    after: Option<&[u8]>,
) -> Result<Option<Vec<u8>>, AllocError>
    ensures { IfOk result (λ key.
        IsNext kept.now (option_copied after.entry) (option_map (λ k. k.items) key)) }
{
    match kept.next_key(after) {
        Some(key) => Ok(Some(key.to_vec(alloc)?)),
        None => Ok(None),
    }
}

// Takes out the record of a key, where it is one of a lane, installs it in its lane, where that is there, and says whether
// it can stand. Where it can't, the owners from its lane on are let go.
fn take_record(
    lanes: u32,
    run: u32,
    next: u64,
    owners: &mut Vec<Owner>,
    kept: &mut Recovered,
    key: &[u8],
) -> Result<bool, AllocError>
    requires some { 1 ≤ lanes }
    requires numbered { AreNumbered lanes 0 owners.old.items }
    ensures walks { IfOk result (λ stands. (held : Held) (rest : List Record) (body : List ℕ)
        → get kept.old key.now ≡ Some body
        → AreWalks lanes run next held ((key.now, body) ∷ rest) 0 owners.old.items
        → AreWalks lanes run next held rest 0 owners.new.items
        × IsJudged lanes run next held key.now stands
        (length owners.old.items) (length owners.new.items)) }
    ensures numbered { IfOk result (λ _. AreNumbered lanes 0 owners.new.items) }
    ensures kept { TakesOut key.now kept.old kept.new }
{
    let Some(of) = lane_key_at(key) else {
        return Ok(true);
    };
    let Some(body) = kept.take(key) else {
        return Ok(true);
    };
    let lane = lane_of_key(&of, lanes) as usize;
    if lane >= owners.len() {
        return Ok(true);
    }
    match install_in(owners.as_mut_slice(), lane, run, next, &of, body) {
        Ok(()) => Ok(true),
        Err(RecordFault::BadRecord) => {
            owners.truncate(lane);
            Ok(false)
        }
        Err(RecordFault::NoMemory) => Err(AllocError),
    }
}

// Installs a record in its lane.
fn install_in(
    owners: &mut [Owner],
    lane: usize,
    run: u32,
    next: u64,
    of: &LaneKey,
    body: Vec<u8>,
) -> Result<(), RecordFault>
    requires of { IsSubject (subject_of of.now) }
    requires lane { lane < length owners.old }
    requires own { HasLane owners.old lane (subject_of of.now) }
    ensures done { OnOk result
        (InstallsIn run next (subject_of of.now) body.items lane owners.old owners.new) }
    ensures bad { IfErr result (λ e.
        Blames e (IsRefusedIn run next (subject_of of.now) body.items lane owners.old)) }
    ensures count { length owners.new ≡ length owners.old }
    ensures front { take lane owners.new ≡ take lane owners.old }
{
    owners[lane].install_record(run, next, of, body)
}
