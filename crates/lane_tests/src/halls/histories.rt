//! Many callers of a hall, beside one world that is asked the same in the order of the places.

use crate::halls::crowds::{Heard, Left, heard_at, over_journal};
use crate::halls::worlds::workshop;
use crate::openings::{begun_world, kept_bytes, world_on};
use crate::pictures::{Picture, picture_of};
use crate::requests::{answer_to, tokens};
use edge_traits::MemDisk;
use rest_requests::Tokens;
use service_core::World;
use std::alloc::{AllocError, Global};
use std::process::Abort;
use std::sync::Wait;
use std::test::Fail;
use std::thread::Threads;

/// What callers ask: `%` stands for the two digits of a number below 40, and `#` for one below 4, so that callers meet in
/// many objects.
static ASKS: [&str; 24] = [
    r#"|alice|/home/lab|POST|/groups|{"link":{"id":"g~00","name":"x#"}}"#,
    r#"|bob|/home/lab|GET|/groups/g~00/links|"#,
    r#"|alice|/home/lab|DELETE|/groups/g~00/links/x#|"#,
    r#"|alice|/home/lab|POST|/groups|{"link":{"id":"g^%","name":"y"}}"#,
    r#"|alice|/home/lab|GET|/groups/g^%|"#,
    r#"|alice|/home/lab|DELETE|/groups/g^%|"#,
    r#"|alice|/home/lab|PUT|/groups/g^%/links/z|{"id":"g~00"}"#,
    r#"|alice|/home/lab|PUT|/groups/g^%/attributes/u#|{"type":"H5T_STD_I8LE","value":#}"#,
    r#"|bob|/home/lab|GET|/groups/g^%/attributes|"#,
    r#"|alice|/home/lab|POST|/datasets|{"type":"H5T_STD_I32LE","shape":[4],"link":{"id":"g~00","name":"d#"}}"#,
    r#"|alice|/home/lab|PUT|/datasets/d^%/value|{"value":[#,2,3,4]}"#,
    r#"|bob|/home/lab|PUT|/datasets/d~01/value|{"start":[1],"stop":[3],"value":[#,7]}"#,
    r#"|bob|/home/lab|GET|/datasets/d~01/value|"#,
    r#"|alice|/home/lab|PUT|/datasets/d~02/value|{"points":[[0,1],[#,0]],"value":[#,5]}"#,
    r#"|alice|/home/lab|GET|/datasets/d~02/value?select=[0:#,0:2]|"#,
    r#"|alice|/home/lab|PUT|/datasets/d~02/shape|{"shape":[#,2]}"#,
    r#"|alice|/home/lab|PUT|/acls/g:ops|{"update":true,"read":true}"#,
    r#"|alice|/home/lab|PUT|/acls/g:ops|{}"#,
    r#"|alice|/home/lab|GET|/acls|"#,
    r#"|alice|/home/y#|PUT|/|"#,
    r#"|alice|/home/y#|POST|/groups|{}"#,
    r#"|alice|/home/y#|DELETE|/|"#,
    r#"|alice|/home|GET|/domains|"#,
    r#"|alice|/home/lab|PUT|/?flush=1|"#,
];

/// The row of a caller.
fn row_of(alloc: Global, caller: usize, at: usize) -> Result<String, AllocError> {
    let number = caller.wrapping_mul(5).wrapping_add(at.wrapping_mul(3));
    let ask = ASKS[caller.wrapping_mul(7).wrapping_add(at.wrapping_mul(11)) % ASKS.len()];
    let two = format!(in alloc; "{}{}", number / 10 % 4, number % 10)?;
    let one = format!(in alloc; "{}", number % 4)?;
    let row = ask.replace(alloc, "%", two.as_str())?;
    row.replace(alloc, "#", one.as_str())
}

fn script_of(alloc: Global, caller: usize, rows: usize) -> Result<Vec<String>, AllocError> {
    let mut script = Vec::new(alloc);
    for at in 0..rows {
        script.push(row_of(alloc, caller, at)?)?;
    }
    Ok(script)
}

/// So many rows for each of so many callers.
fn scripts_of(alloc: Global, callers: usize, rows: usize) -> Result<Vec<Vec<String>>, AllocError> {
    let mut scripts = Vec::new(alloc);
    for caller in 0..callers {
        scripts.push(script_of(alloc, caller, rows)?)?;
    }
    Ok(scripts)
}

fn assert_told(rt: &impl Abort, place: u64, row: &str, got: &str, wanted: &str) {
    assert!(rt; got == wanted, "{place}: {row}: {got} for {wanted}");
}

/// One world is asked what was asked at a place, and answers it so.
fn assert_place(
    rt: &(impl Abort + AllocGlobal),
    world: &mut World,
    heard: &[Heard],
    tokens: &Tokens,
    place: u64,
) -> Result<(), Fail> {
    let Some((row, told)) = heard_at(heard, place) else {
        return Err(Fail::from("nothing was answered at a place"));
    };
    let wanted = answer_to(rt.alloc(), tokens, world, row)?;
    assert_told(rt, place, row, told.text.as_str(), wanted.as_str());
    Ok(())
}

/// One world is asked what was asked at each of so many places, and answers it so.
fn assert_replayed(
    rt: &(impl Abort + AllocGlobal),
    world: &mut World,
    heard: &[Heard],
    places: usize,
) -> Result<(), Fail> {
    let tokens = tokens(rt.alloc())?;
    for place in 0..places {
        assert_place(rt, world, heard, &tokens, place as u64)?;
    }
    Ok(())
}

/// What so many callers with so many rows each leave of the workshop.
fn left_by(
    rt: &(impl Threads + Wait + Sync + AllocGlobal),
    bytes: &[u8],
    callers: usize,
    rows: usize,
) -> Result<Left, Fail> {
    let alloc = rt.alloc();
    let scripts = scripts_of(alloc, callers, rows)?;
    if scripts.len() > 16 {
        return Err(Fail::from("too many callers"));
    }
    over_journal(rt, alloc, bytes, scripts)
}

/// What one world is behind so many places, where it answers alike.
fn replayed_picture(
    rt: &(impl Abort + AllocGlobal),
    bytes: &[u8],
    heard: &[Heard],
    places: usize,
) -> Result<Picture, Fail> {
    let mut world = world_on(rt.alloc(), bytes)?;
    assert_replayed(rt, &mut world, heard, places)?;
    picture_of(rt.alloc(), &world)
}

/// What a journal tells once it has all that changed of a world.
fn kept_picture(alloc: Global, world: World, disk: MemDisk) -> Result<Picture, Fail> {
    let (_, journal) = begun_world(alloc, disk)?;
    let bytes = kept_bytes(alloc, world, journal)?;
    picture_of(alloc, &world_on(alloc, bytes.as_slice())?)
}

/// Whether the journal that callers left tells this.
fn keeps(alloc: Global, left: Left, wanted: &Picture) -> Result<bool, Fail> {
    let Left {
        world,
        disk,
        heard: _,
    } = left;
    let found = kept_picture(alloc, world, disk)?;
    Ok(found.is_as(wanted))
}

/// All that was answered at so many places is answered alike by one world, and the journal tells that world.
fn assert_left(
    rt: &(impl Abort + AllocGlobal),
    bytes: &[u8],
    left: Left,
    places: usize,
) -> Result<(), Fail> {
    let wanted = replayed_picture(rt, bytes, left.heard.as_slice(), places)?;
    assert!(rt; keeps(rt.alloc(), left, &wanted)?);
    Ok(())
}

/// Callers ask a hall at the same time. All of it in the order of the answers' places is answered alike by one world,
/// and the journal tells that one.
fn assert_one_history(
    rt: &(impl Abort + Threads + Wait + Sync + AllocGlobal),
    callers: usize,
    rows: usize,
) -> Result<(), Fail> {
    let bytes = workshop(rt.alloc())?;
    let left = left_by(rt, bytes.as_slice(), callers, rows)?;
    assert_left(rt, bytes.as_slice(), left, callers.saturating_mul(rows))
}

#[test]
fn two_callers_have_one_history(rt: HostRuntime) -> Result<(), Fail> {
    for _ in 0..10u8 {
        assert_one_history(&rt, 2, 50)?;
    }
    Ok(())
}

#[test]
fn sixteen_callers_have_one_history(rt: HostRuntime) -> Result<(), Fail> {
    for _ in 0..10u8 {
        assert_one_history(&rt, 16, 10)?;
    }
    Ok(())
}
