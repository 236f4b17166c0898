//! One caller of a hall.

use crate::halls::asks::{Told, ask_rows};
use crate::halls::worlds::{hall_on, workshop};
use crate::requests::{column, spelled};
use std::alloc::{AllocError, Global};
use std::sync::Wait;
use std::test::Fail;

/// What a row shows, who asks, at which path, the method, the target and the body, and the answer. `~` stands for the
/// numbers of an id of the laboratory that was made with it, `^` for those of an id that the rows make.
static RIGHTS: &str =
    r#"a group's right|bob|/home/lab|GET|/||200 {"class":"domain","owner":"alice","root":"g~00"}
an entry of her own hides the group's|carol|/home/lab|GET|/||403 {"domain":"/home/lab","reason":"forbidden","right":"read"}
another group's right|bob|/home/lab|PUT|/datasets/d^00/shape|{"shape":[1]}|404 {"id":"d^00","reason":"no-object"}
a right of neither group|bob|/home/lab|DELETE|/datasets/d^00||403 {"domain":"/home/lab","reason":"forbidden","right":"delete"}
she takes a right from herself|alice|/home/lab|PUT|/acls/alice|{"create":true,"read":true,"delete":true,"readACL":true,"updateACL":true}|201 {}
and has it no more|alice|/home/lab|PUT|/datasets/d^00/value|{"value":1}|403 {"domain":"/home/lab","reason":"forbidden","right":"update"}
she gives it to carol|alice|/home/lab|PUT|/acls/carol|{"update":true}|201 {}
who has it|carol|/home/lab|PUT|/datasets/d^00/value|{"value":1}|404 {"id":"d^00","reason":"no-object"}"#;

/// The rows of a table.
fn rows_of(alloc: Global, table: &str) -> Result<Vec<String>, AllocError> {
    let mut rows = Vec::new(alloc);
    for row in table.split('\n') {
        rows.push(String::from_str(alloc, row)?)?;
    }
    Ok(rows)
}

/// What a hall with one pass over the laboratory answers to the rows.
fn told_over<W: Wait>(rt: &W, alloc: Global, rows: &[String]) -> Result<Vec<Told>, Fail> {
    let bytes = workshop(alloc)?;
    let (hall, mut pass) = hall_on(alloc, bytes.as_slice(), 1)?;
    let told = ask_rows(rt, alloc, &hall, &mut pass, rows);
    let (_world, _desk) = hall.close(pass);
    match told {
        Some(told) => Ok(told),
        None => Err(Fail::from("a row is no request")),
    }
}

/// Whether a row is answered as it says, at this place.
fn is_told(alloc: Global, row: &str, told: &Told, place: usize) -> Result<bool, AllocError> {
    let wanted = spelled(alloc, column(row, 6))?;
    Ok(told.text.as_str() == wanted.as_str() && told.place == place as u64)
}

/// Each row is answered as it says, at the next place.
#[test]
fn rights_are_those_of_the_place(rt: HostRuntime) -> Result<(), Fail> {
    let alloc = rt.alloc();
    let rows = rows_of(alloc, RIGHTS)?;
    let told = told_over(&rt, alloc, rows.as_slice())?;
    assert!(rt; told.len() == rows.len());
    for (place, (row, told)) in rows.iter().zip(&told).enumerate() {
        let got = told.text.as_str();
        assert!(rt; is_told(alloc, row.as_str(), told, place)?, "{row}: {got}");
    }
    Ok(())
}
