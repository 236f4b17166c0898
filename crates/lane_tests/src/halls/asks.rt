//! Rows that a hall is asked, one after another.

ghost use Rattle.std.specs.Prelude.{◌≡◌};
ghost use Rattle.hall.specs.Passes.{IsPassOf, who};
ghost use Rattle.object_ops.specs.Conditions.{IsSoundOp};

use crate::halls::worlds::MemDesk;
use crate::requests::{answer_text, known, read_ask};
use access_lists::Caller;
use hall::{Hall, KeptAnswer, OpenGate, Pass};
use object_ops::{Request, on_text};
use rest_requests::Tokens;
use service_core::Answer;
use std::alloc::Global;
use std::sync::Wait;

/// What a row was answered, and at which place.
#[derive(Drop)]
pub(crate) struct Told {
    pub(crate) place: u64,
    pub(crate) text: String,
}

/// Asks through a gate that is always open.
fn ask<W: Wait>(
    rt: &W,
    hall: &Hall<MemDesk>,
    pass: &mut Pass<MemDesk>,
    caller: &Caller,
    request: &Request,
) -> Answer
    requires of_this_hall { IsPassOf hall.now pass.old }
    requires op { IsSoundOp request.now.op }
    ensures of_this_hall { IsPassOf hall.now pass.new }
    ensures same { who pass.new ≡ who pass.old }
{
    let mut gate = OpenGate;
    let KeptAnswer { answer, kept: _ } = hall.ask_kept(rt, pass, &mut gate, caller, request);
    answer
}

/// What a row of this path was answered; nothing where memory ran out.
fn told_by(alloc: Global, path: &str, answer: &Answer) -> Option<Told> {
    let text = answer_text(alloc, path, &answer.what)?;
    Some(Told {
        place: answer.place,
        text,
    })
}

/// Asks one row; nothing where it is no request, or memory ran out.
fn ask_row<W: Wait>(
    rt: &W,
    alloc: Global,
    hall: &Hall<MemDesk>,
    pass: &mut Pass<MemDesk>,
    tokens: &Tokens,
    row: &str,
) -> Option<Told>
    requires of_this_hall { IsPassOf hall.now pass.old }
    ensures of_this_hall { IsPassOf hall.now pass.new }
    ensures same { who pass.new ≡ who pass.old }
{
    let (caller, request) = read_ask(alloc, tokens, row)?;
    let answer = ask(rt, hall, pass, &caller, &request);
    told_by(alloc, on_text(&request), &answer)
}

/// Asks one row, whose answer is put behind those of others; whether it was told.
fn ask_next<W: Wait>(
    rt: &W,
    alloc: Global,
    hall: &Hall<MemDesk>,
    pass: &mut Pass<MemDesk>,
    tokens: &Tokens,
    row: &str,
    told: &mut Vec<Told>,
) -> bool
    requires of_this_hall { IsPassOf hall.now pass.old }
    ensures of_this_hall { IsPassOf hall.now pass.new }
    ensures same { who pass.new ≡ who pass.old }
{
    match ask_row(rt, alloc, hall, pass, tokens, row) {
        Some(answer) => told.push(answer).is_ok(),
        None => false,
    }
}

/// Asks the rows, one behind the other; whether all were told.
fn ask_each<W: Wait>(
    rt: &W,
    alloc: Global,
    hall: &Hall<MemDesk>,
    pass: &mut Pass<MemDesk>,
    tokens: &Tokens,
    rows: &[String],
    told: &mut Vec<Told>,
) -> bool
    requires of_this_hall { IsPassOf hall.now pass.old }
    ensures of_this_hall { IsPassOf hall.now pass.new }
    ensures same { who pass.new ≡ who pass.old }
{
    'rows: for row in rows {
        if !ask_next(rt, alloc, hall, pass, tokens, row.as_str(), told) {
            return false;
        }
    }
    true
}

/// Asks the rows, one behind the other; nothing where one of them is no request, or memory ran out.
pub(crate) fn ask_rows<W: Wait>(
    rt: &W,
    alloc: Global,
    hall: &Hall<MemDesk>,
    pass: &mut Pass<MemDesk>,
    rows: &[String],
) -> Option<Vec<Told>>
    requires of_this_hall { IsPassOf hall.now pass.old }
    ensures of_this_hall { IsPassOf hall.now pass.new }
    ensures same { who pass.new ≡ who pass.old }
{
    let tokens = known(alloc)?;
    let mut told = Vec::new(alloc);
    if ask_each(rt, alloc, hall, pass, &tokens, rows, &mut told) {
        return Some(told);
    }
    None
}
