//! Measures reads and writes of arrays beside plain copies of 4,000,000 bytes, and a plain print and a plain read of numbers.
#![tactic(auto)]

mod arrays;
mod cases;
mod copies;
mod prints;
mod times;

use crate::cases::{CASES, measured};
use crate::copies::{new_copies, standing_copies};
use crate::prints::{least_print, least_read};
use crate::times::{Ratio, Times, lesser};
use std::env;
use std::time::{Clock, Duration};

/// What is printed where no number of rounds is given.
const USAGE: &str =
    "array_times ROUNDS: the least time of so many reads and writes of each case, and how many plain copies take as long";

/// How many copies are made for each round. One takes less time than most cases.
const COPIES: u32 = 10;

/// The number of rounds that the first word is.
fn wanted_rounds(rt: &HostRuntime) -> anyhow::Result<Option<u32>> {
    let mut words = env::args(rt)?.skip(1);
    match words.next() {
        Some(word) => Ok(word.as_str().parse::<u32>().ok()),
        None => Ok(None),
    }
}

fn print_case(rt: &impl Print, name: &str, times: Times, copy: Duration) -> anyhow::Result<()> {
    let read = Ratio::new(times.read, copy);
    let write = Ratio::new(times.write, copy);
    println!(rt;
        "{name}: read {} us, {read}; write {} us, {write}; {} cells, {} chunks",
        times.read.as_micros(),
        times.write.as_micros(),
        times.cells,
        times.chunks
    )?;
    Ok(())
}

fn print_copy(rt: &impl Print, name: &str, time: Duration, copy: Duration) -> anyhow::Result<()> {
    let ratio = Ratio::new(time, copy);
    println!(rt; "{name}: {} us, {ratio}", time.as_micros())?;
    Ok(())
}

fn print_all<R: Clock + Print + AllocGlobal>(rt: &R, rounds: u32) -> anyhow::Result<()> {
    let copies = rounds.saturating_mul(COPIES);
    let new = new_copies(rt, copies)?;
    let standing = standing_copies(rt, copies)?;
    let copy = lesser(new, standing);
    print_copy(rt, "copy into new memory", new, copy)?;
    print_copy(rt, "copy into memory that stands", standing, copy)?;
    let text = least_print(rt, rounds)?;
    println!(rt;
        "print of numbers: {} us; {} numbers, {} bytes",
        text.time.as_micros(),
        text.numbers,
        text.bytes
    )?;
    let read = least_read(rt, rounds)?;
    println!(rt;
        "read of numbers, digit by digit: {} us; {} numbers",
        read.time.as_micros(),
        read.numbers
    )?;
    for case in &CASES {
        let times = measured(rt, case, rounds)?;
        print_case(rt, case.name, times, copy)?;
    }
    Ok(())
}

fn main(rt: HostRuntime) -> anyhow::Result<()> {
    match wanted_rounds(&rt)? {
        Some(rounds) => print_all(&rt, rounds)?,
        None => println!(rt; "{USAGE}")?,
    }
    Ok(())
}
