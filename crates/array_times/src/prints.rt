//! Plain loops that print numbers and read them again.

use crate::times::lesser;
use std::alloc::{AllocError, Global};
use std::time::{Clock, Duration, Instant};

/// How many numbers are printed.
const MANY: usize = 1_000_000;

/// They are below this.
const BOUND: u32 = 1_048_576;

/// The most bytes of a number and the comma behind it.
const WIDEST: usize = 8;

/// The least time of a print, and what it printed.
#[derive(Clone, Copy)]
pub struct PrintedText {
    pub time: Duration,
    pub numbers: usize,
    pub bytes: usize,
}

/// The least time in which that text is read, and how many numbers were.
#[derive(Clone, Copy)]
pub struct ReadText {
    pub time: Duration,
    pub numbers: usize,
}

/// The numbers that `measure` writes into a dataset, in their order.
fn numbers(alloc: Global) -> anyhow::Result<Vec<u32>> {
    let mut numbers = Vec::with_capacity(alloc, MANY)?;
    let mut number: u32 = 1;
    for _ in 0..MANY {
        number = number.wrapping_mul(69_069).wrapping_add(12_345) % BOUND;
        numbers.push(number)?;
    }
    Ok(numbers)
}

/// Appends a number as decimal digits, and a comma.
#[inline(always)]
fn print_number(text: &mut Vec<u8>, number: u32) -> Result<(), AllocError> {
    let mut digits = [b','; 11];
    let mut first: usize = 10;
    let mut rest = number;
    while first > 0 {
        first -= 1;
        digits[first] = b'0' + (rest % 10) as u8;
        rest /= 10;
        if rest == 0 {
            break;
        }
    }
    text.extend_from_slice(&digits[first..])
}

/// The least time in which all numbers are printed into memory that is there before.
pub fn least_print<R: Clock + AllocGlobal>(rt: &R, rounds: u32) -> anyhow::Result<PrintedText> {
    let numbers = numbers(rt.alloc())?;
    let mut text = Vec::with_capacity(rt.alloc(), MANY * WIDEST)?;
    let mut least = Duration::MAX;
    for _ in 0..rounds {
        text.clear();
        let start = Instant::now(rt)?;
        for number in numbers.as_slice() {
            print_number(&mut text, *number)?;
        }
        least = lesser(least, start.elapsed(rt)?);
    }
    let commas = text.as_slice().iter().filter(|byte| **byte == b',').count();
    Ok(PrintedText {
        time: least,
        numbers: commas,
        bytes: text.len(),
    })
}

/// Appends the numbers of a text, each of which has a comma behind it, digit by digit.
fn read_numbers(text: &[u8], numbers: &mut Vec<u32>) -> Result<(), AllocError> {
    let mut number: u32 = 0;
    for byte in text {
        if *byte == b',' {
            numbers.push(number)?;
            number = 0;
        } else {
            let digit = u32::from(byte.wrapping_sub(b'0'));
            number = number.wrapping_mul(10).wrapping_add(digit);
        }
    }
    Ok(())
}

/// The least time in which the printed numbers are read into memory that is there before.
pub fn least_read<R: Clock + AllocGlobal>(rt: &R, rounds: u32) -> anyhow::Result<ReadText> {
    let mut text = Vec::with_capacity(rt.alloc(), MANY * WIDEST)?;
    for number in numbers(rt.alloc())?.as_slice() {
        print_number(&mut text, *number)?;
    }
    let mut read = Vec::with_capacity(rt.alloc(), MANY)?;
    let mut least = Duration::MAX;
    for _ in 0..rounds {
        read.clear();
        let start = Instant::now(rt)?;
        read_numbers(text.as_slice(), &mut read)?;
        least = lesser(least, start.elapsed(rt)?);
    }
    Ok(ReadText {
        time: least,
        numbers: read.len(),
    })
}
