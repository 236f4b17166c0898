//! How a text spells a selection: `[1:10:4, :7]`, a part for each axis.

ghost use Rattle.std.specs.Prelude.{◌≡◌, ◌≤◌, ◌<◌, ◌^◌, ◌⊎◌, ℕ, List, All, length, IfOk, IfSome, Ok, Err};
ghost use Rattle.shapes.specs.Shapes.{IsSound, dims_of};
ghost use Rattle.shapes.specs.declared.TheConstants.{MAX_RANK};
ghost use Rattle.hyperslab.specs.Selected.{IsRanked, IsSlab, SlabIn};
ghost use Rattle.hyperslab.specs.Grammar.{IsSelection, IsFirstBad, parts_slab};
ghost use Rattle.shapes.specs.declared.Shape.{Shape};
ghost use Rattle.shapes.specs.declared.Shape.TheVariants.{Simple};
ghost use Rattle.hyperslab.specs.Written.{written};
ghost use Rattle.hyperslab.specs.declared.Slab.{Slab};
ghost use Rattle.hyperslab.specs.declared.SlabFault.TheVariants.{Syntax};
ghost use Rattle.hyperslab.specs.declared.reading.Part.{Part};
ghost use Rattle.hyperslab.specs.declared.reading.Number.TheVariants.{Digits};
ghost use Rattle.hyperslab.specs.declared.reading.Phase.TheVariants.{Before};
ghost use Rattle.hyperslab.specs.declared.TheConstants.{MAX_DIGITS};
ghost use Rattle.hyperslab.specs.Steps.{ten_to, IsNumber, IsPiece, IsPhase, or_number as number_or};
ghost use Rattle.hyperslab.specs.Steps.{digit_step as digit_stepped, space_step as space_stepped};
ghost use Rattle.hyperslab.specs.Steps.{number_step as number_stepped, number_of};
ghost use Rattle.hyperslab.specs.Steps.{colon_step as colon_stepped, piece_step as piece_stepped};
ghost use Rattle.hyperslab.specs.Steps.{single as single_part, stepped_part, part_of, ended_at as ended};
ghost use Rattle.hyperslab.specs.Steps.{still_inside as still, inside_step as inside_stepped};
ghost use Rattle.hyperslab.specs.Steps.{before_step as before_stepped, closed_step as closed_stepped};
ghost use Rattle.hyperslab.specs.Steps.{step_of, with_axis, keep_one as kept_one, keep_part as kept_with};
ghost use Rattle.hyperslab.specs.Steps.{judged_kept as kept_judged, read_on, nothing_kept, text_slab};

use crate::judging::judged;
use crate::{MAX_DIGITS, Slab, SlabFault};
use shapes::{Dims, Shape};

/// A number among spaces, as far as it was read.
#[derive(Clone, Copy)]
enum Number {
    Blank,
    Digits { count: u8, n: u64 },
    Spaced { n: u64 },
}

/// A part, as far as it was read: the numbers before its last colon, and the one after it.
#[derive(Clone, Copy)]
enum Piece {
    First(Number),
    Second(Option<u64>, Number),
    Third(Option<u64>, Option<u64>, Number),
}

/// Where in the text the reading is.
#[derive(Clone, Copy)]
enum Phase {
    Before,
    Inside(Piece),
    Closed,
}

/// A part of a selection's text.
#[derive(Clone, Copy)]
pub struct Part {
    /// The first number.
    pub start: u64,
    /// The end; without one the part goes to the end of its axis.
    pub stop: Option<u64>,
    /// The distance between numbers.
    pub step: u64,
}

/// What one byte brought: where the reading is now, and the part that ended there.
#[derive(Clone, Copy)]
struct Moved {
    phase: Phase,
    part: Option<Part>,
}

/// The parts that were read, as many of them as there are axes, and whether there were more.
#[derive(Clone, Copy)]
struct Kept {
    slab: Slab,
    over: bool,
}

/// The selection that a text spells.
///
/// A text is a part for each axis between `[` and `]`, with commas between the parts. A part is a
/// number, `start:stop` or `start:stop:step`. A number has 1 to [`MAX_DIGITS`] digits. The start may
/// be left out for 0 and the stop for the dim; the step is 1 where it has no colon. A number alone
/// selects itself. Spaces may stand around numbers, colons, commas and brackets.
///
/// # Errors
///
/// The first fault in the order of [`SlabFault`].
pub fn read_select(text: &str, shape: &Shape) -> Result<Slab, SlabFault>
    requires { IsSound shape.now }
    ensures spelled { (parts : List Part) → IsSelection text.now parts
        → result ≡ parts_slab parts shape.now }
    ensures bad { (byte : ℕ) → IsFirstBad text.now byte → result ≡ Err (Syntax byte) }
    ensures first { result ≡ text_slab text.now shape.now }
    ensures one_of { ((parts : List Part) × IsSelection text.now parts)
        ⊎ ((byte : ℕ) × IsFirstBad text.now byte) }
    ensures within { IfOk result (λ s. SlabIn s shape.now) }
    ensures steps { IfOk result (λ s. All (λ c. c < 10 ^ 10) s.step) }
    ensures sound { IfOk result IsSlab }
{
    first_of(text, shape)
}

/// A text has one reading or one first bad byte, and never both; which of them decides what is told
/// of it and a shape.
pub fn reading_or_fault()
    ensures spelled { (text : List ℕ) (shape : Shape) (ps : List Part) → IsSelection text ps
        → text_slab text shape ≡ parts_slab ps shape }
    ensures bad { (text : List ℕ) (shape : Shape) (b : ℕ) → IsFirstBad text b
        → text_slab text shape ≡ Err (Syntax b) }
    ensures one_reading { (text : List ℕ) (ps qs : List Part) → IsSelection text ps
        → IsSelection text qs → ps ≡ qs }
    ensures one_byte { (text : List ℕ) (b c : ℕ) → IsFirstBad text b → IsFirstBad text c → b ≡ c }
    ensures never_both { (text : List ℕ) (ps : List Part) (b : ℕ) → IsSelection text ps
        → IsFirstBad text b → ⊥ }
{}

/// A selection of a shape with axes reads back from its text, where its steps have at most 10
/// digits.
pub fn written_reads_back()
    ensures { (s : Slab) (dims limits : List ℕ) → IsSlab s → SlabIn s (Simple dims limits)
        → 1 ≤ length dims → All (λ c. c < 10 ^ 10) s.step
        → text_slab (written s) (Simple dims limits) ≡ Ok s }
{}

fn first_of(text: &str, shape: &Shape) -> Result<Slab, SlabFault>
    requires { IsSound shape.now }
    ensures first { result ≡ text_slab text.now shape.now }
    ensures sound { IfOk result IsSlab }
{
    let dims = shape.dims();
    let bytes = text.as_bytes();
    let (phase, kept) = match read_parts(bytes, &dims) {
        Ok(read) => read,
        Err(byte) => return Err(SlabFault::Syntax { byte }),
    };
    match phase {
        Phase::Closed => judged_kept(shape, &kept),
        Phase::Before => Err(SlabFault::Syntax {
            byte: bytes.len() as u64,
        }),
        Phase::Inside(_) => Err(SlabFault::Syntax {
            byte: bytes.len() as u64,
        }),
    }
}

fn read_parts(bytes: &[u8], dims: &Dims) -> Result<(Phase, Kept), u64>
    ensures { result ≡ read_on dims.now 0 Before nothing_kept bytes.now }
{
    let mut phase = Phase::Before;
    let mut kept = Kept {
        slab: Slab {
            start: Dims::new(),
            stop: Dims::new(),
            step: Dims::new(),
        },
        over: false,
    };
    for (i, b) in bytes.iter().enumerate() {
        let Some(moved) = step(phase, *b) else {
            return Err(i as u64);
        };
        phase = moved.phase;
        kept = keep(dims, kept, moved.part);
    }
    Ok((phase, kept))
}

fn keep(dims: &Dims, kept: Kept, part: Option<Part>) -> Kept
    requires { IsRanked kept.slab }
    ensures kept { result ≡ kept_with dims.now kept part }
    ensures ranked { IsRanked result.slab }
{
    match part {
        None => kept,
        Some(part) => keep_one(dims, kept, part),
    }
}

fn keep_one(dims: &Dims, kept: Kept, part: Part) -> Kept
    requires { IsRanked kept.slab }
    ensures kept { result ≡ kept_one dims.now kept part }
    ensures ranked { IsRanked result.slab }
{
    let axis = kept.slab.start.len();
    if axis < dims.len() {
        Kept {
            slab: with_part(kept.slab, part, dims.get(axis)),
            over: kept.over,
        }
    } else {
        Kept {
            slab: kept.slab,
            over: true,
        }
    }
}

fn with_part(slab: Slab, part: Part, dim: u64) -> Slab
    requires ranked { IsRanked slab }
    requires few { length slab.start < MAX_RANK }
    ensures { result ≡ with_axis slab part dim }
{
    let mut longer = slab;
    longer.start.push(part.start);
    longer.stop.push(or_number(part.stop, dim));
    longer.step.push(part.step);
    longer
}

fn or_number(read: Option<u64>, absent: u64) -> u64
    ensures { result ≡ number_or read absent }
{
    match read {
        None => absent,
        Some(n) => n,
    }
}

fn judged_kept(shape: &Shape, kept: &Kept) -> Result<Slab, SlabFault>
    requires { IsSound shape.now }
    ensures first { result ≡ kept_judged shape.now kept.now }
    ensures sound { IfOk result IsSlab }
{
    if kept.over {
        return Err(SlabFault::Rank);
    }
    judged(shape, &kept.slab)
}

fn step(phase: Phase, b: u8) -> Option<Moved>
    requires { IsPhase phase }
    ensures moved { result ≡ step_of phase b }
    ensures sound { IfSome result (λ m. IsPhase m.phase) }
{
    match phase {
        Phase::Before => before_step(b),
        Phase::Inside(piece) => inside_step(piece, b),
        Phase::Closed => closed_step(b),
    }
}

fn before_step(b: u8) -> Option<Moved>
    ensures moved { result ≡ before_stepped b }
    ensures sound { IfSome result (λ m. IsPhase m.phase) }
{
    match b {
        b' ' => Some(Moved {
            phase: Phase::Before,
            part: None,
        }),
        b'[' => Some(Moved {
            phase: Phase::Inside(Piece::First(Number::Blank)),
            part: None,
        }),
        _ => None,
    }
}

fn closed_step(b: u8) -> Option<Moved>
    ensures moved { result ≡ closed_stepped b }
    ensures sound { IfSome result (λ m. IsPhase m.phase) }
{
    match b {
        b' ' => Some(Moved {
            phase: Phase::Closed,
            part: None,
        }),
        _ => None,
    }
}

fn inside_step(piece: Piece, b: u8) -> Option<Moved>
    requires { IsPiece piece }
    ensures moved { result ≡ inside_stepped piece b }
    ensures sound { IfSome result (λ m. IsPhase m.phase) }
{
    match b {
        b',' => ended_at(
            Phase::Inside(Piece::First(Number::Blank)),
            piece_part(piece),
        ),
        b']' => ended_at(Phase::Closed, piece_part(piece)),
        _ => still_inside(piece_step(piece, b)),
    }
}

fn ended_at(phase: Phase, part: Option<Part>) -> Option<Moved>
    requires { IsPhase phase }
    ensures moved { result ≡ ended phase part }
    ensures sound { IfSome result (λ m. IsPhase m.phase) }
{
    let part = part?;
    Some(Moved {
        phase,
        part: Some(part),
    })
}

fn still_inside(piece: Option<Piece>) -> Option<Moved>
    requires { IfSome piece IsPiece }
    ensures moved { result ≡ still piece }
    ensures sound { IfSome result (λ m. IsPhase m.phase) }
{
    let piece = piece?;
    Some(Moved {
        phase: Phase::Inside(piece),
        part: None,
    })
}

fn piece_step(piece: Piece, b: u8) -> Option<Piece>
    requires { IsPiece piece }
    ensures stepped { result ≡ piece_stepped piece b }
    ensures sound { IfSome result IsPiece }
{
    if b == b':' {
        return colon_step(piece);
    }
    match piece {
        Piece::First(n) => Some(Piece::First(number_step(n, b)?)),
        Piece::Second(start, n) => Some(Piece::Second(start, number_step(n, b)?)),
        Piece::Third(start, stop, n) => Some(Piece::Third(start, stop, number_step(n, b)?)),
    }
}

fn colon_step(piece: Piece) -> Option<Piece>
    requires { IsPiece piece }
    ensures stepped { result ≡ colon_stepped piece }
    ensures sound { IfSome result IsPiece }
{
    match piece {
        Piece::First(n) => Some(Piece::Second(found(n), Number::Blank)),
        Piece::Second(start, n) => Some(Piece::Third(start, found(n), Number::Blank)),
        Piece::Third(..) => None,
    }
}

fn piece_part(piece: Piece) -> Option<Part>
    requires { IsPiece piece }
    ensures { result ≡ part_of piece }
{
    match piece {
        Piece::First(n) => single(found(n)),
        Piece::Second(start, n) => Some(Part {
            start: or_number(start, 0),
            stop: found(n),
            step: 1,
        }),
        Piece::Third(start, stop, n) => stepped(start, stop, found(n)),
    }
}

fn single(read: Option<u64>) -> Option<Part>
    requires { IfSome read (λ n. n < ten_to MAX_DIGITS) }
    ensures { result ≡ single_part read }
{
    let n = read?;
    Some(Part {
        start: n,
        stop: Some(n + 1),
        step: 1,
    })
}

fn stepped(start: Option<u64>, stop: Option<u64>, step: Option<u64>) -> Option<Part>
    ensures { result ≡ stepped_part start stop step }
{
    let step = step?;
    Some(Part {
        start: or_number(start, 0),
        stop,
        step,
    })
}

fn found(read: Number) -> Option<u64>
    requires { IsNumber read }
    ensures number { result ≡ number_of read }
    ensures small { IfSome result (λ n. n < ten_to MAX_DIGITS) }
{
    match read {
        Number::Blank => None,
        Number::Digits { n, .. } => Some(n),
        Number::Spaced { n } => Some(n),
    }
}

fn number_step(read: Number, b: u8) -> Option<Number>
    requires { IsNumber read }
    ensures stepped { result ≡ number_stepped read b }
    ensures sound { IfSome result IsNumber }
{
    match b {
        b' ' => Some(space_step(read)),
        b'0'..=b'9' => digit_step(read, b - b'0'),
        _ => None,
    }
}

fn space_step(read: Number) -> Number
    requires { IsNumber read }
    ensures stepped { result ≡ space_stepped read }
    ensures sound { IsNumber result }
{
    match read {
        Number::Blank => Number::Blank,
        Number::Digits { n, .. } => Number::Spaced { n },
        Number::Spaced { n } => Number::Spaced { n },
    }
}

fn digit_step(read: Number, d: u8) -> Option<Number>
    requires sound { IsNumber read }
    requires digit { d < 10 }
    ensures stepped { result ≡ digit_stepped read d }
    ensures sound { IfSome result IsNumber }
{
    match read {
        Number::Blank => Some(Number::Digits {
            count: 1,
            n: d as u64,
        }),
        Number::Digits { count, n } => longer(count, n, d),
        Number::Spaced { .. } => None,
    }
}

fn longer(count: u8, n: u64, d: u8) -> Option<Number>
    requires below { n < ten_to count }
    requires digit { d < 10 }
    ensures stepped { result ≡ digit_stepped (Digits count n) d }
    ensures sound { IfSome result IsNumber }
{
    if count < MAX_DIGITS {
        Some(Number::Digits {
            count: count + 1,
            n: n * 10 + d as u64,
        })
    } else {
        None
    }
}
