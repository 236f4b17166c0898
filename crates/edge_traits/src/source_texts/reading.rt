ghost use Rattle.std.specs.Prelude.{◌≡◌, ◌<◌, ◌≤◌, length, IfOk, IsErrOf};
ghost use Rattle.edge_traits.specs.Causes.{Rose};
ghost use Rattle.edge_traits.specs.SourceTexts.Texts.{Gained, IsLongText, IsTaken, IsWholeText};
ghost use Rattle.edge_traits.specs.declared.source_texts.reading.TextFault.TheVariants.{ReadFault, NoMemory};

use crate::{Failed, Source};
use std::alloc::{AllocError, Global};

/// How many bytes one read may give.
const PIECE: usize = 4096;

/// Why a text was not read whole.
#[derive(Clone, Copy, Debug, PartialEq, Eq)]
pub enum TextFault {
    /// It has more bytes than it may have.
    TooLong,
    /// The source had a fault.
    ReadFault,
    /// There was no memory for the text.
    NoMemory,
}

impl From<AllocError> for TextFault {
    ghost from_gives = { λ _ e. e ≡ NoMemory };

    fn from(_error: AllocError) -> TextFault {
        TextFault::NoMemory
    }
}

impl From<Failed> for TextFault {
    ghost from_gives = { λ _ e. e ≡ ReadFault };

    fn from(_failed: Failed) -> TextFault {
        TextFault::ReadFault
    }
}

/// Reads a source to its end, where it has at most `most` bytes.
///
/// # Errors
///
/// `TooLong` where the source has more than `most` bytes; `ReadFault` where it had a fault; `NoMemory`.
pub fn read_text<C: Source>(
    alloc: Global,
    source: &mut C,
    most: usize,
) -> Result<Vec<u8>, TextFault>
    ensures ok { IfOk result
        (λ text. IsWholeText most (C.left source.old) (C.left source.new) text.items) }
    ensures too_long { IsErrOf result TextFault.TooLong
        → IsLongText most (C.left source.old) (C.left source.new) }
    ensures read_fault { IsErrOf result TextFault.ReadFault
        → Rose (C.faults source.old) (C.faults source.new) }
    ensures taken { IsTaken (C.left source.old) (C.left source.new) }
    ensures later { C.faults source.old ≤ C.faults source.new }
{
    let mut piece = vec![in alloc; 0u8; PIECE]?;
    read_pieces(alloc, source, most, &mut piece)
}

// The same, piece after piece.
fn read_pieces<C: Source>(
    alloc: Global,
    source: &mut C,
    most: usize,
    piece: &mut [u8],
) -> Result<Vec<u8>, TextFault>
    requires room { 0 < length piece.old }
    ensures ok { IfOk result
        (λ text. IsWholeText most (C.left source.old) (C.left source.new) text.items) }
    ensures too_long { IsErrOf result TextFault.TooLong
        → IsLongText most (C.left source.old) (C.left source.new) }
    ensures read_fault { IsErrOf result TextFault.ReadFault
        → Rose (C.faults source.old) (C.faults source.new) }
    ensures taken { IsTaken (C.left source.old) (C.left source.new) }
    ensures later { C.faults source.old ≤ C.faults source.new }
{
    let mut text = Vec::new(alloc);
    'pieces: loop {
        if read_piece(source, piece, &mut text)? == 0 {
            return Ok(text);
        }
        if text.len() > most {
            return Err(TextFault::TooLong);
        }
    }
}

// Adds what one read gives to the text, and answers how many bytes that is.
fn read_piece<C: Source>(
    source: &mut C,
    piece: &mut [u8],
    text: &mut Vec<u8>,
) -> Result<usize, TextFault>
    requires { 0 < length piece.old }
    ensures ok { IfOk result (λ n. Gained (C.left source.old) (C.left source.new)
        text.old.items text.new.items n) }
    ensures not_too_long { IsErrOf result TextFault.TooLong → ⊥ }
    ensures read_fault { IsErrOf result TextFault.ReadFault
        → Rose (C.faults source.old) (C.faults source.new) }
    ensures taken { IsTaken (C.left source.old) (C.left source.new) }
    ensures later { C.faults source.old ≤ C.faults source.new }
{
    let count = source.read(piece)?;
    text.extend_from_slice(&piece[..count])?;
    Ok(count)
}
