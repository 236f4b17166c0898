//! Rectangular lists of whole numbers, read straight into bytes.

ghost use Rattle.std.specs.Prelude.{◌≡◌, ◌≤◌, ◌∷◌, ◌+◌, ℕ, FitsSigned, Some, IfOk, IfSome};
ghost use Rattle.std.specs.Int.{w64};
ghost use Rattle.json.specs.Token.{begin_array, number as number_token};
ghost use Rattle.serde_json.specs.Data.{Data};
ghost use Rattle.serde_json.specs.Find.{of_integer};
ghost use Rattle.serde_json.specs.Read.{max_depth, number_of};
ghost use Rattle.json_trees.specs.Copied.{Reads};
ghost use Rattle.hdf_values.specs.Packed.{AreSome, HasNumbers, Packs};

use crate::kept::numbers::Numbers;
use hdf_types::ElemType;
use json::{Reader, Token};
use json_trees::{negative_of, unsigned_of};
use shapes::{Dims, MAX_RANK};
use std::alloc::{AllocError, Global};
use std::marker::Model;

/// Whole numbers of a rectangular list, in row-major order: the bytes of elements of a whole-number
/// type.
#[derive(Drop)]
pub(crate) struct Packed {
    /// Their type: of 32 bits where all fit, else of 64, signed, little-endian.
    pub(crate) kind: ElemType,
    /// How long the lists are, the outermost first; none is 0.
    pub(crate) extents: Dims,
    /// Their bytes.
    pub(crate) bytes: Vec<u8>,
}

impl Model for Packed {
    ghost use Rattle.serde_json.specs.Data.{Data};
    ghost use Rattle.json_trees.specs.CodedData.{coded_data};
    ghost use Rattle.hdf_types.specs.Types.{IsSoundType};
    ghost use Rattle.hdf_types.specs.Views.{elem};
    ghost use Rattle.shapes.specs.RowMajor.{cell_count};
    ghost use Rattle.hdf_values.specs.Nested.{AreEncoded, nested_decoded};
    ghost use Rattle.hdf_values.specs.Packed.{AreSome};

    ghost Value = { Data };

    ghost coded = { coded_data };

    ghost view = { λ p. nested_decoded (elem p.kind) p.extents p.bytes.items };

    ghost invariant = { λ p. IsSoundType (elem p.kind)
        × AreEncoded (elem p.kind) (cell_count p.extents) p.bytes.items × AreSome p.extents };
}

/// Reads the rectangular list of whole numbers that comes next, packed. None where anything else
/// comes, or a number that is no `i64`, or a list without an item, or more axes than an array has, or
/// a first number of 64 bits so late that too much would be written again; the reader then stands
/// anywhere.
///
/// # Errors
///
/// Only where memory runs out.
pub(crate) fn read_packed(
    alloc: Global,
    reader: &mut Reader<'_>,
    depth: usize,
) -> Result<Option<Packed>, AllocError>
    requires { depth ≤ max_depth }
    ensures read { IfOk result
        (λ found. IfSome found (λ packed. Reads depth reader.old packed reader.new)) }
{
    let Some(Token::BeginArray) = reader.next() else {
        return Ok(None);
    };
    let mut numbers = Numbers::new(alloc);
    match read_list(reader, depth, &mut numbers)? {
        Some(extents) => Ok(Some(nested(extents, numbers))),
        None => Ok(None),
    }
}

/// The numbers of a list that nests by the extents.
fn nested(extents: Dims, numbers: Numbers) -> Packed
    requires has { (tree : Data) × HasNumbers extents tree numbers }
    requires some { AreSome extents }
    ensures { (tree : Data) → HasNumbers extents tree numbers → result ≡ tree }
{
    let (int, bytes) = numbers.into_bytes();
    Packed {
        kind: ElemType::Int(int),
        extents,
        bytes,
    }
}

/// Adds the numbers of a list whose bracket was taken; the answer is its extents, or none where it
/// can't be packed. With this list, lists nest `depth` deep at most.
#[cycle(packs)]
fn read_list(
    reader: &mut Reader<'_>,
    depth: usize,
    numbers: &mut Numbers,
) -> Result<Option<Dims>, AllocError>
    ensures { IfOk result (λ found. IfSome found (λ extents.
        Packs depth (begin_array ∷ reader.old) extents numbers.old numbers.new reader.new)) }
{
    if depth == 0 {
        return Ok(None);
    }
    match reader.next() {
        Some(Token::Number(text)) => read_row(text, reader, numbers),
        Some(Token::BeginArray) => read_lists(reader, depth - 1, numbers),
        _ => Ok(None),
    }
}

/// [`read_list`], for a list of lists, of which also the first one's bracket was taken; each of them
/// nests `depth` deep at most.
#[cycle(packs)]
fn read_lists(
    reader: &mut Reader<'_>,
    depth: usize,
    numbers: &mut Numbers,
) -> Result<Option<Dims>, AllocError>
    ensures { IfOk result (λ found. IfSome found (λ extents. Packs (depth + 1)
        (begin_array ∷ begin_array ∷ reader.old) extents numbers.old numbers.new reader.new)) }
{
    let Some(extents) = read_list(reader, depth, numbers)? else {
        return Ok(None);
    };
    for got in 1..u64::MAX {
        if reader.take_end_array() {
            return Ok(longer(got, &extents));
        }
        let Some(Token::BeginArray) = reader.next() else {
            return Ok(None);
        };
        let Some(others) = read_list(reader, depth, numbers)? else {
            return Ok(None);
        };
        if others != extents {
            return Ok(None);
        }
    }
    Ok(None)
}

/// [`read_list`], for a list of numbers, of which the first was taken.
fn read_row(
    first: &str,
    reader: &mut Reader<'_>,
    numbers: &mut Numbers,
) -> Result<Option<Dims>, AllocError>
    ensures { IfOk result (λ found. IfSome found (λ extents. (most : ℕ) → Packs (most + 1)
        (begin_array ∷ number_token first.now ∷ reader.old) extents numbers.old numbers.new
        reader.new)) }
{
    let Some(number) = whole_of(first) else {
        return Ok(None);
    };
    if !numbers.may_push(number) {
        return Ok(None);
    }
    numbers.push(number)?;
    for got in 1..u64::MAX {
        if reader.take_end_array() {
            return Ok(Some(Dims::repeated(got, 1)));
        }
        let Some(Token::Number(text)) = reader.next() else {
            return Ok(None);
        };
        let Some(number) = whole_of(text) else {
            return Ok(None);
        };
        if !numbers.may_push(number) {
            return Ok(None);
        }
        numbers.push(number)?;
    }
    Ok(None)
}

/// The number of 64 bits that a text is.
#[inline(always)]
fn whole_of(text: &str) -> Option<i64>
    ensures reads { IfSome result (λ z. number_of text.now ≡ Some (of_integer z)) }
    ensures fits { IfSome result (FitsSigned w64) }
{
    if let Some(n) = unsigned_of(text) {
        return i64::try_from(n).ok();
    }
    match negative_of(text) {
        Some(n) if n < 0 => Some(n),
        _ => None,
    }
}

/// The extents behind one more. None where an array has no further axis.
fn longer(extent: u64, extents: &Dims) -> Option<Dims>
    ensures { IfSome result (λ more. more ≡ extent ∷ extents.now) }
{
    if extents.len() >= MAX_RANK {
        return None;
    }
    let mut more = Dims::repeated(extent, 1);
    for n in extents.as_slice() {
        more.push(*n);
    }
    Some(more)
}
