//! Lists of elements, nested by the extents of an array in row-major order.

ghost use Rattle.std.specs.Prelude.{◌≡◌, ◌≤◌, ◌*◌, [], Some, map, OnOk, IfOk, string_bytes};
ghost use Rattle.serde_json.specs.Data.{depth};
ghost use Rattle.serde_json.specs.Read.{read, max_depth};
ghost use Rattle.serde_json.specs.Written.{compact_text, outline};
ghost use Rattle.json.specs.Tree.{json_tokens};
ghost use Rattle.hdf_types.specs.Reading.{size_of};
ghost use Rattle.hdf_types.specs.Types.{IsSoundType};
ghost use Rattle.hdf_types.specs.Views.{elem};
ghost use Rattle.shapes.specs.RowMajor.{cell_count};
ghost use Rattle.hdf_values.specs.Nested.{AreEncoded, nested_decoded, pieces};
ghost use Rattle.hdf_values.specs.Printed.{keyed, list_tokens};
ghost use Rattle.json_trees.specs.Copied.{Adds};

use crate::printing::elements::write_element;
use crate::printing::numbers::write_ints;
use hdf_types::ElemType;
use json::Writer;
use shapes::Dims;
use std::alloc::{AllocError, Global};

/// The bytes of room for brackets and a key.
const MARGIN: usize = 64;

/// Writes the tree whose elements have these bytes, nested by the extents.
///
/// # Errors
///
/// Only where memory runs out.
pub fn push_nested(
    writer: &mut Writer,
    kind: &ElemType,
    extents: &Dims,
    bytes: &[u8],
) -> Result<(), AllocError>
    requires sound { IsSoundType (elem kind.now) }
    requires encoded { AreEncoded (elem kind.now) (cell_count extents.now) bytes.now }
    ensures { OnOk result
        (Adds (json_tokens (outline (nested_decoded (elem kind.now) extents.now bytes.now)))
        writer.old writer.new) }
{
    write_axes(kind, extents.as_slice(), bytes, writer)
}

/// The compact JSON text of the tree whose elements have these bytes, nested by the extents.
///
/// # Errors
///
/// Only where memory runs out.
pub fn nested_text(
    alloc: Global,
    kind: &ElemType,
    extents: &Dims,
    bytes: &[u8],
) -> Result<String, AllocError>
    requires sound { IsSoundType (elem kind.now) }
    requires encoded { AreEncoded (elem kind.now) (cell_count extents.now) bytes.now }
    ensures text { IfOk result (λ text. string_bytes text
        ≡ compact_text (nested_decoded (elem kind.now) extents.now bytes.now)) }
    ensures reads_back { IfOk result (λ text.
        depth (nested_decoded (elem kind.now) extents.now bytes.now) ≤ max_depth
        → read (string_bytes text)
        ≡ Some (nested_decoded (elem kind.now) extents.now bytes.now)) }
{
    let mut writer = writer_for(alloc, kind, bytes)?;
    push_nested(&mut writer, kind, extents, bytes)?;
    Ok(unsafe { String::from_utf8_unchecked(writer.into_inner()) })
}

/// The compact JSON text of an object with one key, at which this tree stands.
///
/// # Errors
///
/// Only where memory runs out.
pub fn keyed_text(
    alloc: Global,
    key: &str,
    kind: &ElemType,
    extents: &Dims,
    bytes: &[u8],
) -> Result<String, AllocError>
    requires sound { IsSoundType (elem kind.now) }
    requires encoded { AreEncoded (elem kind.now) (cell_count extents.now) bytes.now }
    ensures text { IfOk result (λ text. string_bytes text
        ≡ compact_text (keyed key.now (nested_decoded (elem kind.now) extents.now bytes.now))) }
    ensures reads_back { IfOk result (λ text.
        depth (keyed key.now (nested_decoded (elem kind.now) extents.now bytes.now)) ≤ max_depth
        → read (string_bytes text)
        ≡ Some (keyed key.now (nested_decoded (elem kind.now) extents.now bytes.now))) }
{
    let mut writer = writer_for(alloc, kind, bytes)?;
    push_keyed(&mut writer, key, kind, extents, bytes)?;
    Ok(unsafe { String::from_utf8_unchecked(writer.into_inner()) })
}

/// A writer of nothing yet, with room for the text of these elements where they are whole numbers.
fn writer_for(alloc: Global, kind: &ElemType, bytes: &[u8]) -> Result<Writer, AllocError>
    ensures before { IfOk result (λ writer. writer.before ≡ []) }
    ensures tokens { IfOk result (λ writer. writer.tokens ≡ []) }
{
    // With its comma a number of one byte takes at most 5 bytes of text, one of two bytes 7, one of
    // four 12 and one of eight 21.
    let most = match kind {
        ElemType::Int(int) => match int.bits {
            8 => 5,
            16 => 4,
            _ => 3,
        },
        _ => 1,
    };
    let room = bytes.len().saturating_mul(most).saturating_add(MARGIN);
    Ok(Writer::new(Vec::with_capacity(alloc, room)?))
}

fn push_keyed(
    writer: &mut Writer,
    key: &str,
    kind: &ElemType,
    extents: &Dims,
    bytes: &[u8],
) -> Result<(), AllocError>
    requires sound { IsSoundType (elem kind.now) }
    requires encoded { AreEncoded (elem kind.now) (cell_count extents.now) bytes.now }
    ensures { OnOk result
        (Adds (json_tokens (outline (keyed key.now
        (nested_decoded (elem kind.now) extents.now bytes.now)))) writer.old writer.new) }
{
    writer.begin_object()?;
    writer.key(key)?;
    push_nested(writer, kind, extents, bytes)?;
    writer.end_object()
}

#[cycle(lists)]
fn write_axes(
    kind: &ElemType,
    extents: &[u64],
    bytes: &[u8],
    writer: &mut Writer,
) -> Result<(), AllocError>
    requires sound { IsSoundType (elem kind.now) }
    requires encoded { AreEncoded (elem kind.now) (cell_count extents.now) bytes.now }
    ensures { OnOk result
        (Adds (json_tokens (outline (nested_decoded (elem kind.now) extents.now bytes.now)))
        writer.old writer.new) }
{
    if extents.is_empty() {
        return write_element(kind, bytes, writer);
    }
    writer.begin_array()?;
    write_members(kind, extents[0], &extents[1..], bytes, writer)
}

/// Writes the trees of so many pieces of the bytes, each nested by the extents, and the bracket
/// that closes their list.
#[cycle(lists)]
fn write_members(
    kind: &ElemType,
    count: u64,
    extents: &[u64],
    bytes: &[u8],
    writer: &mut Writer,
) -> Result<(), AllocError>
    requires sound { IsSoundType (elem kind.now) }
    requires encoded { AreEncoded (elem kind.now) (count * cell_count extents.now) bytes.now }
    ensures { OnOk result
        (Adds (list_tokens (map (nested_decoded (elem kind.now) extents.now)
        (pieces count (cell_count extents.now * size_of (elem kind.now)) bytes.now)))
        writer.old writer.new) }
{
    if let (ElemType::Int(int), true) = (kind, extents.is_empty()) {
        return write_ints(int, count, bytes, writer);
    }
    let step = bytes.len() / (count as usize).max(1);
    let mut left = bytes;
    for _ in 0..count {
        let (front, back) = left.split_at(step);
        write_axes(kind, extents, front, writer)?;
        left = back;
    }
    writer.end_array()
}
