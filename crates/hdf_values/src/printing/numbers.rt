//! Whole numbers.

ghost use Rattle.std.specs.Prelude.{◌≡◌, ◌*◌, ◌/◌, length, map, OnOk};
ghost use Rattle.serde_json.specs.Written.{outline};
ghost use Rattle.json.specs.Tree.{json_tokens};
ghost use Rattle.hdf_types.specs.Elems.{int as int_type};
ghost use Rattle.hdf_types.specs.Reading.{int_size};
ghost use Rattle.hdf_types.specs.Types.{IsWidth};
ghost use Rattle.hdf_values.specs.Elements.{decoded};
ghost use Rattle.hdf_values.specs.Nested.{pieces};
ghost use Rattle.hdf_values.specs.Printed.{list_tokens};
ghost use Rattle.json_trees.specs.Copied.{Adds};

use crate::integers::{plain_number, signed};
use hdf_types::IntType;
use json::Writer;
use std::alloc::AllocError;

/// Writes the numbers that so many pieces of the bytes are, and the bracket that closes their list.
pub(crate) fn write_ints(
    int: &IntType,
    count: u64,
    bytes: &[u8],
    writer: &mut Writer,
) -> Result<(), AllocError>
    requires width { IsWidth int.now.bits }
    requires room { length bytes.now ≡ count * int_size int.now.bits }
    ensures { OnOk result (Adds (list_tokens (map (decoded (int_type int.now))
        (pieces count (int_size int.now.bits) bytes.now))) writer.old writer.new) }
{
    let size = (int.bits / 8) as usize;
    let mut left = bytes;
    for _ in 0..count {
        let (front, back) = left.split_at(size);
        write_int(int, front, writer)?;
        left = back;
    }
    writer.end_array()
}

/// Writes the number that bytes are.
pub(crate) fn write_int(int: &IntType, bytes: &[u8], writer: &mut Writer) -> Result<(), AllocError>
    requires width { IsWidth int.now.bits }
    requires room { length bytes.now ≡ int.now.bits / 8 }
    ensures { OnOk result (Adds (json_tokens (outline (decoded (int_type int.now) bytes.now)))
        writer.old writer.new) }
{
    let found = plain_number(int, bytes);
    if int.signed {
        writer.i64(signed(int.bits, found))
    } else {
        writer.u64(found)
    }
}
