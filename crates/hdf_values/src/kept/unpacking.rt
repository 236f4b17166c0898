//! Packed numbers as elements of a type, and as a tree.

ghost use Rattle.std.specs.Prelude.{◌≡◌, ◌*◌, ◌/◌, ◌++◌, [], length, IfOk, IfSome, IsTrue, Ok};
ghost use Rattle.json_trees.specs.Trees.{AreTexts};
ghost use Rattle.hdf_types.specs.Reading.{int_size};
ghost use Rattle.hdf_types.specs.Types.{IsSoundType, IsWidth};
ghost use Rattle.hdf_types.specs.Views.{elem};
ghost use Rattle.hdf_values.specs.Integers.{int_value};
ghost use Rattle.hdf_values.specs.KeptValues.{Converts};
ghost use Rattle.hdf_values.specs.Nested.{nested_from};

use crate::integers::{greatest, is_between, least, plain_number, push_int, signed};
use crate::kept::packed::Packed;
use crate::printing::nested_text;
use hdf_types::{ElemType, IntType};
use json_trees::KeptTree;
use shapes::Dims;
use std::alloc::{AllocError, Global};

/// What is true of packed numbers: they have no text.
pub(crate) fn have_texts(packed: &Packed)
    ensures { AreTexts packed.now }
{
    let _kind = &packed.kind;
}

/// The tree of packed numbers, kept as its text.
pub(crate) fn unpacked_tree(alloc: Global, packed: &Packed) -> Result<KeptTree, AllocError>
    ensures { IfOk result (λ tree. tree ≡ packed.now) }
{
    let _axes = packed.extents.len();
    let bytes = packed.bytes.as_slice();
    let text = nested_text(alloc, &packed.kind, &packed.extents, bytes)?;
    match KeptTree::read(alloc, text.as_bytes()) {
        Ok(tree) => Ok(tree),
        Err(_) => Err(AllocError),
    }
}

/// The bytes of packed numbers as elements of a type, where that is one of whole numbers, the
/// extents are theirs and each of them is in its range.
pub(crate) fn unpacked_cells(
    alloc: Global,
    kind: &ElemType,
    extents: &Dims,
    packed: &Packed,
) -> Result<Option<Vec<u8>>, AllocError>
    requires { IsSoundType (elem kind.now) }
    ensures { IfOk result (λ found. IfSome found (λ bytes.
        nested_from (elem kind.now) extents.now 0 packed.now ≡ Ok bytes.items)) }
{
    let ElemType::Int(to) = kind else {
        return Ok(None);
    };
    let ElemType::Int(from) = &packed.kind else {
        return Ok(None);
    };
    if packed.extents != *extents {
        return Ok(None);
    }
    let bytes = packed.bytes.as_slice();
    if from == to {
        return Ok(Some(Vec::from_slice(alloc, bytes)?));
    }
    converted(alloc, from, to, bytes)
}

/// The bytes of numbers of one type as those of another, where each is in its range.
fn converted(
    alloc: Global,
    from: &IntType,
    to: &IntType,
    bytes: &[u8],
) -> Result<Option<Vec<u8>>, AllocError>
    requires from { IsWidth from.now.bits }
    requires to { IsWidth to.now.bits }
    ensures { IfOk result (λ found. IfSome found (λ out. Converts from.now to.now
        (length bytes.now / int_size from.now.bits) bytes.now [] out.items)) }
{
    let size = (from.bits / 8) as usize;
    let count = bytes.len() / size;
    let room = count.saturating_mul((to.bits / 8) as usize);
    let mut out = Vec::with_capacity(alloc, room)?;
    let (low, high) = (least(to), greatest(to));
    let mut left = bytes;
    for _ in 0..count {
        let (front, back) = left.split_at(size);
        let value = whole_number(from, front);
        if !is_between(low, value, high) {
            return Ok(None);
        }
        push_int(to, value, &mut out)?;
        left = back;
    }
    Ok(Some(out))
}

/// The number that bytes are.
#[inline(always)]
fn whole_number(int: &IntType, bytes: &[u8]) -> i128
    requires width { IsWidth int.now.bits }
    requires room { length bytes.now ≡ int_size int.now.bits }
    ensures { result ≡ int_value int.now bytes.now }
{
    let found = plain_number(int, bytes);
    if int.signed {
        i128::from(signed(int.bits, found))
    } else {
        i128::from(found)
    }
}
