//! The bytes of several elements, one after another.

ghost use Rattle.std.specs.Prelude.{◌≡◌, ◌↔◌, ◌/◌, None, IfSome, length};
ghost use Rattle.hdf_types.specs.Elems.{int as int_type};
ghost use Rattle.hdf_types.specs.Reading.{int_size, size_of};
ghost use Rattle.hdf_types.specs.Types.{IsSoundType, IsWidth};
ghost use Rattle.hdf_types.specs.Views.{elem};
ghost use Rattle.hdf_values.specs.Nested.{AreEncoded, IsFirstUnencoded};

use crate::elements::is_encoded;
use hdf_types::{ElemType, IntType};

/// The first element, from 0, whose bytes no value has; none where all bytes are those of elements.
/// Bytes at the end that are too few for an element are one whose bytes no value has.
pub fn first_unencoded(kind: &ElemType, bytes: &[u8]) -> Option<u64>
    requires sound { IsSoundType (elem kind.now) }
    ensures none { result ≡ None
        ↔ AreEncoded (elem kind.now) (length bytes.now / size_of (elem kind.now)) bytes.now }
    ensures first { IfSome result (IsFirstUnencoded (elem kind.now) bytes.now) }
{
    match kind {
        ElemType::Int(int) => first_short(int, bytes),
        _ => first_misfit(kind, bytes),
    }
}

/// [`first_unencoded`], of whole numbers, where the length decides alone.
fn first_short(int: &IntType, bytes: &[u8]) -> Option<u64>
    requires { IsWidth int.now.bits }
    ensures none { result ≡ None
        ↔ AreEncoded (int_type int.now) (length bytes.now / int_size int.now.bits) bytes.now }
    ensures first { IfSome result (IsFirstUnencoded (int_type int.now) bytes.now) }
{
    let size = (int.bits / 8) as usize;
    if bytes.len() % size == 0 {
        None
    } else {
        Some((bytes.len() / size) as u64)
    }
}

/// [`first_unencoded`], of any elements, one after another.
fn first_misfit(kind: &ElemType, bytes: &[u8]) -> Option<u64>
    requires sound { IsSoundType (elem kind.now) }
    ensures none { result ≡ None
        ↔ AreEncoded (elem kind.now) (length bytes.now / size_of (elem kind.now)) bytes.now }
    ensures first { IfSome result (IsFirstUnencoded (elem kind.now) bytes.now) }
{
    let size = kind.size() as usize;
    let mut left = bytes;
    let mut index = 0;
    while left.len() >= size {
        let (element, behind) = left.split_at(size);
        if !is_encoded(kind, element) {
            return Some(index);
        }
        left = behind;
        index += 1;
    }
    if left.is_empty() { None } else { Some(index) }
}
