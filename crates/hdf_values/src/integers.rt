//! Whole numbers as two's complement bytes, in either order.

ghost use Rattle.std.specs.Prelude.{◌≡◌, ◌&&◌, int_le, true, ◌<◌, ◌-◌, ◌*◌, ◌/◌, ◌^◌, ◌≤ℤ◌, ◌++◌, [], pos, negsuc, length, map, take, reverse, Some, IfOk};
ghost use Rattle.std.specs.List.{AllByRecursion};
ghost use Rattle.serde_json.specs.Data.{number};
ghost use Rattle.serde_json.specs.Find.{of_integer};
ghost use Rattle.serde_json.specs.View.{view};
ghost use Rattle.hdf_types.specs.Elems.{int as int_type};
ghost use Rattle.hdf_types.specs.Reading.{int_size};
ghost use Rattle.hdf_types.specs.Types.{IsWidth};
ghost use Rattle.hdf_values.specs.Integers.{integer_in, in_range as is_in_range, least as least_of};
ghost use Rattle.hdf_values.specs.Integers.{greatest as greatest_of, int_bytes, int_value, twos as twos_of};
ghost use Rattle.hdf_values.specs.Integers.{in_order, number_of, signed_of};
ghost use Rattle.hdf_values.specs.Elements.{Fits, IsNumberIn, decoded, int_encoded, outcome};
ghost use Rattle.hdf_values.specs.Nested.{Appends, AppendsEach, pieces};
ghost use Rattle.hdf_values.specs.Streamed.{Told};

use crate::{Misfit, ValueFault};
use hdf_types::IntType;
use serde_json::Value;
use std::alloc::{AllocError, Global};

/// The whole number that a tree is.
pub fn integer_in(tree: &Value) -> Option<i128>
    ensures { result ≡ integer_in (view tree.now) }
{
    tree.as_number()?.as_i128()
}

/// The least number of a type.
pub(crate) fn least(int: &IntType) -> i128
    requires { IsWidth int.now.bits }
    ensures { result ≡ least_of int.now }
{
    if int.signed {
        -(1i128 << (int.bits - 1))
    } else {
        0
    }
}

/// The greatest number of a type.
pub(crate) fn greatest(int: &IntType) -> i128
    requires { IsWidth int.now.bits }
    ensures { result ≡ greatest_of int.now }
{
    if int.signed {
        (1i128 << (int.bits - 1)) - 1
    } else {
        (1i128 << int.bits) - 1
    }
}

fn in_range(int: &IntType, value: i128) -> bool
    requires { IsWidth int.now.bits }
    ensures { result ≡ is_in_range int.now value }
{
    is_between(least(int), value, greatest(int))
}

/// Whether a number is none of those below or above.
#[inline(always)]
pub(crate) fn is_between(low: i128, value: i128, high: i128) -> bool
    ensures { result ≡ (int_le low value && int_le value high) }
{
    low <= value && value <= high
}

/// Writes the bytes of a tree that is a number of this type.
pub fn encode_int(int: &IntType, tree: &Value, out: &mut [u8]) -> Result<(), Misfit>
    requires width { IsWidth int.now.bits }
    requires room { length out.old ≡ int.now.bits / 8 }
    ensures exact { outcome result out.new ≡ int_encoded int.now (integer_in (view tree.now)) }
    ensures len { length out.new ≡ length out.old }
{
    let value = number_in(int, tree)?;
    write_int(int, value, out);
    Ok(())
}

/// The number of this type that a tree is.
fn number_in(int: &IntType, tree: &Value) -> Result<i128, Misfit>
    requires { IsWidth int.now.bits }
    ensures { IsNumberIn int.now (integer_in (view tree.now)) result }
{
    let value = integer_in(tree).ok_or(Misfit::NotOfType)?;
    if in_range(int, value) {
        Ok(value)
    } else {
        Err(Misfit::OutOfRange)
    }
}

/// Appends the bytes of trees that are numbers of this type, the first of which has a place; the
/// answer is the place behind the last.
pub(crate) fn read_ints(
    int: &IntType,
    items: &[Value],
    place: u64,
    out: &mut Vec<u8>,
) -> Result<u64, ValueFault>
    requires width { IsWidth int.now.bits }
    requires place { place * int_size int.now.bits ≡ length out.old.items }
    ensures reads { AppendsEach (int_type int.now) []
        (map view items.now) place out.old.items out.new.items result }
    ensures fits { IfOk result
        (λ _. AllByRecursion (Fits (int_type int.now)) (map view items.now)) }
    ensures place { IfOk result (λ next. next * int_size int.now.bits ≡ length out.new.items) }
{
    let mut next = place;
    for item in items {
        next = read_int(int, item, next, out)?;
    }
    Ok(next)
}

fn read_int(int: &IntType, tree: &Value, place: u64, out: &mut Vec<u8>) -> Result<u64, ValueFault>
    requires width { IsWidth int.now.bits }
    requires place { place * int_size int.now.bits ≡ length out.old.items }
    ensures reads { Appends (int_type int.now) []
        (view tree.now) place out.old.items out.new.items result }
    ensures fits { IfOk result (λ _. Fits (int_type int.now) (view tree.now)) }
    ensures place { IfOk result (λ next. next * int_size int.now.bits ≡ length out.new.items) }
{
    match number_in(int, tree) {
        Ok(value) => push_int(int, value, out)?,
        Err(misfit) => return Err(misfit.at(place)),
    }
    Ok(place + 1)
}

/// Appends the bytes of a whole number, or tells why it is none of this type.
pub(crate) fn push_number(
    int: &IntType,
    value: i128,
    out: &mut Vec<u8>,
) -> Result<Option<Misfit>, AllocError>
    requires { IsWidth int.now.bits }
    ensures { IfOk result (λ misfit. Told misfit out.old.items out.new.items
        (int_encoded int.now (Some value))) }
{
    if !in_range(int, value) {
        return Ok(Some(Misfit::OutOfRange));
    }
    push_int(int, value, out)?;
    Ok(None)
}

/// Appends the bytes of a number of this type.
#[inline(always)]
pub(crate) fn push_int(int: &IntType, value: i128, out: &mut Vec<u8>) -> Result<(), AllocError>
    requires width { IsWidth int.now.bits }
    requires fits { is_in_range int.now value ≡ true }
    ensures { IfOk result (λ _. out.new.items ≡ out.old.items ++ int_bytes int.now value) }
{
    let bytes = eight_bytes(int, value);
    let bytes = bytes.as_slice();
    match int.bits {
        8 => out.extend_from_slice(&bytes[..1]),
        16 => out.extend_from_slice(&bytes[..2]),
        32 => out.extend_from_slice(&bytes[..4]),
        _ => out.extend_from_slice(bytes),
    }
}

fn write_int(int: &IntType, value: i128, out: &mut [u8])
    requires width { IsWidth int.now.bits }
    requires room { length out.old ≡ int.now.bits / 8 }
    requires fits { is_in_range int.now value ≡ true }
    ensures { out.new ≡ int_bytes int.now value }
{
    let bytes = eight_bytes(int, value);
    let (front, _) = bytes.as_slice().split_at((int.bits / 8) as usize);
    out.copy_from_slice(front);
}

/// Eight bytes, in front of which stand those of a number of this type.
fn eight_bytes(int: &IntType, value: i128) -> [u8; 8]
    requires width { IsWidth int.now.bits }
    requires fits { is_in_range int.now value ≡ true }
    ensures { take (int.now.bits / 8) result ≡ int_bytes int.now value }
{
    let number = twos(int.bits, value);
    if int.big {
        (number << (64 - int.bits)).to_be_bytes()
    } else {
        number.to_le_bytes()
    }
}

/// The number in two's complement.
fn twos(bits: u8, value: i128) -> u64
    requires width { IsWidth bits }
    requires not_below { negsuc (2 ^ (bits - 1) - 1) ≤ℤ value }
    requires not_above { value ≤ℤ pos (2 ^ bits - 1) }
    ensures { result ≡ twos_of bits value }
{
    if value < 0 {
        ((1i128 << bits) + value) as u64
    } else {
        value as u64
    }
}

/// The numbers that so many pieces of the bytes are, as trees.
pub(crate) fn ints_list(
    alloc: Global,
    int: &IntType,
    count: u64,
    bytes: &[u8],
) -> Result<Vec<Value>, AllocError>
    requires width { IsWidth int.now.bits }
    requires room { length bytes.now ≡ count * int_size int.now.bits }
    ensures { IfOk result (λ list. map view list.items
        ≡ map (decoded (int_type int.now)) (pieces count (int_size int.now.bits) bytes.now)) }
{
    let size = (int.bits / 8) as usize;
    let mut list = Vec::with_capacity(alloc, count as usize)?;
    let mut left = bytes;
    for _ in 0..count {
        let (front, back) = left.split_at(size);
        list.push(decode_int(int, front))?;
        left = back;
    }
    Ok(list)
}

/// The number that bytes are, as a tree.
pub fn decode_int(int: &IntType, bytes: &[u8]) -> Value
    requires width { IsWidth int.now.bits }
    requires room { length bytes.now ≡ int.now.bits / 8 }
    ensures { view result ≡ number (of_integer (int_value int.now bytes.now)) }
{
    let found = plain_number(int, bytes);
    if int.signed {
        Value::from(signed(int.bits, found))
    } else {
        Value::from(found)
    }
}

/// The number that bytes are in the order of their type, taken without a sign.
pub(crate) fn plain_number(int: &IntType, bytes: &[u8]) -> u64
    requires width { IsWidth int.now.bits }
    requires room { length bytes.now ≡ int.now.bits / 8 }
    ensures value { result ≡ number_of (in_order int.now.big bytes.now) }
    ensures within { result < 2 ^ int.now.bits }
{
    if int.big {
        high_first(bytes)
    } else {
        low_first(bytes)
    }
}

fn low_first(bytes: &[u8]) -> u64
    requires { IsWidth (8 * length bytes.now) }
    ensures { result ≡ number_of bytes.now }
{
    match bytes {
        [a] => u64::from(*a),
        [a, b] => u64::from(u16::from_le_bytes([*a, *b])),
        [a, b, c, d] => u64::from(u32::from_le_bytes([*a, *b, *c, *d])),
        [a, b, c, d, e, f, g, h] => u64::from_le_bytes([*a, *b, *c, *d, *e, *f, *g, *h]),
        _ => unreachable!(),
    }
}

fn high_first(bytes: &[u8]) -> u64
    requires { IsWidth (8 * length bytes.now) }
    ensures { result ≡ number_of (reverse bytes.now) }
{
    match bytes {
        [a] => u64::from(*a),
        [a, b] => u64::from(u16::from_be_bytes([*a, *b])),
        [a, b, c, d] => u64::from(u32::from_be_bytes([*a, *b, *c, *d])),
        [a, b, c, d, e, f, g, h] => u64::from_be_bytes([*a, *b, *c, *d, *e, *f, *g, *h]),
        _ => unreachable!(),
    }
}

/// The number whose two's complement is this.
pub(crate) fn signed(bits: u8, value: u64) -> i64
    requires width { IsWidth bits }
    requires within { value < 2 ^ bits }
    ensures { result ≡ signed_of bits value }
{
    let wide = i128::from(value);
    if value < 1u64 << (bits - 1) {
        wide as i64
    } else {
        (wide - (1i128 << bits)) as i64
    }
}
