//! Whole numbers, packed one after another.

ghost use Rattle.std.specs.Prelude.{◌≡◌, ◌++◌, ◌∷◌, [], ℤ, List, length, true, false, IfOk, MatchResult};
ghost use Rattle.hdf_values.specs.Integers.{int_bytes, int_value};
ghost use Rattle.hdf_values.specs.Packed.{ArePacked, plain};

use crate::integers::{plain_number, signed};
use hdf_types::IntType;
use std::alloc::{AllocError, Global};
use std::marker::Model;

/// The most bytes of numbers of 32 bits that are written again as numbers of 64: 2^24.
const MAX_WIDENED: usize = 16_777_216;

/// Whole numbers as bytes, seen as the numbers: each of 32 bits while all fit, else of 64.
#[derive(Drop)]
pub(crate) struct Numbers {
    is_wide: bool,
    bytes: Vec<u8>,
}

impl Model for Numbers {
    ghost use Rattle.std.specs.Prelude.{ℤ, List};
    ghost use Rattle.hdf_values.specs.Packed.{ArePacked, numbers_in, plain};

    ghost Value = { List ℤ };

    ghost view = { λ a. numbers_in (plain a.is_wide) a.bytes.items };

    ghost invariant = { λ a. (zs : List ℤ) × ArePacked (plain a.is_wide) a.bytes.items zs };
}

impl Numbers {
    /// No number.
    pub(crate) fn new(alloc: Global) -> Numbers
        ensures { result ≡ [] }
    {
        Numbers {
            is_wide: false,
            bytes: Vec::new(alloc),
        }
    }

    /// Whether a number may be added. It may not where more than [`MAX_WIDENED`] bytes would be
    /// written again for it.
    #[inline(always)]
    pub(crate) fn may_push(&self, number: i64) -> bool {
        self.bytes.len() <= MAX_WIDENED || self.is_wide || i32::try_from(number).is_ok()
    }

    /// Adds a number at the end.
    #[inline(always)]
    pub(crate) fn push(&mut self, number: i64) -> Result<(), AllocError>
        ensures { IfOk result (λ _. self.new ≡ self.old ++ number ∷ []) }
    {
        if self.is_wide {
            return push_wide(&mut self.bytes, number);
        }
        match i32::try_from(number) {
            Ok(small) => push_narrow(&mut self.bytes, small),
            Err(_) => {
                self.bytes = widened(*self.bytes.allocator(), self.bytes.as_slice())?;
                self.is_wide = true;
                push_wide(&mut self.bytes, number)
            }
        }
    }

    /// The type and the bytes.
    pub(crate) fn into_bytes(self) -> (IntType, Vec<u8>)
        ensures { ArePacked result.0 result.1.items self }
    {
        (plain(self.is_wide), self.bytes)
    }
}

/// The type of the numbers.
fn plain(is_wide: bool) -> IntType
    ensures { result ≡ plain is_wide }
{
    IntType {
        signed: true,
        bits: if is_wide { 64 } else { 32 },
        big: false,
    }
}

/// Appends the bytes of a number of 32 bits.
#[inline(always)]
fn push_narrow(bytes: &mut Vec<u8>, number: i32) -> Result<(), AllocError>
    ensures { MatchResult result
        (λ _. bytes.new.items ≡ bytes.old.items ++ int_bytes (plain false) number)
        (λ _. bytes.new.items ≡ bytes.old.items) }
{
    bytes.extend_from_slice(&number.to_le_bytes())
}

/// Appends the bytes of a number of 64 bits.
#[inline(always)]
fn push_wide(bytes: &mut Vec<u8>, number: i64) -> Result<(), AllocError>
    ensures { MatchResult result
        (λ _. bytes.new.items ≡ bytes.old.items ++ int_bytes (plain true) number)
        (λ _. bytes.new.items ≡ bytes.old.items) }
{
    bytes.extend_from_slice(&number.to_le_bytes())
}

/// The bytes of the same numbers, of 64 bits each in place of 32.
#[inline(never)]
fn widened(alloc: Global, bytes: &[u8]) -> Result<Vec<u8>, AllocError>
    ensures { IfOk result (λ wide. (zs : List ℤ)
        → ArePacked (plain false) bytes.now zs → ArePacked (plain true) wide.items zs) }
{
    let mut wide = Vec::with_capacity(alloc, bytes.len().saturating_mul(2))?;
    let mut left = bytes;
    let count = bytes.len() / 4;
    for _ in 0..count {
        let (front, back) = left.split_at(4);
        push_wide(&mut wide, narrow(front))?;
        left = back;
    }
    Ok(wide)
}

/// The number of 32 bits that bytes are.
fn narrow(bytes: &[u8]) -> i64
    requires { length bytes.now ≡ 4 }
    ensures { result ≡ int_value (plain false) bytes.now }
{
    signed(32, plain_number(&plain(false), bytes))
}
