//! The numbers that `serde_json` reads of texts.

ghost use Rattle.std.specs.Prelude.{◌≡◌, ◌==◌, ◌<◌, false, true, length, slice_index, IsTrue, is_some, option_and_then};
ghost use Rattle.serde_json.specs.Find.{as_u64};
ghost use Rattle.serde_json.specs.Read.{number_of, number_from, float_of};
ghost use Rattle.json_trees.specs.Numbers.{as_negative};

use fast_float::Numeral;

/// Whether the text of a number stands for one that is in range.
#[inline(never)]
pub fn has_number(text: &str) -> bool
    ensures { result ≡ is_some (number_of text.now) }
{
    let bytes = text.as_bytes();
    if has_minus(bytes) {
        has_negative(&Numeral::scan(&bytes[1..]))
    } else {
        has_unsigned(&Numeral::scan(bytes))
    }
}

/// The whole number of a text, where it is not below 0.
#[inline(never)]
pub fn unsigned_of(text: &str) -> Option<u64>
    ensures { result ≡ option_and_then as_u64 (number_of text.now) }
{
    let bytes = text.as_bytes();
    if has_minus(bytes) {
        None
    } else {
        unsigned(&Numeral::scan(bytes))
    }
}

/// The whole number of a text, where it is below 0.
#[inline(never)]
pub fn negative_of(text: &str) -> Option<i64>
    ensures { result ≡ option_and_then as_negative (number_of text.now) }
{
    let bytes = text.as_bytes();
    if has_minus(bytes) {
        negative(&Numeral::scan(&bytes[1..]))
    } else {
        None
    }
}

#[inline(always)]
fn has_minus(bytes: &[u8]) -> bool
    ensures value { result ≡ (slice_index bytes.now 0 == 45) }
    ensures len { IsTrue result → 0 < length bytes.now }
{
    !bytes.is_empty() && bytes[0] == b'-'
}

#[inline(always)]
fn unsigned(numeral: &Numeral<'_>) -> Option<u64>
    ensures { result ≡ option_and_then as_u64 (number_from false numeral.now) }
{
    numeral.to_u64()
}

#[inline(always)]
fn negative(numeral: &Numeral<'_>) -> Option<i64>
    ensures { result ≡ option_and_then as_negative (number_from true numeral.now) }
{
    match numeral.to_i64(true) {
        Some(n) if n < 0 => Some(n),
        _ => None,
    }
}

#[inline(always)]
fn has_unsigned(numeral: &Numeral<'_>) -> bool
    ensures { result ≡ is_some (number_from false numeral.now) }
{
    numeral.to_u64().is_some() || is_finite(false, numeral)
}

#[inline(always)]
fn has_negative(numeral: &Numeral<'_>) -> bool
    ensures { result ≡ is_some (number_from true numeral.now) }
{
    negative(numeral).is_some() || is_finite(true, numeral)
}

#[inline(always)]
fn is_finite(negative: bool, numeral: &Numeral<'_>) -> bool
    ensures { result ≡ is_some (float_of negative numeral.now) }
{
    numeral.to_float::<f64>(negative).is_finite()
}
