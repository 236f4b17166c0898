//! Texts of a fixed length: their bytes, and what fills them up.

ghost use Rattle.std.specs.Prelude.{◌≡◌, ◌≤◌, ◌↔◌, ◌*◌, ℕ, List, [], length, map, take, replicate};
ghost use Rattle.std.specs.Prelude.{Ok, Some, IsTrue, IfOk, IsUtf8, nat_le, nat_eq};
ghost use Rattle.serde_json.specs.Data.{string};
ghost use Rattle.std.specs.List.{AllByRecursion, list_any};
ghost use Rattle.hdf_types.specs.Elems.{text};
ghost use Rattle.serde_json.specs.Find.{as_str};
ghost use Rattle.serde_json.specs.View.{view};
ghost use Rattle.hdf_values.specs.Texts.{fill as fill_of, most_of, FitsText, text_misfit, padded, without_end};
ghost use Rattle.hdf_values.specs.Nested.{Appends, AppendsEach, AreEncoded, pieces};
ghost use Rattle.hdf_values.specs.Elements.{text_encoded, outcome, Fits, IsEncoded, decoded};
ghost use Rattle.hdf_values.specs.Streamed.{Told};

use crate::{Misfit, ValueFault};
use hdf_types::{Pad, TextType};
use serde_json::Value;
use std::alloc::{AllocError, Global};

pub(crate) fn fill(pad: Pad) -> u8
    ensures { result ≡ fill_of pad }
{
    match pad {
        Pad::NullTerm => 0,
        Pad::NullPad => 0,
        Pad::SpacePad => b' ',
    }
}

/// The most bytes that a text of this type has.
fn most(kind: &TextType) -> usize
    ensures { result ≡ most_of kind.now.pad kind.now.len }
{
    let len = kind.len as usize;
    match kind.pad {
        Pad::NullTerm => len.saturating_sub(1),
        Pad::NullPad => len,
        Pad::SpacePad => len,
    }
}

fn has_other_than_ascii(bytes: &[u8]) -> bool
    ensures { result ≡ list_any (λ b. nat_le 128 b) bytes.now }
{
    for byte in bytes {
        if *byte >= 128 {
            return true;
        }
    }
    false
}

fn has_nul(bytes: &[u8]) -> bool
    ensures { result ≡ list_any (λ b. nat_eq b 0) bytes.now }
{
    for byte in bytes {
        if *byte == 0 {
            return true;
        }
    }
    false
}

/// The first test that a text fails.
#[tactic(auto, unfolding(crate::specs::Texts::text_misfit))]
fn misfit(kind: &TextType, bytes: &[u8]) -> Option<Misfit>
    ensures { result ≡ text_misfit kind.now bytes.now }
{
    if bytes.len() > most(kind) {
        return Some(Misfit::TooLong);
    }
    if !kind.utf8 && has_other_than_ascii(bytes) {
        return Some(Misfit::NotAscii);
    }
    if has_nul(bytes) {
        return Some(Misfit::Nul);
    }
    None
}

/// Writes the bytes of a tree that is a text of this type.
pub fn encode_text(kind: &TextType, tree: &Value, out: &mut [u8]) -> Result<(), Misfit>
    requires room { length out.old ≡ kind.now.len }
    ensures exact { outcome result out.new ≡ text_encoded kind.now (as_str (view tree.now)) }
    ensures fits { IfOk result (λ _. Fits (text kind.now) (view tree.now)) }
    ensures len { length out.new ≡ length out.old }
{
    let given = tree.as_str().ok_or(Misfit::NotOfType)?.as_bytes();
    if let Some(misfit) = misfit(kind, given) {
        return Err(misfit);
    }
    let (front, back) = out.split_at_mut(given.len());
    front.copy_from_slice(given);
    back.fill(fill(kind.pad));
    Ok(())
}

/// Appends the bytes of trees that are texts of this type, the first of which has a place; the
/// answer is the place behind the last.
pub(crate) fn read_texts(
    kind: &TextType,
    items: &[Value],
    place: u64,
    out: &mut Vec<u8>,
) -> Result<u64, ValueFault>
    requires some { 1 ≤ kind.now.len }
    requires place { place * kind.now.len ≡ length out.old.items }
    ensures reads { AppendsEach (text kind.now) []
        (map view items.now) place out.old.items out.new.items result }
    ensures fits { IfOk result (λ _. AllByRecursion (Fits (text kind.now)) (map view items.now)) }
    ensures place { IfOk result (λ next. next * kind.now.len ≡ length out.new.items) }
{
    let mut next = place;
    for item in items {
        next = read_text(kind, item, next, out)?;
    }
    Ok(next)
}

fn read_text(
    kind: &TextType,
    tree: &Value,
    place: u64,
    out: &mut Vec<u8>,
) -> Result<u64, ValueFault>
    requires some { 1 ≤ kind.now.len }
    requires place { place * kind.now.len ≡ length out.old.items }
    ensures reads { Appends (text kind.now) []
        (view tree.now) place out.old.items out.new.items result }
    ensures fits { IfOk result (λ _. Fits (text kind.now) (view tree.now)) }
    ensures place { IfOk result (λ next. next * kind.now.len ≡ length out.new.items) }
{
    let from = out.len();
    out.resize(from + kind.len as usize, 0)?;
    let (_, room) = out.as_mut_slice().split_at_mut(from);
    match encode_text(kind, tree, room) {
        Ok(()) => Ok(place + 1),
        Err(misfit) => Err(misfit.at(place)),
    }
}

/// Appends the bytes of a text, or tells why it is none of this type.
pub(crate) fn push_text(
    kind: &TextType,
    given: &str,
    out: &mut Vec<u8>,
) -> Result<Option<Misfit>, AllocError>
    ensures { IfOk result (λ misfit. Told misfit out.old.items out.new.items
        (text_encoded kind.now (Some given.now))) }
{
    let bytes = given.as_bytes();
    if let Some(misfit) = misfit(kind, bytes) {
        return Ok(Some(misfit));
    }
    let end = out.len() + kind.len as usize;
    out.extend_from_slice(bytes)?;
    out.resize(end, fill(kind.pad))?;
    Ok(None)
}

/// How many bytes stand in front of those that fill up.
pub(crate) fn kept_len(bytes: &[u8], fill: u8) -> usize
    ensures within { result ≤ length bytes.now }
    ensures front { take result bytes.now ≡ without_end fill bytes.now }
{
    let mut len = bytes.len();
    while len > 0 && bytes[len - 1] == fill {
        len -= 1;
    }
    len
}

/// Writes the empty text.
pub fn zero_text(kind: &TextType, out: &mut [u8])
    requires { length out.old ≡ kind.now.len }
    ensures { out.new ≡ replicate kind.now.len (fill_of kind.now.pad) }
{
    out.fill(fill(kind.pad));
}

/// Whether some text of this type has these bytes.
pub fn is_encoded_text(kind: &TextType, bytes: &[u8]) -> bool
    requires { 1 ≤ kind.now.len }
    ensures { IsTrue result ↔ IsEncoded (text kind.now) bytes.now }
{
    if bytes.len() != kind.len as usize {
        return false;
    }
    let kept = &bytes[..kept_len(bytes, fill(kind.pad))];
    match str::from_utf8(kept) {
        Ok(_) => misfit(kind, kept).is_none(),
        Err(_) => false,
    }
}

/// The text that bytes are, as a tree.
pub fn decode_text(alloc: Global, kind: &TextType, bytes: &[u8]) -> Result<Value, AllocError>
    requires { IsEncoded (text kind.now) bytes.now }
    ensures { IfOk result (λ v. view v ≡ decoded (text kind.now) bytes.now) }
{
    let kept = &bytes[..kept_len(bytes, fill(kind.pad))];
    match str::from_utf8(kept) {
        Ok(text) => Ok(Value::String(String::from_str(alloc, text)?)),
        Err(_) => unreachable!(),
    }
}

/// The texts that so many pieces of the bytes are, as trees.
pub(crate) fn texts_list(
    alloc: Global,
    kind: &TextType,
    count: u64,
    bytes: &[u8],
) -> Result<Vec<Value>, AllocError>
    requires { AreEncoded (text kind.now) count bytes.now }
    ensures { IfOk result (λ list. map view list.items
        ≡ map (decoded (text kind.now)) (pieces count kind.now.len bytes.now)) }
{
    let mut list = Vec::with_capacity(alloc, count as usize)?;
    let mut left = bytes;
    for _ in 0..count {
        let (front, back) = left.split_at(kind.len as usize);
        list.push(decode_text(alloc, kind, front)?)?;
        left = back;
    }
    Ok(list)
}
