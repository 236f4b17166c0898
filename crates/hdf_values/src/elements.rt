//! One element: its bytes from a tree, and a tree from its bytes.

ghost use Rattle.std.specs.Prelude.{◌≡◌, ◌↔◌, ◌≤◌, ◌++◌, ℕ, List, Ok, IsTrue, IfOk, length, map};
ghost use Rattle.serde_json.specs.Data.{Data};
ghost use Rattle.serde_json.specs.View.{view};
ghost use Rattle.hdf_types.specs.Reading.{size_of, fields_size};
ghost use Rattle.hdf_types.specs.Types.{IsSoundType, IsFormed, AreFormed};
ghost use Rattle.hdf_types.specs.Views.{elem, field_list};
ghost use Rattle.hdf_types.specs.declared.TheConstants.{MAX_SIZE};
ghost use Rattle.hdf_values.specs.Elements.{Fits, FitFields, bytes_of, fields_bytes, normal, IsEncoded};
ghost use Rattle.hdf_values.specs.Elements.{AreEncodedFields, decoded, fields_decoded, zero_of, zeros_of};
ghost use Rattle.hdf_values.specs.Elements.{encoded, fields_encoded, joined, outcome};
ghost use Rattle.hdf_values.specs.Nested.{placed};

use crate::integers::{decode_int, encode_int};
use crate::texts::{decode_text, encode_text, is_encoded_text, zero_text};
use crate::{Misfit, ValueFault};
use hdf_types::{ElemType, Field};
use json_trees::list_items;
use serde_json::Value;
use std::alloc::{AllocError, Global};

/// Writes the bytes of a tree that is a value of the type.
///
/// # Errors
///
/// The first of [`Misfit`] among all that the element's parts have, at place 0. What `out` holds is
/// then left open.
pub fn encode(kind: &ElemType, tree: &Value, out: &mut [u8]) -> Result<(), ValueFault>
    requires sound { IsSoundType (elem kind.now) }
    requires room { length out.old ≡ size_of (elem kind.now) }
    ensures fits { IfOk result
        (λ _. Fits (elem kind.now) (view tree.now)
        × (out.new ≡ bytes_of (elem kind.now) (view tree.now))) }
    ensures only { Fits (elem kind.now) (view tree.now) → result ≡ Ok tt }
    ensures first { outcome result out.new ≡ placed 0 (encoded (elem kind.now) (view tree.now)) }
    ensures len { length out.new ≡ length out.old }
{
    match encode_part(kind, tree, out) {
        Ok(()) => Ok(()),
        Err(misfit) => Err(misfit.at(0)),
    }
}

/// [`encode`], for a part of an element.
#[cycle(encodes)]
pub(crate) fn encode_part(kind: &ElemType, tree: &Value, out: &mut [u8]) -> Result<(), Misfit>
    requires formed { IsFormed (elem kind.now) }
    requires small { size_of (elem kind.now) ≤ MAX_SIZE }
    requires room { length out.old ≡ size_of (elem kind.now) }
    ensures exact { outcome result out.new ≡ encoded (elem kind.now) (view tree.now) }
    ensures fits { IfOk result (λ _. Fits (elem kind.now) (view tree.now)) }
    ensures len { length out.new ≡ length out.old }
{
    match kind {
        ElemType::Int(int) => encode_int(int, tree, out),
        ElemType::Text(text) => encode_text(text, tree, out),
        ElemType::Compound(fields) => {
            let trees = list_items(tree).ok_or(Misfit::NotOfType)?;
            encode_fields(fields.as_slice(), trees, out)
        }
    }
}

#[cycle(encodes)]
fn encode_fields(fields: &[Field], trees: &[Value], out: &mut [u8]) -> Result<(), Misfit>
    requires formed { AreFormed (field_list fields.now) }
    requires small { fields_size (field_list fields.now) ≤ MAX_SIZE }
    requires room { length out.old ≡ fields_size (field_list fields.now) }
    ensures exact { outcome result out.new
        ≡ fields_encoded (field_list fields.now) (map view trees.now) }
    ensures fits { IfOk result (λ _. FitFields (field_list fields.now) (map view trees.now)) }
    ensures len { length out.new ≡ length out.old }
{
    match (fields.split_first(), trees.split_first()) {
        (None, None) => Ok(()),
        (Some((field, later_fields)), Some((tree, later_trees))) => {
            let (front, back) = out.split_at_mut(field.elem.size() as usize);
            let here = encode_part(&field.elem, tree, front);
            let rest = encode_fields(later_fields, later_trees, back);
            both(here, rest)
        }
        _ => Err(Misfit::NotOfType),
    }
}

/// Ok where both are, else the lower fault.
fn both(here: Result<(), Misfit>, rest: Result<(), Misfit>) -> Result<(), Misfit>
    ensures joins { (front back : List ℕ)
        → outcome result (front ++ back) ≡ joined (outcome here front) (outcome rest back) }
    ensures ok { IfOk result (λ _. (here ≡ Ok tt) × (rest ≡ Ok tt)) }
{
    match (here, rest) {
        (Ok(()), rest) => rest,
        (Err(here), Ok(())) => Err(here),
        (Err(here), Err(rest)) => Err(here.lower(rest)),
    }
}

/// Whether some value of the type has these bytes.
pub fn is_encoded(kind: &ElemType, bytes: &[u8]) -> bool
    requires sound { IsSoundType (elem kind.now) }
    ensures { IsTrue result ↔ IsEncoded (elem kind.now) bytes.now }
{
    is_encoded_part(kind, bytes)
}

#[cycle(tests)]
fn is_encoded_part(kind: &ElemType, bytes: &[u8]) -> bool
    requires formed { IsFormed (elem kind.now) }
    requires small { size_of (elem kind.now) ≤ MAX_SIZE }
    ensures { IsTrue result ↔ IsEncoded (elem kind.now) bytes.now }
{
    match kind {
        ElemType::Int(int) => bytes.len() == (int.bits / 8) as usize,
        ElemType::Text(text) => is_encoded_text(text, bytes),
        ElemType::Compound(fields) => are_encoded_fields(fields.as_slice(), bytes),
    }
}

#[cycle(tests)]
fn are_encoded_fields(fields: &[Field], bytes: &[u8]) -> bool
    requires formed { AreFormed (field_list fields.now) }
    requires small { fields_size (field_list fields.now) ≤ MAX_SIZE }
    ensures { IsTrue result ↔ AreEncodedFields (field_list fields.now) bytes.now }
{
    let Some((field, later_fields)) = fields.split_first() else {
        return bytes.is_empty();
    };
    let size = field.elem.size() as usize;
    if bytes.len() < size {
        return false;
    }
    let (front, back) = bytes.split_at(size);
    is_encoded_part(&field.elem, front) && are_encoded_fields(later_fields, back)
}

/// The value that bytes stand for, as a tree.
///
/// # Errors
///
/// Only where memory runs out.
pub fn decode(alloc: Global, kind: &ElemType, bytes: &[u8]) -> Result<Value, AllocError>
    requires sound { IsSoundType (elem kind.now) }
    requires encoded { IsEncoded (elem kind.now) bytes.now }
    ensures value { IfOk result (λ v. view v ≡ decoded (elem kind.now) bytes.now) }
    ensures inverse { (d : Data) → Fits (elem kind.now) d → bytes_of (elem kind.now) d ≡ bytes.now
        → IfOk result (λ v. view v ≡ normal (elem kind.now) d) }
{
    decode_part(alloc, kind, bytes)
}

#[cycle(decodes)]
fn decode_part(alloc: Global, kind: &ElemType, bytes: &[u8]) -> Result<Value, AllocError>
    requires formed { IsFormed (elem kind.now) }
    requires small { size_of (elem kind.now) ≤ MAX_SIZE }
    requires encoded { IsEncoded (elem kind.now) bytes.now }
    ensures { IfOk result (λ v. view v ≡ decoded (elem kind.now) bytes.now) }
{
    match kind {
        ElemType::Int(int) => Ok(decode_int(int, bytes)),
        ElemType::Text(text) => decode_text(alloc, text, bytes),
        ElemType::Compound(fields) => {
            let list = decode_fields(alloc, fields.as_slice(), bytes)?;
            Ok(Value::Array(list))
        }
    }
}

#[cycle(decodes)]
fn decode_fields(alloc: Global, fields: &[Field], bytes: &[u8]) -> Result<Vec<Value>, AllocError>
    requires formed { AreFormed (field_list fields.now) }
    requires small { fields_size (field_list fields.now) ≤ MAX_SIZE }
    requires encoded { AreEncodedFields (field_list fields.now) bytes.now }
    ensures { IfOk result
        (λ list. map view list.items ≡ fields_decoded (field_list fields.now) bytes.now) }
{
    let mut list = Vec::with_capacity(alloc, fields.len())?;
    let mut left = bytes;
    for field in fields {
        let (front, back) = left.split_at(field.elem.size() as usize);
        list.push(decode_part(alloc, &field.elem, front)?)?;
        left = back;
    }
    Ok(list)
}

/// Writes 0 and the empty text in each part of an element.
pub fn zero(kind: &ElemType, out: &mut [u8])
    requires sound { IsSoundType (elem kind.now) }
    requires room { length out.old ≡ size_of (elem kind.now) }
    ensures { out.new ≡ bytes_of (elem kind.now) (zero_of (elem kind.now)) }
{
    zero_part(kind, out)
}

#[cycle(zeros)]
fn zero_part(kind: &ElemType, out: &mut [u8])
    requires formed { IsFormed (elem kind.now) }
    requires small { size_of (elem kind.now) ≤ MAX_SIZE }
    requires room { length out.old ≡ size_of (elem kind.now) }
    ensures { out.new ≡ bytes_of (elem kind.now) (zero_of (elem kind.now)) }
{
    match kind {
        ElemType::Int(_) => out.fill(0),
        ElemType::Text(text) => zero_text(text, out),
        ElemType::Compound(fields) => zero_fields(fields.as_slice(), out),
    }
}

#[cycle(zeros)]
fn zero_fields(fields: &[Field], out: &mut [u8])
    requires formed { AreFormed (field_list fields.now) }
    requires small { fields_size (field_list fields.now) ≤ MAX_SIZE }
    requires room { length out.old ≡ fields_size (field_list fields.now) }
    ensures { out.new ≡ fields_bytes (field_list fields.now) (zeros_of (field_list fields.now)) }
{
    if let Some((field, later_fields)) = fields.split_first() {
        let (front, back) = out.split_at_mut(field.elem.size() as usize);
        zero_part(&field.elem, front);
        zero_fields(later_fields, back);
    }
}
