//! The tree that spells a type (HDF5/JSON, "Type"), in its full form.

ghost use Rattle.std.specs.Prelude.{◌≡◌, Ok, IfOk};
ghost use Rattle.serde_json.specs.Data.{array};
ghost use Rattle.serde_json.specs.View.{view, items_of};
ghost use Rattle.hdf_types.specs.Views.{elem};
ghost use Rattle.hdf_types.specs.Reading.{type_of};
ghost use Rattle.hdf_types.specs.Types.{IsSoundType};
ghost use Rattle.hdf_types.specs.Printed.{pick_of, int_name, set_name, pad_name, int_tree, text_tree, field_tree, type_tree, fields_trees};

use crate::{ElemType, Field, Fields, IntType, Pad, TextType};
use serde_json::{Value, json};
use std::alloc::{AllocError, Global};

/// The tree that spells a type: an object with all keys, also those that have a default.
///
/// # Errors
///
/// Only where memory runs out.
pub fn type_json(alloc: Global, kind: &ElemType) -> Result<Value, AllocError>
    ensures tree { IfOk result (λ v. view v ≡ type_tree (elem kind.now)) }
    ensures reads_back { IsSoundType (elem kind.now)
        → IfOk result (λ v. type_of (view v) ≡ Ok (elem kind.now)) }
{
    kind_json(alloc, kind)
}

#[cycle(json)]
fn kind_json(alloc: Global, kind: &ElemType) -> Result<Value, AllocError>
    ensures { IfOk result (λ v. view v ≡ type_tree (elem kind.now)) }
{
    match kind {
        ElemType::Int(int) => int_json(alloc, int),
        ElemType::Text(text) => text_json(alloc, text),
        ElemType::Compound(fields) => {
            let list = fields_json(alloc, fields)?;
            json!(in alloc; {"class": "H5T_COMPOUND", "fields": list})
        }
    }
}

#[cycle(json)]
fn fields_json(alloc: Global, fields: &Fields) -> Result<Value, AllocError>
    ensures { IfOk result (λ v. view v ≡ array (items_of (fields_trees fields.now))) }
{
    let mut list = Vec::new(alloc);
    for field in fields.as_slice() {
        list.push(field_json(alloc, field)?)?;
    }
    Ok(Value::Array(list))
}

#[cycle(json)]
fn field_json(alloc: Global, field: &Field) -> Result<Value, AllocError>
    ensures { IfOk result (λ v. view v ≡ field_tree field.now.name (type_tree (elem field.now.elem))) }
{
    let inner = kind_json(alloc, &field.elem)?;
    json!(in alloc; {"name": field.name.text(), "type": inner})
}

fn int_json(alloc: Global, int: &IntType) -> Result<Value, AllocError>
    ensures { IfOk result (λ v. view v ≡ int_tree int.now) }
{
    json!(in alloc; {"base": int_name(int), "class": "H5T_INTEGER"})
}

fn text_json(alloc: Global, text: &TextType) -> Result<Value, AllocError>
    ensures { IfOk result (λ v. view v ≡ text_tree text.now) }
{
    let set = set_name(text.utf8);
    let pad = pad_name(text.pad);
    json!(in alloc; {"charSet": set, "class": "H5T_STRING", "length": text.len, "strPad": pad})
}

#[tactic(auto, unfolding(crate::specs::Printed::int_name))]
fn int_name(int: &IntType) -> &'static str
    ensures { result.now ≡ int_name int.now }
{
    if int.bits == 8 {
        pick(
            int,
            "H5T_STD_I8LE",
            "H5T_STD_I8BE",
            "H5T_STD_U8LE",
            "H5T_STD_U8BE",
        )
    } else if int.bits == 16 {
        pick(
            int,
            "H5T_STD_I16LE",
            "H5T_STD_I16BE",
            "H5T_STD_U16LE",
            "H5T_STD_U16BE",
        )
    } else if int.bits == 32 {
        pick(
            int,
            "H5T_STD_I32LE",
            "H5T_STD_I32BE",
            "H5T_STD_U32LE",
            "H5T_STD_U32BE",
        )
    } else {
        pick(
            int,
            "H5T_STD_I64LE",
            "H5T_STD_I64BE",
            "H5T_STD_U64LE",
            "H5T_STD_U64BE",
        )
    }
}

/// One of four names: signed or not, low byte first or high byte first.
fn pick(
    int: &IntType,
    signed_low: &'static str,
    signed_high: &'static str,
    low: &'static str,
    high: &'static str,
) -> &'static str
    ensures { result.now ≡ pick_of int.now signed_low.now signed_high.now low.now high.now }
{
    match (int.signed, int.big) {
        (true, false) => signed_low,
        (true, true) => signed_high,
        (false, false) => low,
        (false, true) => high,
    }
}

fn set_name(utf8: bool) -> &'static str
    ensures { result.now ≡ set_name utf8 }
{
    if utf8 {
        "H5T_CSET_UTF8"
    } else {
        "H5T_CSET_ASCII"
    }
}

fn pad_name(pad: Pad) -> &'static str
    ensures { result.now ≡ pad_name pad }
{
    match pad {
        Pad::NullTerm => "H5T_STR_NULLTERM",
        Pad::NullPad => "H5T_STR_NULLPAD",
        Pad::SpacePad => "H5T_STR_SPACEPAD",
    }
}
