//! Integers and texts, as trees spell them (HDF5/JSON, "Type").

ghost use Rattle.std.specs.Prelude.{◌≡◌, false, option_map, option_and_then, codes};
ghost use Rattle.serde_json.specs.Find.{get};
ghost use Rattle.serde_json.specs.View.{view};
ghost use Rattle.json_trees.specs.Trees.{whole_in};
ghost use Rattle.json_trees.specs.Shown.{shown};
ghost use Rattle.hdf_types.specs.Faults.{Gives};
ghost use Rattle.hdf_types.specs.Views.{elem};
ghost use Rattle.hdf_types.specs.Reading.{int_named, name_cause, named_at, integer_at, string_at, sized_at};
ghost use Rattle.hdf_types.specs.Reading.{is_variable, word_or, sets, pads, class_cause};
ghost use Rattle.hdf_types.specs.declared.Pad.TheVariants.{NullTerm};

use crate::faults::refused;
use crate::{Cause, Class, ElemType, FieldPath, IntType, MAX_TEXT, Pad, TextType, TypeFault};
use json_trees::{member_text, whole_number};
use serde_json::Value;

#[tactic(auto, unfolding(crate::specs::Reading::int_named))]
fn int_named(name: &str) -> Option<IntType>
    ensures { result ≡ int_named name.now }
{
    let (signed, bits, big) = match name {
        "H5T_STD_I8LE" => (true, 8, false),
        "H5T_STD_I8BE" => (true, 8, true),
        "H5T_STD_I16LE" => (true, 16, false),
        "H5T_STD_I16BE" => (true, 16, true),
        "H5T_STD_I32LE" => (true, 32, false),
        "H5T_STD_I32BE" => (true, 32, true),
        "H5T_STD_I64LE" => (true, 64, false),
        "H5T_STD_I64BE" => (true, 64, true),
        "H5T_STD_U8LE" => (false, 8, false),
        "H5T_STD_U8BE" => (false, 8, true),
        "H5T_STD_U16LE" => (false, 16, false),
        "H5T_STD_U16BE" => (false, 16, true),
        "H5T_STD_U32LE" => (false, 32, false),
        "H5T_STD_U32BE" => (false, 32, true),
        "H5T_STD_U64LE" => (false, 64, false),
        "H5T_STD_U64BE" => (false, 64, true),
        _ => return None,
    };
    Some(IntType { signed, bits, big })
}

fn name_cause(name: &str) -> Cause
    ensures { result ≡ name_cause name.now }
{
    if name.as_bytes().starts_with(b"H5T_IEEE_") {
        Cause::Unsupported {
            class: Class::Float,
        }
    } else {
        Cause::NotAType
    }
}

/// The integer of a name, as `H5T_STD_I32LE`.
#[tactic(auto, unfolding(crate::specs::Reading::named_at))]
pub fn named(name: &str, path: &FieldPath) -> Result<ElemType, TypeFault>
    ensures { Gives elem result (named_at path.now name.now) }
{
    match int_named(name) {
        Some(int) => Ok(ElemType::Int(int)),
        None => { Err(refused(path, name_cause(name))) }
    }
}

/// An object of the class `H5T_INTEGER`.
#[tactic(auto, unfolding(crate::specs::Reading::integer_at))]
pub fn integer(tree: &Value, path: &FieldPath) -> Result<ElemType, TypeFault>
    ensures { Gives elem result (integer_at path.now (view tree.now)) }
{
    match member_text(tree, "base") {
        Some(name) => named(name, path),
        None => { Err(refused(path, Cause::NotAType)) }
    }
}

fn is_variable(tree: &Value) -> bool
    ensures { result ≡ is_variable (view tree.now) }
{
    match member_text(tree, "length") {
        Some(word) => word == "H5T_VARIABLE",
        None => false,
    }
}

fn char_set(tree: Option<&Value>) -> Option<bool>
    ensures { result ≡ word_or false sets (shown tree.entry) }
{
    let Some(tree) = tree else {
        return Some(false);
    };
    match tree.as_str()? {
        "H5T_CSET_ASCII" => Some(false),
        "H5T_CSET_UTF8" => Some(true),
        _ => None,
    }
}

fn pad_of(tree: Option<&Value>) -> Option<Pad>
    ensures { result ≡ word_or NullTerm pads (shown tree.entry) }
{
    let Some(tree) = tree else {
        return Some(Pad::NullTerm);
    };
    match tree.as_str()? {
        "H5T_STR_NULLTERM" => Some(Pad::NullTerm),
        "H5T_STR_NULLPAD" => Some(Pad::NullPad),
        "H5T_STR_SPACEPAD" => Some(Pad::SpacePad),
        _ => None,
    }
}

fn length_of(tree: &Value) -> Option<u64>
    ensures { result ≡ option_and_then whole_in (get (codes "length") (view tree.now)) }
{
    whole_number(tree.get("length")?)
}

#[tactic(auto, unfolding(crate::specs::Reading::sized_at))]
fn sized(utf8: bool, pad: Pad, len: u64, path: &FieldPath) -> Result<ElemType, TypeFault>
    ensures { Gives elem result (sized_at path.now utf8 pad len) }
{
    if 1 <= len && len <= MAX_TEXT {
        let len = len as u32;
        Ok(ElemType::Text(TextType { utf8, pad, len }))
    } else {
        Err(refused(path, Cause::BadLength))
    }
}

/// An object of the class `H5T_STRING`.
#[tactic(auto, unfolding(crate::specs::Reading::string_at))]
pub fn string(tree: &Value, path: &FieldPath) -> Result<ElemType, TypeFault>
    ensures { Gives elem result (string_at path.now (view tree.now)) }
{
    if is_variable(tree) {
        let class = Class::String;
        return Err(refused(path, Cause::Unsupported { class }));
    }
    let utf8 = char_set(tree.get("charSet")).ok_or(refused(path, Cause::NotAType))?;
    let pad = pad_of(tree.get("strPad")).ok_or(refused(path, Cause::NotAType))?;
    let len = length_of(tree).ok_or(refused(path, Cause::NotAType))?;
    sized(utf8, pad, len, path)
}

/// Why a class is not read: one that is not supported, or no class of types.
#[tactic(auto, unfolding(crate::specs::Reading::class_cause))]
pub fn class_cause(name: &str) -> Cause
    ensures { result ≡ class_cause name.now }
{
    let class = match name {
        "H5T_FLOAT" => Class::Float,
        "H5T_REFERENCE" => Class::Reference,
        "H5T_VLEN" => Class::Vlen,
        "H5T_OPAQUE" => Class::Opaque,
        "H5T_BITFIELD" => Class::Bitfield,
        "H5T_ARRAY" => Class::Array,
        "H5T_ENUM" => Class::Enum,
        "H5T_TIME" => Class::Time,
        _ => return Cause::NotAType,
    };
    Cause::Unsupported { class }
}
