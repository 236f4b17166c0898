//! Bytes that are elements of a type, or not.

ghost use Rattle.hdf_types.specs.Types.{IsSoundType};
ghost use Rattle.hdf_types.specs.Views.{elem};

use crate::tables::{column, had, tree};
use hdf_types::{ElemType, read_type};
use hdf_values::{decode, first_unencoded, is_encoded, pieces_of_joins};
use std::process::Abort;

/// A row a line: the name of a type here, and its tree. The texts `term` and `full` have 4 bytes, with
/// and without a byte behind, `spaced` 3 with spaces behind, and `utf8` 2 of UTF-8; a `pair` is a number
/// of 16 bits and a text of 4 bytes.
static TYPES: &str = r#"u16|"H5T_STD_U16BE"
term|{"class":"H5T_STRING","length":4}
full|{"class":"H5T_STRING","length":4,"strPad":"H5T_STR_NULLPAD"}
spaced|{"class":"H5T_STRING","length":3,"strPad":"H5T_STR_SPACEPAD"}
utf8|{"class":"H5T_STRING","charSet":"H5T_CSET_UTF8","length":2,"strPad":"H5T_STR_NULLPAD"}
pair|{"class":"H5T_COMPOUND","fields":[{"name":"n","type":"H5T_STD_I16BE"},{"name":"t","type":{"class":"H5T_STRING","length":4,"strPad":"H5T_STR_NULLPAD"}}]}"#;

/// The tree of a name's type, as text.
fn type_text(name: &str) -> &'static str {
    for row in TYPES.lines() {
        if column(row, 0) == name {
            return column(row, 1);
        }
    }
    "null"
}

/// The type of a name.
fn kind_of(rt: &(impl Abort + AllocGlobal), name: &str) -> ElemType
    ensures { IsSoundType (elem result) }
{
    read_type(rt.alloc(), &tree(rt, type_text(name))).expect(rt, "a type")
}

/// The element that bytes are, if they are one.
fn element(rt: &(impl Abort + AllocGlobal), kind: &ElemType, bytes: &[u8]) -> String
    requires { IsSoundType (elem kind.now) }
{
    if is_encoded(kind, bytes) {
        let tree = decode(rt.alloc(), kind, bytes).expect(rt, "memory");
        had(rt, tree.to_string(rt.alloc()))
    } else {
        had(rt, String::from_str(rt.alloc(), "no bytes"))
    }
}

/// Where bytes begin with no element, or the last element that they are.
fn last_of(rt: &(impl Abort + AllocGlobal), kind: &ElemType, bytes: &[u8]) -> String
    requires { IsSoundType (elem kind.now) }
{
    if let Some(index) = first_unencoded(kind, bytes) {
        return had(rt, format!(in rt.alloc(); "none at {index}"));
    }
    let before = bytes.len().saturating_sub(kind.size() as usize);
    element(rt, kind, bytes.get(before..).unwrap_or(&[]))
}

/// The bytes that hexadecimal digits spell.
fn unhex(rt: &(impl Abort + AllocGlobal), digits: &str) -> Vec<u8> {
    let mut bytes = Vec::new(rt.alloc());
    let mut front = None;
    for digit in digits.chars() {
        let half = digit.to_digit(16).expect(rt, "a digit") as u8 % 16;
        match front {
            None => front = Some(half),
            Some(high) => {
                bytes.push(high << 4 | half).expect(rt, "memory");
                front = None;
            }
        }
    }
    bytes
}

/// A row a line: a type, bytes, and the last element that they are, or where they begin with none.
static BYTES: &str = r#"u16||no bytes
u16|01020103|259
u16|010201|none at 1
full|6162000061626364|"abcd"
full|6162000061006263|none at 1
full|0061000061626364|none at 0
term|61626364|none at 0
spaced|206120|" a"
utf8|c3a9c300|none at 1
pair|fffe61620000|[-2,"ab"]
pair|fffe00620000|none at 0"#;

#[test]
fn bytes_are_elements_or_not(rt: HostRuntime) {
    for row in BYTES.lines() {
        let bytes = unhex(&rt, column(row, 1));
        let got = last_of(&rt, &kind_of(&rt, column(row, 0)), bytes.as_slice());
        assert!(rt; got.as_str() == column(row, 2), "{row} gave {got}");
    }
}

#[test]
fn pieces_of_joins_are_told_at_a_type(_rt: HostRuntime) {
    pieces_of_joins::<u64>();
    pieces_of_joins::<Vec<u64>>();
}
