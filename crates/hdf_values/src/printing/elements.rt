//! One element: a number, a text, or a list of its fields.

ghost use Rattle.std.specs.Prelude.{◌≡◌, ◌≤◌, length, OnOk};
ghost use Rattle.serde_json.specs.Written.{outline};
ghost use Rattle.json.specs.Tree.{json_tokens};
ghost use Rattle.hdf_types.specs.Elems.{text as text_type};
ghost use Rattle.hdf_types.specs.Reading.{size_of, fields_size};
ghost use Rattle.hdf_types.specs.Types.{IsFormed, AreFormed};
ghost use Rattle.hdf_types.specs.Views.{elem, field_list};
ghost use Rattle.hdf_types.specs.declared.TheConstants.{MAX_SIZE};
ghost use Rattle.hdf_values.specs.Elements.{IsEncoded, AreEncodedFields, decoded, fields_decoded};
ghost use Rattle.hdf_values.specs.Printed.{list_tokens};
ghost use Rattle.json_trees.specs.Copied.{Adds};

use crate::printing::numbers::write_int;
use crate::texts::{fill, kept_len};
use hdf_types::{ElemType, Field, TextType};
use json::Writer;
use std::alloc::AllocError;

/// Writes the element that bytes stand for.
#[cycle(prints)]
pub(crate) fn write_element(
    kind: &ElemType,
    bytes: &[u8],
    writer: &mut Writer,
) -> Result<(), AllocError>
    requires formed { IsFormed (elem kind.now) }
    requires small { size_of (elem kind.now) ≤ MAX_SIZE }
    requires encoded { IsEncoded (elem kind.now) bytes.now }
    ensures { OnOk result (Adds (json_tokens (outline (decoded (elem kind.now) bytes.now)))
        writer.old writer.new) }
{
    match kind {
        ElemType::Int(int) => write_int(int, bytes, writer),
        ElemType::Text(text) => write_text(text, bytes, writer),
        ElemType::Compound(fields) => {
            writer.begin_array()?;
            write_fields(fields.as_slice(), bytes, writer)
        }
    }
}

/// Writes the fields, and the bracket that closes their list.
#[cycle(prints)]
fn write_fields(fields: &[Field], bytes: &[u8], writer: &mut Writer) -> Result<(), AllocError>
    requires formed { AreFormed (field_list fields.now) }
    requires small { fields_size (field_list fields.now) ≤ MAX_SIZE }
    requires encoded { AreEncodedFields (field_list fields.now) bytes.now }
    ensures { OnOk result (Adds (list_tokens (fields_decoded (field_list fields.now) bytes.now))
        writer.old writer.new) }
{
    let mut left = bytes;
    for field in fields {
        let (front, back) = left.split_at(field.elem.size() as usize);
        write_element(&field.elem, front, writer)?;
        left = back;
    }
    writer.end_array()
}

/// Writes the text that bytes are.
fn write_text(kind: &TextType, bytes: &[u8], writer: &mut Writer) -> Result<(), AllocError>
    requires { IsEncoded (text_type kind.now) bytes.now }
    ensures { OnOk result (Adds (json_tokens (outline (decoded (text_type kind.now) bytes.now)))
        writer.old writer.new) }
{
    let kept = &bytes[..kept_len(bytes, fill(kind.pad))];
    match str::from_utf8(kept) {
        Ok(text) => writer.string(text),
        Err(_) => unreachable!(),
    }
}
