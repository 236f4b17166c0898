//! One element, token by token.

ghost use Rattle.std.specs.Prelude.{◌≡◌, ◌≤◌, ◌∷◌, [], List, length, Some, IfOk, OnOk};
ghost use Rattle.json.specs.Reads.{token_of};
ghost use Rattle.json.specs.Token.{Token as SpecToken};
ghost use Rattle.serde_json.specs.Data.{Data, Items, Num};
ghost use Rattle.serde_json.specs.Find.{as_integer};
ghost use Rattle.serde_json.specs.Read.{number_of};
ghost use Rattle.json_trees.specs.Begun.{AreTrees};
ghost use Rattle.json_trees.specs.Kept.{Begins};
ghost use Rattle.json_trees.specs.Trees.{list_of};
ghost use Rattle.hdf_types.specs.Elems.{no_fields, int as int_type, text as text_type};
ghost use Rattle.hdf_types.specs.Reading.{fields_size, size_of};
ghost use Rattle.hdf_types.specs.Types.{AreFormed, IsFormed, IsWidth};
ghost use Rattle.hdf_types.specs.Views.{elem, field_list};
ghost use Rattle.hdf_types.specs.declared.TheConstants.{MAX_SIZE};
ghost use Rattle.hdf_values.specs.Elements.{encoded, fields_encoded, int_encoded, misfit_or};
ghost use Rattle.hdf_values.specs.Streamed.{Told, lowest};

use crate::Misfit;
use crate::integers::push_number;
use crate::texts::push_text;
use hdf_types::{ElemType, Field, IntType, TextType};
use json::{Reader, Token};
use json_trees::{negative_of, pass_rest, pass_value, unsigned_of};
use std::alloc::AllocError;

/// Appends the bytes of the element whose first token was taken, or tells its misfit.
#[cycle(parts)]
pub(crate) fn read_part(
    kind: &ElemType,
    first: Token<'_>,
    reader: &mut Reader<'_>,
    out: &mut Vec<u8>,
) -> Result<Option<Misfit>, AllocError>
    requires formed { IsFormed (elem kind.now) }
    requires small { size_of (elem kind.now) ≤ MAX_SIZE }
    ensures told { IfOk result (λ misfit. (tree : Data) (rest : List SpecToken)
        → Begins (token_of first.entry ∷ reader.old) tree rest → (reader.new ≡ rest)
        × Told misfit out.old.items out.new.items (encoded (elem kind.now) tree)) }
    ensures not_longer { OnOk result (length reader.new ≤ length reader.old) }
{
    match kind {
        ElemType::Int(int) => read_int(int, first, reader, out),
        ElemType::Text(text) => read_text(text, first, reader, out),
        ElemType::Compound(fields) => match first {
            Token::BeginArray => read_fields(fields.as_slice(), reader, out),
            _ => {
                pass_rest(first, reader)?;
                Ok(Some(Misfit::NotOfType))
            }
        },
    }
}

/// [`read_part`], for the fields of a compound, and the bracket that closes their list.
#[cycle(parts)]
fn read_fields(
    fields: &[Field],
    reader: &mut Reader<'_>,
    out: &mut Vec<u8>,
) -> Result<Option<Misfit>, AllocError>
    requires formed { AreFormed (field_list fields.now) }
    requires small { fields_size (field_list fields.now) ≤ MAX_SIZE }
    ensures told { IfOk result (λ misfit. (trees : Items) (rest : List SpecToken)
        → AreTrees reader.old trees rest → (reader.new ≡ rest)
        × Told misfit out.old.items out.new.items
        (fields_encoded (field_list fields.now) (list_of trees))) }
    ensures not_longer { OnOk result (length reader.new ≤ length reader.old) }
{
    let Some((field, later_fields)) = fields.split_first() else {
        return read_end(reader);
    };
    if reader.take_end_array() {
        return Ok(Some(Misfit::NotOfType));
    }
    let Some(first) = reader.next() else {
        return Err(AllocError);
    };
    let here = read_part(&field.elem, first, reader, out)?;
    let rest = read_fields(later_fields, reader, out)?;
    Ok(lower_of(here, rest))
}

/// [`read_fields`], behind the last field: what else the list has is passed over.
fn read_end(reader: &mut Reader<'_>) -> Result<Option<Misfit>, AllocError>
    ensures told { IfOk result (λ misfit. (trees : Items) (rest : List SpecToken)
        → AreTrees reader.old trees rest → (reader.new ≡ rest)
        × (fields_encoded no_fields (list_of trees) ≡ misfit_or misfit [])) }
    ensures not_longer { OnOk result (length reader.new ≤ length reader.old) }
{
    let mut has_more = false;
    'items: while !reader.take_end_array() {
        pass_value(reader)?;
        has_more = true;
    }
    if has_more {
        Ok(Some(Misfit::NotOfType))
    } else {
        Ok(None)
    }
}

/// Of the misfits of a part and of those behind it the lower.
fn lower_of(here: Option<Misfit>, rest: Option<Misfit>) -> Option<Misfit>
    ensures { result ≡ lowest here rest }
{
    match (here, rest) {
        (None, rest) => rest,
        (Some(here), None) => Some(here),
        (Some(here), Some(rest)) => Some(here.lower(rest)),
    }
}

/// [`read_part`], for a whole number.
fn read_int(
    int: &IntType,
    first: Token<'_>,
    reader: &mut Reader<'_>,
    out: &mut Vec<u8>,
) -> Result<Option<Misfit>, AllocError>
    requires { IsWidth int.now.bits }
    ensures told { IfOk result (λ misfit. (tree : Data) (rest : List SpecToken)
        → Begins (token_of first.entry ∷ reader.old) tree rest → (reader.new ≡ rest)
        × Told misfit out.old.items out.new.items (encoded (int_type int.now) tree)) }
    ensures not_longer { OnOk result (length reader.new ≤ length reader.old) }
{
    match first {
        Token::Number(text) => read_number(int, text, out),
        _ => {
            pass_rest(first, reader)?;
            Ok(Some(Misfit::NotOfType))
        }
    }
}

/// [`read_int`], for the text of a number.
fn read_number(int: &IntType, text: &str, out: &mut Vec<u8>) -> Result<Option<Misfit>, AllocError>
    requires { IsWidth int.now.bits }
    ensures { IfOk result (λ misfit. (n : Num) → number_of text.now ≡ Some n
        → Told misfit out.old.items out.new.items (int_encoded int.now (as_integer n))) }
{
    if let Some(n) = unsigned_of(text) {
        return push_number(int, i128::from(n), out);
    }
    match negative_of(text) {
        Some(n) => push_number(int, i128::from(n), out),
        None => Ok(Some(Misfit::NotOfType)),
    }
}

/// [`read_part`], for a text.
fn read_text(
    kind: &TextType,
    first: Token<'_>,
    reader: &mut Reader<'_>,
    out: &mut Vec<u8>,
) -> Result<Option<Misfit>, AllocError>
    ensures told { IfOk result (λ misfit. (tree : Data) (rest : List SpecToken)
        → Begins (token_of first.entry ∷ reader.old) tree rest → (reader.new ≡ rest)
        × Told misfit out.old.items out.new.items (encoded (text_type kind.now) tree)) }
    ensures not_longer { OnOk result (length reader.new ≤ length reader.old) }
{
    match first {
        Token::String(text) => push_text(kind, text, out),
        _ => {
            pass_rest(first, reader)?;
            Ok(Some(Misfit::NotOfType))
        }
    }
}
