//! Passing values from a reader to a writer.

ghost use Rattle.std.specs.Prelude.{◌≡◌, Err, None, OnOk, IsUtf8, length};
ghost use Rattle.json.specs.Token.{string};
ghost use Rattle.json.specs.Written.{Writes};
ghost use Rattle.json.specs.Json.{items, members, value};
ghost use Rattle.serde_json.specs.Data.{Members};
ghost use Rattle.serde_json.specs.Read.{converted, of_items, of_json, of_members};
ghost use Rattle.json_trees.specs.Copied.{Copies, CopiesItems, CopiesMembers};
ghost use Rattle.json_trees.specs.declared.kept.fault.ReadFault.TheVariants.{NotJson};

use crate::kept::fault::ReadFault;
use crate::kept::numbers::has_number;
use json::{Reader, Token, Writer};
use std::alloc::AllocError;

/// Writes the value that comes next. Arrays and objects may nest `depth` deep.
#[cycle(copies)]
#[inline(always)]
pub(crate) fn copy_value(
    reader: &mut Reader<'_>,
    writer: &mut Writer,
    depth: usize,
) -> Result<(), ReadFault>
    ensures copied { OnOk result (Copies depth reader.old reader.new writer.old writer.new) }
    ensures refused { result ≡ Err NotJson → converted of_json (value depth reader.old) ≡ None }
{
    let token = reader.next().ok_or(ReadFault::NotJson)?;
    match token {
        Token::Number(text) => {
            if !has_number(text) {
                return Err(ReadFault::NotJson);
            }
            writer.number(text)?;
            Ok(())
        }
        Token::String(text) => {
            copy_string(text, writer)?;
            Ok(())
        }
        Token::Bool(b) => {
            writer.boolean(b)?;
            Ok(())
        }
        Token::Null => {
            writer.null()?;
            Ok(())
        }
        Token::EndObject | Token::EndArray | Token::Key(_) | Token::Bad => Err(ReadFault::NotJson),
        Token::BeginArray => {
            if depth == 0 {
                return Err(ReadFault::NotJson);
            }
            writer.begin_array()?;
            copy_items(reader, writer, depth - 1)
        }
        Token::BeginObject => {
            if depth == 0 {
                return Err(ReadFault::NotJson);
            }
            writer.begin_object()?;
            copy_members(reader, writer, depth - 1)
        }
    }
}

/// Writes the items of an array, and the bracket that closes it.
#[cycle(copies)]
#[inline(never)]
fn copy_items(reader: &mut Reader<'_>, writer: &mut Writer, depth: usize) -> Result<(), ReadFault>
    ensures copied { OnOk result (CopiesItems depth reader.old reader.new writer.old writer.new) }
    ensures refused { result ≡ Err NotJson
        → converted of_items (items (value depth) (length reader.old) reader.old) ≡ None }
{
    'items: while !reader.take_end_array() {
        copy_value(reader, writer, depth)?;
    }
    writer.end_array()?;
    Ok(())
}

/// Writes the members of an object, and the bracket that closes it.
#[cycle(copies)]
#[inline(never)]
fn copy_members(reader: &mut Reader<'_>, writer: &mut Writer, depth: usize) -> Result<(), ReadFault>
    ensures copied { OnOk result (CopiesMembers depth reader.old reader.new writer.old writer.new) }
    ensures refused { result ≡ Err NotJson → (old : Members)
        → converted (λ ms. of_members ms old)
        (members (value depth) (length reader.old) reader.old) ≡ None }
{
    'members: while let Some(key) = reader.next_key()? {
        writer.key(key)?;
        copy_value(reader, writer, depth)?;
    }
    writer.end_object()?;
    Ok(())
}

/// Writes a text.
fn copy_string(text: &str, writer: &mut Writer) -> Result<(), AllocError>
    ensures written { Writes result writer.old writer.new (string text.now) }
    ensures utf8 { IsUtf8 text.now }
{
    writer.string(text)
}
