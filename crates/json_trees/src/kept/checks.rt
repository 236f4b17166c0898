//! Reading values that are not kept.

ghost use Rattle.std.specs.Prelude.{◌≡◌, None, OnOk, Err, length};
ghost use Rattle.json.specs.Json.{items, members, value};
ghost use Rattle.serde_json.specs.Data.{Data, Items, Members};
ghost use Rattle.serde_json.specs.Read.{converted, of_items, of_json, of_members};
ghost use Rattle.json_trees.specs.Copied.{Reads, ReadsItems, ReadsMembers};
ghost use Rattle.json_trees.specs.declared.kept.fault.ReadFault.TheVariants.{NotJson};

use crate::kept::fault::ReadFault;
use crate::kept::numbers::has_number;
use json::{Reader, Token};

/// Reads the value that comes next, of which nothing is kept. Arrays and objects may nest `depth`
/// deep. It takes no memory.
///
/// # Errors
///
/// `NotJson` where `serde_json` reads no value so deep.
#[cycle(checks)]
pub fn check_value(reader: &mut Reader<'_>, depth: usize) -> Result<(), ReadFault>
    ensures read { OnOk result ((tree : Data) × Reads depth reader.old tree reader.new) }
    ensures refused { result ≡ Err NotJson → converted of_json (value depth reader.old) ≡ None }
{
    let token = reader.next().ok_or(ReadFault::NotJson)?;
    match token {
        Token::Number(text) => {
            if !has_number(text) {
                return Err(ReadFault::NotJson);
            }
            Ok(())
        }
        Token::String(_) => Ok(()),
        Token::Bool(_) => Ok(()),
        Token::Null => Ok(()),
        Token::EndObject | Token::EndArray | Token::Key(_) | Token::Bad => Err(ReadFault::NotJson),
        Token::BeginArray => {
            if depth == 0 {
                return Err(ReadFault::NotJson);
            }
            check_items(reader, depth - 1)
        }
        Token::BeginObject => {
            if depth == 0 {
                return Err(ReadFault::NotJson);
            }
            check_members(reader, depth - 1)
        }
    }
}

/// Reads the items of an array, and the bracket that closes it.
#[cycle(checks)]
fn check_items(reader: &mut Reader<'_>, depth: usize) -> Result<(), ReadFault>
    ensures read { OnOk result ((trees : Items) × ReadsItems depth reader.old trees reader.new) }
    ensures refused { result ≡ Err NotJson
        → converted of_items (items (value depth) (length reader.old) reader.old) ≡ None }
{
    'items: while !reader.take_end_array() {
        check_value(reader, depth)?;
    }
    Ok(())
}

/// Reads the members of an object, and the bracket that closes it.
#[cycle(checks)]
fn check_members(reader: &mut Reader<'_>, depth: usize) -> Result<(), ReadFault>
    ensures read { OnOk result (ReadsMembers depth reader.old reader.new) }
    ensures refused { result ≡ Err NotJson → (old : Members)
        → converted (λ ms. of_members ms old)
        (members (value depth) (length reader.old) reader.old) ≡ None }
{
    'members: while let Some(_key) = reader.next_key()? {
        check_value(reader, depth)?;
    }
    Ok(())
}
