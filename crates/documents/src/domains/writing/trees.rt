//! Small trees.

ghost use Rattle.std.specs.Prelude.{◌≡◌, OnOk, false};
ghost use Rattle.serde_json.specs.Data.{number, string};
ghost use Rattle.serde_json.specs.Find.{is_float};
ghost use Rattle.serde_json.specs.View.{items_view, members_view, number_view, view};
ghost use Rattle.serde_json.specs.Written.{has_float, items_have_float, members_have_float};
ghost use Rattle.documents.specs.Domains.Writing.{Prints, PrintsItems, PrintsMember};
ghost use Rattle.documents.specs.Domains.Writing.{PrintsMembers};

use json::Writer;
use serde_json::{Map, Number, Value};
use std::alloc::AllocError;

/// Writes a key and its tree.
pub(crate) fn write_member(key: &str, tree: &Value, writer: &mut Writer) -> Result<(), AllocError>
    requires { has_float (view tree.now) ≡ false }
    ensures { OnOk result (PrintsMember key.now (view tree.now) writer.old writer.new) }
{
    writer.key(key)?;
    write_tree(tree, writer)
}

/// Writes a key and its text.
pub(crate) fn write_text(key: &str, text: &str, writer: &mut Writer) -> Result<(), AllocError>
    ensures { OnOk result (PrintsMember key.now (string text.now) writer.old writer.new) }
{
    writer.key(key)?;
    writer.string(text)
}

/// Writes a tree.
#[cycle(trees)]
pub(crate) fn write_tree(tree: &Value, writer: &mut Writer) -> Result<(), AllocError>
    requires { has_float (view tree.now) ≡ false }
    ensures { OnOk result (Prints (view tree.now) writer.old writer.new) }
{
    match tree {
        Value::Null => writer.null(),
        Value::Bool(b) => writer.boolean(*b),
        Value::Number(n) => write_number(n, writer),
        Value::String(s) => writer.string(s.as_str()),
        Value::Array(items) => {
            writer.begin_array()?;
            write_items(items.as_slice(), writer)
        }
        Value::Object(members) => {
            writer.begin_object()?;
            write_members(members, writer)
        }
    }
}

// The items of a list, and the bracket that closes it.
#[cycle(trees)]
fn write_items(items: &[Value], writer: &mut Writer) -> Result<(), AllocError>
    requires { items_have_float (items_view items.now) ≡ false }
    ensures { OnOk result (PrintsItems (items_view items.now) writer.old writer.new) }
{
    for item in items {
        write_tree(item, writer)?;
    }
    writer.end_array()
}

// The members of an object, and the bracket that closes it.
#[cycle(trees)]
fn write_members(members: &Map<String, Value>, writer: &mut Writer) -> Result<(), AllocError>
    requires { members_have_float (members_view members.now.entries) ≡ false }
    ensures { OnOk result
        (PrintsMembers (members_view members.now.entries) writer.old writer.new) }
{
    for (key, member) in members.iter() {
        writer.key(key.as_str())?;
        write_tree(member, writer)?;
    }
    writer.end_object()
}

fn write_number(n: &Number, writer: &mut Writer) -> Result<(), AllocError>
    requires { is_float (number_view n.now) ≡ false }
    ensures { OnOk result (Prints (number (number_view n.now)) writer.old writer.new) }
{
    match (n.as_u64(), n.as_i64()) {
        (Some(found), _) => writer.u64(found),
        (None, Some(found)) => writer.i64(found),
        (None, None) => unreachable!(),
    }
}
