//! The members of a compound's list of fields, before their types are read.

ghost use Rattle.std.specs.Prelude.{◌≡◌, ◌≤◌, ◌↔◌, [], map, length, option_map, IsTrue};
ghost use Rattle.std.specs.List.{list_any};
ghost use Rattle.std.specs.Str.{bytes_eq};
ghost use Rattle.serde_json.specs.View.{view};
ghost use Rattle.hdf_types.specs.Faults.{Gives};
ghost use Rattle.hdf_types.specs.Views.{field_list, field_names};
ghost use Rattle.hdf_types.specs.Reading.{name_in, is_member, list_pass, members_in, first_again as again_from, distinct_at};
ghost use Rattle.hdf_types.specs.Types.{AreNames, IsDistinct};
ghost use Rattle.hdf_types.specs.declared.TheConstants.{MAX_FIELDS};

use crate::faults::refused;
use crate::{Cause, Field, FieldPath, Fields, MAX_FIELDS, MAX_NAME, TypeFault};
use json_trees::{list_items, member_text};
use serde_json::Value;

/// The name of a member, where it is one of 1 to [`MAX_NAME`] bytes.
pub fn name_in(tree: &Value) -> Option<&str>
    ensures { option_map (λ s. s.now) result ≡ name_in (view tree.now) }
{
    let name = member_text(tree, "name")?;
    if 1 <= name.len() && name.len() <= MAX_NAME {
        Some(name)
    } else {
        None
    }
}

fn is_member(tree: &Value) -> bool
    ensures { result ≡ is_member (view tree.now) }
{
    name_in(tree).is_some() && tree.get("type").is_some()
}

fn list_passes(items: &[Value]) -> bool
    ensures { result ≡ list_pass (map view items.now) }
{
    for item in items {
        if !is_member(item) {
            return false;
        }
    }
    true
}

/// The list `fields` of a compound, where it has members and each has a name and a type.
#[tactic(auto, unfolding(crate::specs::Reading::members_in))]
pub fn members_in(tree: &Value) -> Option<&[Value]>
    ensures { option_map (λ items. map view items.now) result ≡ members_in (view tree.now) }
{
    let items = list_items(tree.get("fields")?)?;
    if 1 <= items.len() && list_passes(items) {
        Some(items)
    } else {
        None
    }
}

/// The fields, where no name stands twice.
#[tactic(auto, unfolding(crate::specs::Reading::distinct_at))]
pub fn distinct(list: Vec<Field>, path: &FieldPath) -> Result<Fields, TypeFault>
    requires { length list.items ≤ MAX_FIELDS }
    ensures { Gives (λ fs. fs) result (distinct_at path.now (field_list list.items)) }
{
    match first_again(list.as_slice()) {
        Some(index) => Err(refused(path, Cause::DupField { index })),
        None => Ok(Fields::from_list(list)),
    }
}

/// Whether these may be the fields of a compound: 1 to [`MAX_FIELDS`], and no name twice.
#[tactic(auto, using(crate::proofs::NameLemmas::as_many_names))]
pub fn are_fields(fields: &[Field]) -> bool
    ensures { IsTrue result ↔ AreNames (field_names fields.now) }
{
    1 <= fields.len() && fields.len() <= MAX_FIELDS && is_distinct(fields)
}

fn is_distinct(fields: &[Field]) -> bool
    requires { length fields.now ≤ MAX_FIELDS }
    ensures { IsTrue result ↔ IsDistinct (field_names fields.now) }
{
    first_again(fields).is_none()
}

fn first_again(fields: &[Field]) -> Option<u8>
    requires { length fields.now ≤ MAX_FIELDS }
    ensures { result ≡ again_from 0 [] (field_names fields.now) }
{
    for (index, field) in fields.iter().enumerate() {
        if is_among(&fields[..index], field.name.text()) {
            return Some(index as u8);
        }
    }
    None
}

fn is_among(fields: &[Field], name: &str) -> bool
    ensures { result ≡ list_any (λ m. bytes_eq m name.now) (field_names fields.now) }
{
    for field in fields {
        if field.name.text() == name {
            return true;
        }
    }
    false
}
