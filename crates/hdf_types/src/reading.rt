//! How trees spell types: one descent that gives the type or the first fault.

ghost use Rattle.std.specs.Prelude.{◌≡◌, ◌↔◌, Ok, Err, ◌≤◌, ◌+◌, ℕ, List, [], map, length, IfOk};
ghost use Rattle.serde_json.specs.View.{view};
ghost use Rattle.serde_json.specs.Data.{Data};
ghost use Rattle.hdf_types.specs.Elems.{Elem};
ghost use Rattle.hdf_types.specs.Faults.{Fault, fault, Gives};
ghost use Rattle.hdf_types.specs.FirstFault.{IsFirstFault};
ghost use Rattle.hdf_types.specs.declared.faults.Cause.{Cause};
ghost use Rattle.hdf_types.specs.Types.{IsType, IsSoundType};
ghost use Rattle.hdf_types.specs.Views.{elem, field_list};
ghost use Rattle.hdf_types.specs.Members.{member_of};
ghost use Rattle.hdf_types.specs.Reading.{node_at, compound_by, fields_at, each_at, member_at, within_at, type_of};

use crate::faults::refused;
use crate::leaves::{class_cause, integer, named, string};
use crate::members::{distinct, members_in, name_in};
use crate::walks::capped_size;
use crate::{
    Cause, ElemType, Field, FieldName, FieldPath, Fields, MAX_FIELDS, MAX_NESTING, MAX_SIZE,
    TypeFault,
};
use json_trees::member_text;
use serde_json::Value;
use std::alloc::Global;

/// The type that a tree spells.
///
/// A text is an integer's name, as `"H5T_STD_I32LE"`. An object has a `class`: `"H5T_INTEGER"` with
/// such a name as `base`, `"H5T_STRING"` with a `length` and maybe a `charSet` and a `strPad`, or
/// `"H5T_COMPOUND"` with a list `fields` of objects, each with a `name` and a `type`.
///
/// # Errors
///
/// The first fault of the tree: a node's own faults in the order of [`Cause`] before its fields,
/// the fields in order, a name that stands twice after the fields, and the size last.
pub fn read_type(alloc: Global, tree: &Value) -> Result<ElemType, TypeFault>
    ensures spelled { IfOk result (λ e. IsType (view tree.now) (elem e)) }
    ensures only { (e : Elem) → IsType (view tree.now) e → Gives elem result (Ok e) }
    ensures first { Gives elem result (type_of (view tree.now)) }
    ensures sound { IfOk result (λ e. IsSoundType (elem e)) }
{
    first_of(alloc, tree)
}

/// A tree spells one type, or it has a fault, and never both.
pub fn type_or_fault()
    ensures one { (d : Data) (e f : Elem) → IsType d e → IsType d f → e ≡ f }
    ensures spelled { (d : Data) (e : Elem) → (IsType d e ↔ (type_of d ≡ Ok e)) }
    ensures fault { (d : Data) (f : Fault) (e : Elem) → type_of d ≡ Err f → IsType d e → ⊥ }
{}

/// A fault is a tree's first exactly where the node at its path has this cause and none that is
/// tried before it, the compounds around the node have none of their own, and the fields before it
/// are types; or where the whole tree is a type but for its size.
pub fn first_fault()
    ensures { (d : Data) (path : List ℕ) (cause : Cause)
        → ((type_of d ≡ Err (fault path cause)) ↔ IsFirstFault d path cause) }
{}

#[tactic(auto, unfolding(crate::specs::Reading::type_of))]
fn first_of(alloc: Global, tree: &Value) -> Result<ElemType, TypeFault>
    ensures { Gives elem result (type_of (view tree.now)) }
{
    let root = FieldPath::new();
    let kind = node(alloc, tree, MAX_NESTING, &root)?;
    within(kind, &root)
}

fn within(kind: ElemType, root: &FieldPath) -> Result<ElemType, TypeFault>
    requires { root.now ≡ [] }
    ensures { Gives elem result (within_at (elem kind)) }
{
    if capped_size(&kind) > MAX_SIZE {
        Err(refused(root, Cause::TooLarge))
    } else {
        Ok(kind)
    }
}

#[cycle(read)]
#[tactic(auto, unfolding(crate::specs::Reading::node_by))]
fn node(alloc: Global, tree: &Value, levels: u8, path: &FieldPath) -> Result<ElemType, TypeFault>
    requires { length path.now + levels ≤ 4 }
    ensures { Gives elem result (node_at levels path.now (view tree.now)) }
{
    if let Some(name) = tree.as_str() {
        return named(name, path);
    }
    match member_text(tree, "class") {
        None => Err(refused(path, Cause::NotAType)),
        Some("H5T_INTEGER") => integer(tree, path),
        Some("H5T_STRING") => string(tree, path),
        Some("H5T_COMPOUND") => {
            let fields = compound(alloc, tree, levels, path)?;
            Ok(ElemType::Compound(fields))
        }
        Some(class) => Err(refused(path, class_cause(class))),
    }
}

#[cycle(read)]
#[tactic(auto, unfolding(crate::specs::Reading::compound_by))]
fn compound(alloc: Global, tree: &Value, levels: u8, path: &FieldPath) -> Result<Fields, TypeFault>
    requires { length path.now + levels ≤ 4 }
    ensures { Gives (λ fs. fs) result (compound_by (fields_at levels) path.now (view tree.now)) }
{
    let items = members_in(tree).ok_or(refused(path, Cause::NotAType))?;
    fields(alloc, items, levels, path)
}

#[cycle(read)]
fn fields(alloc: Global, items: &[Value], levels: u8, path: &FieldPath) -> Result<Fields, TypeFault>
    requires { length path.now + levels ≤ 4 }
    ensures { Gives (λ fs. fs) result (fields_at levels path.now (map view items.now)) }
{
    if levels == 0 {
        return Err(refused(path, Cause::TooDeep));
    }
    if items.len() > MAX_FIELDS {
        return Err(refused(path, Cause::TooMany));
    }
    let list = each(alloc, items, levels - 1, path)?;
    distinct(list, path)
}

#[cycle(read)]
fn each(
    alloc: Global,
    items: &[Value],
    levels: u8,
    path: &FieldPath,
) -> Result<Vec<Field>, TypeFault>
    requires { length path.now + levels + 1 ≤ 4 }
    ensures gives { Gives (λ v. field_list v.items) result
        (each_at (node_at levels) path.now 0 (map view items.now)) }
    ensures count { IfOk result (λ v. length v.items ≡ length items.now) }
{
    let mut list = Vec::new(alloc);
    for (index, item) in items.iter().enumerate() {
        list.push(member(alloc, item, levels, path, index)?)?;
    }
    Ok(list)
}

#[cycle(read)]
#[tactic(auto, unfolding(crate::specs::Reading::member_at))]
fn member(
    alloc: Global,
    item: &Value,
    levels: u8,
    path: &FieldPath,
    index: usize,
) -> Result<Field, TypeFault>
    requires { length path.now + levels + 1 ≤ 4 }
    ensures { Gives member_of result (member_at (node_at levels) path.now index (view item.now)) }
{
    let name = name_in(item).ok_or(refused(path, Cause::NotAType))?;
    let tree = item.get("type").ok_or(refused(path, Cause::NotAType))?;
    let mut inner = *path;
    inner.push(index as u64);
    let elem = node(alloc, tree, levels, &inner)?;
    let name = FieldName::copy_of(alloc, name)?;
    Ok(Field { name, elem })
}
