//! Elements, nested by the extents of an array in row-major order, from a reader.

ghost use Rattle.std.specs.Prelude.{◌≡◌, ◌≤◌, ◌<◌, ◌+◌, [], ◌∷◌, List, length, Ok, Some, IfOk, OnOk, IsTrue};
ghost use Rattle.json.specs.Reads.{token_of};
ghost use Rattle.json.specs.Token.{Token as SpecToken};
ghost use Rattle.serde_json.specs.Data.{Data, Items};
ghost use Rattle.json_trees.specs.Faults.{Fails, Gives};
ghost use Rattle.json_trees.specs.Trees.{list_of};
ghost use Rattle.hdf_types.specs.Types.{IsSoundType};
ghost use Rattle.hdf_types.specs.Views.{elem};
ghost use Rattle.shapes.specs.RowMajor.{cell_count};
ghost use Rattle.hdf_values.specs.Nested.{nested_from};
ghost use Rattle.json_trees.specs.Kept.{Begins};
ghost use Rattle.json_trees.specs.Begun.{AreTrees};
ghost use Rattle.hdf_values.specs.Streamed.{MemberTold, Told, members_from};

use crate::ValueFault;
use crate::kept::parts::read_part;
use hdf_types::ElemType;
use json::{Reader, Scratch, Token};
use json_trees::{KeptTree, pass_rest, pass_value};
use shapes::Dims;
use std::alloc::{AllocError, Global};

/// The bytes of the elements of a kept tree that nests by the extents, in row-major order.
///
/// # Errors
///
/// The first fault in row-major order, as [`crate::read_nested`] tells it of the tree.
pub(crate) fn read_cells(
    alloc: Global,
    kind: &ElemType,
    extents: &Dims,
    tree: &KeptTree,
) -> Result<Vec<u8>, ValueFault>
    requires { IsSoundType (elem kind.now) }
    ensures { Gives (Fails ValueFault.NoMemory) (λ v. v.items) result
        (nested_from (elem kind.now) extents.now 0 tree.now) }
{
    let mut out = Vec::new(alloc);
    let mut scratch = Scratch::new(alloc);
    let mut reader = tree.reader(&mut scratch)?;
    match read_axes(kind, extents.as_slice(), &mut reader, 0, &mut out)? {
        None => Ok(out),
        Some(fault) => Err(fault),
    }
}

/// Appends the bytes of the value that comes next, whose first element has a place, or tells its
/// first fault.
#[cycle(streams)]
fn read_axes(
    kind: &ElemType,
    extents: &[u64],
    reader: &mut Reader<'_>,
    place: u64,
    out: &mut Vec<u8>,
) -> Result<Option<ValueFault>, AllocError>
    requires { IsSoundType (elem kind.now) }
    ensures told { IfOk result (λ fault. (tree : Data) (rest : List SpecToken)
        → Begins reader.old tree rest → (reader.new ≡ rest)
        × Told fault out.old.items out.new.items
        (nested_from (elem kind.now) extents.now place tree)) }
    ensures shorter { OnOk result (length reader.new < length reader.old) }
{
    let Some(first) = reader.next() else {
        return Err(AllocError);
    };
    if extents.is_empty() {
        return read_element(kind, first, reader, place, out);
    }
    match first {
        Token::BeginArray => read_members(kind, extents[0], &extents[1..], reader, place, out),
        _ => {
            pass_rest(first, reader)?;
            Ok(Some(ValueFault::NotOfType { place }))
        }
    }
}

/// [`read_axes`], for the members of a list, which is to have so many.
#[cycle(streams)]
fn read_members(
    kind: &ElemType,
    want: u64,
    extents: &[u64],
    reader: &mut Reader<'_>,
    place: u64,
    out: &mut Vec<u8>,
) -> Result<Option<ValueFault>, AllocError>
    requires { IsSoundType (elem kind.now) }
    ensures told { IfOk result (λ fault. (trees : Items) (rest : List SpecToken)
        → AreTrees reader.old trees rest → (reader.new ≡ rest)
        × Told fault out.old.items out.new.items
        (members_from (elem kind.now) want extents.now place (list_of trees))) }
    ensures not_longer { OnOk result (length reader.new ≤ length reader.old) }
{
    let step = cells(extents)?;
    let mut fault = None;
    let mut got = 0u64;
    let mut next = place;
    'items: while !reader.take_end_array() {
        fault = read_member(kind, extents, fault, got < want, reader, next, out)?;
        got = sum(got, 1)?;
        next = sum(next, step)?;
    }
    if got != want {
        return Ok(Some(ValueFault::WrongCount { want, got }));
    }
    Ok(fault)
}

/// [`read_axes`], for a member that is wanted and has no fault before it; any other is passed over.
#[cycle(streams)]
fn read_member(
    kind: &ElemType,
    extents: &[u64],
    fault: Option<ValueFault>,
    is_wanted: bool,
    reader: &mut Reader<'_>,
    place: u64,
    out: &mut Vec<u8>,
) -> Result<Option<ValueFault>, AllocError>
    requires { IsSoundType (elem kind.now) }
    ensures told { IfOk result (λ found. (tree : Data) (rest : List SpecToken)
        → Begins reader.old tree rest → (reader.new ≡ rest)
        × (IsTrue is_wanted → MemberTold fault found out.old.items out.new.items
        (nested_from (elem kind.now) extents.now place tree))) }
    ensures shorter { OnOk result (length reader.new < length reader.old) }
{
    if let Some(found) = fault {
        pass_value(reader)?;
        return Ok(Some(found));
    }
    if !is_wanted {
        pass_value(reader)?;
        return Ok(None);
    }
    read_axes(kind, extents, reader, place, out)
}

/// [`read_axes`], for one element, whose first token was taken.
fn read_element(
    kind: &ElemType,
    first: Token<'_>,
    reader: &mut Reader<'_>,
    place: u64,
    out: &mut Vec<u8>,
) -> Result<Option<ValueFault>, AllocError>
    requires { IsSoundType (elem kind.now) }
    ensures told { IfOk result (λ fault. (tree : Data) (rest : List SpecToken)
        → Begins (token_of first.entry ∷ reader.old) tree rest → (reader.new ≡ rest)
        × Told fault out.old.items out.new.items
        (nested_from (elem kind.now) [] place tree)) }
    ensures not_longer { OnOk result (length reader.new ≤ length reader.old) }
{
    match read_part(kind, first, reader, out)? {
        None => Ok(None),
        Some(misfit) => Ok(Some(misfit.at(place))),
    }
}

/// The product of the extents. Where it is too large for any array, it fails.
fn cells(extents: &[u64]) -> Result<u64, AllocError>
    ensures { IfOk result (λ total. total ≡ cell_count extents.now) }
{
    if extents.is_empty() {
        return Ok(1);
    }
    let rest = cells(&extents[1..])?;
    extents[0].checked_mul(rest).ok_or(AllocError)
}

/// The sum. Where it is too large for any text, it fails.
fn sum(total: u64, step: u64) -> Result<u64, AllocError>
    ensures { IfOk result (λ more. more ≡ total + step) }
{
    total.checked_add(step).ok_or(AllocError)
}
