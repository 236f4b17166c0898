//! The values of datasets that are kept as their texts.

ghost use Rattle.std.specs.Prelude.{◌≡◌, ◌∷◌, IfOk, [], List, true, false};
ghost use Rattle.json.specs.Token.{Token as SpecToken, null};
ghost use Rattle.hdf_types.specs.Types.{IsSoundType};
ghost use Rattle.hdf_types.specs.Views.{elem as elem_of};
ghost use Rattle.json_trees.specs.Faults.{Fails, Gives};
ghost use Rattle.shapes.specs.Shapes.{count_of};
ghost use Rattle.hdf_values.specs.Nested.{AreEncoded};
ghost use Rattle.hdf_values.specs.Shaped.{null_from, value_from};

use hdf_types::ElemType;
use hdf_values::{ValueFault, read_kept};
use json::{Reader, Scratch, Token};
use json_trees::KeptTree;
use shapes::{Dims, Shape};
use std::alloc::Global;

// The bytes of a value of the type and the shape, as `hdf_values::read_value` reads them of its tree.
pub(crate) fn read_kept_value(
    alloc: Global,
    kind: &ElemType,
    shape: &Shape,
    value: &KeptTree,
) -> Result<Vec<u8>, ValueFault>
    requires sound { IsSoundType (elem_of kind.now) }
    ensures first { Gives (Fails ValueFault.NoMemory) (λ v. v.items) result
        (value_from (elem_of kind.now) shape.now value.now) }
    ensures encoded { IfOk result
        (λ v. AreEncoded (elem_of kind.now) (count_of shape.now) v.items) }
{
    match shape {
        Shape::Null => null_bytes(alloc, value),
        Shape::Scalar => read_kept(alloc, kind, &Dims::new(), value),
        Shape::Simple { dims, .. } => read_kept(alloc, kind, dims, value),
    }
}

// The value of a shape without a cell.
fn null_bytes(alloc: Global, value: &KeptTree) -> Result<Vec<u8>, ValueFault>
    ensures gives { Gives (Fails ValueFault.NoMemory) (λ v. v.items) result
        (null_from value.now) }
    ensures spelled { IfOk result (λ v. v.items ≡ []) }
{
    let mut scratch = Scratch::new(alloc);
    let mut reader = value.reader(&mut scratch)?;
    if begins_null(&mut reader) {
        Ok(Vec::new(alloc))
    } else {
        Err(ValueFault::NotOfType { place: 0 })
    }
}

// Whether null comes next; it is then taken.
fn begins_null(reader: &mut Reader<'_>) -> bool
    ensures null { result ≡ true → reader.old ≡ null ∷ reader.new }
    ensures other { result ≡ false → (ts : List SpecToken) → reader.old ≡ null ∷ ts → ⊥ }
{
    match reader.next() {
        Some(Token::Null) => true,
        _ => false,
    }
}
