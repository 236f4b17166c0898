//! Values of any type, from kept trees.

ghost use Rattle.std.specs.Prelude.{◌≡◌, Ok, IfOk};
ghost use Rattle.json_trees.specs.Faults.{Fails, Gives};
ghost use Rattle.hdf_types.specs.Types.{IsSoundType};
ghost use Rattle.hdf_types.specs.Views.{elem};
ghost use Rattle.shapes.specs.RowMajor.{cell_count};
ghost use Rattle.hdf_values.specs.Nested.{AreEncoded, FitsNested, nested_bytes, nested_from};

use crate::ValueFault;
use crate::kept::streams::read_cells;
use hdf_types::ElemType;
use json_trees::KeptTree;
use shapes::Dims;
use std::alloc::Global;

/// The bytes of the elements of a kept tree that nests by the extents, in row-major order.
///
/// # Errors
///
/// The first fault in row-major order, as [`crate::read_nested`] tells it of the tree.
pub fn read_kept(
    alloc: Global,
    kind: &ElemType,
    extents: &Dims,
    tree: &KeptTree,
) -> Result<Vec<u8>, ValueFault>
    requires sound { IsSoundType (elem kind.now) }
    ensures fits { IfOk result (λ v. FitsNested (elem kind.now) extents.now tree.now
        × (v.items ≡ nested_bytes (elem kind.now) extents.now tree.now)) }
    ensures only { FitsNested (elem kind.now) extents.now tree.now
        → Gives (Fails ValueFault.NoMemory) (λ v. v.items) result
        (Ok (nested_bytes (elem kind.now) extents.now tree.now)) }
    ensures first { Gives (Fails ValueFault.NoMemory) (λ v. v.items) result
        (nested_from (elem kind.now) extents.now 0 tree.now) }
    ensures encoded { IfOk result
        (λ v. AreEncoded (elem kind.now) (cell_count extents.now) v.items) }
{
    tree.has_texts();
    read_cells(alloc, kind, extents, tree)
}
