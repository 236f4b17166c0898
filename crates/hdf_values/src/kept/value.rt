//! Values that are kept.

ghost use Rattle.std.specs.Prelude.{◌≡◌, ◌≤◌, IfOk, IfSome, Ok};
ghost use Rattle.serde_json.specs.Read.{max_depth};
ghost use Rattle.serde_json.specs.View.{view};
ghost use Rattle.json_trees.specs.Copied.{Reads};
ghost use Rattle.json_trees.specs.Faults.{Fails, Gives};
ghost use Rattle.json_trees.specs.Trees.{AreTexts};
ghost use Rattle.hdf_types.specs.Types.{IsSoundType};
ghost use Rattle.hdf_types.specs.Views.{elem};
ghost use Rattle.shapes.specs.RowMajor.{cell_count};
ghost use Rattle.hdf_values.specs.Nested.{AreEncoded, FitsNested, nested_bytes, nested_from};

use crate::ValueFault;
use crate::kept::packed::{Packed, read_packed};
use crate::kept::streams::read_cells;
use crate::kept::unpacking::{have_texts, unpacked_cells, unpacked_tree};
use hdf_types::ElemType;
use json::Reader;
use json_trees::KeptTree;
use serde_json::Value;
use shapes::Dims;
use std::alloc::{AllocError, Global};
use std::marker::Model;

/// A value that is kept: packed where it is a rectangular list of whole numbers, else as its text.
/// It is seen as its data.
#[derive(Drop)]
pub struct KeptValue {
    form: Form,
}

/// How a value is kept.
#[derive(Drop)]
pub(crate) enum Form {
    /// As its text.
    Text(KeptTree),
    /// As its numbers.
    Numbers(Packed),
}

impl Model for KeptValue {
    ghost use Rattle.serde_json.specs.Data.{Data};
    ghost use Rattle.json_trees.specs.CodedData.{coded_data};

    ghost Value = { Data };

    ghost coded = { coded_data };

    ghost use Rattle.hdf_values.specs.KeptValues.{form_tree};

    ghost view = { λ a. form_tree a.form };
}

impl KeptValue {
    /// The tree itself.
    pub fn of(tree: KeptTree) -> KeptValue
        ensures { result ≡ tree }
    {
        KeptValue {
            form: Form::Text(tree),
        }
    }

    /// The value that comes next in a reader, packed. Where it can't be, there is none, and the
    /// reader stands anywhere. Arrays may nest `depth` deep.
    ///
    /// # Errors
    ///
    /// Only where memory runs out.
    pub fn take_packed(
        alloc: Global,
        reader: &mut Reader<'_>,
        depth: usize,
    ) -> Result<Option<KeptValue>, AllocError>
        requires { depth ≤ max_depth }
        ensures read { IfOk result
            (λ found. IfSome found (λ value. Reads depth reader.old value reader.new)) }
    {
        match read_packed(alloc, reader, depth)? {
            Some(packed) => Ok(Some(KeptValue {
                form: Form::Numbers(packed),
            })),
            None => Ok(None),
        }
    }

    /// The value as a tree.
    ///
    /// # Errors
    ///
    /// Only where memory runs out.
    pub fn to_value(&self, alloc: Global) -> Result<Value, AllocError>
        ensures { IfOk result (λ tree. view tree ≡ self.now) }
    {
        match &self.form {
            Form::Text(tree) => tree.to_value(alloc),
            Form::Numbers(packed) => unpacked_tree(alloc, packed)?.to_value(alloc),
        }
    }

    /// What is true of every kept value: its texts are UTF-8.
    pub fn has_texts(&self)
        ensures { AreTexts self.now }
    {
        match &self.form {
            Form::Text(tree) => tree.has_texts(),
            Form::Numbers(packed) => have_texts(packed),
        }
    }

    /// The bytes of the elements of a value that nests by the extents, in row-major order.
    ///
    /// # Errors
    ///
    /// The first fault in row-major order, as [`crate::read_nested`] tells it of the tree.
    pub fn elements(
        &self,
        alloc: Global,
        kind: &ElemType,
        extents: &Dims,
    ) -> Result<Vec<u8>, ValueFault>
        requires sound { IsSoundType (elem kind.now) }
        ensures fits { IfOk result (λ v. FitsNested (elem kind.now) extents.now self.now
            × (v.items ≡ nested_bytes (elem kind.now) extents.now self.now)) }
        ensures only { FitsNested (elem kind.now) extents.now self.now
            → Gives (Fails ValueFault.NoMemory) (λ v. v.items) result
            (Ok (nested_bytes (elem kind.now) extents.now self.now)) }
        ensures first { Gives (Fails ValueFault.NoMemory) (λ v. v.items) result
            (nested_from (elem kind.now) extents.now 0 self.now) }
        ensures encoded { IfOk result
            (λ v. AreEncoded (elem kind.now) (cell_count extents.now) v.items) }
    {
        self.has_texts();
        self.cells(alloc, kind, extents)
    }

    fn cells(&self, alloc: Global, kind: &ElemType, extents: &Dims) -> Result<Vec<u8>, ValueFault>
        requires { IsSoundType (elem kind.now) }
        ensures { Gives (Fails ValueFault.NoMemory) (λ v. v.items) result
            (nested_from (elem kind.now) extents.now 0 self.now) }
    {
        match &self.form {
            Form::Text(tree) => read_cells(alloc, kind, extents, tree),
            Form::Numbers(packed) => number_cells(alloc, kind, extents, packed),
        }
    }
}

/// [`KeptValue::cells`], of packed numbers. Where they are no values of the type, their text is
/// read, which tells the first fault.
fn number_cells(
    alloc: Global,
    kind: &ElemType,
    extents: &Dims,
    packed: &Packed,
) -> Result<Vec<u8>, ValueFault>
    requires { IsSoundType (elem kind.now) }
    ensures { Gives (Fails ValueFault.NoMemory) (λ v. v.items) result
        (nested_from (elem kind.now) extents.now 0 packed.now) }
{
    match unpacked_cells(alloc, kind, extents, packed)? {
        Some(bytes) => Ok(bytes),
        None => read_cells(alloc, kind, extents, &unpacked_tree(alloc, packed)?),
    }
}
