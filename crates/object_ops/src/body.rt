//! The body of an answer: a tree, or the elements of an array as bytes, from which their text is printed with no tree
//! in between.

ghost use Rattle.std.specs.Prelude.{◌≡◌, ◌≤◌, Some, IfOk, codes, false, string_bytes};
ghost use Rattle.serde_json.specs.Data.{depth};
ghost use Rattle.serde_json.specs.Read.{max_depth, read};
ghost use Rattle.serde_json.specs.View.{view};
ghost use Rattle.serde_json.specs.Written.{compact_text, has_float};
ghost use Rattle.hdf_types.specs.Types.{IsSoundType};
ghost use Rattle.hdf_types.specs.Views.{elem};
ghost use Rattle.shapes.specs.RowMajor.{cell_count};
ghost use Rattle.hdf_values.specs.Nested.{AreEncoded, nested_decoded};
ghost use Rattle.object_ops.specs.Bodies.{IsCells, cells_tree};
ghost use Rattle.object_ops.specs.Replies.{only};

use hdf_types::ElemType;
use hdf_values::{keyed_text, write_nested};
use json_trees::Tree;
use serde_json::{Value, json};
use shapes::Dims;
use std::alloc::{AllocError, Global};
use std::marker::Model;

/// The body of an answer, seen as its tree.
#[derive(Drop)]
pub struct Body {
    form: Form,
}

/// How a body is held.
#[derive(Drop)]
pub(crate) enum Form {
    /// As a tree.
    Tree(Value),
    /// As elements, which stand at the key `value` of an object.
    Cells(Cells),
}

/// Elements of an array, nested by extents in row-major order.
#[derive(Drop)]
pub(crate) struct Cells {
    /// Their type.
    pub(crate) kind: ElemType,
    /// The extents.
    pub(crate) extents: Dims,
    /// Their bytes.
    pub(crate) bytes: Vec<u8>,
}

impl Model for Body {
    ghost use Rattle.serde_json.specs.Data.{Data};
    ghost use Rattle.json_trees.specs.CodedData.{coded_data};

    ghost Value = { Data };

    ghost coded = { coded_data };

    ghost use Rattle.object_ops.specs.Bodies.{IsForm, form_tree};

    ghost view = { λ a. form_tree a.form };

    ghost invariant = { λ a. IsForm a.form };
}

impl Body {
    /// A tree.
    pub fn of(tree: Value) -> Body
        ensures { result ≡ view tree }
    {
        Body {
            form: Form::Tree(tree),
        }
    }

    /// An object with the key `value`, at which the elements stand that these bytes are, nested by the extents. It takes
    /// no memory: the bytes are kept.
    pub fn cells(kind: ElemType, extents: Dims, bytes: Vec<u8>) -> Body
        requires sound { IsSoundType (elem kind) }
        requires encoded { AreEncoded (elem kind) (cell_count extents) bytes.items }
        ensures { result ≡ only (codes "value") (nested_decoded (elem kind) extents bytes.items) }
    {
        Body {
            form: Form::Cells(Cells {
                kind,
                extents,
                bytes,
            }),
        }
    }

    /// The compact JSON text.
    ///
    /// # Errors
    ///
    /// Only where memory runs out.
    pub fn text(&self, alloc: Global) -> Result<String, AllocError>
        ensures text { IfOk result (λ text. has_float self.now ≡ false
            → string_bytes text ≡ compact_text self.now) }
        ensures reads_back { IfOk result (λ text. depth self.now ≤ max_depth
            → read (string_bytes text) ≡ Some self.now) }
    {
        match &self.form {
            Form::Tree(tree) => tree.to_string(alloc),
            Form::Cells(cells) => cells.text(alloc),
        }
    }

    /// The tree.
    ///
    /// # Errors
    ///
    /// Only where memory runs out.
    pub fn tree(&self, alloc: Global) -> Result<Tree, AllocError>
        ensures { IfOk result (λ tree. tree ≡ self.now) }
    {
        match &self.form {
            Form::Tree(tree) => Ok(Tree::new(tree.clone()?)),
            Form::Cells(cells) => Ok(Tree::new(cells.tree(alloc)?)),
        }
    }
}

impl Cells {
    /// The text of an object with the elements at its key `value`.
    fn text(&self, alloc: Global) -> Result<String, AllocError>
        requires { IsCells self.now }
        ensures text { IfOk result (λ text. string_bytes text ≡ compact_text (cells_tree self.now)) }
        ensures reads_back { IfOk result (λ text. depth (cells_tree self.now) ≤ max_depth
            → read (string_bytes text) ≡ Some (cells_tree self.now)) }
    {
        keyed_text(
            alloc,
            "value",
            &self.kind,
            &self.extents,
            self.bytes.as_slice(),
        )
    }

    /// An object with the elements at its key `value`.
    fn tree(&self, alloc: Global) -> Result<Value, AllocError>
        requires { IsCells self.now }
        ensures { IfOk result (λ tree. view tree ≡ cells_tree self.now) }
    {
        let tree = write_nested(alloc, &self.kind, &self.extents, self.bytes.as_slice())?;
        json!(in alloc; {"value": tree})
    }
}
