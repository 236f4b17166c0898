//! What the parts of documents are, in other words than the tests in order.

ghost use Rattle.std.specs.Prelude.{◌≡◌, ◌↔◌, ℕ, List, Option, Ok};
ghost use Rattle.serde_json.specs.Data.{Data};
ghost use Rattle.hdf_types.specs.Elems.{Elem};
ghost use Rattle.hdf_types.specs.Reading.{size_of};
ghost use Rattle.shapes.specs.RowMajor.{linear_index};
ghost use Rattle.shapes.specs.Shapes.{LiesIn, dims_of};
ghost use Rattle.hdf_values.specs.Attributes.{IsTypeAt};
ghost use Rattle.hdf_values.specs.Nested.{piece_at};
ghost use Rattle.attributes.specs.AttributeMaps.{AttributeMap};
ghost use Rattle.chunk_store.specs.Grids.{Grid, value_at as bytes_at};
ghost use Rattle.documents.specs.Parts.Arrays.{array_at, with_bytes};
ghost use Rattle.documents.specs.Parts.AttributeLists.{attributes_at};
ghost use Rattle.documents.specs.Parts.LinkLists.{links_at};
ghost use Rattle.documents.specs.Parts.Spelled.{AreAttributesAt, AreLinksAt, IsArray};
ghost use Rattle.documents.specs.Parts.TitleMaps.{TargetMap};
ghost use Rattle.documents.specs.Parts.Types.{kind_at};
ghost use Rattle.documents.specs.declared.parts.attribute_lists.TheConstants.{MAX_ATTRIBUTE_CELLS};

use chunk_store::cells_after_calls;
use shapes::{cells_are_inside, indices_number_the_cells};

/// The limit of an attribute's cells, as a number.
pub fn limits_of_parts()
    ensures { MAX_ATTRIBUTE_CELLS ≡ 65536 }
{}

/// The tests in order find no fault exactly where the trees spell what is read.
pub fn parts_or_fault()
    ensures attributes { (path : List ℕ) (tree : Option Data) (m : AttributeMap)
        → ((attributes_at path tree ≡ Ok m) ↔ AreAttributesAt tree m) }
    ensures links { (document : Data) (path : List ℕ) (tree : Option Data) (m : TargetMap)
        → ((links_at document path tree ≡ Ok m) ↔ AreLinksAt document tree m) }
    ensures kinds { (path : List ℕ) (tree : Option Data) (e : Elem)
        → ((kind_at path tree ≡ Ok e) ↔ IsTypeAt tree e) }
    ensures arrays { (path : List ℕ) (tree : Data) (g : Grid)
        → ((array_at path tree ≡ Ok g) ↔ IsArray tree g) }
{}

/// In each cell of an array with a value stands the element at the cell's linear index.
pub fn cells_have_elements()
    ensures { (g : Grid) (bytes at : List ℕ) → LiesIn at g.shape
        → bytes_at (with_bytes g bytes) at
        ≡ piece_at (size_of g.kind) (linear_index at (dims_of g.shape)) bytes }
{
    cells_after_calls();
    cells_are_inside();
    indices_number_the_cells();
}
