//! The trees of types, values, shapes, links, attributes and creation properties have no number with a fraction or an
//! exponent, so that each has one compact text. No program calls these functions; the contract of each is a law.

ghost use Rattle.std.specs.Prelude.{◌≡◌, ℕ, Bool, List, false};
ghost use Rattle.std.specs.FinMap.{FinMap};
ghost use Rattle.serde_json.specs.Written.{has_float};
ghost use Rattle.hdf_types.specs.Elems.{Elem};
ghost use Rattle.hdf_types.specs.Printed.{type_tree};
ghost use Rattle.shapes.specs.declared.Shape.{Shape};
ghost use Rattle.shapes.specs.declared.printing.Form.{Form};
ghost use Rattle.shapes.specs.Printed.{numbers_tree, shape_tree};
ghost use Rattle.containers.specs.TextMaps.Keyed.{text_order};
ghost use Rattle.hdf_values.specs.Attributes.{Content};
ghost use Rattle.hdf_values.specs.declared.attributes.Attribute.{Attribute};
ghost use Rattle.hdf_values.specs.Elements.{decoded};
ghost use Rattle.hdf_values.specs.Nested.{nested_decoded};
ghost use Rattle.hdf_values.specs.Shaped.{value_tree};
ghost use Rattle.attributes.specs.AttributeTrees.{attribute_tree, attributes_list};
ghost use Rattle.groups_links.specs.Printed.{link_tree, links_list};
ghost use Rattle.groups_links.specs.declared.target.LinkTo.{LinkTo};
ghost use Rattle.chunk_store.specs.Grids.{Grid};
ghost use Rattle.object_acts.specs.Arrays.Creation.{creation_tree};

/// The tree of a type has none.
pub fn types_are_exact()
    ensures { (e : Elem) → has_float (type_tree e) ≡ false }
{}

/// Nor has that of an element, of a list nested by extents, or of the value of a shape.
pub fn values_are_exact()
    ensures element { (e : Elem) (bs : List ℕ) → has_float (decoded e bs) ≡ false }
    ensures nested { (e : Elem) (dims bs : List ℕ) → has_float (nested_decoded e dims bs) ≡ false }
    ensures value { (e : Elem) (s : Shape) (bs : List ℕ)
        → has_float (value_tree e s bs) ≡ false }
{}

/// Nor has that of dims, of limits or of a shape.
pub fn shapes_are_exact()
    ensures numbers { (form : Form) (ns : List ℕ) → has_float (numbers_tree form ns) ≡ false }
    ensures shape { (s : Shape) (form : Form) → has_float (shape_tree s form) ≡ false }
{}

/// Nor has that of a link, or the list of many.
pub fn links_are_exact()
    ensures one { (title : List ℕ) (link : LinkTo) (form : Form)
        → has_float (link_tree title link form) ≡ false }
    ensures list { (links : FinMap text_order LinkTo) (form : Form)
        → has_float (links_list links form) ≡ false }
{}

/// Nor has that of an attribute, or the list of many.
pub fn attributes_are_exact()
    ensures one { (name : List ℕ) (c : Content) (form : Form) (with_value : Bool)
        → has_float (attribute_tree name c form with_value) ≡ false }
    ensures list { (m : FinMap text_order Attribute) (form : Form) (with_value : Bool)
        → has_float (attributes_list m form with_value) ≡ false }
{}

/// Nor has that of an array's creation properties.
pub fn creation_properties_are_exact()
    ensures { (g : Grid) → has_float (creation_tree g) ≡ false }
{}
