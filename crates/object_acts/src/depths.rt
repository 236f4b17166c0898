//! How deep the trees of types, values, shapes, links and attributes nest. No program calls these functions; the contract
//! of each is a law.

ghost use Rattle.std.specs.Prelude.{◌+◌, ◌*◌, ◌≤◌, ℕ, Bool, List, length};
ghost use Rattle.std.specs.FinMap.{FinMap};
ghost use Rattle.serde_json.specs.Data.{depth};
ghost use Rattle.hdf_types.specs.Elems.{Elem};
ghost use Rattle.hdf_types.specs.Elems.{depth as nesting};
ghost use Rattle.hdf_types.specs.Printed.{type_tree};
ghost use Rattle.shapes.specs.declared.Shape.{Shape};
ghost use Rattle.shapes.specs.declared.printing.Form.{Form};
ghost use Rattle.shapes.specs.Printed.{numbers_tree, shape_tree};
ghost use Rattle.shapes.specs.Shapes.{dims_of};
ghost use Rattle.containers.specs.TextMaps.Keyed.{text_order};
ghost use Rattle.hdf_values.specs.Attributes.{Content};
ghost use Rattle.hdf_values.specs.declared.attributes.Attribute.{Attribute};
ghost use Rattle.hdf_values.specs.Elements.{decoded};
ghost use Rattle.hdf_values.specs.Nested.{nested_decoded};
ghost use Rattle.hdf_values.specs.Shaped.{value_tree};
ghost use Rattle.attributes.specs.AttributeTrees.{attribute_tree, attributes_list};
ghost use Rattle.groups_links.specs.Printed.{link_tree, links_list};
ghost use Rattle.groups_links.specs.declared.target.LinkTo.{LinkTo};
ghost use Rattle.object_acts.specs.Depths.Shallow.{AreShallowAttributes, IsShallow};

/// The tree of a type nests three deeper for each compound inside another.
pub fn types_nest_by_compounds()
    ensures { (e : Elem) → depth (type_tree e) ≤ 3 * nesting e + 1 }
{}

/// The tree of an element nests as deep as its type's compounds, and a list of axes one deeper for each.
pub fn values_nest_by_axes()
    ensures element { (e : Elem) (bs : List ℕ) → depth (decoded e bs) ≤ nesting e }
    ensures nested { (e : Elem) (dims bs : List ℕ)
        → depth (nested_decoded e dims bs) ≤ length dims + nesting e }
    ensures value { (e : Elem) (s : Shape) (bs : List ℕ)
        → depth (value_tree e s bs) ≤ length (dims_of s) + nesting e }
{}

/// The tree of a shape nests 2 deep at most, that of its dims or its limits 1.
pub fn shapes_nest_little()
    ensures numbers { (form : Form) (ns : List ℕ) → depth (numbers_tree form ns) ≤ 1 }
    ensures shape { (s : Shape) (form : Form) → depth (shape_tree s form) ≤ 2 }
{}

/// The tree of a link nests 1 deep at most, the list of many 2.
pub fn links_nest_little()
    ensures one { (title : List ℕ) (link : LinkTo) (form : Form)
        → depth (link_tree title link form) ≤ 1 }
    ensures list { (links : FinMap text_order LinkTo) (form : Form)
        → depth (links_list links form) ≤ 2 }
{}

/// The tree of an attribute whose type and shape are within their limits nests 37 deep at most, the list of many 38.
pub fn attributes_nest_little()
    ensures one { (name : List ℕ) (c : Content) (form : Form) (with_value : Bool)
        → IsShallow c.kind c.shape → depth (attribute_tree name c form with_value) ≤ 37 }
    ensures list { (m : FinMap text_order Attribute) (form : Form) (with_value : Bool)
        → AreShallowAttributes m → depth (attributes_list m form with_value) ≤ 38 }
{}
