//! Laws about attributes and their trees.

ghost use Rattle.std.specs.Prelude.{◌≡◌, ℕ, List, Bool, true, false, Some, None, Ok, codes};
ghost use Rattle.serde_json.specs.Data.{string};
ghost use Rattle.serde_json.specs.Find.{get};
ghost use Rattle.shapes.specs.declared.printing.Form.{Form};
ghost use Rattle.hdf_values.specs.Attributes.{Content, IsSoundAttribute, attribute_of};
ghost use Rattle.attributes.specs.AttributeTrees.{attribute_tree};
ghost use Rattle.attributes.specs.declared.TheConstants.{MAX_ATTRIBUTES, MAX_ATTRIBUTE_NAME};

/// With its value the tree of an attribute spells the same attribute. It has the name as a text, and
/// a value only where it is asked for.
pub fn named_attributes_read_back()
    ensures same { (name : List ℕ) (c : Content) (form : Form) → IsSoundAttribute c
        → attribute_of (attribute_tree name c form true) ≡ Ok c }
    ensures name { (name : List ℕ) (c : Content) (form : Form) (with_value : Bool)
        → get (codes "name") (attribute_tree name c form with_value) ≡ Some (string name) }
    ensures bare { (name : List ℕ) (c : Content) (form : Form)
        → get (codes "value") (attribute_tree name c form false) ≡ None }
{}

/// The limits as numbers.
pub fn limits_of_attributes()
    ensures many { MAX_ATTRIBUTES ≡ 1024 }
    ensures name { MAX_ATTRIBUTE_NAME ≡ 255 }
{}
