//! The tree of an attribute with its name (HDF5/JSON, "Attribute").

ghost use Rattle.std.specs.Prelude.{◌≡◌, IfOk};
ghost use Rattle.serde_json.specs.View.{view};
ghost use Rattle.hdf_values.specs.Attributes.{content, IsSoundAttribute};
ghost use Rattle.attributes.specs.AttributeTrees.{attribute_tree};

use hdf_types::type_json;
use hdf_values::{Attribute, write_value};
use object_ids::Name;
use serde_json::{Value, json};
use shapes::{Form, shape_json};
use std::alloc::{AllocError, Global};

/// The tree of an attribute: its `name`, its `shape`, its `type`, and its `value` where it is asked
/// for.
///
/// # Errors
///
/// Only where memory runs out.
pub fn attribute_json(
    alloc: Global,
    name: &Name,
    attribute: &Attribute,
    form: Form,
    with_value: bool,
) -> Result<Value, AllocError>
    requires { IsSoundAttribute (content attribute.now) }
    ensures { IfOk result
        (λ v. view v ≡ attribute_tree name.now (content attribute.now) form with_value) }
{
    let Attribute { elem, shape, bytes } = attribute;
    let name = name.text();
    let kind = type_json(alloc, elem)?;
    let cells = shape_json(alloc, shape, form)?;
    if with_value {
        let value = write_value(alloc, elem, shape, bytes.as_slice())?;
        json!(in alloc; {"name": name, "shape": cells, "type": kind, "value": value})
    } else {
        json!(in alloc; {"name": name, "shape": cells, "type": kind})
    }
}
