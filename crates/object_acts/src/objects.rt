//! What an object is.

ghost use Rattle.std.specs.Prelude.{◌≡◌, ℕ, List, [], false, IfOk, IfSome, option_map};
ghost use Rattle.hdf_types.specs.Elems.{Elem};
ghost use Rattle.hdf_values.specs.Elements.{IsEncoded};
ghost use Rattle.object_ops.specs.Conditions.{IsSoundMake, IsSoundFill};
ghost use Rattle.object_ops.specs.Parts.{kind_made};
ghost use Rattle.object_acts.specs.Objects.{empty_group, made, unmarked, unmarked_body, IsOfKind};
ghost use Rattle.object_acts.specs.Objects.{body_made, kind_of_body, IsSoundBody, IsTrackedBody};
ghost use Rattle.object_acts.specs.Marked.{is_dirty_in};

use attributes::Attributes;
use chunk_store::Array;
use groups_links::Links;
use hdf_types::ElemType;
use hdf_values::Bytes;
use object_ops::Make;
use std::alloc::{AllocError, Global};

/// What an object is beside its attributes.
#[derive(Drop)]
pub enum Body {
    /// A group, with its links.
    Group(Links),
    /// A dataset, with its array.
    Dataset(Array),
    /// A committed datatype.
    Datatype(ElemType),
}

/// An object.
#[derive(Drop)]
pub struct Object {
    /// Its attributes.
    pub attributes: Attributes,
    /// What it is.
    pub body: Body,
}

impl Object {
    /// A group without links and attributes. It takes no memory.
    pub fn new_group(alloc: Global) -> Object
        ensures { result ≡ empty_group }
    {
        Object {
            attributes: Attributes::new(alloc),
            body: Body::Group(Links::new(alloc)),
        }
    }

    /// What is to be made, without attributes.
    ///
    /// # Errors
    ///
    /// Only where memory runs out.
    pub fn new(alloc: Global, make: &Make) -> Result<Object, AllocError>
        requires { IsSoundMake make.now }
        ensures made { IfOk result (λ o. unmarked o ≡ made make.now) }
        ensures kind { IfOk result (IsOfKind (kind_made make.now)) }
        ensures tracked { IfOk result (λ o. IsTrackedBody (λ _. []) o.body) }
        ensures still { IfOk result (λ o. (i : List ℕ) → is_dirty_in o.body i ≡ false) }
    {
        Ok(Object {
            attributes: Attributes::new(alloc),
            body: new_body(alloc, make)?,
        })
    }
}

fn new_body(alloc: Global, make: &Make) -> Result<Body, AllocError>
    requires { IsSoundMake make.now }
    ensures made { IfOk result (λ b. unmarked_body b ≡ body_made make.now) }
    ensures kind { IfOk result (λ b. kind_of_body b ≡ kind_made make.now) }
    ensures sound { IfOk result IsSoundBody }
    ensures tracked { IfOk result (IsTrackedBody (λ _. [])) }
    ensures still { IfOk result (λ b. (i : List ℕ) → is_dirty_in b i ≡ false) }
{
    match make {
        Make::Group => Ok(Body::Group(Links::new(alloc))),
        Make::Dataset {
            elem,
            shape,
            layout,
            fill,
        } => {
            let fill = copied(alloc, fill)?;
            let array = Array::new(alloc, elem.copy(alloc)?, *shape, *layout, fill)?;
            Ok(Body::Dataset(array))
        }
        Make::Datatype { elem } => Ok(Body::Datatype(elem.copy(alloc)?)),
    }
}

// The bytes of a fill, where there is one.
fn copied(alloc: Global, fill: &Option<Bytes>) -> Result<Option<Vec<u8>>, AllocError>
    ensures same { IfOk result (λ o. option_map (λ v. v.items) o ≡ fill.now) }
    ensures encoded { (e : Elem) → IsSoundFill e fill.now
        → IfOk result (λ o. IfSome o (λ v. IsEncoded e v.items)) }
{
    match fill {
        Some(bytes) => Ok(Some(Vec::from_slice(alloc, bytes.as_slice())?)),
        None => Ok(None),
    }
}
