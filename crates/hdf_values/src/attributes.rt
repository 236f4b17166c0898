//! Attributes: a small value with its type and shape.

ghost use Rattle.std.specs.Prelude.{◌≡◌, ◌*◌, ◌≤◌, IfOk};
ghost use Rattle.serde_json.specs.View.{view};
ghost use Rattle.hdf_types.specs.Reading.{size_of};
ghost use Rattle.hdf_types.specs.Types.{IsSoundType};
ghost use Rattle.hdf_types.specs.Views.{elem};
ghost use Rattle.shapes.specs.Shapes.{IsSound, count_of};
ghost use Rattle.hdf_values.specs.Attributes.{Content, content, IsAttribute, IsSoundAttribute, IsTypeAt};
ghost use Rattle.hdf_values.specs.Attributes.{IsValueAt, attribute_of, type_fault, value_fault};
ghost use Rattle.hdf_values.specs.Attributes.{typed_at, valued_at, value_or, sized_at, most_bytes};
ghost use Rattle.json_trees.specs.Faults.{Fails, Gives};
ghost use Rattle.json_trees.specs.Shown.{shown};
ghost use Rattle.hdf_values.specs.Nested.{AreEncoded};
ghost use Rattle.hdf_values.specs.declared.attributes.AttributeFault.TheVariants.{NoMemory, BadShape};

use crate::shaped::read_value;
use crate::{MAX_ATTRIBUTE, ValueFault};
use hdf_types::{Cause, ElemType, FieldPath, TypeFault, read_type};
use serde_json::Value;
use shapes::{Shape, ShapeFault, count, read_shape};
use std::alloc::{AllocError, Global};
use std::marker::Model;

/// Bytes of elements, one after another.
#[derive(Debug, Drop)]
pub struct Bytes {
    list: Vec<u8>,
}

impl Model for Bytes {
    ghost use Rattle.std.specs.Prelude.{List, ℕ};

    ghost Value = { List ℕ };

    ghost view = { λ a. a.list.items };
}

impl Bytes {
    /// The bytes of a list, which it keeps.
    pub fn from_vec(list: Vec<u8>) -> Bytes
        ensures { result ≡ list.items }
    {
        Bytes { list }
    }

    /// The list, which is given back.
    pub fn into_vec(self) -> Vec<u8>
        ensures { result.items ≡ self }
    {
        self.list
    }

    /// The bytes in order.
    pub fn as_slice(&self) -> &[u8]
        ensures { result.now ≡ self.now }
    {
        self.list.as_slice()
    }
}

/// An attribute's type, shape and value.
#[derive(Debug, Drop)]
pub struct Attribute {
    /// The type of its elements.
    pub elem: ElemType,
    /// Its shape.
    pub shape: Shape,
    /// Its elements in row-major order.
    pub bytes: Bytes,
}

/// Why a tree spells no attribute. Of several faults the one that stands first here is told.
#[derive(Clone, Copy, Debug, PartialEq, Eq)]
pub enum AttributeFault {
    /// Memory ran out.
    NoMemory,
    /// The type is missing or none.
    BadType(TypeFault),
    /// The shape is none.
    BadShape(ShapeFault),
    /// The value has more than [`MAX_ATTRIBUTE`] bytes.
    TooLarge,
    /// The value is missing or none of the type and shape.
    BadValue(ValueFault),
}

impl From<AllocError> for AttributeFault {
    ghost from_gives = { λ _ e. e ≡ NoMemory };

    fn from(_error: AllocError) -> AttributeFault {
        AttributeFault::NoMemory
    }
}

impl From<TypeFault> for AttributeFault {
    ghost from_gives = { λ fault e. e ≡ type_fault fault };

    fn from(fault: TypeFault) -> AttributeFault {
        match &fault {
            TypeFault::NoMemory => AttributeFault::NoMemory,
            TypeFault::Refused { .. } => AttributeFault::BadType(fault),
        }
    }
}

impl From<ShapeFault> for AttributeFault {
    ghost from_gives = { λ fault e. e ≡ BadShape fault };

    fn from(fault: ShapeFault) -> AttributeFault {
        AttributeFault::BadShape(fault)
    }
}

impl From<ValueFault> for AttributeFault {
    ghost from_gives = { λ fault e. e ≡ value_fault fault };

    fn from(fault: ValueFault) -> AttributeFault {
        match fault {
            ValueFault::NoMemory => AttributeFault::NoMemory,
            other => AttributeFault::BadValue(other),
        }
    }
}

/// The attribute that a tree spells: an object with a `type`, a `value` and maybe a `shape`. Other
/// keys are ignored. Without cells the value is null; without an axis it is one element.
///
/// # Errors
///
/// The first fault in the order of [`AttributeFault`]. A missing type is none, and a missing value
/// is of another kind at place 0.
pub fn read_attribute(alloc: Global, tree: &Value) -> Result<Attribute, AttributeFault>
    ensures spelled { IfOk result (λ a. IsAttribute (view tree.now) (content a)) }
    ensures only { (c : Content) → IsAttribute (view tree.now) c
        → Gives (Fails AttributeFault.NoMemory) content result (Ok c) }
    ensures first { Gives (Fails AttributeFault.NoMemory) content result
        (attribute_of (view tree.now)) }
    ensures sound { IfOk result (λ a. IsSoundAttribute (content a)) }
{
    first_of(alloc, tree)
}

#[tactic(auto, unfolding(crate::specs::Attributes::attribute_of))]
fn first_of(alloc: Global, tree: &Value) -> Result<Attribute, AttributeFault>
    ensures gives { Gives (Fails AttributeFault.NoMemory) content result
        (attribute_of (view tree.now)) }
    ensures spelled { IfOk result (λ a. IsAttribute (view tree.now) (content a)) }
    ensures sound { IfOk result (λ a. IsSoundAttribute (content a)) }
{
    let kind = typed(alloc, tree.get("type"))?;
    let shape = read_shape(tree.get("shape"), None)?;
    let bytes = sized(alloc, &kind, &shape, tree.get("value"))?;
    Ok(Attribute {
        elem: kind,
        shape,
        bytes: Bytes::from_vec(bytes),
    })
}

fn typed(alloc: Global, tree: Option<&Value>) -> Result<ElemType, AttributeFault>
    ensures gives { Gives (Fails AttributeFault.NoMemory) elem result
        (typed_at (shown tree.entry)) }
    ensures spelled { IfOk result (λ e. IsTypeAt (shown tree.entry) (elem e)) }
    ensures sound { IfOk result (λ e. IsSoundType (elem e)) }
{
    match tree {
        Some(tree) => Ok(read_type(alloc, tree)?),
        None => Err(AttributeFault::BadType(TypeFault::Refused {
            path: FieldPath::new(),
            cause: Cause::NotAType,
        })),
    }
}

fn sized(
    alloc: Global,
    kind: &ElemType,
    shape: &Shape,
    tree: Option<&Value>,
) -> Result<Vec<u8>, AttributeFault>
    requires kind { IsSoundType (elem kind.now) }
    requires shape { IsSound shape.now }
    ensures gives { Gives (Fails AttributeFault.NoMemory) (λ v. v.items) result
        (sized_at (elem kind.now) shape.now
        (value_or (valued_at (elem kind.now) shape.now (shown tree.entry)))) }
    ensures small { IfOk result (λ _. count_of shape.now * size_of (elem kind.now) ≤ most_bytes) }
    ensures spelled { IfOk result
        (λ v. IsValueAt (elem kind.now) shape.now (shown tree.entry) v.items) }
    ensures encoded { IfOk result (λ v. AreEncoded (elem kind.now) (count_of shape.now) v.items) }
{
    if count(shape).saturating_mul(u64::from(kind.size())) > MAX_ATTRIBUTE {
        return Err(AttributeFault::TooLarge);
    }
    Ok(valued(alloc, kind, shape, tree)?)
}

fn valued(
    alloc: Global,
    kind: &ElemType,
    shape: &Shape,
    tree: Option<&Value>,
) -> Result<Vec<u8>, ValueFault>
    requires kind { IsSoundType (elem kind.now) }
    ensures gives { Gives (Fails ValueFault.NoMemory) (λ v. v.items) result
        (valued_at (elem kind.now) shape.now (shown tree.entry)) }
    ensures spelled { IfOk result
        (λ v. IsValueAt (elem kind.now) shape.now (shown tree.entry) v.items) }
    ensures encoded { IfOk result (λ v. AreEncoded (elem kind.now) (count_of shape.now) v.items) }
{
    match tree {
        Some(tree) => read_value(alloc, kind, shape, tree),
        None => Err(ValueFault::NotOfType { place: 0 }),
    }
}

impl Attribute {
    /// An attribute with the same content.
    ///
    /// # Errors
    ///
    /// Only where memory runs out.
    pub fn copy(&self, alloc: Global) -> Result<Attribute, AllocError>
        ensures { IfOk result (λ a. a ≡ self.now) }
    {
        let bytes = Bytes::from_vec(Vec::from_slice(alloc, self.bytes.as_slice())?);
        Ok(Attribute {
            elem: self.elem.copy(alloc)?,
            shape: self.shape,
            bytes,
        })
    }
}
