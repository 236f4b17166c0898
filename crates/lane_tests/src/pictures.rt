//! What a journal keeps of a world, as texts.

ghost use Rattle.std.specs.Prelude.{IsTrue};
ghost use Rattle.domains.specs.Contents.{HasRoot};
ghost use Rattle.object_acts.specs.Objects.{IsSoundBody};

use domains::records::node_text;
use domains::{Node, NodeClass};
use object_acts::Object;
use object_ids::{Kind, ObjectId};
use object_records::object_text;
use service_core::World;
use std::alloc::Global;
use std::test::Fail;

/// An object's record.
#[derive(Drop)]
pub(crate) struct Shown {
    pub(crate) id: ObjectId,
    pub(crate) text: String,
}

/// The next number and all nodes, the numbers of the domains, and the objects in the order of their ids.
#[derive(Drop)]
pub(crate) struct Picture {
    pub(crate) catalogue: String,
    pub(crate) numbers: Vec<u64>,
    pub(crate) objects: Vec<Shown>,
}

/// Whether these are the same records in the same order.
fn are_as(ones: &[Shown], others: &[Shown]) -> bool {
    for (one, other) in ones.iter().zip(others) {
        if one.id != other.id || one.text.as_str() != other.text.as_str() {
            return false;
        }
    }
    ones.len() == others.len()
}

impl Picture {
    /// Whether the other world has the same.
    pub(crate) fn is_as(&self, other: &Picture) -> bool {
        self.catalogue.as_str() == other.catalogue.as_str()
            && are_as(self.objects.as_slice(), other.objects.as_slice())
    }
}

fn has_root(class: NodeClass) -> bool
    ensures { IsTrue result → HasRoot class }
{
    match class {
        NodeClass::Folder => true,
        NodeClass::Domain { number, root } => root.kind == Kind::Group && root.domain == number,
    }
}

fn number_of(class: NodeClass) -> Option<u64> {
    match class {
        NodeClass::Folder => None,
        NodeClass::Domain { number, .. } => Some(number),
    }
}

fn add_node(alloc: Global, picture: &mut Picture, path: &str, node: &Node) -> Result<(), Fail> {
    if !has_root(node.class) {
        return Err(Fail::from("a root of another domain"));
    }
    let body = node_text(alloc, node)?;
    for part in [path, " ", body.as_str(), "\n"] {
        picture.catalogue.push_str(part)?;
    }
    if let Some(number) = number_of(node.class) {
        picture.numbers.push(number)?;
    }
    Ok(())
}

fn add_object(
    alloc: Global,
    picture: &mut Picture,
    id: ObjectId,
    object: &Object,
) -> Result<(), Fail>
    requires { IsSoundBody object.now.body }
{
    let text = object_text(alloc, object)?;
    picture.objects.push(Shown { id, text })?;
    Ok(())
}

fn add_objects(alloc: Global, picture: &mut Picture, world: &World) -> Result<(), Fail> {
    let mut at = world.next_id(None);
    for _ in 0..100u8 {
        let Some(id) = at else {
            return Ok(());
        };
        let Some(object) = world.object(&id) else {
            return Err(Fail::from("no object at an id"));
        };
        add_object(alloc, picture, id, object)?;
        at = world.next_id(Some(&id));
    }
    Err(Fail::from("more objects than that"))
}

/// All that a journal keeps of a world.
pub(crate) fn picture_of(alloc: Global, world: &World) -> Result<Picture, Fail> {
    let next = world.catalogue().next_number();
    let mut picture = Picture {
        catalogue: format!(in alloc; "{next}\n")?,
        numbers: Vec::new(alloc),
        objects: Vec::new(alloc),
    };
    for (path, node) in world.catalogue().as_map().as_tree() {
        add_node(alloc, &mut picture, path.as_str(), node)?;
    }
    add_objects(alloc, &mut picture, world)?;
    Ok(picture)
}
