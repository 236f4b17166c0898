//! What is asked.

use access_lists::Rights;
use chunk_layout::Layout;
use groups_links::LinkTo;
use hdf_types::ElemType;
use hdf_values::{Attribute, Bytes, KeptValue};
use json_trees::KeptList;
use object_ids::{DomainPath, Kind, Name, ObjectId};
use shapes::{Dims, KeptDims, Shape};
use std::marker::Model;

/// The text of a selection, as a query has it; it need not be one.
#[derive(Drop)]
pub struct SelectText {
    text: String,
}

impl Model for SelectText {
    ghost use Rattle.std.specs.Prelude.{List, ℕ, string_bytes};

    ghost Value = { List ℕ };

    ghost view = { λ a. string_bytes a.text };
}

impl SelectText {
    ghost use Rattle.std.specs.Prelude.{◌≡◌, string_bytes};

    /// The text, which it keeps.
    pub fn from_string(text: String) -> SelectText
        ensures { result ≡ string_bytes text }
    {
        SelectText { text }
    }

    /// The text.
    pub fn text(&self) -> &str
        ensures { result.now ≡ self.now }
    {
        self.text.as_str()
    }
}

/// A request: the path of a folder or a domain, and what is asked there.
#[derive(Drop)]
pub struct Request {
    /// The folder's or the domain's path.
    pub path: DomainPath,
    /// What is asked.
    pub op: Op,
}

/// What is asked: of a folder or a domain, of its access list, or of an object of a domain.
#[derive(Drop)]
pub enum Op {
    /// The folder or the domain.
    GetNode,
    /// A new folder or a new domain.
    PutNode {
        /// Whether it is a folder.
        folder: bool,
    },
    /// That all is kept that was written before.
    Flush,
    /// The removal of the folder or the domain.
    DropNode,
    /// What stands in a folder.
    ListNodes,
    /// The access list.
    GetAcls,
    /// One entry of the access list.
    GetAcl {
        /// The entry's name.
        name: Name,
    },
    /// One entry of the access list, new or in place of the old.
    PutAcl {
        /// The entry's name.
        name: Name,
        /// The entry.
        rights: Rights,
    },
    /// A new object.
    MakeObject {
        /// What it is to be.
        make: Make,
        /// The link that is to lead to it.
        link: Option<LinkPlace>,
    },
    /// An object.
    GetObject {
        /// The object.
        id: ObjectId,
    },
    /// The removal of an object.
    DropObject {
        /// The object.
        id: ObjectId,
    },
    /// The links of a group.
    ListLinks {
        /// The group.
        id: ObjectId,
    },
    /// One link of a group.
    GetLink {
        /// The group.
        id: ObjectId,
        /// The link's title.
        title: Name,
    },
    /// A new link of a group.
    PutLink {
        /// The group.
        id: ObjectId,
        /// The link's title.
        title: Name,
        /// Where it leads.
        link: LinkTo,
    },
    /// The removal of a link of a group.
    DropLink {
        /// The group.
        id: ObjectId,
        /// The link's title.
        title: Name,
    },
    /// The attributes of an object, without their values.
    ListAttributes {
        /// The object.
        id: ObjectId,
    },
    /// One attribute of an object.
    GetAttribute {
        /// The object.
        id: ObjectId,
        /// The attribute's name.
        name: Name,
    },
    /// A new attribute of an object.
    PutAttribute {
        /// The object.
        id: ObjectId,
        /// The attribute's name.
        name: Name,
        /// The attribute.
        attribute: Attribute,
    },
    /// The removal of an attribute of an object.
    DropAttribute {
        /// The object.
        id: ObjectId,
        /// The attribute's name.
        name: Name,
    },
    /// The shape of a dataset.
    GetShape {
        /// The dataset.
        id: ObjectId,
    },
    /// Other dims for a dataset.
    PutShape {
        /// The dataset.
        id: ObjectId,
        /// The dims.
        dims: Dims,
    },
    /// The type of a dataset's elements.
    GetElem {
        /// The dataset.
        id: ObjectId,
    },
    /// A part of a dataset's value, or the whole of it.
    GetValue {
        /// The dataset.
        id: ObjectId,
        /// The part.
        select: Option<SelectText>,
    },
    /// Other elements in a part of a dataset.
    PutValue {
        /// The dataset.
        id: ObjectId,
        /// The part.
        part: Part,
        /// The elements.
        value: KeptValue,
    },
    /// The elements at points of a dataset.
    GetPoints {
        /// The dataset.
        id: ObjectId,
        /// The points.
        points: KeptList,
    },
}

impl Op {
    ghost use Rattle.std.specs.Prelude.{◌≡◌};
    ghost use Rattle.std.specs.Option.{option_copied};
    ghost use Rattle.object_ops.specs.Parts.{id_of};

    /// The id of the object, of an operation on one.
    pub fn id(&self) -> Option<&ObjectId>
        ensures { option_copied result ≡ id_of self.now }
    {
        match self {
            Op::GetObject { id }
            | Op::DropObject { id }
            | Op::ListLinks { id }
            | Op::GetLink { id, .. }
            | Op::PutLink { id, .. }
            | Op::DropLink { id, .. }
            | Op::ListAttributes { id }
            | Op::GetAttribute { id, .. }
            | Op::PutAttribute { id, .. }
            | Op::DropAttribute { id, .. }
            | Op::GetShape { id }
            | Op::PutShape { id, .. }
            | Op::GetElem { id }
            | Op::GetValue { id, .. }
            | Op::PutValue { id, .. }
            | Op::GetPoints { id, .. } => Some(id),
            _ => None,
        }
    }
}

/// What is made.
#[derive(Drop)]
pub enum Make {
    /// A group.
    Group,
    /// A dataset.
    Dataset {
        /// The type of its elements.
        elem: ElemType,
        /// Its shape.
        shape: Shape,
        /// Its chunks.
        layout: Layout,
        /// The bytes of the element that each cell has at first; zero where none is given.
        fill: Option<Bytes>,
    },
    /// A committed datatype.
    Datatype {
        /// The type.
        elem: ElemType,
    },
}

impl Make {
    ghost use Rattle.std.specs.Prelude.{◌≡◌};
    ghost use Rattle.object_ops.specs.Parts.{kind_made};

    /// The kind of what is made.
    pub fn kind(&self) -> Kind
        ensures { result ≡ kind_made self.now }
    {
        match self {
            Make::Group => Kind::Group,
            Make::Dataset { .. } => Kind::Dataset,
            Make::Datatype { .. } => Kind::Datatype,
        }
    }
}

/// Where a new object is linked.
#[derive(Drop)]
pub struct LinkPlace {
    /// The group that gets the link.
    pub group: ObjectId,
    /// The link's title.
    pub title: Name,
}

/// The part of a dataset that is written. The trees need not be lists of numbers.
#[derive(Drop)]
pub enum Part {
    /// A strided part; an absent list stands for 0, the dims or 1.
    Slab {
        /// The first coordinate on each axis.
        start: Option<KeptDims>,
        /// The end on each axis.
        stop: Option<KeptDims>,
        /// The distance on each axis.
        step: Option<KeptDims>,
    },
    /// Points, in their order.
    Points {
        /// The points.
        points: KeptList,
    },
}
