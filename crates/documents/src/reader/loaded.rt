//! What a document holds.

use crate::parts::{FreshArray, IdText, SoundType, Targets};
use attributes::Attributes;
use containers::text_maps::TextMap;

/// A group of a document.
#[derive(Drop)]
pub struct Group {
    /// Its attributes.
    pub attributes: Attributes,
    /// Its links.
    pub links: Targets,
}

/// A dataset of a document.
#[derive(Drop)]
pub struct Dataset {
    /// Its attributes.
    pub attributes: Attributes,
    /// Its array.
    pub array: FreshArray,
}

/// A committed datatype of a document.
#[derive(Drop)]
pub struct Datatype {
    /// Its attributes.
    pub attributes: Attributes,
    /// The type.
    pub kind: SoundType,
}

/// What a document holds: its objects by the texts of their ids.
#[derive(Drop)]
pub struct Loaded {
    /// The id of the group that is the root of the domain.
    pub root: IdText,
    /// The groups.
    pub groups: TextMap<Group>,
    /// The datasets.
    pub datasets: TextMap<Dataset>,
    /// The committed datatypes.
    pub datatypes: TextMap<Datatype>,
}
