//! The objects of a document as objects of a domain: each id of the document gives way to a fresh one, where it stands and
//! where a hard link leads to it.

mod laws;
mod links;
mod names;
mod new_objects;
mod renaming;
mod taking;

pub use laws::{documents_stand_for_one, ids_are_fresh, objects_stand_at_their_ids};
pub use new_objects::NewObject;
pub use renaming::{NewObjects, Renamed, rename};
