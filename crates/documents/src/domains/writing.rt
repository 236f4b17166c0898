//! The text of a document, printed object by object, with no tree of the whole and none of cells.

mod collections;
mod datasets;
mod documents;
mod trees;

pub(crate) use documents::write_document;
