//! The document of a domain.

ghost use Rattle.std.specs.Prelude.{OnOk};
ghost use Rattle.documents.specs.Domains.Documents.{document_tree};
ghost use Rattle.documents.specs.Domains.Writing.{Prints};

use crate::domains::home::Home;
use crate::domains::store::ObjectStore;
use crate::domains::writing::collections::write_collection;
use crate::domains::writing::trees::write_text;
use json::Writer;
use object_ids::{Kind, id_text};
use std::alloc::{AllocError, Global};

/// Writes the document of a domain.
///
/// # Errors
///
/// Only where memory runs out.
pub(crate) fn write_document<S: ObjectStore>(
    alloc: Global,
    store: &S,
    home: &Home,
    writer: &mut Writer,
) -> Result<(), AllocError>
    ensures { OnOk result
        (Prints (document_tree (S.objects store.now) home.now) writer.old writer.new) }
{
    let root = id_text(alloc, &home.root)?;
    writer.begin_object()?;
    write_text("apiVersion", "1.1.1", writer)?;
    write_collection(alloc, store, home, "datasets", Kind::Dataset, writer)?;
    write_collection(alloc, store, home, "datatypes", Kind::Datatype, writer)?;
    write_collection(alloc, store, home, "groups", Kind::Group, writer)?;
    write_text("root", root.as_str(), writer)?;
    writer.end_object()
}
