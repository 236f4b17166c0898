//! What holds of all documents. No program calls these functions; the contract of each is a law.

ghost use Rattle.json_import.specs.RoundTrips.Loaded.{DomainsAreLoaded, DomainsAreShallow, TextsAreLoaded};
ghost use Rattle.json_import.specs.RoundTrips.Laws.{ArraysReadBack, AttributesReadBack, DocumentsReadBack, ExportsReadBack};
ghost use Rattle.json_import.specs.RoundTrips.Laws.{ShapesReadBack, TextsStayInOrder, TypesReadBack, ValuesReadBack};

use chunk_store::reads_of_cells;
use documents::parts::cells_have_elements;
use object_ops::creation::creation_or_fault;

/// What is printed of a part of a document is read as the part.
pub fn parts_read_back()
    ensures types { TypesReadBack }
    ensures shapes { ShapesReadBack }
    ensures values { ValuesReadBack }
    ensures attributes { AttributesReadBack }
    ensures arrays { ArraysReadBack }
{
    creation_or_fault();
    reads_of_cells();
    cells_have_elements();
}

/// What a document holds, put at fresh ids, is what the document of the new domain holds, under the texts of these ids; and in
/// each collection these stand in the order of the texts that they replace, the root's before the others.
pub fn documents_read_back()
    ensures same { DocumentsReadBack }
    ensures order { TextsStayInOrder }
{
    creation_or_fault();
    reads_of_cells();
    cells_have_elements();
}

/// The document of a domain whose objects are sound is loaded as what the domain holds, and so is its text, where that isn't too
/// long: an import finds no fault in it. Put at fresh ids it is exported again as the same under these.
pub fn domains_are_loaded()
    ensures loaded { DomainsAreLoaded }
    ensures shallow { DomainsAreShallow }
    ensures texts { TextsAreLoaded }
    ensures again { ExportsReadBack }
{
    creation_or_fault();
    reads_of_cells();
    cells_have_elements();
}
