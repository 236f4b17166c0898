//! The tree of a document's text, with the values of its datasets kept as texts.

ghost use Rattle.std.specs.Prelude.{◌≡◌, ◌<◌, None, Some, Err, IfOk, IfSome, length};
ghost use Rattle.serde_json.specs.Data.{Data};
ghost use Rattle.serde_json.specs.View.{view};
ghost use Rattle.json_trees.specs.Trees.{tree_in};
ghost use Rattle.json_trees.specs.declared.kept.fault.ReadFault.TheVariants.{NotJson};
ghost use Rattle.documents.specs.Parts.Faults.{Gives};
ghost use Rattle.documents.specs.Reader.Bare.{IsBare};
ghost use Rattle.documents.specs.Reader.Documents.{doc_of};
ghost use Rattle.documents.specs.Reader.Kept.{IsReadAs, IsReadTold, json_doc};
ghost use Rattle.documents.specs.Reader.Texts.{IsJsonFault, IsToldLong, json_at, most_bytes};

use crate::parts::{DocCause, DocFault, refused_whole};
use crate::reader::MAX_DOCUMENT;
use crate::reader::bare_documents::{BareDocument, document_in};
use containers::text_maps::TextMap;
use json_trees::ReadFault;
use serde_json::{Error, Value};
use std::alloc::Global;

// The bare tree of a text that is short enough, and the values of its datasets.
pub(crate) fn parse(alloc: Global, text: &[u8]) -> Result<BareDocument, DocFault>
    ensures read { IsReadAs result (doc_of text.now) }
    ensures long { most_bytes < length text.now → IsToldLong result }
{
    if text.len() <= MAX_DOCUMENT {
        bare(alloc, text)
    } else {
        Err(refused_whole(alloc, DocCause::TooLong))
    }
}

fn bare(alloc: Global, text: &[u8]) -> Result<BareDocument, DocFault>
    ensures { IsReadAs result (json_doc text.now) }
{
    match bare_of(alloc, text) {
        Ok(Some(document)) => Ok(document),
        Ok(None) => whole(alloc, text),
        Err(fault) => Err(read_fault(alloc, fault)),
    }
}

// What `document_in` finds in bytes, where they are UTF-8.
fn bare_of(alloc: Global, text: &[u8]) -> Result<Option<BareDocument>, ReadFault>
    ensures read { IfOk result (λ found. IfSome found (λ document. (d : Data)
        × (tree_in text.now ≡ Some d) × IsBare d document)) }
    ensures refused { result ≡ Err NotJson → tree_in text.now ≡ None }
{
    match str::from_utf8(text) {
        Ok(text) => document_in(alloc, text),
        Err(_) => Err(ReadFault::NotJson),
    }
}

// The whole tree, of a document that is refused for what is no object.
fn whole(alloc: Global, text: &[u8]) -> Result<BareDocument, DocFault>
    ensures { IsReadAs result (json_doc text.now) }
{
    let tree = json(alloc, text)?;
    Ok(BareDocument {
        tree,
        values: TextMap::new(alloc),
    })
}

fn json(alloc: Global, text: &[u8]) -> Result<Value, DocFault>
    ensures { Gives view result (json_at text.now) }
{
    match Value::from_slice(alloc, text) {
        Ok(tree) => Ok(tree),
        Err(error) => Err(json_fault(alloc, error)),
    }
}

fn json_fault(alloc: Global, error: Error) -> DocFault
    ensures { IsJsonFault error result }
{
    if error.is_memory() {
        DocFault::NoMemory
    } else {
        refused_whole(alloc, DocCause::BadJson)
    }
}

fn read_fault(alloc: Global, fault: ReadFault) -> DocFault
    ensures { IsReadTold fault result }
{
    match fault {
        ReadFault::NoMemory => DocFault::NoMemory,
        ReadFault::NotJson => refused_whole(alloc, DocCause::BadJson),
    }
}
