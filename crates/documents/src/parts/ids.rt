//! The ids of a document, which are any texts.

ghost use Rattle.std.specs.Prelude.{◌≡◌, IfOk};
ghost use Rattle.serde_json.specs.View.{view};
ghost use Rattle.documents.specs.Parts.Ids.{has_id, is_id};

use serde_json::Value;
use std::alloc::{AllocError, Global};
use std::marker::Model;

/// A text that stands for an object of a document.
#[derive(Debug, Drop)]
pub struct IdText {
    text: String,
}

impl Model for IdText {
    ghost use Rattle.std.specs.Prelude.{List, ℕ, string_bytes};

    ghost Value = { List ℕ };

    ghost view = { λ a. string_bytes a.text };
}

impl IdText {
    /// A copy of a text.
    ///
    /// # Errors
    ///
    /// Only where memory runs out.
    pub fn new(alloc: Global, text: &str) -> Result<IdText, AllocError>
        ensures { IfOk result (λ id. id ≡ text.now) }
    {
        Ok(IdText {
            text: String::from_str(alloc, text)?,
        })
    }

    /// The text.
    pub fn text(&self) -> &str
        ensures { result.now ≡ self.now }
    {
        self.text.as_str()
    }
}

/// Whether a document has an object of an id.
pub fn is_id(document: &Value, id: &str) -> bool
    ensures { result ≡ is_id id.now (view document.now) }
{
    has_id(document, "datasets", id)
        || has_id(document, "datatypes", id)
        || has_id(document, "groups", id)
}

/// Whether a collection of a document has an object of an id.
pub fn has_id(document: &Value, collection: &str, id: &str) -> bool
    ensures { result ≡ has_id collection.now id.now (view document.now) }
{
    match document.get(collection) {
        None => false,
        Some(objects) => objects.get(id).is_some(),
    }
}
