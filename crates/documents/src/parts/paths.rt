//! The paths of what is at fault in a document.

ghost use Rattle.std.specs.Prelude.{◌≡◌, [], IfOk};
ghost use Rattle.documents.specs.Parts.Paths.{IsShown, under};

use std::alloc::{AllocError, Global};
use std::marker::Model;

/// The most bytes of a path that a fault shows.
pub const MAX_SHOWN: usize = 1024;

/// The keys and list indexes that lead from the top of a document to a place in it, joined by `/`.
#[derive(Debug, Drop)]
pub struct DocPath {
    text: String,
}

impl Model for DocPath {
    ghost use Rattle.std.specs.Prelude.{List, ℕ, string_bytes};

    ghost Value = { List ℕ };

    ghost view = { λ a. string_bytes a.text };
}

impl DocPath {
    /// The path as text.
    pub fn text(&self) -> &str
        ensures { result.now ≡ self.now }
    {
        self.text.as_str()
    }

    /// The path of the whole document. Takes no memory.
    pub fn top(alloc: Global) -> DocPath
        ensures { result ≡ [] }
    {
        DocPath {
            text: String::new(alloc),
        }
    }

    /// A path and what stands below it at a key.
    ///
    /// # Errors
    ///
    /// Only where memory runs out.
    pub fn under(alloc: Global, path: &str, key: &str) -> Result<DocPath, AllocError>
        ensures { IfOk result (λ p. p ≡ under path.now key.now) }
    {
        let mut text = String::from_str(alloc, path)?;
        text.push_str("/")?;
        text.push_str(key)?;
        Ok(DocPath { text })
    }

    /// At most [`MAX_SHOWN`] bytes of a path, up to the end of a character.
    ///
    /// # Errors
    ///
    /// Only where memory runs out.
    pub fn shown(alloc: Global, path: &str) -> Result<DocPath, AllocError>
        ensures { IfOk result (IsShown path.now) }
    {
        let end = path.floor_char_boundary(MAX_SHOWN);
        DocPath::new(alloc, &path[..end])
    }

    fn new(alloc: Global, path: &str) -> Result<DocPath, AllocError>
        ensures { IfOk result (λ p. p ≡ path.now) }
    {
        Ok(DocPath {
            text: String::from_str(alloc, path)?,
        })
    }
}
