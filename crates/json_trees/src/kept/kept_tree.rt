//! A tree that is kept as its text.

ghost use Rattle.std.specs.Prelude.{◌≡◌, ◌<◌, ◌≤◌, [], List, length, OnOk, None, Some, IfOk, Err};
ghost use Rattle.json.specs.Json.{value};
ghost use Rattle.json.specs.Token.{Token as SpecToken};
ghost use Rattle.serde_json.specs.Data.{Data};
ghost use Rattle.serde_json.specs.Read.{converted, max_depth, of_json, read as read_text};
ghost use Rattle.json_trees.specs.Copied.{Reads};
ghost use Rattle.serde_json.specs.View.{view};
ghost use Rattle.json_trees.specs.Trees.{AreTexts, tree_in};
ghost use Rattle.json_trees.specs.Kept.{Begins};
ghost use Rattle.json_trees.specs.declared.kept.fault.ReadFault.TheVariants.{NotJson};

use crate::kept::copies::copy_value;
use crate::kept::fault::ReadFault;
use json::{Reader, Scratch, Writer};
use serde_json::Value;
use std::alloc::{AllocError, Global};
use std::marker::Model;

/// How deep arrays and objects nest at most, as `serde_json` reads them.
const MAX_DEPTH: usize = 127;

/// A tree of JSON, kept as its compact text and seen as its data.
#[derive(Drop)]
pub struct KeptTree {
    text: String,
}

impl Model for KeptTree {
    ghost use Rattle.std.specs.Prelude.{string_bytes};
    ghost use Rattle.serde_json.specs.Data.{Data};
    ghost use Rattle.json_trees.specs.CodedData.{coded_data};

    ghost Value = { Data };

    ghost coded = { coded_data };

    ghost use Rattle.json_trees.specs.Kept.{IsKept, kept_tree};

    ghost view = { λ a. kept_tree (string_bytes a.text) };

    ghost invariant = { λ a. IsKept (string_bytes a.text) };
}

impl KeptTree {
    /// The tree that `serde_json` reads from bytes.
    ///
    /// # Errors
    ///
    /// `NotJson` where it reads none.
    pub fn read(alloc: Global, bytes: &[u8]) -> Result<KeptTree, ReadFault>
        ensures read { IfOk result (λ tree. tree_in bytes.now ≡ Some tree) }
        ensures refused { result ≡ Err NotJson → tree_in bytes.now ≡ None }
    {
        match str::from_utf8(bytes) {
            Ok(text) => KeptTree::read_text(alloc, text),
            Err(_) => Err(ReadFault::NotJson),
        }
    }

    /// The tree of the value that comes next in a reader. Arrays and objects may nest `depth` deep.
    ///
    /// # Errors
    ///
    /// `NotJson` where `serde_json` reads no value so deep.
    pub fn take(alloc: Global, reader: &mut Reader<'_>, depth: usize) -> Result<KeptTree, ReadFault>
        requires { depth ≤ max_depth }
        ensures read { IfOk result (λ tree. Reads depth reader.old tree reader.new) }
        ensures refused { result ≡ Err NotJson → converted of_json (value depth reader.old) ≡ None }
    {
        let mut writer = Writer::new(Vec::new(alloc));
        copy_value(reader, &mut writer, depth)?;
        Ok(KeptTree {
            text: unsafe { String::from_utf8_unchecked(writer.into_inner()) },
        })
    }

    /// The tree of the value that comes next in a reader.
    ///
    /// # Errors
    ///
    /// Only where memory runs out, of a reader before a value that nests no deeper than 127.
    pub fn next(alloc: Global, reader: &mut Reader<'_>) -> Result<KeptTree, AllocError>
        ensures told { IfOk result (λ kept. (tree : Data) (rest : List SpecToken)
            → Begins reader.old tree rest → (kept ≡ tree) × (reader.new ≡ rest)) }
        ensures shorter { OnOk result (length reader.new < length reader.old) }
    {
        match KeptTree::take(alloc, reader, MAX_DEPTH) {
            Ok(tree) => Ok(tree),
            Err(_) => Err(AllocError),
        }
    }

    /// A reader of the tree's tokens.
    ///
    /// # Errors
    ///
    /// Only where memory runs out.
    pub fn reader<'a>(&'a self, scratch: &'a mut Scratch) -> Result<Reader<'a>, AllocError>
        ensures { IfOk result (λ reader. Begins reader self.now []) }
    {
        Reader::new(self.text.as_str(), scratch)
    }

    /// The tree as a value.
    ///
    /// # Errors
    ///
    /// Only where memory runs out.
    pub fn to_value(&self, alloc: Global) -> Result<Value, AllocError>
        ensures { IfOk result (λ value. view value ≡ self.now) }
    {
        match Value::from_str(alloc, self.text.as_str()) {
            Ok(value) => Ok(value),
            Err(_) => Err(AllocError),
        }
    }

    /// What is true of every kept tree: its texts are UTF-8.
    pub fn has_texts(&self)
        ensures { AreTexts self.now }
    {
        let _text = &self.text;
    }

    /// How many bytes the text has.
    pub fn text_len(&self) -> usize {
        self.text.len()
    }

    fn read_text(alloc: Global, text: &str) -> Result<KeptTree, ReadFault>
        ensures read { IfOk result (λ tree. read_text text.now ≡ Some tree) }
        ensures refused { result ≡ Err NotJson → read_text text.now ≡ None }
    {
        let mut scratch = Scratch::new(alloc);
        let mut reader = Reader::new(text, &mut scratch)?;
        let mut writer = Writer::new(Vec::with_capacity(alloc, text.len())?);
        copy_value(&mut reader, &mut writer, MAX_DEPTH)?;
        match reader.next() {
            Some(_) => Err(ReadFault::NotJson),
            None => Ok(KeptTree {
                text: unsafe { String::from_utf8_unchecked(writer.into_inner()) },
            }),
        }
    }
}
