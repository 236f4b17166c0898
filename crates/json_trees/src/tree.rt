//! A tree of JSON as a value of its own, so that what holds it is seen as plain data.

ghost use Rattle.std.specs.Prelude.{◌≡◌, IfOk};
ghost use Rattle.serde_json.specs.View.{view};

use serde_json::Value;
use std::alloc::{AllocError, Global};
use std::marker::Model;

/// A tree of JSON, seen as its data.
#[derive(Debug, Drop)]
pub struct Tree {
    value: Value,
}

impl Model for Tree {
    ghost use Rattle.serde_json.specs.Data.{Data};
    ghost use Rattle.serde_json.specs.View.{view as data_of};
    ghost use Rattle.json_trees.specs.CodedData.{coded_data};

    ghost Value = { Data };

    ghost coded = { coded_data };

    ghost view = { λ a. data_of a.value };
}

impl Tree {
    /// The tree of a value.
    pub fn new(value: Value) -> Tree
        ensures { result ≡ view value }
    {
        Tree { value }
    }

    /// The value, to be looked into.
    pub fn value(&self) -> &Value
        ensures { view result.now ≡ self.now }
    {
        &self.value
    }

    /// The value as it is.
    pub fn into_value(self) -> Value
        ensures { view result ≡ self }
    {
        self.value
    }

    /// The same tree once more.
    pub fn copy(&self, alloc: Global) -> Result<Tree, AllocError>
        ensures { IfOk result (λ tree. tree ≡ self.now) }
    {
        let _ = alloc;
        Ok(Tree {
            value: self.value.clone()?,
        })
    }
}
