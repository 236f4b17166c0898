//! The document of a sample.

ghost use Rattle.std.specs.Prelude.{◌≡◌, ℕ, ◌+◌, IfOk, OnOk, Some, string_bytes};
ghost use Rattle.serde_json.specs.Read.{read};
ghost use Rattle.serde_json.specs.View.{view};
ghost use Rattle.samples.specs.Values.Samples.{state};
ghost use Rattle.samples.specs.Trees.{dataset_tree as tree_of_dataset, document_tree as tree_of_document};
ghost use Rattle.samples.specs.Trees.{run_tree, sample_tree, value_tree as tree_of_value};

use crate::values::Elements;
use serde_json::{Value, json};
use std::alloc::{AllocError, Global};

/// The rows and the columns of the dataset.
pub const SIDE: usize = 1000;

/// The document's text: a root with a link to the dataset.
pub(crate) fn document_text(alloc: Global, number: u32) -> Result<String, AllocError>
    ensures { IfOk result (λ text. read (string_bytes text) ≡ Some (sample_tree number)) }
{
    let value = value_tree(alloc, number)?;
    let dataset = dataset_tree(alloc, value)?;
    let document = document_tree(alloc, dataset)?;
    document.to_string(alloc)
}

#[tactic(auto, unfolding(crate::specs::Trees::document_tree))]
fn document_tree(alloc: Global, dataset: Value) -> Result<Value, AllocError>
    ensures { IfOk result (λ tree. view tree ≡ tree_of_document (view dataset)) }
{
    json!(in alloc; {
        "datasets": {"d": dataset},
        "groups": {"g": {"links": [{"id": "d", "title": "data"}]}},
        "root": "g"
    })
}

fn dataset_tree(alloc: Global, value: Value) -> Result<Value, AllocError>
    ensures { IfOk result (λ tree. view tree ≡ tree_of_dataset (view value)) }
{
    json!(in alloc; {
        "shape": {"class": "H5S_SIMPLE", "dims": [1000, 1000]},
        "type": "H5T_STD_I32LE",
        "value": value
    })
}

// All elements, row by row.
fn value_tree(alloc: Global, number: u32) -> Result<Value, AllocError>
    ensures { IfOk result (λ tree. view tree ≡ tree_of_value number 1000 1000) }
{
    let mut elements = Elements::new(number);
    let mut rows = Vec::with_capacity(alloc, SIDE)?;
    for row in 0..SIDE {
        rows.push(next_row(alloc, &mut elements)?)?;
    }
    Ok(Value::Array(rows))
}

fn next_row(alloc: Global, elements: &mut Elements) -> Result<Value, AllocError>
    ensures tree { (n k : ℕ) → elements.old ≡ state n k
        → IfOk result (λ tree. view tree ≡ run_tree n 1000 k) }
    ensures state { (n k : ℕ) → elements.old ≡ state n k
        → OnOk result (elements.new ≡ state n (k + 1000)) }
{
    let mut row = Vec::with_capacity(alloc, SIDE)?;
    for column in 0..SIDE {
        row.push(Value::from(elements.next()))?;
    }
    Ok(Value::Array(row))
}
