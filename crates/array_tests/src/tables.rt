//! Rows of tables: columns parted by strokes.

use serde_json::Value;
use std::process::Abort;

/// A row's column, from 0; empty where the row has fewer.
pub fn column(row: &str, place: u8) -> &str {
    let mut columns = row.split('|');
    for _ in 0..place {
        let _before = columns.next();
    }
    columns.next().unwrap_or("")
}

/// The tree that a text is.
pub fn tree(rt: &(impl Abort + AllocGlobal), text: &str) -> Value {
    Value::from_str(rt.alloc(), text).expect(rt, "JSON")
}

/// The text, where there was memory for it.
pub fn had<E: Drop>(rt: &impl Abort, text: Result<String, E>) -> String {
    match text {
        Ok(text) => text,
        Err(_) => panic!(rt; "no text"),
    }
}
