//! The keys of folders and domains.

ghost use Rattle.std.specs.Prelude.{◌≡◌, ◌≢◌, ℕ, List, IfOk, MatchOption};
ghost use Rattle.object_records.specs.Keys.Keys.{IsPath, node_key};

use object_ids::{DomainPath, path_text};
use std::alloc::{AllocError, Global};

/// The key of the record of a folder or a domain: 2, and the text of its path.
///
/// # Errors
///
/// Only where memory runs out.
pub fn node_key(alloc: Global, path: &DomainPath) -> Result<Vec<u8>, AllocError>
    ensures key { IfOk result (λ v. v.items ≡ node_key path.now) }
    ensures path { IsPath path.now }
{
    let text = path.text();
    let mut key = Vec::new(alloc);
    key.push(2)?;
    key.extend_from_slice(text.as_bytes())?;
    Ok(key)
}

/// The text of the path of the folder or domain whose record has this key. It takes no memory.
pub fn node_at(key: &[u8]) -> Option<&str>
    ensures { MatchOption result ((path : List ℕ) → IsPath path → node_key path ≢ key.now)
        (λ path. IsPath path.now × (node_key path.now ≡ key.now)) }
{
    let [2, rest @ ..] = key else {
        return None;
    };
    let Ok(text) = str::from_utf8(rest) else {
        return None;
    };
    let path = path_text(text)?;
    if path == text { Some(text) } else { None }
}
