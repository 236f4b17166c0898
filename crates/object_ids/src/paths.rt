ghost use Rattle.std.specs.Prelude.{◌≡◌, ◌≢◌, ◌⊎◌, ◌<◌, ◌==◌, ℕ, List, ◌∷◌, ◌++◌, All, Some, None, IfOk};
ghost use Rattle.std.specs.Prelude.{IsErrOf, IsSome, if◌then◌else◌, length};
ghost use Rattle.std.specs.List.{list_all, slice_split};
ghost use Rattle.std.specs.Option.{option_copied};
ghost use Rattle.object_ids.specs.Paths.{is_part, is_path, is_slash, parent_of, path_of, root_path, without_trailing_slash};
ghost use Rattle.object_ids.specs.declared.paths.PathFault.TheVariants.{NoMemory};

use crate::names::is_name;
use std::alloc::{AllocError, Global};
use std::marker::Model;

/// The most bytes of a path.
pub const MAX_PATH_LEN: usize = 1024;

/// The most bytes of a part of a path.
pub const MAX_PART_LEN: usize = 255;

/// The path of a folder or a domain: `/`, or parts, each begun by `/`. It has at most 1,024 bytes; a part is a name of at
/// most 255 bytes that is neither `.` nor `..`.
#[derive(Drop)]
pub struct DomainPath {
    text: String,
}

impl Model for DomainPath {
    ghost use Rattle.std.specs.Prelude.{◌≡◌, ℕ, List, Some, string_bytes};
    ghost use Rattle.object_ids.specs.Paths.{path_of};

    ghost Value = { List ℕ };

    ghost view = { λ p. string_bytes p.text };

    ghost invariant = { λ p. path_of (string_bytes p.text) ≡ Some (string_bytes p.text) };
}

/// Why a text was not read as a path.
#[derive(Clone, Copy, Debug, PartialEq, Eq)]
pub enum PathFault {
    /// The text spells no path.
    BadPath,
    /// There was no memory for the path.
    NoMemory,
}

impl From<AllocError> for PathFault {
    ghost from_gives = { λ _ e. e ≡ NoMemory };

    fn from(_error: AllocError) -> PathFault {
        PathFault::NoMemory
    }
}

/// The canonical text of the path that a text spells: the text itself, or without one slash at its end. Takes no memory.
pub fn path_text(text: &str) -> Option<&str>
    ensures { option_copied result ≡ path_of text.now }
{
    let path = without_trailing_slash(text);
    if is_path(path.as_bytes()) {
        Some(path)
    } else {
        None
    }
}

/// Reads a path. One slash at the end is dropped, so `/a/` is `/a`.
pub fn read_path(alloc: Global, text: &str) -> Result<DomainPath, PathFault>
    ensures ok { IfOk result (λ p. path_of text.now ≡ Some p) }
    ensures bad { IsErrOf result PathFault.BadPath → path_of text.now ≡ None }
    ensures memory { IsErrOf result PathFault.NoMemory → IsSome (path_of text.now) }
{
    match path_text(text) {
        Some(path) => Ok(DomainPath {
            text: String::from_str(alloc, path)?,
        }),
        None => Err(PathFault::BadPath),
    }
}

impl DomainPath {
    /// The canonical text.
    pub fn text(&self) -> &str
        ensures value { result.now ≡ self.now }
        ensures canonical { path_of self.now ≡ Some self.now }
    {
        self.text.as_str()
    }

    /// The same path once more.
    pub fn copy(&self) -> Result<DomainPath, AllocError>
        ensures { IfOk result (λ p. p ≡ self.now) }
    {
        Ok(DomainPath {
            text: self.text.clone()?,
        })
    }

    /// The path without its last part. The parent of `/` is `/`.
    pub fn parent(&self) -> Result<DomainPath, AllocError>
        ensures { IfOk result (λ p. p ≡ parent_of self.now) }
    {
        Ok(DomainPath {
            text: String::from_str(*self.text.allocator(), parent_text(self.text.as_str()))?,
        })
    }

    /// The text of the parent. Takes no memory.
    pub fn parent_text(&self) -> &str
        ensures value { result.now ≡ parent_of self.now }
        ensures canonical { path_of (parent_of self.now) ≡ Some (parent_of self.now) }

        // The same in other words: what stands before the last slash, or `/` where that is nothing.
        ensures before_last_slash { (front part : List ℕ) → self.now ≡ front ++ 47 ∷ part
            → All (λ b. b ≢ 47) part
            → result.now ≡ (if length front == 0 then root_path else front) }

        // No path but `/` is its own parent.
        ensures shorter { length (parent_of self.now) < length self.now ⊎ (self.now ≡ root_path) }
    {
        parent_text(self.text.as_str())
    }
}

fn without_trailing_slash(text: &str) -> &str
    ensures { result.now ≡ without_trailing_slash text.now }
{
    if text.len() < 2 {
        return text;
    }
    match text.strip_suffix('/') {
        Some(front) => front,
        None => text,
    }
}

fn is_path(bytes: &[u8]) -> bool
    ensures { result ≡ is_path bytes.now }
{
    if bytes == b"/".as_slice() {
        return true;
    }
    if bytes.len() > MAX_PATH_LEN {
        return false;
    }
    match bytes {
        [b'/', parts @ ..] => has_parts(parts),
        _ => false,
    }
}

fn has_parts(bytes: &[u8]) -> bool
    ensures { result ≡ list_all is_part (slice_split is_slash bytes.now) }
{
    bytes.split(|byte| *byte == b'/').all(|part| is_part(part))
}

fn is_part(bytes: &[u8]) -> bool
    ensures { result ≡ is_part bytes.now }
{
    if !is_name(bytes, MAX_PART_LEN) {
        return false;
    }
    bytes != b".".as_slice() && bytes != b"..".as_slice()
}

/// What stands before the last `/` of a text; `/` where that is nothing, or where there is no `/`. So the text of a path
/// gives that of its parent. Takes no memory.
pub fn parent_text(path: &str) -> &str
    ensures { result.now ≡ parent_of path.now }
{
    match path.rfind('/') {
        Some(0) => "/",
        Some(end) => &path[..end],
        None => "/",
    }
}
