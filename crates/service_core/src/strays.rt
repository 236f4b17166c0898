//! Records that are of no part of a world.

ghost use Rattle.std.specs.Prelude.{◌≡◌, ◌↔◌, IsTrue, MatchOption};
ghost use Rattle.containers.specs.TextMaps.Fronts.{IsLeast};
ghost use Rattle.register.specs.Installed.Registers.{is_node_key};
ghost use Rattle.service_core.specs.Strays.Strays.{HasNoStrays, IsNumberKey, IsObjectKey, IsStray, IsStrayKey};

use flush_journal::Recovered;
use object_records::keys::{chunk_at, is_next_key, is_run_key, object_at};

/// The least key of a record that is of no part of a world: neither of the run, the next domain's number, a folder or domain,
/// an object, nor a chunk.
pub fn first_stray(kept: &Recovered) -> Option<&[u8]>
    ensures { MatchOption result (HasNoStrays kept.now) (λ key. IsLeast (IsStray kept.now) key.now) }
{
    let records = kept.as_tree();
    for (key, _body) in records {
        let key = key.as_slice();
        if is_stray(key) {
            return Some(key);
        }
    }
    None
}

fn is_stray(key: &[u8]) -> bool
    ensures { IsTrue result ↔ IsStrayKey key.now }
{
    if is_node_key(key) {
        return false;
    }
    if is_number_key(key) {
        return false;
    }
    !is_object_key(key)
}

// Whether a key is that of a folder or domain, be it of a path in another form.
fn is_node_key(key: &[u8]) -> bool
    ensures { result ≡ is_node_key key.now }
{
    matches!(key, [2, ..])
}

// Whether a key is that of the run or of the next domain's number.
fn is_number_key(key: &[u8]) -> bool
    ensures { IsTrue result ↔ IsNumberKey key.now }
{
    is_run_key(key) || is_next_key(key)
}

// Whether a key is that of an object or of a chunk.
fn is_object_key(key: &[u8]) -> bool
    ensures { IsTrue result ↔ IsObjectKey key.now }
{
    object_at(key).is_some() || chunk_at(key).is_some()
}
