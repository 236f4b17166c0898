//! What holds of all keys.

ghost use Rattle.std.specs.Prelude.{◌≡◌};
ghost use Rattle.object_records.specs.Keys.Keys.{Subject, IsSubject, key_of};

/// No two records have one key: keys of different forms differ, and of one form those of different
/// nodes, objects or chunks do.
pub fn record_keys_differ()
    ensures { (a b : Subject) → IsSubject a → IsSubject b → key_of a ≡ key_of b → a ≡ b }
{}
