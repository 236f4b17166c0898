//! What holds of the body of every refusal.

ghost use Rattle.std.specs.Prelude.{◌≡◌, ℕ, List, Some, None, codes, if◌then◌else◌};
ghost use Rattle.serde_json.specs.Data.{string};
ghost use Rattle.serde_json.specs.Find.{get};
ghost use Rattle.object_ops.specs.declared.refusals.Refusal.{Refusal};
ghost use Rattle.object_ops.specs.Refusals.{reason_of, refusal_tree, speaks_of_path};

/// The body of a refusal has its reason; and it has the path where it speaks of a folder, a domain or an access list, and
/// no other body has one.
pub fn bodies_of_refusals()
    ensures reason { (path : List ℕ) (refusal : Refusal)
        → get (codes "reason") (refusal_tree path refusal) ≡ Some (string (reason_of refusal)) }
    ensures path { (path : List ℕ) (refusal : Refusal)
        → get (codes "domain") (refusal_tree path refusal)
        ≡ (if speaks_of_path refusal then Some (string path) else None) }
{}
