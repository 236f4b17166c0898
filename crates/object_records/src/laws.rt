//! What holds of what is kept of objects.

ghost use Rattle.std.specs.Prelude.{◌≡◌};
ghost use Rattle.object_acts.specs.declared.objects.Object.{Object};
ghost use Rattle.object_records.specs.Entries.{entry_of};
ghost use Rattle.object_records.specs.Same.{IsSameBody};

/// What is kept of objects tells them apart, but for the cells of a dataset and what is known of its
/// chunks.
pub fn entries_tell_apart()
    ensures attributes { (a b : Object) → entry_of a ≡ entry_of b → a.attributes ≡ b.attributes }
    ensures bodies { (a b : Object) → entry_of a ≡ entry_of b → IsSameBody a.body b.body }
{}
