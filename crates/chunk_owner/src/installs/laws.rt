//! What holds of what records describe.

ghost use Rattle.std.specs.Prelude.{◌≡◌, ℕ, List, Option};
ghost use Rattle.flush_journal.specs.Records.{Held};
ghost use Rattle.object_acts.specs.declared.objects.Object.{Object};
ghost use Rattle.object_ids.specs.IdValues.{Id};
ghost use Rattle.chunk_owner.specs.Slots.Slots.{Describes};
ghost use Rattle.chunk_owner.specs.Installs.Records.{AreHeld, AreSound, IsFault, IsWholeObject};

use chunk_store::records_stand;
use object_records::entries_tell_apart;

/// What is held describes no two objects at an id, nor an object and none.
pub fn records_tell_one()
    ensures { (held : Held) (id : Id) (a b : Option Object) → IsWholeObject a → IsWholeObject b
        → Describes held id a → Describes held id b → a ≡ b }
{
    entries_tell_apart();
    records_stand();
}

/// Records that describe objects, which were made in runs and domains that were given, can stand.
pub fn described_records_stand()
    ensures rules { (lanes lane run next : ℕ) (held : Held) (objects : Id → Option Object)
        → AreHeld lanes lane run next held objects → AreSound lanes lane run next held }
    ensures faultless { (lanes lane run next : ℕ) (held : Held) (objects : Id → Option Object)
        → AreHeld lanes lane run next held objects → (key : List ℕ)
        → IsFault lanes lane run next held key → ⊥ }
{}
