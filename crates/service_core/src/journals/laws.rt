//! What holds of roots, in other words than the definition.

ghost use Rattle.std.specs.Prelude.{◌≡◌, ◌<◌, ℕ, List};
ghost use Rattle.object_ids.specs.IdValues.{Id};
ghost use Rattle.domains.specs.Changes.{domain_count};
ghost use Rattle.domains.specs.Contents.{Contents, IsDomainAt};
ghost use Rattle.service_core.specs.Journals.Groups.{AreFirstRoots};

/// The roots of a catalogue are the first ids of run 0 where each was given out in run 0, with a serial below the number of
/// domains.
pub fn first_roots_by_runs_and_serials()
    ensures { (c : Contents)
        → ((path : List ℕ) (number : ℕ) (root : Id) → IsDomainAt c path number root → root.run ≡ 0)
        → ((path : List ℕ) (number : ℕ) (root : Id) → IsDomainAt c path number root
        → root.serial < domain_count c)
        → AreFirstRoots c }
{}
