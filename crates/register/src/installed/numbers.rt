//! The run, the number that the next domain takes, and the numbers of domains.

ghost use Rattle.std.specs.Prelude.{◌≡◌, ◌<◌, ◌≤◌, ◌^◌, ℕ, MatchOption, OnOk};
ghost use Rattle.domains.specs.Contents.{NumberFits};
ghost use Rattle.register.specs.Installed.Registers.{IsNextNumber, IsRun};
ghost use Rattle.register.specs.Installed.Walks.{is_given, may_stand, number_id, with_root};

use domains::{NUMBER_LIMIT, NodeClass};
use flush_journal::Recovered;
use object_ids::{IdMap, Kind, ObjectId};
use object_records::keys::{next_in, next_key, run_in, run_key};
use std::alloc::AllocError;

const RUN_LIMIT: u32 = 0x40_0000;

// The run that is kept.
pub(crate) fn run_of(kept: &Recovered) -> Option<u32>
    ensures { MatchOption result ((run : ℕ) → IsRun kept.now run → ⊥) (λ run. IsRun kept.now run) }
{
    let run = run_in(kept.get(&run_key())?)?;
    if run < RUN_LIMIT { Some(run) } else { None }
}

// The kept number of the next domain.
pub(crate) fn next_of(kept: &Recovered) -> Option<u64>
    ensures { MatchOption result ((next : ℕ) → IsNextNumber kept.now next → ⊥)
        (λ next. IsNextNumber kept.now next) }
{
    let next = next_in(kept.get(&next_key())?)?;
    if next <= NUMBER_LIMIT {
        Some(next)
    } else {
        None
    }
}

// The id under which a domain's number is looked up.
pub(crate) fn number_id(number: u64) -> ObjectId
    requires { number < 2 ^ 48 }
    ensures { result ≡ number_id number }
{
    ObjectId {
        kind: Kind::Group,
        domain: number,
        run: 0,
        serial: 0,
    }
}

// Whether a node of a class may stand behind those with these roots.
pub(crate) fn may_stand(
    run: u32,
    next: Option<u64>,
    roots: &IdMap<ObjectId>,
    class: NodeClass,
) -> bool
    requires { NumberFits class }
    ensures { result ≡ may_stand run next roots.now class }
{
    match class {
        NodeClass::Folder => true,
        NodeClass::Domain { number, root } => {
            root.run <= run && is_given(next, number) && roots.get(&number_id(number)).is_none()
        }
    }
}

fn is_given(next: Option<u64>, number: u64) -> bool
    ensures { result ≡ is_given next number }
{
    match next {
        Some(next) => number < next,
        None => true,
    }
}

// Adds the root of a domain.
pub(crate) fn put_root(roots: &mut IdMap<ObjectId>, class: NodeClass) -> Result<(), AllocError>
    requires { NumberFits class }
    ensures ok { OnOk result (roots.new ≡ with_root roots.old class) }
{
    match class {
        NodeClass::Folder => Ok(()),
        NodeClass::Domain { number, root } => roots.put(number_id(number), root),
    }
}
