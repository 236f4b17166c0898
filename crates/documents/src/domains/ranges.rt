//! The ids of one kind in a domain, which stand one behind another.

ghost use Rattle.documents.specs.Domains.Ranges.{IsFirstOf, IsNextOf};

use crate::domains::home::Home;
use crate::domains::store::ObjectStore;
use object_ids::{Kind, ObjectId};

// The greatest number of a domain that an id can have.
const MAX_DOMAIN: u64 = 0xffff_ffff_ffff;

/// An id that no id of a kind in a domain comes before.
pub(crate) fn first_id(kind: Kind, home: &Home) -> ObjectId
    ensures { IsFirstOf kind home.now result }
{
    ObjectId {
        kind,
        domain: home.number.min(MAX_DOMAIN),
        run: 0,
        serial: 0,
    }
}

/// The least id behind another, unless it is of another kind or stands behind all of the domain.
pub(crate) fn next_of<S: ObjectStore>(store: &S, home: &Home, after: &ObjectId) -> Option<ObjectId>
    ensures { IsNextOf (S.objects store.now) home.now after.now result }
{
    let id = store.next_id(Some(after))?;
    if id.kind != after.kind {
        return None;
    }
    if id.domain > home.number {
        return None;
    }
    Some(id)
}
