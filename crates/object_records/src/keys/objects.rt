//! The keys of objects.

ghost use Rattle.std.specs.Prelude.{◌≡◌, ◌≢◌, MatchOption};
ghost use Rattle.object_ids.specs.Ids.{InRange};
ghost use Rattle.object_ids.specs.IdOrder.{kind_rank};
ghost use Rattle.object_ids.specs.IdValues.{Id};
ghost use Rattle.object_records.specs.Keys.Keys.{object_key};

use crate::keys::ids::{id_bytes, id_of};
use object_ids::{Kind, ObjectId};

/// The key of an object's record: 3, the kind (0 of a group, 1 of a dataset, 2 of a committed
/// datatype), and the 16 bytes of its id.
pub fn object_key(id: &ObjectId) -> [u8; 18]
    ensures key { result ≡ object_key id.now }
    ensures id { InRange id.now }
{
    let [a, b, c, d, e, f, g, h, i, j, k, l, m, n, o, p] = id_bytes(id);
    [
        3,
        rank(id.kind),
        a,
        b,
        c,
        d,
        e,
        f,
        g,
        h,
        i,
        j,
        k,
        l,
        m,
        n,
        o,
        p,
    ]
}

/// The object whose record has this key.
pub fn object_at(key: &[u8]) -> Option<ObjectId>
    ensures { MatchOption result ((id : Id) → InRange id → object_key id ≢ key.now)
        (λ id. InRange id × (object_key id ≡ key.now)) }
{
    match key {
        [3, 0, bytes @ ..] => id_of(Kind::Group, bytes),
        [3, 1, bytes @ ..] => id_of(Kind::Dataset, bytes),
        [3, 2, bytes @ ..] => id_of(Kind::Datatype, bytes),
        _ => None,
    }
}

fn rank(kind: Kind) -> u8
    ensures { result ≡ kind_rank kind }
{
    match kind {
        Kind::Group => 0,
        Kind::Dataset => 1,
        Kind::Datatype => 2,
    }
}
