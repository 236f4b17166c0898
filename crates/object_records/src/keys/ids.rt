//! The 16 bytes of an id, which are those of its UUID.

ghost use Rattle.std.specs.Prelude.{◌≡◌, ◌≢◌, MatchOption};
ghost use Rattle.object_ids.specs.Ids.{InRange, bits_of, id_in};
ghost use Rattle.object_ids.specs.IdValues.{Id};
ghost use Rattle.object_records.specs.Keys.Keys.{id_bytes};

use object_ids::{Kind, ObjectId};

// Where a domain's number and a run begin among the bits, and the bits that say that this is a UUID
// of version 8 (RFC 9562, section 5.8).
const DOMAIN_UNIT: u128 = 0x1_0000_0000_0000_0000_0000;

const RUN_UNIT: u128 = 0x100_0000_0000;

const MARKS: u128 = 0x8000_8000_0000_0000_0000;

// How many runs and serials there are.
const RUNS: u128 = 0x40_0000;

const SERIALS: u128 = 0x100_0000_0000;

/// The bytes of an id, which don't tell its kind.
pub(crate) fn id_bytes(id: &ObjectId) -> [u8; 16]
    ensures bytes { result ≡ id_bytes id.now }
    ensures id { InRange id.now }
{
    bits_of(id).to_be_bytes()
}

fn bits_of(id: &ObjectId) -> u128
    ensures bits { result ≡ bits_of id.now }
    ensures id { InRange id.now }
{
    u128::from(id.domain) * DOMAIN_UNIT
        + MARKS
        + u128::from(id.run) * RUN_UNIT
        + u128::from(id.serial)
}

/// The id of a kind that has these bytes.
pub(crate) fn id_of(kind: Kind, bytes: &[u8]) -> Option<ObjectId>
    ensures { MatchOption result
        ((id : Id) → InRange id → id.kind ≡ kind → id_bytes id ≢ bytes.now)
        (λ id. InRange id × (id.kind ≡ kind) × (id_bytes id ≡ bytes.now)) }
{
    let Ok(array) = <[u8; 16]>::try_from(bytes) else {
        return None;
    };
    let id = id_in(kind, u128::from_be_bytes(array));
    if id_bytes(&id).as_slice() == bytes {
        Some(id)
    } else {
        None
    }
}

fn id_in(kind: Kind, bits: u128) -> ObjectId
    ensures { result ≡ id_in kind bits }
{
    ObjectId {
        kind,
        domain: (bits / DOMAIN_UNIT) as u64,
        run: (bits / RUN_UNIT % RUNS) as u32,
        serial: (bits % SERIALS) as u64,
    }
}
