ghost use Rattle.std.specs.Prelude.{◌≡◌, ◌≢◌, ◌++◌, List, ℕ, IfOk, IfNone, IfSome, MatchOption, string_bytes};
ghost use Rattle.std.specs.Str.{bytes_eq};
ghost use Rattle.object_ids.specs.Ids.{InRange, bits_of, id_in, prefix_of, text_of_id, uuid_of};
ghost use Rattle.object_ids.specs.IdValues.{Id};

use crate::ids::{Kind, ObjectId};
use std::alloc::{AllocError, Global};
use uuid::Uuid;

// Where a domain's number and a run begin among the bits, and the bits that say that this is a UUID of version 8 (RFC 9562, section 5.8).
const DOMAIN_UNIT: u128 = 0x1_0000_0000_0000_0000_0000;

const RUN_UNIT: u128 = 0x100_0000_0000;

// How many runs and serials there are.
const RUNS: u128 = 0x40_0000;

const SERIALS: u128 = 0x100_0000_0000;

const MARKS: u128 = 0x8000_8000_0000_0000_0000;

/// The text of an id: `g-`, `d-` or `t-`, and a UUID in lower case with hyphens.
pub fn id_text(alloc: Global, id: &ObjectId) -> Result<String, AllocError>
    ensures { IfOk result (λ s. string_bytes s ≡ text_of_id id.now) }
{
    let mut buffer = Uuid::encode_buffer();
    let uuid = Uuid::from_u128(bits_of(id)).hyphenated();
    let digits = uuid.encode_lower(&mut buffer);
    let prefix = prefix_of(id.kind);
    format!(in alloc; "{prefix}{digits}")
}

/// Reads the text of an id. No other text of its UUID is read, as one with upper-case digits. Takes no memory.
pub fn read_id(text: &str) -> Option<ObjectId>
    ensures some { IfSome result (λ id. text_of_id id ≡ text.now) }
    ensures none { IfNone result ((id : Id) → InRange id → text_of_id id ≢ text.now) }
{
    match split_kind(text.as_bytes()) {
        Some((kind, uuid)) => read_uuid(kind, uuid),
        None => None,
    }
}

// The kind that the first two bytes of a text tell, and the bytes behind them.
fn split_kind(text: &[u8]) -> Option<(Kind, &[u8])>
    ensures { MatchOption result
        ((kind : _) (rest : List ℕ) → prefix_of kind ++ rest ≢ text.now)
        (λ p. prefix_of p.0 ++ p.1.now ≡ text.now) }
{
    match text {
        [b'g', b'-', uuid @ ..] => Some((Kind::Group, uuid)),
        [b'd', b'-', uuid @ ..] => Some((Kind::Dataset, uuid)),
        [b't', b'-', uuid @ ..] => Some((Kind::Datatype, uuid)),
        _ => None,
    }
}

// The id of a kind whose UUID a text is.
fn read_uuid(kind: Kind, text: &[u8]) -> Option<ObjectId>
    ensures kind { IfSome result (λ id. id.kind ≡ kind) }
    ensures some { IfSome result (λ id. uuid_of id ≡ text.now) }
    ensures none { IfNone result ((id : Id) → InRange id → uuid_of id ≢ text.now) }
{
    let Ok(uuid) = Uuid::try_parse_ascii(text) else {
        return None;
    };
    let id = id_in(kind, uuid.as_u128());
    if is_uuid_of(&id, text) {
        Some(id)
    } else {
        None
    }
}

fn id_in(kind: Kind, bits: u128) -> ObjectId
    ensures { result ≡ id_in kind bits }
{
    ObjectId {
        kind,
        domain: (bits / DOMAIN_UNIT) as u64,
        run: (bits / RUN_UNIT % RUNS) as u32,
        serial: (bits % SERIALS) as u64,
    }
}

fn is_uuid_of(id: &ObjectId, text: &[u8]) -> bool
    ensures { result ≡ bytes_eq (uuid_of id.now) text.now }
{
    let mut buffer = Uuid::encode_buffer();
    let uuid = Uuid::from_u128(bits_of(id)).hyphenated();
    uuid.encode_lower(&mut buffer).as_bytes() == text
}

fn bits_of(id: &ObjectId) -> u128
    ensures { result ≡ bits_of id.now }
{
    u128::from(id.domain) * DOMAIN_UNIT
        + MARKS
        + u128::from(id.run) * RUN_UNIT
        + u128::from(id.serial)
}

fn prefix_of(kind: Kind) -> &'static str
    ensures { result.now ≡ prefix_of kind }
{
    match kind {
        Kind::Group => "g-",
        Kind::Dataset => "d-",
        Kind::Datatype => "t-",
    }
}
