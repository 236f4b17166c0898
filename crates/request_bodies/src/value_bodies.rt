//! Bodies that bring elements, or ask for some: of their object only what stands at five keys is kept, the elements
//! packed where they can be and all else as its text, of which it is then known how many points there are and which
//! numbers the lists have. What stands at other keys is read and not kept.

ghost use Rattle.std.specs.Prelude.{◌≡◌, ◌∷◌, true, false, List, Some, None, Err, IfOk, length};
ghost use Rattle.json.specs.Json.{members, value as value_in};
ghost use Rattle.json.specs.Token.{Token as SpecToken, begin_object};
ghost use Rattle.serde_json.specs.Data.{Data, Members, object, no_members};
ghost use Rattle.serde_json.specs.Read.{converted, max_depth, of_json, of_members, read};
ghost use Rattle.json_trees.specs.Copied.{Reads};
ghost use Rattle.json_trees.specs.declared.kept.fault.ReadFault.TheVariants.{NotJson};
ghost use Rattle.request_bodies.specs.Bodies.{body_in};
ghost use Rattle.request_bodies.specs.declared.value_bodies.Unread.TheVariants.{Fault, NotPacked};
ghost use Rattle.request_bodies.specs.ValueBodies.{IsObjectIn, TellsAsked, asked_of, is_asked, no_keys, with_key};

use crate::faults::BodyFault;
use hdf_values::KeptValue;
use json::{Invalid, Reader, Scratch, Token};
use json_trees::{KeptList, KeptTree, ReadFault, check_value};
use shapes::KeptDims;
use std::alloc::{AllocError, Global};

/// How deep arrays and objects nest at most in a member of a body.
const MEMBER_DEPTH: usize = 126;

/// What stands at the five keys of a body that brings elements, or asks for some.
#[derive(Drop)]
pub struct ValueBody {
    /// The elements.
    pub value: Option<KeptValue>,
    /// The points.
    pub points: Option<KeptList>,
    /// The first coordinate on each axis.
    pub start: Option<KeptDims>,
    /// The end on each axis.
    pub stop: Option<KeptDims>,
    /// The distance on each axis.
    pub step: Option<KeptDims>,
}

/// Why an object is not read.
#[derive(Clone, Copy, Debug, PartialEq, Eq)]
enum Unread {
    /// Its elements can't be packed, as was asked for.
    NotPacked,
    /// Another reason.
    Fault(ReadFault),
}

impl From<ReadFault> for Unread {
    ghost use Rattle.request_bodies.specs.declared.value_bodies.Unread.TheVariants.{Fault};

    ghost from_gives = { λ fault e. e ≡ Fault fault };

    fn from(fault: ReadFault) -> Unread {
        Unread::Fault(fault)
    }
}

impl From<AllocError> for Unread {
    ghost use Rattle.json_trees.specs.declared.kept.fault.ReadFault.TheVariants.{NoMemory};
    ghost use Rattle.request_bodies.specs.declared.value_bodies.Unread.TheVariants.{Fault};

    ghost from_gives = { λ _ e. e ≡ Fault NoMemory };

    fn from(_error: AllocError) -> Unread {
        Unread::Fault(ReadFault::NoMemory)
    }
}

impl From<Invalid> for Unread {
    ghost use Rattle.request_bodies.specs.declared.value_bodies.Unread.TheVariants.{Fault};

    ghost from_gives = { λ _ e. e ≡ Fault NotJson };

    fn from(_error: Invalid) -> Unread {
        Unread::Fault(ReadFault::NotJson)
    }
}

/// What stands at the five keys of a body. An empty body stands for `{}`.
///
/// # Errors
///
/// `BadJson` where `serde_json` reads no object from the bytes.
pub fn value_body_of(alloc: Global, bytes: &[u8]) -> Result<ValueBody, BodyFault>
    ensures { TellsAsked result (body_in bytes.now) }
{
    if bytes.is_empty() {
        return Ok(nothing());
    }
    match object_of(alloc, bytes) {
        Ok(body) => Ok(body),
        Err(fault) => Err(BodyFault::from(fault)),
    }
}

fn nothing() -> ValueBody
    ensures { result ≡ no_keys }
{
    ValueBody {
        value: None,
        points: None,
        start: None,
        stop: None,
        step: None,
    }
}

fn object_of(alloc: Global, bytes: &[u8]) -> Result<ValueBody, ReadFault>
    ensures read { IfOk result (λ body. (all : Members)
        × IsObjectIn bytes.now all × (body ≡ asked_of (object all))) }
    ensures refused { result ≡ Err NotJson → (all : Members) → IsObjectIn bytes.now all → ⊥ }
{
    match str::from_utf8(bytes) {
        Ok(text) => object_in(alloc, text),
        Err(_) => Err(ReadFault::NotJson),
    }
}

fn object_in(alloc: Global, text: &str) -> Result<ValueBody, ReadFault>
    ensures read { IfOk result (λ body. (all : Members)
        × (read text.now ≡ Some (object all)) × (body ≡ asked_of (object all))) }
    ensures refused { result ≡ Err NotJson → (all : Members)
        → read text.now ≡ Some (object all) → ⊥ }
{
    match object_by(alloc, text, true) {
        Ok(body) => return Ok(body),
        Err(Unread::Fault(fault)) => return Err(fault),
        Err(Unread::NotPacked) => {}
    }
    match object_by(alloc, text, false) {
        Ok(body) => Ok(body),
        Err(Unread::Fault(fault)) => Err(fault),
        Err(Unread::NotPacked) => unreachable!(),
    }
}

/// [`object_in`], with its elements packed, or all as its text.
fn object_by(alloc: Global, text: &str, packs: bool) -> Result<ValueBody, Unread>
    ensures read { IfOk result (λ body. (all : Members)
        × (read text.now ≡ Some (object all)) × (body ≡ asked_of (object all))) }
    ensures refused { result ≡ Err (Fault NotJson) → (all : Members)
        → read text.now ≡ Some (object all) → ⊥ }
    ensures packed { result ≡ Err NotPacked → packs ≡ true }
{
    let mut scratch = Scratch::new(alloc);
    let mut reader = Reader::new(text, &mut scratch)?;
    if !begins_object(&mut reader) {
        return Err(Unread::Fault(ReadFault::NotJson));
    }
    let body = read_members(alloc, &mut reader, packs)?;
    match reader.next() {
        Some(_) => Err(Unread::Fault(ReadFault::NotJson)),
        None => Ok(body),
    }
}

/// Whether an object comes next; the brace that opens it is then taken.
fn begins_object(reader: &mut Reader<'_>) -> bool
    ensures object { result ≡ true → reader.old ≡ begin_object ∷ reader.new }
    ensures other { result ≡ false → (ts : List SpecToken) → reader.old ≡ begin_object ∷ ts → ⊥ }
{
    match reader.next() {
        Some(Token::BeginObject) => true,
        _ => false,
    }
}

/// Reads the members of an object, and the brace that closes it.
fn read_members(alloc: Global, reader: &mut Reader<'_>, packs: bool) -> Result<ValueBody, Unread>
    ensures read { IfOk result (λ body. (all : Members)
        × Reads max_depth (begin_object ∷ reader.old) (object all) reader.new
        × (body ≡ asked_of (object all))) }
    ensures refused { result ≡ Err (Fault NotJson) → converted (λ ms. of_members ms no_members)
        (members (value_in 126) (length reader.old) reader.old) ≡ None }
    ensures packed { result ≡ Err NotPacked → packs ≡ true }
{
    let mut body = nothing();
    'members: while let Some(key) = reader.next_key()? {
        read_member(alloc, reader, key, packs, &mut body)?;
    }
    Ok(body)
}

/// Reads the member that has this key, and keeps it where it is asked for.
fn read_member(
    alloc: Global,
    reader: &mut Reader<'_>,
    key: &str,
    packs: bool,
    body: &mut ValueBody,
) -> Result<(), Unread>
    ensures read { IfOk result (λ _. (tree : Data) × Reads 126 reader.old tree reader.new
        × (body.new ≡ with_key key.now tree body.old)) }
    ensures refused { result ≡ Err (Fault NotJson)
        → converted of_json (value_in 126 reader.old) ≡ None }
    ensures packed { result ≡ Err NotPacked → packs ≡ true }
{
    if packs && key == "value" {
        body.value = Some(packed_value(alloc, reader)?);
        return Ok(());
    }
    if !is_kept(key) {
        check_value(reader, MEMBER_DEPTH)?;
        return Ok(());
    }
    let tree = KeptTree::take(alloc, reader, MEMBER_DEPTH)?;
    keep(alloc, body, key, tree)?;
    Ok(())
}

/// Reads the value that comes next, and packs it.
fn packed_value(alloc: Global, reader: &mut Reader<'_>) -> Result<KeptValue, Unread>
    ensures read { IfOk result (λ value. Reads 126 reader.old value reader.new) }
    ensures refused { result ≡ Err (Fault NotJson) → ⊥ }
{
    match KeptValue::take_packed(alloc, reader, MEMBER_DEPTH)? {
        Some(value) => Ok(value),
        None => Err(Unread::NotPacked),
    }
}

fn is_kept(key: &str) -> bool
    ensures { result ≡ is_asked key.now }
{
    key == "value" || key == "points" || key == "start" || key == "stop" || key == "step"
}

/// Keeps a tree at its key, in place of one that stands there.
fn keep(alloc: Global, body: &mut ValueBody, key: &str, tree: KeptTree) -> Result<(), AllocError>
    ensures { IfOk result (λ _. body.new ≡ with_key key.now tree body.old) }
{
    if key == "value" {
        body.value = Some(KeptValue::of(tree));
    } else if key == "points" {
        body.points = Some(KeptList::of(alloc, tree)?);
    } else if key == "start" {
        body.start = Some(KeptDims::of(alloc, tree)?);
    } else if key == "stop" {
        body.stop = Some(KeptDims::of(alloc, tree)?);
    } else if key == "step" {
        body.step = Some(KeptDims::of(alloc, tree)?);
    }
    Ok(())
}
