//! Passing over values.

ghost use Rattle.std.specs.Prelude.{◌≡◌, ◌≤◌, ◌<◌, ◌∷◌, ℕ, List, length, Some, None, IfOk, OnOk};
ghost use Rattle.std.specs.Bool.{MatchBool};
ghost use Rattle.json.specs.Json.{read_key};
ghost use Rattle.json.specs.Reads.{token_of};
ghost use Rattle.json.specs.Token.{Token as SpecToken};
ghost use Rattle.json_trees.specs.Begun.{AreItems, AreMembers, IsValue};

use json::{MAX_DEPTH, Reader, Token};
use std::alloc::AllocError;

/// Passes over the value that comes next.
///
/// # Errors
///
/// Only where no value comes next.
pub fn pass_value(reader: &mut Reader<'_>) -> Result<(), AllocError>
    ensures passed { IfOk result
        (λ _. (rest : List SpecToken) → IsValue reader.old rest → reader.new ≡ rest) }
    ensures shorter { OnOk result (length reader.new < length reader.old) }
{
    match reader.skip_value(MAX_DEPTH) {
        Ok(()) => Ok(()),
        Err(_) => Err(AllocError),
    }
}

/// Passes over what follows the first token of a value.
///
/// # Errors
///
/// Only where no rest of a value comes next.
pub fn pass_rest(first: Token<'_>, reader: &mut Reader<'_>) -> Result<(), AllocError>
    ensures passed { IfOk result (λ _. (rest : List SpecToken)
        → IsValue (token_of first.entry ∷ reader.old) rest → reader.new ≡ rest) }
    ensures not_longer { OnOk result (length reader.new ≤ length reader.old) }
{
    match first {
        Token::BeginArray => pass_items(reader),
        Token::BeginObject => pass_members(reader),
        _ => Ok(()),
    }
}

fn pass_items(reader: &mut Reader<'_>) -> Result<(), AllocError>
    ensures passed { IfOk result
        (λ _. (rest : List SpecToken) → AreItems reader.old rest → reader.new ≡ rest) }
    ensures not_longer { OnOk result (length reader.new ≤ length reader.old) }
{
    'items: while !reader.take_end_array() {
        pass_value(reader)?;
    }
    Ok(())
}

fn pass_members(reader: &mut Reader<'_>) -> Result<(), AllocError>
    ensures passed { IfOk result
        (λ _. (rest : List SpecToken) → AreMembers reader.old rest → reader.new ≡ rest) }
    ensures not_longer { OnOk result (length reader.new ≤ length reader.old) }
{
    'members: while pass_key(reader)? {
        pass_value(reader)?;
    }
    Ok(())
}

/// Whether a member comes next; its key is passed, or else the bracket that closes the object.
fn pass_key(reader: &mut Reader<'_>) -> Result<bool, AllocError>
    ensures { IfOk result (λ going. MatchBool going
        ((key : List ℕ) × (read_key reader.old ≡ Some (Some key, reader.new)))
        (read_key reader.old ≡ Some (None, reader.new))) }
{
    match reader.next_key() {
        Ok(key) => Ok(key.is_some()),
        Err(_) => Err(AllocError),
    }
}
