//! What a request's target says (RFC 9112, section 3.2.1): its path, the text of a part of it, and the values of its
//! query.

ghost use Rattle.std.specs.Prelude.{◌≡◌, IfOk, option_map, slice_get};
ghost use Rattle.std.specs.Cow.{cow_str_bytes};
ghost use Rattle.std.specs.List.{slice_split};
ghost use Rattle.std.specs.Option.{option_copied};
ghost use Rattle.form_urlencoded.specs.Parse.{pairs_left};
ghost use Rattle.object_ids.specs.Paths.{is_slash};
ghost use Rattle.rest_requests.specs.Queries.Targets.{if_text, parameter_text, path_of, query_of};
ghost use Rattle.rest_requests.specs.Queries.Pairs.{pairs_of, value_of};

use percent_encoding::{DecodeError, percent_decode};
use std::alloc::{AllocError, Global};
use std::borrow::CowStr;

/// The path of a target, and its query: what stands behind the first `?`, or nothing.
pub fn path_and_query(target: &str) -> (&str, &str)
    ensures path { result.0.now ≡ path_of target.now }
    ensures query { result.1.now ≡ query_of target.now }
{
    match target.split_once('?') {
        Some((path, query)) => (path, query),
        None => (target, ""),
    }
}

/// A part of a path, of those that stand before, between and behind its slashes.
pub fn path_part(path: &str, place: usize) -> Option<&str>
    ensures { option_copied result ≡ slice_get (slice_split is_slash path.now) place }
{
    path.split('/').nth(place)
}

/// The text that a part of a path stands for, where `%` and two hexadecimal digits are a byte; none where the bytes
/// aren't UTF-8.
pub fn parameter(alloc: Global, part: &str) -> Result<Option<CowStr<'_>>, AllocError>
    ensures { IfOk result (λ text. option_map cow_str_bytes text ≡ parameter_text part.now) }
{
    match percent_decode(part.as_bytes()).decode_utf8(alloc) {
        Ok(text) => Ok(Some(text)),
        Err(DecodeError::Utf8(_)) => Ok(None),
        Err(DecodeError::OutOfMemory) => Err(AllocError),
    }
}

/// The text that some bytes are; none where they aren't UTF-8. Takes no memory.
pub fn text_in(bytes: &[u8]) -> Option<&str>
    ensures { option_copied result ≡ if_text bytes.now }
{
    match str::from_utf8(bytes) {
        Ok(text) => Some(text),
        Err(_) => None,
    }
}

/// The value of the first pair of this key of a query in the form `application/x-www-form-urlencoded`: `+` is a space,
/// `%` and two hexadecimal digits are a byte, and bytes that aren't UTF-8 are U+FFFD.
pub fn first_value<'a>(
    alloc: Global,
    query: &'a str,
    key: &str,
) -> Result<Option<CowStr<'a>>, AllocError>
    ensures { IfOk result (λ value. option_map cow_str_bytes value ≡ value_of key.now (pairs_of query.entry.now)) }
{
    for pair in form_urlencoded::parse(alloc, query.as_bytes()) {
        let (name, value) = pair?;
        if name.as_str() == key {
            return Ok(Some(value));
        }
    }
    Ok(None)
}
