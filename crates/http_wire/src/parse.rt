ghost use Rattle.std.specs.Prelude.{◌≡◌, ◌≤◌, ◌↔◌, IsTrue, length};
ghost use Rattle.httparse.specs.declared.Error.TheVariants.{TooManyHeaders};
ghost use Rattle.http_wire.specs.Standing.{IsStanding};

use crate::limits::{FIELD_LIMIT, HEAD_LIMIT};
use httparse::spans::{HeaderSpan, RequestSpans, parse_request};
use httparse::{Error, Status};

/// What a parse says of the bytes that are there.
pub enum Standing {
    Whole(RequestSpans),
    Unfinished,
    Bad,
    Long,
}

/// Parses the bytes that are there, and writes where the fields are to the front of `headers`.
pub fn parse(unused: &[u8], headers: &mut [HeaderSpan]) -> Standing
    requires room { length headers.old ≡ FIELD_LIMIT }
    requires within { length unused.now ≤ HEAD_LIMIT }
    ensures { IsStanding unused.now headers.new result }
{
    if unused.is_empty() {
        return Standing::Unfinished;
    }
    match parse_request(unused, headers) {
        Ok(Status::Complete(spans)) => Standing::Whole(spans),
        Ok(Status::Partial) => {
            if unused.len() < HEAD_LIMIT {
                Standing::Unfinished
            } else {
                Standing::Long
            }
        }
        Err(error) => {
            if is_too_many(error) {
                Standing::Long
            } else {
                Standing::Bad
            }
        }
    }
}

fn is_too_many(error: Error) -> bool
    ensures { IsTrue result ↔ error ≡ TooManyHeaders }
{
    match error {
        Error::TooManyHeaders => true,
        _ => false,
    }
}
