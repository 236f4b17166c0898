ghost use Rattle.std.specs.Prelude.{◌≡◌, ◌≤◌, length, All, IsTrue, IfErr, IfOk};
ghost use Rattle.std.specs.List.{list_all};
ghost use Rattle.std.specs.Char.{is_ascii_digit};
ghost use Rattle.std.specs.Str.Parse.{digits_value};
ghost use Rattle.httparse.specs.Spans.{IsHeaderWithin};
ghost use Rattle.http_wire.specs.Heads.{fields_at, values_of};
ghost use Rattle.http_wire.specs.Messages.{only_one, is_number, length_in, size_of, IsSizeFault};
ghost use Rattle.http_wire.specs.declared.limits.TheConstants.{BODY_LIMIT};
ghost use Rattle.http_wire.specs.Sizes.{copied};

use crate::fields::{CODING_FIELD, LENGTH_FIELD, first_value, is_same_name};
use crate::limits::BODY_LIMIT;
use crate::message_fault::MessageFault;
use httparse::spans::HeaderSpan;

/// How many bytes of a body follow a head with these fields.
pub fn size_of(buf: &[u8], headers: &[HeaderSpan]) -> Result<u64, MessageFault>
    requires { All (IsHeaderWithin (length buf.now)) headers.now }
    ensures kind { IfErr result IsSizeFault }
    ensures bound { IfOk result (λ n. n ≤ BODY_LIMIT) }
    ensures size { result ≡ size_of (fields_at buf.now headers.now) }
{
    let size = match only_value(buf, headers, LENGTH_FIELD)? {
        Some(text) => length_in(text)?,
        None => 0,
    };
    if first_value(buf, headers, CODING_FIELD).is_some() {
        return Err(MessageFault::TransferCoding);
    }
    Ok(size)
}

/// The value of the only field of that name, if there is one.
fn only_value<'b>(
    buf: &'b [u8],
    headers: &[HeaderSpan],
    name: &[u8],
) -> Result<Option<&'b [u8]>, MessageFault>
    requires { All (IsHeaderWithin (length buf.now)) headers.now }
    ensures kind { IfErr result IsSizeFault }
    ensures value { copied result ≡ only_one (values_of name.now (fields_at buf.now headers.now)) }
{
    let mut found: Option<&[u8]> = None;
    'fields: for header in headers {
        if is_same_name(header.name.of(buf), name) {
            if found.is_some() {
                return Err(MessageFault::BadLength);
            }
            found = Some(header.value.of(buf));
        }
    }
    Ok(found)
}

/// The length that a text spells.
fn length_in(text: &[u8]) -> Result<u64, MessageFault>
    ensures kind { IfErr result IsSizeFault }
    ensures bound { IfOk result (λ n. n ≤ BODY_LIMIT) }
    ensures size { result ≡ length_in text.now }
{
    if !is_number(text) {
        return Err(MessageFault::BadLength);
    }
    let number = number_in(text);
    if number <= BODY_LIMIT {
        Ok(number)
    } else {
        Err(MessageFault::BodyTooLong)
    }
}

fn is_number(text: &[u8]) -> bool
    ensures { result ≡ is_number text.now }
{
    if text.is_empty() || text.len() > 19 {
        return false;
    }
    has_digits(text)
}

fn has_digits(text: &[u8]) -> bool
    ensures { result ≡ list_all is_ascii_digit text.now }
{
    text.iter().all(|byte| byte.is_ascii_digit())
}

/// The number that at most 19 digits spell.
fn number_in(text: &[u8]) -> u64
    requires { IsTrue (is_number text.now) }
    ensures { result ≡ digits_value 10 text.now }
{
    let mut number: u64 = 0;
    'digits: for digit in text {
        number = number * 10 + (*digit - b'0') as u64;
    }
    number
}
