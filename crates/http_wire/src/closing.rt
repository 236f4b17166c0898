ghost use Rattle.std.specs.Prelude.{◌≡◌, codes, length, reverse, All};
ghost use Rattle.std.specs.List.{list_any};
ghost use Rattle.std.specs.Str.{str_eq_ignore_ascii_case};
ghost use Rattle.httparse.specs.Grammar.{is_ows, skip_ows, trim_ows};
ghost use Rattle.httparse.specs.Spans.{IsHeaderWithin};
ghost use Rattle.http_wire.specs.Heads.{fields_at, values_of};
ghost use Rattle.http_wire.specs.Messages.{closes_by, says_close};

use crate::fields::{CONNECTION_FIELD, is_same_name};
use httparse::spans::HeaderSpan;

/// Whether a head of HTTP/1.`minor` with these fields ends the link after its answer (RFC 9112, section 9.6).
pub fn closes(minor: u8, buf: &[u8], headers: &[HeaderSpan]) -> bool
    requires { All (IsHeaderWithin (length buf.now)) headers.now }
    ensures { result ≡ closes_by minor (fields_at buf.now headers.now) }
{
    minor == 0 || has_close(buf, headers, CONNECTION_FIELD)
}

/// Whether a field of that name has the word `close`.
fn has_close(buf: &[u8], headers: &[HeaderSpan], name: &[u8]) -> bool
    requires { All (IsHeaderWithin (length buf.now)) headers.now }
    ensures { result ≡ list_any says_close (values_of name.now (fields_at buf.now headers.now)) }
{
    'fields: for header in headers {
        if is_same_name(header.name.of(buf), name) && says_close(header.value.of(buf)) {
            return true;
        }
    }
    false
}

/// Whether the word `close` is among the words of a value, which commas part.
fn says_close(value: &[u8]) -> bool
    ensures { result ≡ says_close value.now }
{
    value.split(|byte| *byte == b',').any(|word| is_close(word))
}

fn is_close(word: &[u8]) -> bool
    ensures { result ≡ str_eq_ignore_ascii_case (trim_ows word.now) (codes "close") }
{
    trimmed(word).eq_ignore_ascii_case(b"close")
}

/// A word without the spaces and tabs around it.
fn trimmed(word: &[u8]) -> &[u8]
    ensures { result.now ≡ trim_ows word.now }
{
    without_end(without_front(word))
}

fn without_front(word: &[u8]) -> &[u8]
    ensures { result.now ≡ skip_ows word.now }
{
    let mut rest = word;
    'blanks: while let Some((first, others)) = rest.split_first() {
        if !is_blank(*first) {
            return rest;
        }
        rest = others;
    }
    rest
}

fn without_end(word: &[u8]) -> &[u8]
    ensures { reverse result.now ≡ skip_ows (reverse word.now) }
{
    let mut rest = word;
    'blanks: while let Some((last, others)) = rest.split_last() {
        if !is_blank(*last) {
            return rest;
        }
        rest = others;
    }
    rest
}

fn is_blank(byte: u8) -> bool
    ensures { result ≡ is_ows byte }
{
    byte == b' ' || byte == b'\t'
}
