ghost use Rattle.std.specs.Prelude.{◌≡◌, length, All};
ghost use Rattle.std.specs.Option.{option_copied};
ghost use Rattle.std.specs.Str.{str_eq_ignore_ascii_case};
ghost use Rattle.httparse.specs.Spans.{IsHeaderWithin};
ghost use Rattle.http_wire.specs.Heads.{fields_at, first_value};

use httparse::spans::HeaderSpan;

// The fields that say how long a body is, or how long the connection lasts (RFC 9112, sections 6 and 9).
pub const LENGTH_FIELD: &[u8] = b"Content-Length";

pub const CODING_FIELD: &[u8] = b"Transfer-Encoding";

pub const CONNECTION_FIELD: &[u8] = b"Connection";

/// The value of the first field of that name, in any case (RFC 9110, section 5.1).
pub fn first_value<'b>(buf: &'b [u8], headers: &[HeaderSpan], name: &[u8]) -> Option<&'b [u8]>
    requires { All (IsHeaderWithin (length buf.now)) headers.now }
    ensures { option_copied result ≡ first_value name.now (fields_at buf.now headers.now) }
{
    'fields: for header in headers {
        if is_same_name(header.name.of(buf), name) {
            return Some(header.value.of(buf));
        }
    }
    None
}

pub fn is_same_name(a: &[u8], b: &[u8]) -> bool
    ensures { result ≡ str_eq_ignore_ascii_case a.now b.now }
{
    a.eq_ignore_ascii_case(b)
}
