ghost use Rattle.std.specs.Prelude.{◌≡◌, ◌+◌, ◌≤◌, ◌==◌, cond, [], ◌++◌, length, decimal};
ghost use Rattle.http_wire.specs.Replies.{reply_head, line_of, phrase_of};
ghost use Rattle.http_wire.specs.Replies.{content_lines, closing_line};
ghost use Rattle.http_wire.specs.ReplyBuffers.{held_bytes};
ghost use Rattle.http_wire.specs.declared.limits.TheConstants.{REPLY_ROOM};

use crate::extra::Extra;
use crate::extra_lines::push_extra;
use crate::phrases::phrase_of;
use crate::reply_buffer::ReplyBuffer;
use itoa::Buffer;

/// Puts what an answer has in front of a body of that size.
pub fn push_head(buffer: &mut ReplyBuffer, status: u16, extra: Extra, size: usize, close: bool)
    requires { held_bytes buffer.old ≡ [] }
    ensures head { held_bytes buffer.new ≡ reply_head status extra size close }
    ensures bound { length (held_bytes buffer.new) ≤ 256 }
{
    push_line(buffer, status);
    push_content(buffer, status, size);
    push_extra(buffer, extra);
    buffer.push(closing_line(close).as_bytes());
    buffer.push(b"\r\n");
}

/// The header line that tells of the link's end (RFC 9112, section 9.6).
fn closing_line(close: bool) -> &'static str
    ensures line { result.now ≡ closing_line close }
    ensures bound { length result.now ≤ 19 }
{
    if close { "Connection: close\r\n" } else { "" }
}

/// Puts the status line.
fn push_line(buffer: &mut ReplyBuffer, status: u16)
    requires { length (held_bytes buffer.old) + 64 ≤ REPLY_ROOM }
    ensures adds { held_bytes buffer.new
        ≡ held_bytes buffer.old ++ line_of status (phrase_of status) }
    ensures bound { length (held_bytes buffer.new) ≤ length (held_bytes buffer.old) + 64 }
{
    let Some(phrase) = phrase_of(status) else {
        buffer.push(b"HTTP/1.1 500 Internal Server Error\r\n");
        return;
    };
    buffer.push(b"HTTP/1.1 ");
    push_number(buffer, status as usize);
    buffer.push(b" ");
    buffer.push(phrase.as_bytes());
    buffer.push(b"\r\n");
}

/// Puts the type and the length of a body, which a 204 doesn't have.
fn push_content(buffer: &mut ReplyBuffer, status: u16, size: usize)
    requires { length (held_bytes buffer.old) + 70 ≤ REPLY_ROOM }
    ensures adds { held_bytes buffer.new
        ≡ held_bytes buffer.old ++ cond (status == 204) [] (content_lines size) }
    ensures bound { length (held_bytes buffer.new) ≤ length (held_bytes buffer.old) + 70 }
{
    if status != 204 {
        push_size(buffer, size);
    }
}

fn push_size(buffer: &mut ReplyBuffer, size: usize)
    requires { length (held_bytes buffer.old) + 70 ≤ REPLY_ROOM }
    ensures adds { held_bytes buffer.new ≡ held_bytes buffer.old ++ content_lines size }
    ensures bound { length (held_bytes buffer.new) ≤ length (held_bytes buffer.old) + 70 }
{
    buffer.push(b"Content-Type: application/json\r\nContent-Length: ");
    push_number(buffer, size);
    buffer.push(b"\r\n");
}

/// Puts a number's decimal digits.
fn push_number(buffer: &mut ReplyBuffer, number: usize)
    requires { length (held_bytes buffer.old) + 20 ≤ REPLY_ROOM }
    ensures adds { held_bytes buffer.new ≡ held_bytes buffer.old ++ decimal number }
    ensures bound { length (held_bytes buffer.new) ≤ length (held_bytes buffer.old) + 20 }
{
    let mut digits = Buffer::new();
    buffer.push(digits.format(number).as_bytes());
}
