ghost use Rattle.std.specs.Prelude.{◌≡◌, ◌==◌, cond, [], ◌++◌, OnOk, OnErr};
ghost use Rattle.std.specs.Io.KnownBytes.{Appends};
ghost use Rattle.edge_traits.specs.Causes.{HasCause};
ghost use Rattle.http_wire.specs.Replies.{AppendsFront, reply_text, no_memory_reply};
ghost use Rattle.http_wire.specs.ReplyBuffers.{held_bytes};

use crate::extra::Extra;
use crate::reply_buffer::ReplyBuffer;
use crate::reply_heads::push_head;
use edge_traits::{Failed, Sink, write_all};

/// Writes an answer. A short one leaves in one write. No memory is taken.
///
/// # Errors
///
/// `Failed` at the sink's first fault. Then some first bytes of the answer were appended.
pub fn write_reply<K: Sink>(
    sink: &mut K,
    status: u16,
    extra: Extra,
    body: &[u8],
    close: bool,
) -> Result<(), Failed>
    ensures ok { OnOk result (Appends (K.held sink.old) (K.held sink.new)
        (reply_text status extra body.now close)) }
    ensures err { OnErr result (AppendsFront (K.held sink.old) (K.held sink.new)
        (reply_text status extra body.now close)) }
    ensures beside { K.beside sink.new ≡ K.beside sink.old }
    ensures names { K.names sink.new ≡ K.names sink.old }
    ensures cause { HasCause (K.faults sink.old) (K.faults sink.new) result }
{
    let mut buffer = ReplyBuffer::new();
    push_head(&mut buffer, status, extra, body.len(), close);
    write_behind(sink, &mut buffer, shown_body(status, body))
}

/// The body of an answer, which a 204 doesn't have.
fn shown_body(status: u16, body: &[u8]) -> &[u8]
    ensures { result.now ≡ cond (status == 204) [] body.now }
{
    if status == 204 { &[] } else { body }
}

/// Writes what a buffer holds and then a body, in one write where there is room for it.
fn write_behind<K: Sink>(sink: &mut K, buffer: &mut ReplyBuffer, body: &[u8]) -> Result<(), Failed>
    ensures ok { OnOk result (Appends (K.held sink.old) (K.held sink.new)
        (held_bytes buffer.old ++ body.now)) }
    ensures err { OnErr result (AppendsFront (K.held sink.old) (K.held sink.new)
        (held_bytes buffer.old ++ body.now)) }
    ensures beside { K.beside sink.new ≡ K.beside sink.old }
    ensures names { K.names sink.new ≡ K.names sink.old }
    ensures cause { HasCause (K.faults sink.old) (K.faults sink.new) result }
{
    if body.len() <= buffer.room() {
        buffer.push(body);
        return write_all(sink, buffer.as_slice());
    }
    write_all(sink, buffer.as_slice())?;
    write_all(sink, body)
}

/// The whole answer where memory is wanting. It takes no memory.
pub fn no_memory_reply(close: bool) -> &'static str
    ensures { result.now ≡ no_memory_reply close }
{
    if close {
        "HTTP/1.1 507 Insufficient Storage\r\nContent-Type: application/json\r\n\
         Content-Length: 22\r\nConnection: close\r\n\r\n{\"reason\":\"no-memory\"}"
    } else {
        "HTTP/1.1 507 Insufficient Storage\r\nContent-Type: application/json\r\n\
         Content-Length: 22\r\n\r\n{\"reason\":\"no-memory\"}"
    }
}
