ghost use Rattle.std.specs.Prelude.{◌≡◌, ◌+◌, ◌≤◌, ◌++◌, length, codes};
ghost use Rattle.http_wire.specs.Replies.{joined_by, method_names, extra_line};
ghost use Rattle.http_wire.specs.ReplyBuffers.{held_bytes};
ghost use Rattle.http_wire.specs.declared.limits.TheConstants.{REPLY_ROOM};

use crate::extra::{Extra, Methods};
use crate::reply_buffer::ReplyBuffer;

/// Puts the header line that an answer has beside type and length.
pub fn push_extra(buffer: &mut ReplyBuffer, extra: Extra)
    requires { length (held_bytes buffer.old) + 39 ≤ REPLY_ROOM }
    ensures adds { held_bytes buffer.new ≡ held_bytes buffer.old ++ extra_line extra }
    ensures bound { length (held_bytes buffer.new) ≤ length (held_bytes buffer.old) + 39 }
{
    match extra {
        Extra::None => {}
        Extra::Bearer => buffer.push(b"WWW-Authenticate: Bearer realm=\"hsds\"\r\n"),
        Extra::Allow(methods) => push_allow(buffer, methods),
    }
}

fn push_allow(buffer: &mut ReplyBuffer, methods: Methods)
    requires { length (held_bytes buffer.old) + 39 ≤ REPLY_ROOM }
    ensures adds { held_bytes buffer.new
        ≡ held_bytes buffer.old ++ extra_line (Extra.Allow methods) }
    ensures bound { length (held_bytes buffer.new) ≤ length (held_bytes buffer.old) + 39 }
{
    buffer.push(b"Allow: ");
    buffer.push(names_of(methods).as_bytes());
    buffer.push(b"\r\n");
}

/// The names of methods in byte order, with a comma and a space between each two.
fn names_of(methods: Methods) -> &'static str
    ensures names { result.now ≡ joined_by (codes ", ") (method_names methods) }
    ensures bound { length result.now ≤ 22 }
{
    match (methods.delete, methods.get, methods.post, methods.put) {
        (false, false, false, false) => "",
        (false, false, false, true) => "PUT",
        (false, false, true, false) => "POST",
        (false, false, true, true) => "POST, PUT",
        (false, true, false, false) => "GET",
        (false, true, false, true) => "GET, PUT",
        (false, true, true, false) => "GET, POST",
        (false, true, true, true) => "GET, POST, PUT",
        (true, false, false, false) => "DELETE",
        (true, false, false, true) => "DELETE, PUT",
        (true, false, true, false) => "DELETE, POST",
        (true, false, true, true) => "DELETE, POST, PUT",
        (true, true, false, false) => "DELETE, GET",
        (true, true, false, true) => "DELETE, GET, PUT",
        (true, true, true, false) => "DELETE, GET, POST",
        (true, true, true, true) => "DELETE, GET, POST, PUT",
    }
}
