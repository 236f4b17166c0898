ghost use Rattle.std.specs.Prelude.{◌≡◌, ◌+◌, ◌≤◌, List, ℕ, [], ◌++◌, length};
ghost use Rattle.http_wire.specs.declared.limits.TheConstants.{REPLY_ROOM};

use crate::limits::REPLY_ROOM;

/// The first bytes of an answer, on the stack.
#[derive(Drop)]
pub struct ReplyBuffer {
    bytes: [u8; REPLY_ROOM],
    len: usize,
    ghost within: { len ≤ REPLY_ROOM },
}

impl ReplyBuffer {
    ghost use Rattle.http_wire.specs.ReplyBuffers.{held_bytes};

    /// A buffer that holds nothing.
    pub fn new() -> ReplyBuffer
        ensures { held_bytes result ≡ [] }
    {
        ReplyBuffer {
            bytes: [0; REPLY_ROOM],
            len: 0,
        }
    }

    /// The bytes that it holds.
    pub fn as_slice(&self) -> &[u8]
        ensures { result.now ≡ held_bytes self.now }
    {
        &self.bytes[..self.len]
    }

    /// How many more bytes there is room for.
    pub fn room(&self) -> usize
        ensures { result + length (held_bytes self.now) ≡ REPLY_ROOM }
    {
        REPLY_ROOM - self.len
    }

    /// Puts a piece behind them.
    pub fn push(&mut self, piece: &[u8])
        requires { length (held_bytes self.old) + length piece.now ≤ REPLY_ROOM }
        ensures { held_bytes self.new ≡ held_bytes self.old ++ piece.now }
    {
        let end = self.len + piece.len();
        self.bytes[self.len..end].copy_from_slice(piece);
        self.len = end;
    }
}
