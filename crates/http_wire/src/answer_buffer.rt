ghost use Rattle.std.specs.Prelude.{◌≡◌, ◌+◌, ◌≤◌, [], ◌++◌, length, IfOk};
ghost use Rattle.http_wire.specs.declared.limits.TheConstants.{ANSWER_ROOM};

use crate::limits::ANSWER_ROOM;
use std::alloc::{AllocError, Global};

/// The bytes of an answer. Its room is made once for a link, and no later call takes memory.
#[derive(Drop)]
pub struct AnswerBuffer {
    bytes: Vec<u8>,
    len: usize,
    ghost room: { length bytes.items ≡ ANSWER_ROOM },
    ghost within: { len ≤ ANSWER_ROOM },
}

impl AnswerBuffer {
    ghost use Rattle.http_wire.specs.AnswerBuffers.{put_bytes};

    /// A buffer that holds nothing.
    ///
    /// # Errors
    ///
    /// `AllocError` where there is no memory for it.
    pub fn new(alloc: Global) -> Result<AnswerBuffer, AllocError>
        ensures { IfOk result (λ b. put_bytes b ≡ []) }
    {
        Ok(AnswerBuffer {
            bytes: vec![in alloc; 0; ANSWER_ROOM]?,
            len: 0,
        })
    }

    /// The bytes that it holds.
    pub fn as_slice(&self) -> &[u8]
        ensures value { result.now ≡ put_bytes self.now }
        ensures room { length result.now ≤ ANSWER_ROOM }
    {
        &self.bytes[..self.len]
    }

    /// Drops them.
    pub fn clear(&mut self)
        ensures { put_bytes self.new ≡ [] }
    {
        self.len = 0;
    }

    /// Puts a piece behind them.
    pub fn push(&mut self, piece: &[u8])
        requires { length (put_bytes self.old) + length piece.now ≤ ANSWER_ROOM }
        ensures { put_bytes self.new ≡ put_bytes self.old ++ piece.now }
    {
        let end = self.len + piece.len();
        self.bytes[self.len..end].copy_from_slice(piece);
        self.len = end;
    }
}
