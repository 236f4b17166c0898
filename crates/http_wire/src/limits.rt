/// The greatest length of a head in bytes, with the empty lines before it.
pub const HEAD_LIMIT: usize = 8192;

/// How many fields a head may have.
pub const FIELD_LIMIT: usize = 64;

/// The greatest length of a body in bytes.
pub const BODY_LIMIT: u64 = 16_777_216;

/// How many bytes of an answer an inbox has room for.
pub const ANSWER_ROOM: usize = 8192;

/// How many bytes of an answer are put together before they are written.
pub const REPLY_ROOM: usize = 1024;
