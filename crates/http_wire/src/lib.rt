//! HTTP/1.x messages on a link (RFC 9112): requests with their bodies, taken one after another through a buffer that is
//! made once, and the bytes of answers. Which heads there are is `httparse`'s grammar, within the limits of this crate;
//! what is taken depends on the bytes alone, and not on the pieces in which they come.
#![tactic(auto)]

mod answer_buffer;
mod bodies;
mod buffer;
mod closing;
mod extra;
mod extra_lines;
mod fields;
mod found;
mod inbox;
pub mod laws;
mod limits;
mod line_read;
mod message;
mod message_fault;
mod parse;
mod phrases;
mod reading;
mod replies;
mod reply_buffer;
mod reply_heads;
mod sizes;
mod skipping;
mod taken;

pub use extra::{Extra, Methods};
pub use inbox::Inbox;
pub use limits::{ANSWER_ROOM, BODY_LIMIT, FIELD_LIMIT, HEAD_LIMIT};
pub use message::Message;
pub use message_fault::MessageFault;
pub use replies::{no_memory_reply, write_reply};
pub use taken::Taken;
