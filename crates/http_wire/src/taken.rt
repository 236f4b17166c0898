use crate::message_fault::MessageFault;
use httparse::spans::RequestSpans;

/// What stands at the front of a link's input.
#[derive(Drop)]
pub enum Taken {
    /// A whole message: where the parts of its head are, and its body.
    Message {
        spans: RequestSpans,
        body: Vec<u8>,
    },
    /// The input ended, and no byte of a further message is there.
    End,
    /// The input ended inside a message: inside a head that may go on, or inside a body.
    Cut {
        /// How many bytes of it came.
        rest: u64,
    },
    /// No message, for this reason.
    Refused(MessageFault),
    /// A whole message for whose body there was no memory. The body was read and dropped.
    Skipped {
        /// Whether the link ends after the answer to it.
        close: bool,
    },
    /// The source had a fault.
    Fault,
}
