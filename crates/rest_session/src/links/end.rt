use http_wire::MessageFault;

/// How many messages that leave it open one link may give.
pub const BUDGET: u64 = 1 << 32;

/// How a link ended.
#[derive(Clone, Copy, Debug, PartialEq, Eq)]
pub enum LinkEnd {
    /// The input ended at a message's end, or a message that closes was answered.
    Closed,
    /// The input ended inside a message: inside a head that may go on, or inside a body.
    Cut {
        /// How many bytes of that message came.
        rest: u64,
    },
    /// Bytes that are no message were answered so.
    Ended(MessageFault),
    /// The input had a fault.
    ReadFault,
    /// The output had a fault.
    WriteFault,
    /// As many messages that left the link open were answered as it may give.
    Budget,
    /// There was no memory for the link's inbox. Nothing was read.
    NoMemory,
}
