use httparse::spans::RequestSpans;

/// What stands at the front of the input.
#[derive(Clone, Copy, Debug, PartialEq, Eq)]
pub enum Found {
    /// A whole head within the limits, and where its parts are among the unused bytes.
    Head(RequestSpans),
    /// The input ended, and no byte of a further request is there.
    End,
    /// The input ended inside a head, which may go on.
    Cut,
    /// No head, whatever follows.
    BadHead,
    /// A head of more bytes or fields than the limits, whatever follows.
    HeadTooLong,
    /// The source had a fault.
    Fault,
}
