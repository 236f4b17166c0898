ghost use Rattle.std.specs.Prelude.{◌≡◌};

/// Why the bytes at the front of a link are no message. Each ends the link.
#[derive(Clone, Copy, Debug, PartialEq, Eq)]
pub enum MessageFault {
    /// No head, whatever follows.
    BadHead,
    /// A head of too many bytes or fields.
    HeadTooLong,
    /// Several Content-Length fields, or one that isn't 1 to 19 digits.
    BadLength,
    /// A body above the limit.
    BodyTooLong,
    /// A Transfer-Encoding field.
    TransferCoding,
}

impl MessageFault {
    ghost use Rattle.http_wire.specs.Replies.{fault_reply};

    /// The whole answer to such bytes.
    pub fn reply(self) -> &'static str
        ensures { result.now ≡ fault_reply self }
    {
        match self {
            MessageFault::BadHead => {
                "HTTP/1.1 400 Bad Request\r\nContent-Type: application/json\r\n\
                 Content-Length: 21\r\nConnection: close\r\n\r\n{\"reason\":\"bad-head\"}"
            }
            MessageFault::HeadTooLong => {
                "HTTP/1.1 431 Request Header Fields Too Large\r\nContent-Type: application/json\r\n\
                 Content-Length: 26\r\nConnection: close\r\n\r\n{\"reason\":\"head-too-long\"}"
            }
            MessageFault::BadLength => {
                "HTTP/1.1 400 Bad Request\r\nContent-Type: application/json\r\n\
                 Content-Length: 23\r\nConnection: close\r\n\r\n{\"reason\":\"bad-length\"}"
            }
            MessageFault::BodyTooLong => {
                "HTTP/1.1 413 Content Too Large\r\nContent-Type: application/json\r\n\
                 Content-Length: 26\r\nConnection: close\r\n\r\n{\"reason\":\"body-too-long\"}"
            }
            MessageFault::TransferCoding => {
                "HTTP/1.1 501 Not Implemented\r\nContent-Type: application/json\r\n\
                 Content-Length: 28\r\nConnection: close\r\n\r\n{\"reason\":\"transfer-coding\"}"
            }
        }
    }
}
