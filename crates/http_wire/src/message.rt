ghost use Rattle.std.specs.Prelude.{◌≡◌, map};
ghost use Rattle.std.specs.Option.{option_copied};
ghost use Rattle.httparse.specs.Spans.{name_and_value};
ghost use Rattle.http_wire.specs.Heads.{first_value};
ghost use Rattle.http_wire.specs.Messages.{RequestMessage, closes};
ghost use Rattle.http_wire.specs.Taken.{AreSpansOf};

use crate::inbox::Inbox;
use httparse::spans::RequestSpans;

/// A message that was taken: its head lies in the inbox, and its body beside it.
#[derive(Drop)]
pub struct Message<'a> {
    pub inbox: &'a Inbox,
    pub spans: RequestSpans,
    pub body: &'a [u8],
    pub ghost within: { AreSpansOf inbox.now spans },
}

impl<'a> Message<'a> {
    ghost use Rattle.http_wire.specs.Heard.{IsMessage};

    /// The method, which is a token.
    pub fn method(&self) -> &'a str
        ensures { (m : RequestMessage) → IsMessage self.now m → result.now ≡ m.head.method }
    {
        self.inbox.method_of(self.spans)
    }

    /// The target as it was sent.
    pub fn target(&self) -> &'a str
        ensures { (m : RequestMessage) → IsMessage self.now m → result.now ≡ m.head.target }
    {
        self.inbox.target_of(self.spans)
    }

    /// The value of the first field of that name, in any case, without the white space around it.
    pub fn header(&self, name: &str) -> Option<&'a [u8]>
        ensures { (m : RequestMessage) → IsMessage self.now m
            → option_copied result ≡ first_value name.now (map name_and_value m.head.fields) }
    {
        self.inbox.value_of(self.spans, name.as_bytes())
    }

    /// The body.
    pub fn body(&self) -> &'a [u8]
        ensures { (m : RequestMessage) → IsMessage self.now m → result.now ≡ m.body }
    {
        self.body
    }

    /// Whether the link ends after the answer.
    pub fn closes(&self) -> bool
        ensures { (m : RequestMessage) → IsMessage self.now m → result ≡ closes m }
    {
        self.inbox.closes(self.spans)
    }
}
