ghost use Rattle.std.specs.Prelude.{◌≡◌, ℕ, List};
ghost use Rattle.http_wire.specs.Messages.{RequestMessage, IsSpelled};
ghost use Rattle.http_wire.specs.Heard.{IsMessage};
ghost use Rattle.rest_session.specs.Links.Replies.{IsMet};

use crate::links::response::Response;
use http_wire::Message;

/// What answers messages, one after another, or ends the link.
pub trait Service {
    /// Why it may end a link, in place of an answer.
    type End;

    /// What the answers depend on.
    ghost World: { Type 0 };

    /// The world as it stands.
    ghost world: { Self → World };

    /// That these bytes may be the whole answer to the message in the one world, and leave the
    /// other.
    ghost step: { World → RequestMessage → List ℕ → World → Type 0 };

    /// That it may end the link at the message in the one world, for this reason, and leave the
    /// other.
    ghost stop: { World → RequestMessage → Self.End → World → Type 0 };

    /// What has to hold where a message is answered. It holds again behind the answer.
    ghost ready: { Self → Type 0 } = { λ _. Unit {0} };

    /// What no answer changes, as the references to what is lent to the service.
    ghost Fixed: { Type 0 };

    ghost fixed: { Self → Fixed };

    /// Answers a message.
    ///
    /// # Errors
    ///
    /// Why the link ends with this message, which has no answer.
    fn answer(&mut self, message: &Message<'_>) -> Result<Response, Self::End>
        requires ready { ready self.old }
        ensures step { (m : RequestMessage) → IsMessage message.now m → IsSpelled m
            → IsMet step stop (world self.old) m result (world self.new) }
        ensures ready { ready self.new }
        ensures fixed { fixed self.new ≡ fixed self.old };
}
