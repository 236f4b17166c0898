//! What holds of requests, in other words than the definitions.

ghost use Rattle.std.specs.Prelude.{◌≡◌};
ghost use Rattle.access_lists.specs.Tokens.Bearer.{TokenTable};
ghost use Rattle.request_bodies.specs.Order.{fault, first_of};
ghost use Rattle.rest_requests.specs.Order.{AreNumbered, tests};
ghost use Rattle.rest_requests.specs.Requests.{RequestText, request_of};

/// The order in which messages are refused. Of nine tests, each on the message alone, the first that finds a refusal
/// decides, and where none does the message is a request. The tests stand in the order of the refusals' numbers: the
/// first finds number 6, `NoRoute`, alone, and the last number 14, `BadName`. Creation properties and the value of an
/// attribute are judged only where the type and the shape are accepted.
pub fn refusals_in_order()
    ensures first { (tokens : TokenTable) (m : RequestText)
        → fault (request_of tokens m) ≡ first_of (tests tokens m) }
    ensures numbers { (tokens : TokenTable) (m : RequestText) → AreNumbered 6 (tests tokens m) }
{}
