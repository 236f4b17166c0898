//! Laws over the definitions of this crate. No program calls these functions; their contracts are the laws.
ghost use Rattle.std.specs.Prelude.{◌≡◌, ℕ, ◌^◌, ◌<◌, ◌≤◌, List, ◌++◌, length, decimal, Ok};
ghost use Rattle.http_wire.specs.Messages.{RequestMessage, IsSpelled, spelling, length_in};
ghost use Rattle.http_wire.specs.declared.limits.TheConstants.{HEAD_LIMIT, FIELD_LIMIT, BODY_LIMIT, ANSWER_ROOM};

/// The limits as numbers.
pub fn limits_of_messages()
    ensures head { HEAD_LIMIT ≡ 8192 }
    ensures fields { FIELD_LIMIT ≡ 64 }
    ensures body { BODY_LIMIT ≡ 16777216 }
    ensures answer { ANSWER_ROOM ≡ 8192 }
{}

/// A message has at least 14 bytes, as `A / HTTP/1.1` with two ends of lines, and its body is within the limit.
pub fn sizes_of_messages()
    ensures least { (m : RequestMessage) → IsSpelled m → 14 ≤ length (spelling m) }
    ensures body { (m : RequestMessage) → IsSpelled m → length m.body ≤ BODY_LIMIT }
{}

/// A length within the limit is read from its decimal digits.
pub fn lengths_are_read_back()
    ensures { (n : ℕ) → n ≤ BODY_LIMIT → length_in (decimal n) ≡ Ok n }
{}

/// Of the bytes of a link one message at most stands at the front.
pub fn one_message_at_the_front()
    ensures { (a b : RequestMessage) (rest others : List ℕ) → IsSpelled a → IsSpelled b
        → spelling a ++ rest ≡ spelling b ++ others → (a ≡ b) × (rest ≡ others) }
{}
