//! Laws over the definition of a transcript. No program calls these functions; their contracts are the laws.
ghost use Rattle.std.specs.Prelude.{◌≡◌, ◌<◌, ℕ, List, ◌++◌, length, Option, Some};
ghost use Rattle.http_wire.specs.Messages.{RequestMessage, HasNoMessage};
ghost use Rattle.rest_session.specs.declared.links.end.LinkEnd.{LinkEnd};
ghost use Rattle.rest_session.specs.declared.links.end.LinkEnd.TheVariants.{Closed};
ghost use Rattle.rest_session.specs.declared.links.end.TheConstants.{BUDGET};
ghost use Rattle.rest_session.specs.Links.Links.{AllOpen, AllSpelled, spellings, Replays, IsTranscript};
ghost use Rattle.rest_session.specs.Links.Links.{AreAlike, IsOfBytes, IsPeaceful, IsUncut};
ghost use Rattle.rest_session.specs.Links.Links.{closing_message};

use crate::links::service::Service;

/// Two readings of one stream are one: its messages, and the rest that begins with no whole message, are determined.
pub fn one_reading()
    ensures { (messages others : List RequestMessage) (rest remainder : List ℕ)
        → AllOpen messages → AllOpen others → HasNoMessage rest → HasNoMessage remainder
        → spellings messages ++ rest ≡ spellings others ++ remainder
        → (messages ≡ others) × (rest ≡ remainder) }
{}

/// The answers of a stream that is split anywhere between messages are the answers of its parts, one behind the other.
pub fn answers_of_parts<V: Service>()
    ensures joined { (u v w : V.World) (front back : List RequestMessage) (first second : List ℕ)
        → Replays V.step u front first v → Replays V.step v back second w
        → Replays V.step u (front ++ back) (first ++ second) w }
    ensures parted { (u w : V.World) (front back : List RequestMessage) (bytes : List ℕ)
        → Replays V.step u (front ++ back) bytes w
        → (first : List ℕ) × (second : List ℕ) × (v : V.World) × (bytes ≡ first ++ second)
        × Replays V.step u front first v × Replays V.step v back second w }
{}

/// An input of whole messages is served to its end or to a message that closes, but for a fault, want of memory or the
/// budget, and that isn't used up where they are fewer than a link may give; where none of them closes, each was answered.
pub fn whole_messages_are_served<V: Service>()
    ensures uncut { (u v : V.World) (messages : List RequestMessage) (taken sent left : List ℕ)
        (end : LinkEnd) → AllSpelled messages → spellings messages ≡ taken ++ left
        → IsTranscript V.step u taken sent (Some left) v end → IsUncut end }
    ensures served { (u v : V.World) (messages : List RequestMessage) (taken sent left : List ℕ)
        (end : LinkEnd) → AllSpelled messages → length messages < BUDGET
        → spellings messages ≡ taken ++ left
        → IsTranscript V.step u taken sent (Some left) v end → IsPeaceful end }
    ensures all { (u v : V.World) (messages : List RequestMessage) (taken sent left : List ℕ)
        → AllOpen messages → spellings messages ≡ taken ++ left
        → (t : IsTranscript V.step u taken sent (Some left) v Closed) → t.messages ≡ messages }
{}

/// How the bytes were divided into pieces doesn't matter: two links that give the same bytes, and end neither by a fault
/// nor for want of memory, give the same messages and end alike, with the same message where one closes. Of the two faults
/// of a head either may be told; and bytes that stop inside a target, or behind too many fields, may be cut or refused.
pub fn pieces_do_not_matter<V: Service>()
    ensures messages { (u v w x : V.World) (taken sent left others written remaining : List ℕ)
        (end other : LinkEnd)
        → (t : IsTranscript V.step u taken sent (Some left) v end)
        → (s : IsTranscript V.step w others written (Some remaining) x other)
        → taken ++ left ≡ others ++ remaining → IsOfBytes end → IsOfBytes other
        → t.messages ≡ s.messages }
    ensures ends { (u v w x : V.World) (taken sent left others written remaining : List ℕ)
        (end other : LinkEnd)
        → (t : IsTranscript V.step u taken sent (Some left) v end)
        → (s : IsTranscript V.step w others written (Some remaining) x other)
        → taken ++ left ≡ others ++ remaining → IsOfBytes end → IsOfBytes other
        → AreAlike (t.tail ++ left) end other }
    ensures closing { (u v w x : V.World) (taken sent left others written remaining : List ℕ)
        → (t : IsTranscript V.step u taken sent (Some left) v Closed)
        → (s : IsTranscript V.step w others written (Some remaining) x Closed)
        → taken ++ left ≡ others ++ remaining
        → closing_message V.step t.mid t.tail t.last (Some left) v t.ends
        ≡ closing_message V.step s.mid s.tail s.last (Some remaining) x s.ends }
{}

/// A transcript holds of what the worlds show, too: where each step of one service is, between what its worlds show, a
/// step of the other.
pub fn transcripts_are_shown<V: Service, X: Service>()
    ensures { (show : V.World → X.World)
        → ((w v : V.World) (m : RequestMessage) (bytes : List ℕ)
        → V.step w m bytes v → X.step (show w) m bytes (show v))
        → (w v : V.World) (taken sent : List ℕ) (left : Option (List ℕ)) (end : LinkEnd)
        → IsTranscript V.step w taken sent left v end
        → IsTranscript X.step (show w) taken sent left (show v) end }
{}

/// A link gives at most 2^32 messages.
pub fn limit_of_messages()
    ensures { BUDGET ≡ 4_294_967_296 }
{}
