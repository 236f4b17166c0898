//! Laws over the definitions of this crate. No program calls these functions; the contract of each is the law.

ghost use Rattle.std.specs.Prelude.{◌≡◌, ◌<◌, ◌≤◌, ◌^◌, ℕ, Bool, List, [], ◌∷◌, length};
ghost use Rattle.std.specs.Prelude.{None, Option, false, true};
ghost use Rattle.serde_json.specs.Data.{Data};
ghost use Rattle.access_lists.specs.declared.people.Caller.{Caller};
ghost use Rattle.access_lists.specs.declared.right.Right.{Right};
ghost use Rattle.flush_journal.specs.Batches.{records};
ghost use Rattle.flush_journal.specs.Moments.{CrashLeaves};
ghost use Rattle.flush_journal.specs.Standing.{disk_of, pending_of};
ghost use Rattle.flush_journal.specs.Unchanged.{SameDisk};
ghost use Rattle.rest_session.specs.Halls.Acknowledged.{AcknowledgedIsKept};
ghost use Rattle.rest_session.specs.Links.Links.{IsTranscript};
ghost use Rattle.rest_session.specs.declared.links.end.LinkEnd.{LinkEnd};
ghost use Rattle.service_core.specs.Records.{as_kept};
ghost use Rattle.http_wire.specs.Replies.{fault_reply, no_memory_reply};
ghost use Rattle.http_wire.specs.declared.message_fault.MessageFault.{MessageFault};
ghost use Rattle.rest_requests.specs.Routes.Methods.{no_methods};
ghost use Rattle.service_core.specs.declared.answers.What.TheVariants.{NoMemory};
ghost use Rattle.flush_journal.specs.declared.why.Why.{Why};
ghost use Rattle.http_wire.specs.declared.limits.TheConstants.{ANSWER_ROOM};
ghost use Rattle.object_ops.specs.declared.ops.Request.{Request};
ghost use Rattle.object_ops.specs.declared.refusals.Refusal.TheVariants.{DiskFault, JournalFull};
ghost use Rattle.service_core.specs.Steps.{Steps, World as Seen};
ghost use Rattle.service_core.specs.declared.answers.Answer.{Answer};
ghost use Rattle.object_ops.specs.declared.replies.Reply.TheVariants.{Done};
ghost use Rattle.service_core.specs.declared.answers.What.TheVariants.{Denied, Replied};
ghost use Rattle.rest_session.specs.Responses.{HasStatus, IsUnkept, refusal_of, refused, said};
ghost use Rattle.rest_session.specs.Sessions.{IsServed, Served};
ghost use Rattle.rest_session.specs.Sessions.{is_to_keep};
ghost use Rattle.rest_session.specs.Stood.{AreOfStood, HoldsStood, IsBackedBy, IsBackedByStood};
ghost use Rattle.rest_session.specs.Stood.{IsStretch};

use edge_traits::Disk;
use flush_journal::keepings::images_are_kept;
use service_core::answer_trees::answers_have_done_statuses;
use service_core::{World, places_in_order};

/// What ends a link is refused as a request is.
pub fn faults_are_refused()
    ensures { (fault : MessageFault)
        → fault_reply fault ≡ refused [] (refusal_of fault) no_methods true }
{}

/// Where memory is wanting for the answer itself, the bytes are those of an answer that says so.
pub fn no_memory_is_said()
    ensures { (path : List ℕ) (close : Bool)
        → no_memory_reply close ≡ said path NoMemory close }
{}

/// A request that isn't kept before it is answered leaves folders, domains and lists as they were, and the next number.
pub fn what_is_not_kept_changes_no_node()
    ensures { (w v : Seen) (caller : Caller) (request : Request) (answer : Answer)
        → Steps w caller request answer v → is_to_keep request.op ≡ false
        → v.register.catalogue ≡ w.register.catalogue }
{}

/// The bytes of an answer that something was done are never those of a 503 or a 507, and so never those by which it is said
/// that a change was not kept.
pub fn what_is_done_is_told_apart()
    ensures unavailable { (w v : Seen) (caller : Caller) (request : Request) (answer : Answer)
        (status : ℕ) (body : Data) (path : List ℕ) (close : Bool)
        → Steps w caller request answer v → answer.what ≡ Replied (Done status body)
        → HasStatus 503 (said path answer.what close) → ⊥ }
    ensures insufficient { (w v : Seen) (caller : Caller) (request : Request) (answer : Answer)
        (status : ℕ) (body : Data) (path : List ℕ) (close : Bool)
        → Steps w caller request answer v → answer.what ≡ Replied (Done status body)
        → HasStatus 507 (said path answer.what close) → ⊥ }
    ensures unkept { (w v : Seen) (caller : Caller) (request : Request) (answer : Answer)
        (status : ℕ) (body : Data) (path : List ℕ) (close shut : Bool) (why : Why)
        → Steps w caller request answer v → answer.what ≡ Replied (Done status body)
        → IsUnkept why shut (said path answer.what close) → ⊥ }
{
    answers_have_done_statuses();
}

/// Where a hall is asked, an answer with the status of what is done acknowledges only what is kept: a flush is kept then by a
/// keeping that was answered Ok and reaches past its place, and so is a change of a folder, a domain or a list.
pub fn what_is_acknowledged_is_kept()
    ensures { AcknowledgedIsKept }
{}

/// An answer that denies a right at a path, and one that says that a change was not kept, have at most 8,192 bytes: as many
/// as an inbox has room for.
pub fn short_answers()
    ensures room { ANSWER_ROOM ≡ 8192 }
    ensures denied { (path : List ℕ) (right : Right) (close : Bool)
        → length path ≤ 1024 → length (said path (Denied right) close) ≤ ANSWER_ROOM }
    ensures fault { (close : Bool)
        → length (refused [] DiskFault no_methods close) ≤ ANSWER_ROOM }
    ensures full { (end need room : ℕ) (close : Bool)
        → end < 2 ^ 64 → need < 2 ^ 64 → room < 2 ^ 64
        → length (refused [] (JournalFull end need room) no_methods close) ≤ ANSWER_ROOM }
{}

/// The disk stays the same one while a link is served, and its count of faults doesn't fall. On a disk that keeps its rule,
/// whatever a crash leaves between two messages is a world as it stood between two of the link's messages, and no earlier
/// than at the last keeping that was answered Ok: where it is so at first. Whatever a crash at any moment since `u` leaves, up
/// to `v`, is a world that stood by then, and no earlier than at the last keeping before `u`; what is kept never gets less.
pub fn what_is_kept_stood<D: Disk>()
    ensures disk { (s t : Served D.Disk) (taken sent : List ℕ) (left : Option (List ℕ)) (end : LinkEnd)
        → IsTranscript IsServed s taken sent left t end
        → SameDisk D.Disk (disk_of s.keeping.journal) (disk_of t.keeping.journal) }
    ensures stood { (s t : Served D.Disk) (taken sent : List ℕ) (left : Option (List ℕ)) (end : LinkEnd)
        → IsTranscript IsServed s taken sent left t end → D.honest
        → IsBackedBy s (as_kept s.world ∷ []) → s.keeping.kept ≤ s.world.register.places
        → IsBackedByStood s t taken sent }
    ensures stretch { (s t : Served D.Disk) (taken sent : List ℕ) (left : Option (List ℕ)) (end : LinkEnd)
        → IsTranscript IsServed s taken sent left t end → IsStretch s t taken sent s t }
    ensures crash { (s t u v : Served D.Disk) (taken sent : List ℕ) → IsStretch s t taken sent u v
        → D.honest → IsBackedBy s (as_kept s.world ∷ []) → s.keeping.kept ≤ s.world.register.places
        → CrashLeaves D.Disk (disk_of u.keeping.journal) (disk_of v.keeping.journal)
        (HoldsStood s v taken sent u.keeping.kept) }
    ensures onward { (s t u v : Served D.Disk) (taken sent : List ℕ) → IsStretch s t taken sent u v
        → s.keeping.kept ≤ s.world.register.places → u.keeping.kept ≤ v.keeping.kept }
{
    images_are_kept::<D, World>();
    places_in_order();
}

/// Where nothing waits to be written and nothing is building at first, each record that waits between two messages, or is
/// building, is one of a world as it stood between two of the link's messages, and no earlier than at the last keeping that was
/// answered Ok.
pub fn what_waits_stood<D: Disk>()
    ensures { (s t : Served D.Disk) (taken sent : List ℕ) (left : Option (List ℕ)) (end : LinkEnd)
        → IsTranscript IsServed s taken sent left t end
        → pending_of s.keeping.journal ≡ None → records s.keeping.building ≡ []
        → s.keeping.kept ≤ s.world.register.places → AreOfStood s t taken sent }
{
    places_in_order();
}
