//! One worker at its door.
ghost use Rattle.std.specs.Prelude.{◌≡◌, ℕ, ◌<◌, ◌≤◌, List, [], ◌∷◌};
ghost use Rattle.std.specs.Prelude.{MatchBool, MatchResult, vec_capacity, vec_len};
ghost use Rattle.std.specs.Io.KnownBytes.{Appends, Consumes};
ghost use Rattle.edge_traits.specs.Causes.{Rose};
ghost use Rattle.edge_traits.specs.Told.{IsToldEmpty};
ghost use Rattle.hall.specs.Passes.{who};
ghost use Rattle.rest_session.specs.Halls.Accounts.{IsReady, account};
ghost use Rattle.rest_session.specs.Halls.Asking.{IsAskedOf};
ghost use Rattle.rest_session.specs.Halls.Gates.{HasGoneThroughAll};
ghost use Rattle.rest_session.specs.Halls.Visits.{Attends, Visit, Works, telling};
ghost use Rattle.rest_session.specs.Links.Links.{HasCauses, IsTranscript};
ghost use Rattle.rest_session.specs.declared.links.end.LinkEnd.TheVariants as end;

use crate::halls::session::HallSession;
use crate::halls::workers::LinkEnds;
use crate::links::{LinkEnd, serve_link as serve};
use edge_traits::{Disk, Door, Failed, Link, Sink, Source};
use hall::{Gate, Hall, JournalDesk, Pass};
use rest_requests::Tokens;
use std::alloc::Global;
use std::sync::Wait;

/// Serves a link, one message after another, until it ends: each request is asked of the hall. A flush, and a change of
/// folders, domains or lists, is acknowledged only once it is kept.
pub fn serve_link<D: Disk + Drop, G: Gate, L: Link, R: Wait>(
    rt: &R,
    alloc: Global,
    hall: &Hall<JournalDesk<D>>,
    pass: &mut Pass<JournalDesk<D>>,
    gate: &mut G,
    tokens: &Tokens,
    link: &mut L,
) -> LinkEnd
    requires ready { IsReady hall.now pass.old }
    ensures ready { IsReady hall.now pass.new }
    ensures same { who pass.new ≡ who pass.old }

    // The pass's own entries grow by those of the transcript, each answered so.
    ensures transcript { (taken : List ℕ) × (sent : List ℕ)
        × Consumes (L.left link.old) (L.left link.new) taken
        × Appends (L.held link.old) (L.held link.new) sent
        × IsTranscript IsAskedOf (account tokens.now hall.now pass.old) taken sent
        (L.left link.new) (account tokens.now hall.now pass.new) result }

    // Each turn of each request that the link asked went through the gate, in order.
    ensures gates { HasGoneThroughAll G.goes (account tokens.now hall.now pass.old)
        (account tokens.now hall.now pass.new) gate.old gate.new }
    ensures names { L.Source.names link.new ≡ L.Source.names link.old }
    ensures causes { HasCauses (L.Source.faults link.old) (L.Source.faults link.new)
        (L.Sink.faults link.old) (L.Sink.faults link.new) result }

    // Without memory for its inbox it has read nothing.
    ensures unread { result ≡ end.NoMemory → link.new ≡ link.old }
{
    let mut session = HallSession {
        rt,
        alloc,
        hall,
        pass,
        gate,
        tokens,
    };
    match serve(alloc, &mut session, link) {
        Ok(end) => end,
    }
}

// Serves the door's next link, and gives it back. `Ok(false)` where the door has none left.
fn attend_link<D: Disk + Drop, G: Gate, F: Door, R: Wait>(
    rt: &R,
    alloc: Global,
    hall: &Hall<JournalDesk<D>>,
    pass: &mut Pass<JournalDesk<D>>,
    gate: &mut G,
    tokens: &Tokens,
    door: &mut F,
    ends: &mut LinkEnds,
) -> Result<bool, Failed>
    requires ready { IsReady hall.now pass.old }
    requires room { vec_len ends.old < vec_capacity ends.old }
    ensures ready { IsReady hall.now pass.new }
    ensures same { who pass.new ≡ who pass.old }
    ensures room { vec_capacity ends.new ≡ vec_capacity ends.old }
    ensures attends { let Attended : List (Visit F.Link) → Type 0 = λ visits.
        Attends (telling ⟦<F as Door>⟧ ⟦<F::Link as Source>⟧ ⟦<F::Link as Sink>⟧) visits
        door.old door.new ends.old.items ends.new.items
        (account tokens.now hall.now pass.old) (account tokens.now hall.now pass.new) in
        MatchResult result
        (λ more. MatchBool more ((v : Visit F.Link) × Attended (v ∷ []))
        (Attended [] × IsToldEmpty (F.left door.old)))
        (λ _. Attended [] × Rose (F.faults door.old) (F.faults door.new)) }
    ensures gates { HasGoneThroughAll G.goes (account tokens.now hall.now pass.old)
        (account tokens.now hall.now pass.new) gate.old gate.new }
{
    let Some(mut link) = door.next()? else {
        return Ok(false);
    };
    let end = serve_link(rt, alloc, hall, pass, gate, tokens, &mut link);
    ends.push_reserved(end);
    door.give_back(link);
    Ok(true)
}

/// Serves link after link of the door, until it has none left, it fails, or `links` were given. Says whether it failed.
pub fn attend_door<D: Disk + Drop, G: Gate, F: Door, R: Wait>(
    rt: &R,
    alloc: Global,
    hall: &Hall<JournalDesk<D>>,
    pass: &mut Pass<JournalDesk<D>>,
    gate: &mut G,
    tokens: &Tokens,
    links: u32,
    door: &mut F,
    ends: &mut LinkEnds,
) -> bool
    requires ready { IsReady hall.now pass.old }
    requires empty { ends.old.items ≡ [] }
    requires room { links ≤ vec_capacity ends.old }
    ensures ready { IsReady hall.now pass.new }
    ensures same { who pass.new ≡ who pass.old }
    ensures works { Works (telling ⟦<F as Door>⟧ ⟦<F::Link as Source>⟧ ⟦<F::Link as Sink>⟧) links
        door.old door.new ends.new.items
        (account tokens.now hall.now pass.old) (account tokens.now hall.now pass.new) result }

    // Each turn of each request that its links asked went through the gate, in order.
    ensures gates { HasGoneThroughAll G.goes (account tokens.now hall.now pass.old)
        (account tokens.now hall.now pass.new) gate.old gate.new }
{
    'links: for _ in 0..links {
        match attend_link(rt, alloc, hall, pass, gate, tokens, door, ends) {
            Ok(true) => {}
            Ok(false) => return false,
            Err(Failed) => return true,
        }
    }
    false
}
