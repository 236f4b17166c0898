//! Doors at a port of TCP.

ghost use Rattle.std.specs.Prelude.{◌≡◌, ◌+◌, ◌≤◌, IfOk, IsSome, None, vec_len};
ghost use Rattle.edge_traits.specs.Causes.{HasCause};
ghost use Rattle.edge_traits.specs.Doors.{given_count};
ghost use Rattle.edge_traits.specs.Told.{GivesFirst, KeepsTold};

use crate::tcp_link::TcpLink;
use edge_traits::{Door, Failed, FaultCount};
use std::alloc::{AllocError, Global};
use std::io::ErrorKind;
use std::net::TcpListener;
use std::rt::Clock;

/// A door at a port, of which several may wait at the same one. It tells nothing of the links to come, and always has one
/// more. Where nothing could be listened at, each call for a link is a fault.
#[derive(Drop)]
pub struct TcpDoor<C> {
    listener: Option<TcpListener>,
    clock: C,
    out: u64,
    count: FaultCount,
}

impl<C: Clock + Copy> TcpDoor<C> {
    /// A door at what is listened at, with no fault yet. The clock serves the end of its links.
    pub fn new(listener: Option<TcpListener>, clock: C) -> TcpDoor<C>
        ensures out { ⟦<TcpDoor<C> as Door>⟧.out result ≡ 0 }
        ensures faults { ⟦<TcpDoor<C> as Door>⟧.faults result ≡ 0 }
    {
        TcpDoor {
            listener,
            clock,
            out: 0,
            count: FaultCount::new(),
        }
    }

    // Waits for the next link. None comes where nothing is listened at, or the port has a fault.
    fn accept(&self) -> Option<TcpLink> {
        let listener = self.listener.as_ref()?;
        for _ in 0..u64::MAX {
            match listener.accept() {
                Ok((stream, _)) => {
                    if let Ok(link) = TcpLink::new(stream) {
                        return Some(link);
                    }
                }
                Err(e) if is_of_peer(e.kind()) => {}
                Err(_) => return None,
            }
        }
        None
    }
}

/// A door for each worker at what is listened at.
///
/// # Errors
///
/// `AllocError` where there is no memory for them.
pub fn doors_at<C: Clock + Copy>(
    alloc: Global,
    listener: Option<&TcpListener>,
    clock: C,
    workers: u32,
) -> Result<Vec<TcpDoor<C>>, AllocError>
    ensures { IfOk result (λ doors. vec_len doors ≡ workers) }
{
    let mut doors = Vec::new(alloc);
    for worker in 0..workers {
        doors.push(TcpDoor::new(another(listener), clock))?;
    }
    Ok(doors)
}

// One more handle of what is listened at.
fn another(listener: Option<&TcpListener>) -> Option<TcpListener> {
    listener?.try_clone().ok()
}

// Whether an error is that of a connection which went away before it was taken, as Linux tells them, and not of the port.
fn is_of_peer(kind: ErrorKind) -> bool {
    matches!(
        kind,
        ErrorKind::ConnectionAborted
            | ErrorKind::ConnectionReset
            | ErrorKind::HostUnreachable
            | ErrorKind::NetworkDown
            | ErrorKind::NetworkUnreachable
            | ErrorKind::TimedOut
    )
}

impl<C: Clock + Copy> Door for TcpDoor<C> {
    type Link = TcpLink;

    ghost left = { λ _. None };

    ghost ended = { λ _. None };

    ghost out = { λ d. d.out };

    ghost faults = { λ d. d.count };

    fn next(&mut self) -> Result<Option<TcpLink>, Failed>
        ensures links { GivesFirst (⟦<TcpDoor<C> as Door>⟧.left self.old)
            (⟦<TcpDoor<C> as Door>⟧.left self.new) result }
        ensures out { ⟦<TcpDoor<C> as Door>⟧.out self.new
            ≡ ⟦<TcpDoor<C> as Door>⟧.out self.old + given_count result }
        ensures ended { KeepsTold (⟦<TcpDoor<C> as Door>⟧.ended self.old)
            (⟦<TcpDoor<C> as Door>⟧.ended self.new) }
        ensures cause { HasCause (⟦<TcpDoor<C> as Door>⟧.faults self.old)
            (⟦<TcpDoor<C> as Door>⟧.faults self.new) result }

        // It always has one more: that none comes is a fault.
        ensures more { IfOk result (λ found. IsSome found) }
    {
        match self.accept() {
            Some(link) if self.out < u64::MAX => {
                self.out += 1;
                Ok(Some(link))
            }
            _ => {
                self.count.rise();
                Err(Failed)
            }
        }
    }

    fn give_back(&mut self, link: TcpLink) {
        link.end(&self.clock);
        self.out -= 1;
    }
}
