//! A conversation over TCP.

ghost use Rattle.std.specs.Prelude.{◌≡◌, ◌<◌, ◌≤◌, IfOk, IfSome, None, length, refl, take};
ghost use Rattle.std.specs.Io.KnownBytes.{Appends, Consumes};
ghost use Rattle.hsds_cli.specs.declared.tcp_link.TheConstants.{LAST_SECONDS, MOST_DROPPED};
ghost use Rattle.hsds_cli.specs.declared.tcp_link.TheConstants.{SILENCE};

use edge_traits::{Failed, FaultCount, Link, Sink, Source};
use std::io;
use std::io::{ErrorKind, Read, Write};
use std::net::{Shutdown, TcpStream};
use std::rt::Clock;
use std::time::{Duration, Instant};

/// For how many seconds nothing may come or be taken before that is a fault.
pub const SILENCE: u64 = 30;

/// For how many seconds what still comes is read and dropped at the end of a link.
const LAST_SECONDS: u64 = 1;

/// The most bytes that are so dropped.
const MOST_DROPPED: usize = 1 << 16;

/// The most bytes that one read drops.
const DROPPED_AT_ONCE: usize = 4096;

/// A link is silent for 30 seconds at most, and at its end at most 65,536 bytes are dropped, for a second.
pub fn limits_of_links()
    ensures silence { SILENCE ≡ 30 }
    ensures dropped { MOST_DROPPED ≡ 65_536 }
    ensures last { LAST_SECONDS ≡ 1 }
{}

/// A link over TCP. It tells nothing of what comes and goes. A read that brings nothing for 30 seconds is a fault, and so is a
/// write of which nothing is taken for as long; one that a signal interrupted is tried again. What is written is sent at once,
/// and isn't held back for more to come.
#[derive(Drop)]
pub struct TcpLink {
    stream: TcpStream,
    read_faults: FaultCount,
    write_faults: FaultCount,
}

impl TcpLink {
    /// A link over a connection, with no fault yet.
    ///
    /// # Errors
    ///
    /// The system's, where it refuses an option of the connection.
    pub fn new(stream: TcpStream) -> io::Result<TcpLink>
        ensures read_faults { IfOk result (λ l. ⟦<TcpLink as Source>⟧.faults l ≡ 0) }
        ensures write_faults { IfOk result (λ l. ⟦<TcpLink as Sink>⟧.faults l ≡ 0) }
    {
        let silence = Some(Duration::from_secs(SILENCE));
        stream.set_nodelay(true)?;
        stream.set_read_timeout(silence)?;
        stream.set_write_timeout(silence)?;
        Ok(TcpLink {
            stream,
            read_faults: FaultCount::new(),
            write_faults: FaultCount::new(),
        })
    }

    /// Ends the conversation as RFC 9112, section 9.6, has it: nothing more is written, and what still comes is dropped until
    /// the other side ends it too, up to 64 KiB and for a second. A connection that is closed while bytes wait in it is reset,
    /// which may take the last answer from the other side.
    pub fn end(mut self, clock: &impl Clock) {
        let _ = drop_rest(&mut self.stream, clock);
    }
}

#[cfg(test)]
impl TcpLink {
    /// Whether what is written is sent at once, and for how long a read and a write wait.
    pub fn options(&self) -> io::Result<(bool, Option<Duration>, Option<Duration>)> {
        Ok((
            self.stream.nodelay()?,
            self.stream.read_timeout()?,
            self.stream.write_timeout()?,
        ))
    }
}

// Says that nothing more is written, and drops what still comes.
fn drop_rest(stream: &mut TcpStream, clock: &impl Clock) -> io::Result<()> {
    stream.shutdown(Shutdown::Write)?;
    let begin = Instant::now(clock)?;
    let mut left = MOST_DROPPED;
    for _ in 0..MOST_DROPPED {
        let passed = begin.elapsed(clock)?;
        let Some(wait) = Duration::from_secs(LAST_SECONDS).checked_sub(passed) else {
            break;
        };
        stream.set_read_timeout(Some(wait))?;
        match drop_some(stream, left) {
            Some(count) if count > 0 => left -= count,
            _ => break,
        }
    }
    Ok(())
}

// Reads and drops some bytes, at most so many. None come where the other side has ended, or none are left to be dropped.
fn drop_some(stream: &mut TcpStream, most: usize) -> Option<usize>
    ensures { IfSome result (λ n. n ≤ most) }
{
    let mut dropped = [0; DROPPED_AT_ONCE];
    let most = most.min(DROPPED_AT_ONCE);
    read_some(stream, &mut dropped[..most])
}

// Reads what comes, and tries again where a signal interrupted that. `None` where the system has another error.
fn read_some<R: Read>(from: &mut R, buf: &mut [u8]) -> Option<usize>
    ensures bound { IfSome result (λ n. n ≤ length buf.old) }
    ensures same { length buf.new ≡ length buf.old }
    ensures bytes { IfSome result
        (λ n. Consumes (R.remaining from.old) (R.remaining from.new) (take n buf.new)) }
{
    for _ in 0..u64::MAX {
        match from.read(buf) {
            Ok(count) => return Some(count),
            Err(e) if e.kind() == ErrorKind::Interrupted => {}
            Err(_) => return None,
        }
    }
    None
}

// Writes some of these bytes, one of them at least where there are any, and tries again where a signal interrupted that. `None`
// where none is taken, or the system has another error.
fn write_some<W: Write>(to: &mut W, bytes: &[u8]) -> Option<usize>
    ensures bound { IfSome result (λ n. n ≤ length bytes.now) }
    ensures moves { IfSome result (λ n. 0 < length bytes.now → 0 < n) }
    ensures bytes { IfSome result
        (λ n. Appends (W.contents to.old) (W.contents to.new) (take n bytes.now)) }
{
    for _ in 0..u64::MAX {
        match to.write(bytes) {
            Ok(count) if count > 0 || bytes.is_empty() => return Some(count),
            Err(e) if e.kind() == ErrorKind::Interrupted => {}
            _ => return None,
        }
    }
    None
}

impl Source for TcpLink {
    ghost left = { λ _. None };

    ghost faults = { λ l. l.read_faults };

    ghost beside = { λ l. (None, l.write_faults) };

    fn read(&mut self, buf: &mut [u8]) -> Result<usize, Failed> {
        match read_some(&mut self.stream, buf) {
            Some(count) => Ok(count),
            None => {
                self.read_faults.rise();
                Err(Failed)
            }
        }
    }
}

impl Sink for TcpLink {
    ghost held = { λ _. None };

    ghost faults = { λ l. l.write_faults };

    ghost beside = { λ l. (None, l.read_faults) };

    fn write(&mut self, bytes: &[u8]) -> Result<usize, Failed> {
        match write_some(&mut self.stream, bytes) {
            Some(count) => Ok(count),
            None => {
                self.write_faults.rise();
                Err(Failed)
            }
        }
    }
}

impl Link for TcpLink {
    ghost source_beside = { λ link. refl };

    ghost sink_beside = { λ link. refl };

    ghost one_object = { λ link. refl };
}
