//! Times, the least of several, and their ratios.

ghost use Rattle.std.specs.Prelude.{◌≡◌, ◌+◌, ◌-◌, ◌*◌, ◌/◌, ◌^◌, min, max};
ghost use Rattle.std.specs.Duration.{as_nanos, max_nanos};

use std::fmt;
use std::fmt::{Display, Formatter};
use std::time::Duration;

/// How long a read and a write took, and what was read.
#[derive(Clone, Copy)]
pub struct Times {
    pub read: Duration,
    pub write: Duration,
    /// The cells that were read.
    pub cells: usize,
    /// The chunks that the array had before.
    pub chunks: usize,
}

impl Times {
    /// The same time of both, where nothing was read.
    pub fn both(time: Duration) -> Times
        ensures read { result.read ≡ time }
        ensures write { result.write ≡ time }
        ensures cells { result.cells ≡ 0 }
        ensures chunks { result.chunks ≡ 0 }
    {
        Times {
            read: time,
            write: time,
            cells: 0,
            chunks: 0,
        }
    }

    /// The sum of each.
    pub fn plus(self, other: Times) -> Times
        ensures read { as_nanos result.read
            ≡ min (as_nanos self.read + as_nanos other.read) max_nanos }
        ensures write { as_nanos result.write
            ≡ min (as_nanos self.write + as_nanos other.write) max_nanos }
        ensures cells { result.cells ≡ min (self.cells + other.cells) (2 ^ 64 - 1) }
        ensures chunks { result.chunks ≡ min (self.chunks + other.chunks) (2 ^ 64 - 1) }
    {
        Times {
            read: self.read.saturating_add(other.read),
            write: self.write.saturating_add(other.write),
            cells: self.cells.saturating_add(other.cells),
            chunks: self.chunks.saturating_add(other.chunks),
        }
    }

    /// The lesser of each time, and the sums of what was read.
    pub fn or_less(self, other: Times) -> Times
        ensures read { as_nanos result.read ≡ min (as_nanos self.read) (as_nanos other.read) }
        ensures write { as_nanos result.write ≡ min (as_nanos self.write) (as_nanos other.write) }
        ensures cells { result.cells ≡ min (self.cells + other.cells) (2 ^ 64 - 1) }
        ensures chunks { result.chunks ≡ min (self.chunks + other.chunks) (2 ^ 64 - 1) }
    {
        Times {
            read: lesser(self.read, other.read),
            write: lesser(self.write, other.write),
            ..self.plus(other)
        }
    }
}

/// The lesser of two times.
pub fn lesser(time: Duration, other: Duration) -> Duration
    ensures { as_nanos result ≡ min (as_nanos time) (as_nanos other) }
{
    if time < other { time } else { other }
}

/// How many times a time is as long as another, in hundredths.
#[derive(Clone, Copy)]
pub struct Ratio {
    hundredths: u128,
}

impl Ratio {
    /// The ratio of a time to another, of which none at all counts as a nanosecond.
    pub fn new(time: Duration, other: Duration) -> Ratio
        ensures { result.hundredths ≡ as_nanos time * 100 / max 1 (as_nanos other) }
    {
        let hundredths = time.as_nanos() * 100 / other.as_nanos().max(1);
        Ratio { hundredths }
    }
}

impl Display for Ratio {
    fn fmt<W: fmt::Write>(&self, f: &mut Formatter<W>) -> fmt::Result {
        write!(f, "{}.{:02}", self.hundredths / 100, self.hundredths % 100)
    }
}
