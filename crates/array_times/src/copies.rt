//! Plain copies of as many bytes as 1,000,000 numbers of 32 bits have.

ghost use Rattle.std.specs.Prelude.{◌≡◌, length, IfOk};

use crate::times::lesser;
use std::alloc::{AllocError, Global};
use std::time::{Clock, Duration, Instant};

/// How many bytes are copied.
const BYTES: usize = 4_000_000;

fn filled(alloc: Global, value: u8) -> Result<Vec<u8>, AllocError>
    ensures { IfOk result (λ v. length v.items ≡ BYTES) }
{
    vec![in alloc; value; BYTES]
}

/// The least time of so many copies, each into memory that is taken for it.
pub fn new_copies<R: Clock + AllocGlobal>(rt: &R, copies: u32) -> anyhow::Result<Duration> {
    let source = filled(rt.alloc(), 7)?;
    let mut least = Duration::MAX;
    for _ in 0..copies {
        let start = Instant::now(rt)?;
        let copied = Vec::from_slice(rt.alloc(), source.as_slice())?;
        least = lesser(least, start.elapsed(rt)?);
        drop(copied);
    }
    Ok(least)
}

/// The least time of so many copies into memory that was written before.
pub fn standing_copies<R: Clock + AllocGlobal>(rt: &R, copies: u32) -> anyhow::Result<Duration> {
    let source = filled(rt.alloc(), 7)?;
    let mut target = filled(rt.alloc(), 9)?;
    let mut least = Duration::MAX;
    for _ in 0..copies {
        let start = Instant::now(rt)?;
        target.as_mut_slice().copy_from_slice(source.as_slice());
        least = lesser(least, start.elapsed(rt)?);
    }
    Ok(least)
}
