//! The lines of a sample.

ghost use Rattle.std.specs.Prelude.{◌≡◌, IfOk, string_bytes};
ghost use Rattle.samples.specs.Values.Samples.{sample_text as text_of_sample};

use crate::requests::sample_caller;
use crate::slabs::read_slab;
use crate::values::{slab_line, total_line};
use crate::world::sample_world;
use std::alloc::{AllocError, Global};

/// The lines of the sample of a number: what its definition gives.
///
/// # Errors
///
/// Where memory runs out. A refusal of the document or of a read, which are not to be expected, would end so too.
pub fn sample_text(alloc: Global, n: u32) -> Result<String, AllocError>
    ensures { IfOk result (λ text. string_bytes text ≡ text_of_sample n) }
{
    let mut world = sample_world(alloc, n)?;
    let caller = sample_caller(alloc)?;
    let mut text = String::new(alloc);
    let mut total: u64 = 0;
    for slab in 0..10 {
        let sum = read_slab(alloc, &mut world, &caller, 100 * slab)?;
        let line = slab_line(alloc, 100 * slab, sum)?;
        text.push_str(line.as_str())?;
        total = total.wrapping_add(sum);
    }
    let last = total_line(alloc, total)?;
    text.push_str(last.as_str())?;
    Ok(text)
}
