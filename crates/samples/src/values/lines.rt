//! The lines of a sample.

ghost use Rattle.std.specs.Prelude.{◌≡◌, IfOk, string_bytes};
ghost use Rattle.samples.specs.Values.Samples.{slab_line as line_of_slab, total_line as line_of_total};

use std::alloc::{AllocError, Global};

/// What is told of the slab that begins at a row.
pub fn slab_line(alloc: Global, start: u32, sum: u64) -> Result<String, AllocError>
    ensures { IfOk result (λ line. string_bytes line ≡ line_of_slab start sum) }
{
    format!(in alloc; "slab {start} count 14300 sum {sum}\n")
}

/// What is told of all slabs together.
pub fn total_line(alloc: Global, sum: u64) -> Result<String, AllocError>
    ensures { IfOk result (λ line. string_bytes line ≡ line_of_total sum) }
{
    format!(in alloc; "total count 143000 sum {sum}\n")
}
