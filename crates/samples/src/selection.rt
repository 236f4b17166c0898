//! The selection of a slab.

ghost use Rattle.std.specs.Prelude.{◌≡◌, ◌+◌, ◌≤◌, IfOk, string_bytes};
ghost use Rattle.samples.specs.Trees.{slab_text};

use std::alloc::{AllocError, Global};

/// The text of the selection whose rows begin at one.
pub(crate) fn selection_text(alloc: Global, start: u32) -> Result<String, AllocError>
    requires { start + 100 ≤ 1000 }
    ensures { IfOk result (λ text. string_bytes text ≡ slab_text start) }
{
    let end = start + 100;
    format!(in alloc; "[{start}:{end},0:1000:7]")
}
