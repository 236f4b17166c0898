//! How many bytes elements have, and the refusal of too many.

ghost use Rattle.std.specs.Prelude.{◌≡◌, ◌≤◌};
ghost use Rattle.hyperslab.specs.declared.TheConstants.{MAX_SELECTED};
ghost use Rattle.object_acts.specs.Arrays.Faults.{most_bytes};
ghost use Rattle.object_acts.specs.Arrays.Arrays.{bytes_for};
ghost use Rattle.object_ops.specs.declared.refusals.Refusal.TheVariants.{TooMany};

use crate::arrays::MAX_BYTES;
use chunk_store::Array;
use object_ops::Refusal;

/// How many bytes so many elements of an array have.
pub(crate) fn bytes_of(array: &Array, many: u64) -> u64
    requires { many ≤ MAX_SELECTED }
    ensures { result ≡ bytes_for array.now.grid many }
{
    array.is_whole();
    many * u64::from(array.elem().size())
}

/// The refusal of so many bytes.
pub(crate) fn too_many_bytes(count: u64) -> Refusal
    ensures { result ≡ TooMany count most_bytes }
{
    Refusal::TooMany {
        count,
        limit: MAX_BYTES,
    }
}
