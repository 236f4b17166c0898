// Maps whose values are taken out one after another.
ghost use Rattle.std.specs.Prelude.{IfOk};
ghost use Rattle.json_import.specs.Fresh.Taking.{Takes};

use containers::text_maps::TextMap;
use std::alloc::{AllocError, Global};

/// Takes the value of the least text out of a map, where it has one.
pub(crate) fn take_first<V: Drop>(
    alloc: Global,
    map: &mut TextMap<V>,
) -> Result<Option<V>, AllocError>
    ensures { IfOk result (λ first. Takes map.old first map.new) }
{
    let Some((text, _)) = map.next_key(None) else {
        return Ok(None);
    };
    let text = String::from_str(alloc, text)?;
    Ok(map.remove(text.as_str()))
}
