//! The elements of an array as bytes.

ghost use Rattle.std.specs.Prelude.{◌≡◌, ◌↔◌, option_map, IfOk, IsTrue};
ghost use Rattle.hdf_types.specs.Types.{IsSoundType};
ghost use Rattle.hdf_types.specs.Views.{elem as kind_of};
ghost use Rattle.hdf_values.specs.Nested.{AreEncoded};
ghost use Rattle.chunk_store.specs.Grids.{blank_of};

use hdf_types::ElemType;
use hdf_values::{first_unencoded, zero};
use std::alloc::{AllocError, Global};

/// The element of a cell that was never written.
pub(crate) fn blank_bytes(
    alloc: Global,
    elem: &ElemType,
    fill: Option<Vec<u8>>,
) -> Result<Vec<u8>, AllocError>
    requires kind { IsSoundType (kind_of elem.now) }
    ensures { IfOk result (λ v. v.items
        ≡ blank_of (kind_of elem.now) (option_map (λ w. w.items) fill)) }
{
    match fill {
        Some(bytes) => Ok(bytes),
        None => {
            let mut bytes = vec![in alloc; 0; elem.size() as usize]?;
            zero(elem, bytes.as_mut_slice());
            Ok(bytes)
        }
    }
}

/// Whether bytes are so many elements.
pub(crate) fn are_elements(elem: &ElemType, many: u64, bytes: &[u8]) -> bool
    requires { IsSoundType (kind_of elem.now) }
    ensures { IsTrue result ↔ AreEncoded (kind_of elem.now) many bytes.now }
{
    let number = bytes.len() / elem.size() as usize;
    number as u64 == many && first_unencoded(elem, bytes).is_none()
}
