//! Walks over a type: its size and its copy.

ghost use Rattle.std.specs.Prelude.{◌≡◌, ◌-◌, ◌^◌, min, IfOk};
ghost use Rattle.hdf_types.specs.Views.{elem};
ghost use Rattle.hdf_types.specs.Reading.{size_of, fields_size};

use crate::{ElemType, Field, FieldName, Fields};
use std::alloc::{AllocError, Global};

/// The bytes of an element, or the largest number where they are more.
#[cycle(size)]
pub fn capped_size(kind: &ElemType) -> u64
    ensures { result ≡ min (size_of (elem kind.now)) (2 ^ 64 - 1) }
{
    match kind {
        ElemType::Int(int) => u64::from(int.bits / 8),
        ElemType::Text(text) => u64::from(text.len),
        ElemType::Compound(fields) => capped_sum(fields),
    }
}

#[cycle(size)]
fn capped_sum(fields: &Fields) -> u64
    ensures { result ≡ min (fields_size fields.now) (2 ^ 64 - 1) }
{
    let mut total = 0u64;
    for field in fields.as_slice() {
        total = total.saturating_add(capped_size(&field.elem));
    }
    total
}

/// A type with the same content.
#[cycle(copies)]
pub fn copied(alloc: Global, kind: &ElemType) -> Result<ElemType, AllocError>
    ensures { IfOk result (λ e. e ≡ kind.now) }
{
    match kind {
        ElemType::Int(int) => Ok(ElemType::Int(*int)),
        ElemType::Text(text) => Ok(ElemType::Text(*text)),
        ElemType::Compound(fields) => {
            let fields = copied_fields(alloc, fields)?;
            Ok(ElemType::Compound(fields))
        }
    }
}

#[cycle(copies)]
fn copied_fields(alloc: Global, fields: &Fields) -> Result<Fields, AllocError>
    ensures { IfOk result (λ fs. fs ≡ fields.now) }
{
    let mut list = Vec::new(alloc);
    for field in fields.as_slice() {
        let name = FieldName::copy_of(alloc, field.name.text())?;
        let elem = copied(alloc, &field.elem)?;
        list.push(Field { name, elem })?;
    }
    Ok(Fields::from_list(list))
}
