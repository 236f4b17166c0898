//! Types that a tree spells.

ghost use Rattle.std.specs.Prelude.{◌≡◌};
ghost use Rattle.hdf_types.specs.Types.{IsSoundType};
ghost use Rattle.hdf_types.specs.Views.{elem};

use hdf_types::ElemType;
use std::marker::Model;

/// A type of elements that some tree spells.
#[derive(Drop)]
pub struct SoundType {
    kind: ElemType,
}

impl Model for SoundType {
    ghost use Rattle.hdf_types.specs.Elems.{Elem, coded_elem};
    ghost use Rattle.hdf_types.specs.Types.{IsSoundType};
    ghost use Rattle.hdf_types.specs.Views.{elem};

    ghost Value = { Elem };

    ghost coded = { coded_elem };

    ghost view = { λ a. elem a.kind };

    ghost invariant = { λ a. IsSoundType (elem a.kind) };
}

impl SoundType {
    /// A type that was read.
    pub fn new(kind: ElemType) -> SoundType
        requires { IsSoundType (elem kind) }
        ensures { result ≡ elem kind }
    {
        SoundType { kind }
    }

    /// The type.
    pub fn kind(&self) -> &ElemType
        ensures same { elem result.now ≡ self.now }
        ensures sound { IsSoundType self.now }
    {
        &self.kind
    }

    /// The type as it is.
    pub fn into_kind(self) -> ElemType
        ensures same { elem result ≡ self }
        ensures sound { IsSoundType self }
    {
        self.kind
    }
}
