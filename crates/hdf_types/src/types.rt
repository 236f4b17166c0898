//! Types of elements, as a tree of compounds.

ghost use Rattle.std.specs.Prelude.{◌≡◌, ◌<◌, ◌^◌, ◌↔◌, IfOk, IfSome, IsSome, string_bytes};
ghost use Rattle.hdf_types.specs.Views.{elem, field_list, field_names};
ghost use Rattle.hdf_types.specs.Reading.{size_of};
ghost use Rattle.hdf_types.specs.Types.{IsName, AreNames};

use crate::members::are_fields;
use crate::walks::{capped_size, copied};
use crate::{IntType, MAX_NAME, TextType};
use std::alloc::{AllocError, Global};
use std::marker::Model;

/// The type of an element.
#[cycle(elem)]
#[derive(Debug, Drop)]
pub enum ElemType {
    /// A whole number.
    Int(IntType),
    /// A text of fixed length.
    Text(TextType),
    /// Named parts, one after another without gaps.
    Compound(Fields),
}

/// The fields of a compound, in order.
#[cycle(elem)]
#[derive(Debug, Drop)]
pub struct Fields {
    list: Vec<Field>,
}

/// A named part of a compound.
#[cycle(elem)]
#[derive(Debug, Drop)]
pub struct Field {
    /// Its name.
    pub name: FieldName,
    /// Its type.
    pub elem: ElemType,
}

/// A field's name: a text of 1 to 255 bytes.
#[derive(Debug, Drop)]
pub struct FieldName {
    text: String,
}

impl Model for FieldName {
    ghost use Rattle.std.specs.Prelude.{List, ℕ, string_bytes};

    ghost Value = { List ℕ };

    ghost view = { λ a. string_bytes a.text };
}

impl Model for Fields {
    ghost use Rattle.hdf_types.specs.Elems.{FieldList, coded_fields, fields_depth};

    ghost Value = { FieldList };

    ghost coded = { coded_fields };

    ghost use Rattle.hdf_types.specs.Views.{field_list};

    ghost view = { λ a. field_list a.list.items };

    ghost size = { fields_depth };

    ghost use Rattle.hdf_types.specs.Depths.{most_le-fields_depth};

    ghost size_decreases = { λ a h. most_le-fields_depth a.list.items };
}

impl ElemType {
    /// How many bytes an element takes: the sum of its parts, with no gap between them.
    pub fn size(&self) -> u32
        requires { size_of (elem self.now) < 2 ^ 32 }
        ensures { result ≡ size_of (elem self.now) }
    {
        capped_size(self) as u32
    }

    /// A type with the same content.
    ///
    /// # Errors
    ///
    /// Only where memory runs out.
    pub fn copy(&self, alloc: Global) -> Result<ElemType, AllocError>
        ensures { IfOk result (λ e. e ≡ self.now) }
    {
        copied(alloc, self)
    }
}

impl FieldName {
    /// The name that this text is, none where it is empty or longer than [`MAX_NAME`] bytes.
    pub fn from_text(text: String) -> Option<FieldName>
        ensures name { IsSome result ↔ IsName (string_bytes text) }
        ensures same { IfSome result (λ name. name ≡ string_bytes text) }
    {
        if 1 <= text.len() && text.len() <= MAX_NAME {
            Some(FieldName { text })
        } else {
            None
        }
    }

    pub(crate) fn copy_of(alloc: Global, text: &str) -> Result<FieldName, AllocError>
        ensures { IfOk result (λ n. n ≡ text.now) }
    {
        let text = String::from_str(alloc, text)?;
        Ok(FieldName { text })
    }

    /// The name's text.
    pub fn text(&self) -> &str
        ensures { result.now ≡ self.now }
    {
        self.text.as_str()
    }

    /// The text of which the name was made.
    pub fn into_text(self) -> String
        ensures { string_bytes result ≡ self }
    {
        let FieldName { text } = self;
        text
    }
}

impl Fields {
    /// A compound's fields, none where the list is empty or longer than [`crate::MAX_FIELDS`], or
    /// a name stands twice in it.
    pub fn from_vec(list: Vec<Field>) -> Option<Fields>
        ensures names { IsSome result ↔ AreNames (field_names list.items) }
        ensures same { IfSome result (λ fields. fields ≡ field_list list.items) }
    {
        if are_fields(list.as_slice()) {
            Some(Fields { list })
        } else {
            None
        }
    }

    pub(crate) fn from_list(list: Vec<Field>) -> Fields
        ensures { result ≡ field_list list.items }
    {
        Fields { list }
    }

    /// The fields in order.
    pub fn as_slice(&self) -> &[Field]
        ensures { field_list result.now ≡ self.now }
    {
        self.list.as_slice()
    }

    /// The list of which the fields were made.
    pub fn into_vec(self) -> Vec<Field>
        ensures { field_list result.items ≡ self }
    {
        let Fields { list } = self;
        list
    }
}
