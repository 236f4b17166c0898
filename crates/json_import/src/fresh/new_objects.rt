//! Objects of which nothing is kept yet.

ghost use Rattle.std.specs.Prelude.{◌≡◌, [], IfOk};
ghost use Rattle.object_acts.specs.Objects.{IsOfKind, IsSoundBody, IsTrackedBody, kind_of_body, unmarked};
ghost use Rattle.json_import.specs.Fresh.Renamed.{dataset_object, datatype_object, group_object};

use crate::fresh::links::renamed_links;
use crate::fresh::names::FreshIds;
use documents::reader::{Dataset, Datatype, Group};
use object_acts::{Body, Object};
use object_ids::Kind;
use std::alloc::{AllocError, Global};
use std::marker::Model;

/// An object no chunk of which has a record. It is seen without which of its chunks have changed.
#[derive(Drop)]
pub struct NewObject {
    object: Object,
}

impl Model for NewObject {
    ghost use Rattle.std.specs.Prelude.{[]};
    ghost use Rattle.object_acts.specs.contracts.objects.Object as object_row;
    ghost use Rattle.object_acts.specs.declared.objects.Object.{Object};
    ghost use Rattle.object_acts.specs.Objects.{IsSoundBody, IsTrackedBody, unmarked};

    ghost Value = { Object };

    ghost coded = { object_row.the_row.coded };

    ghost view = { λ a. unmarked a.object };

    ghost invariant = { λ a. IsSoundBody a.object.body × IsTrackedBody (λ _. []) a.object.body };
}

impl NewObject {
    fn new(object: Object) -> NewObject
        requires sound { IsSoundBody object.body }
        requires tracked { IsTrackedBody (λ _. []) object.body }
        ensures { result ≡ unmarked object }
    {
        NewObject { object }
    }

    /// A group of a document, whose hard links lead to fresh ids.
    ///
    /// # Errors
    ///
    /// Only where memory runs out.
    pub(crate) fn group(
        alloc: Global,
        ids: &FreshIds,
        group: Group,
    ) -> Result<NewObject, AllocError>
        ensures { IfOk result (λ o. o ≡ group_object ids.now.names ids.now.root group) }
    {
        let Group { attributes, links } = group;
        let links = renamed_links(alloc, ids, &links)?;
        Ok(NewObject::new(Object {
            attributes,
            body: Body::Group(links),
        }))
    }

    /// A dataset of a document.
    pub(crate) fn dataset(dataset: Dataset) -> NewObject
        ensures { result ≡ dataset_object dataset }
    {
        let Dataset { attributes, array } = dataset;
        NewObject::new(Object {
            attributes,
            body: Body::Dataset(array.into_array()),
        })
    }

    /// A committed datatype of a document.
    pub(crate) fn datatype(datatype: Datatype) -> NewObject
        ensures { result ≡ datatype_object datatype }
    {
        let Datatype { attributes, kind } = datatype;
        NewObject::new(Object {
            attributes,
            body: Body::Datatype(kind.into_kind()),
        })
    }

    /// What the object is.
    pub fn kind(&self) -> Kind
        ensures { result ≡ kind_of_body self.now.body }
    {
        match self.object.body {
            Body::Group(_) => Kind::Group,
            Body::Dataset(_) => Kind::Dataset,
            Body::Datatype(_) => Kind::Datatype,
        }
    }

    /// The object as it is.
    pub fn into_object(self) -> Object
        ensures same { unmarked result ≡ self }
        ensures kind { IsOfKind (kind_of_body self.body) result }
        ensures tracked { IsTrackedBody (λ _. []) result.body }
    {
        self.object
    }
}
