//! The objects of a document under fresh ids.

ghost use Rattle.std.specs.Prelude.{◌≡◌, ◌+◌, ◌<◌, ◌^◌, IfOk, length, option_map};
ghost use Rattle.json_import.specs.Fresh.Renamed.{group_object, objects_under};
ghost use Rattle.json_import.specs.Fresh.Renamed.{other_count, other_objects, root_object};
ghost use Rattle.json_import.specs.Fresh.Taking.{Gives};

use crate::fresh::names::{FreshIds, name_objects};
use crate::fresh::new_objects::NewObject;
use crate::fresh::taking::take_first;
use containers::text_maps::TextMap;
use documents::reader::{Dataset, Datatype, Group, Loaded};
use object_ids::ObjectId;
use std::alloc::{AllocError, Global};
use std::marker::Model;

/// The objects of a document.
#[derive(Drop)]
pub struct Renamed {
    /// The root, which has the id of the root.
    pub root: Option<NewObject>,
    /// The others in the order of their ids: the groups, the datasets and the datatypes.
    pub others: NewObjects,
}

/// Objects that are given one after another.
#[derive(Drop)]
pub struct NewObjects {
    alloc: Global,
    ids: FreshIds,
    groups: TextMap<Group>,
    datasets: TextMap<Dataset>,
    datatypes: TextMap<Datatype>,
}

impl Model for NewObjects {
    ghost use Rattle.std.specs.Prelude.{List};
    ghost use Rattle.std.specs.Coded.{coded_list};
    ghost use Rattle.object_acts.specs.contracts.objects.Object as object_row;
    ghost use Rattle.object_acts.specs.declared.objects.Object.{Object};
    ghost use Rattle.json_import.specs.Fresh.Renamed.{objects_under};

    ghost Value = { List Object };

    ghost coded = { coded_list object_row.the_row.coded };

    ghost view = { λ a. objects_under a.ids.names a.ids.root a.groups a.datasets a.datatypes };
}

impl NewObjects {
    /// The next object.
    ///
    /// # Errors
    ///
    /// Only where memory runs out.
    pub fn take_next(&mut self) -> Result<Option<NewObject>, AllocError>
        ensures { IfOk result (λ next. Gives self.old next self.new) }
    {
        next_object(
            self.alloc,
            &self.ids,
            &mut self.groups,
            &mut self.datasets,
            &mut self.datatypes,
        )
    }
}

/// The objects of a document whose root has this id. The others have the ids behind it, in the order in which they are given.
///
/// # Errors
///
/// Only where memory runs out.
pub fn rename(alloc: Global, root: ObjectId, loaded: Loaded) -> Result<Renamed, AllocError>
    requires room { root.serial + other_count loaded < 2 ^ 40 }
    ensures root { IfOk result (λ r. r.root ≡ root_object loaded root) }
    ensures others { IfOk result (λ r. r.others ≡ other_objects loaded root) }
    ensures many { IfOk result (λ r. length r.others ≡ other_count loaded) }
{
    let Loaded {
        root: text,
        groups,
        datasets,
        datatypes,
    } = loaded;
    let mut groups = groups;
    let top = groups.remove(text.text());
    let ids = name_objects(alloc, root, text.text(), &groups, &datasets, &datatypes)?;
    let root = root_of(alloc, &ids, top)?;
    let others = NewObjects {
        alloc,
        ids,
        groups,
        datasets,
        datatypes,
    };
    Ok(Renamed { root, others })
}

fn root_of(
    alloc: Global,
    ids: &FreshIds,
    group: Option<Group>,
) -> Result<Option<NewObject>, AllocError>
    ensures { IfOk result (λ root. root
        ≡ option_map (group_object ids.now.names ids.now.root) group) }
{
    let Some(group) = group else {
        return Ok(None);
    };
    Ok(Some(NewObject::group(alloc, ids, group)?))
}

fn next_object(
    alloc: Global,
    ids: &FreshIds,
    groups: &mut TextMap<Group>,
    datasets: &mut TextMap<Dataset>,
    datatypes: &mut TextMap<Datatype>,
) -> Result<Option<NewObject>, AllocError>
    ensures { IfOk result (λ next. Gives
        (objects_under ids.now.names ids.now.root groups.old datasets.old datatypes.old)
        next
        (objects_under ids.now.names ids.now.root groups.new datasets.new datatypes.new)) }
{
    if let Some(group) = take_first(alloc, groups)? {
        return Ok(Some(NewObject::group(alloc, ids, group)?));
    }
    if let Some(dataset) = take_first(alloc, datasets)? {
        return Ok(Some(NewObject::dataset(dataset)));
    }
    match take_first(alloc, datatypes)? {
        Some(datatype) => Ok(Some(NewObject::datatype(datatype))),
        None => Ok(None),
    }
}
