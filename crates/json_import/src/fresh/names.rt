//! The ids that the objects of a document take.

ghost use Rattle.std.specs.Prelude.{◌≡◌, ◌+◌, ◌<◌, ◌^◌, IfOk, OnOk, length, map, string_bytes};
ghost use Rattle.std.specs.FinMap.{keys, len};
ghost use Rattle.object_ids.specs.declared.ids.Kind.TheVariants as kind;
ghost use Rattle.json_import.specs.Fresh.Names.{behind, id_in, name_each, name_next, root_named};

use containers::text_maps::TextMap;
use documents::reader::{Dataset, Datatype, Group};
use object_ids::{Kind, ObjectId};
use std::alloc::{AllocError, Global};
use std::collections::BTreeMap;

/// The ids of the objects of a document by the texts that stand for them there.
#[derive(Drop)]
pub struct FreshIds {
    pub root: ObjectId,
    pub names: TextMap<ObjectId>,
}

impl FreshIds {
    /// The id of an object; a text that no object has stands for the root.
    pub fn find(&self, text: &str) -> ObjectId
        ensures { result ≡ id_in self.now.names self.now.root text.now }
    {
        match self.names.get(text) {
            Some(id) => *id,
            None => self.root,
        }
    }
}

// The last id that was taken, and the ids so far.
#[derive(Drop)]
pub struct Naming {
    pub last: ObjectId,
    pub names: TextMap<ObjectId>,
}

/// The ids of the root, of the other groups, of the datasets and of the datatypes: the root has its own, and the others have
/// those behind it, in byte order of their texts.
///
/// # Errors
///
/// Only where memory runs out.
pub fn name_objects(
    alloc: Global,
    root: ObjectId,
    text: &str,
    groups: &TextMap<Group>,
    datasets: &TextMap<Dataset>,
    datatypes: &TextMap<Datatype>,
) -> Result<FreshIds, AllocError>
    requires { root.serial + (len groups.now + (len datasets.now + len datatypes.now)) < 2 ^ 40 }
    ensures root { IfOk result (λ ids. ids.root ≡ root) }
    ensures names { IfOk result (λ ids. ids.names
        ≡ (name_each kind.Datatype
        (name_each kind.Dataset
        (name_each kind.Group (root_named text.now root) (keys groups.now))
        (keys datasets.now))
        (keys datatypes.now)).names) }
{
    let mut naming = root_named(alloc, text, root)?;
    name_each(Kind::Group, groups, &mut naming)?;
    name_each(Kind::Dataset, datasets, &mut naming)?;
    name_each(Kind::Datatype, datatypes, &mut naming)?;
    let Naming { names, .. } = naming;
    Ok(FreshIds { root, names })
}

fn root_named(alloc: Global, text: &str, root: ObjectId) -> Result<Naming, AllocError>
    ensures { IfOk result (λ n. n ≡ root_named text.now root) }
{
    let mut names = TextMap::new(alloc);
    names.put_copy(text, root)?;
    Ok(Naming { last: root, names })
}

fn name_each<V>(kind: Kind, objects: &TextMap<V>, naming: &mut Naming) -> Result<(), AllocError>
    requires { naming.old.last.serial + len objects.now < 2 ^ 40 }
    ensures { OnOk result (naming.new ≡ name_each kind naming.old (keys objects.now)) }
{
    name_tree(kind, objects.as_tree(), naming)
}

fn name_tree<V>(
    kind: Kind,
    objects: &BTreeMap<String, V>,
    naming: &mut Naming,
) -> Result<(), AllocError>
    requires { naming.old.last.serial + length objects.now.entries < 2 ^ 40 }
    ensures { OnOk result (naming.new
        ≡ name_each kind naming.old (map (λ e. string_bytes e.0) objects.now.entries)) }
{
    for (text, _) in objects {
        name_next(kind, text.as_str(), naming)?;
    }
    Ok(())
}

fn name_next(kind: Kind, text: &str, naming: &mut Naming) -> Result<(), AllocError>
    requires { naming.old.last.serial + 1 < 2 ^ 40 }
    ensures { OnOk result (naming.new ≡ name_next kind naming.old text.now) }
{
    let id = behind(&naming.last, kind);
    naming.names.put_copy(text, id)?;
    naming.last = id;
    Ok(())
}

// The id with the next serial.
fn behind(last: &ObjectId, kind: Kind) -> ObjectId
    requires { last.now.serial + 1 < 2 ^ 40 }
    ensures { result ≡ behind last.now kind }
{
    ObjectId {
        kind,
        domain: last.domain,
        run: last.run,
        serial: last.serial + 1,
    }
}
