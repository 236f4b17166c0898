//! Adoption.

ghost use Rattle.std.specs.Prelude.{◌≡◌, ◌≢◌, ◌+◌, ◌<◌, ◌≤◌, ◌^◌, length, None, Some, IfOk, IfSome, OnOk};
ghost use Rattle.std.specs.FinMap.{get};
ghost use Rattle.object_ids.specs.IdValues.{Id};
ghost use Rattle.domains.specs.Changes.{domain_fault, new_domain, root_of};
ghost use Rattle.register.specs.Decided.{domain_added, serial_limit};
ghost use Rattle.object_acts.specs.Objects.{kind_of_body};
ghost use Rattle.service_core.specs.Records.{WorldStillSays};
ghost use Rattle.service_core.specs.Steps.{IsGiven};
ghost use Rattle.service_core.specs.Worlds.{seen, with_register};
ghost use Rattle.json_import.specs.Fresh.Names.{with_root};
ghost use Rattle.json_import.specs.Fresh.Renamed.{other_count};
ghost use Rattle.json_import.specs.Adoption.Adopted.{IsReadBack, counts_of, objects_adopted, register_adopted};
ghost use Rattle.json_import.specs.Adoption.Faults.{IsBlamed, OnRefusal, adopt_fault};
ghost use Rattle.json_import.specs.Adoption.Placing.{placed, placed_each};

use crate::adoption::counts::{Counts, serials_needed};
use crate::adoption::faults::AdoptFault;
use crate::fresh::{NewObject, NewObjects, Renamed, rename};
use crate::round_trips::documents_read_back;
use documents::reader::Loaded;
use domains::CatFault;
use object_ids::{DomainPath, LimitKind, Name, ObjectId};
use service_core::World;
use std::alloc::{AllocError, Global};

/// Makes a document a new domain of an owner at a path. The document's root becomes the domain's root. Then the other groups,
/// the datasets and the datatypes take fresh ids in this order, each collection in byte order of its ids in the document, and
/// the hard links lead to these.
///
/// # Errors
///
/// [`AdoptFault::NoFolder`], [`AdoptFault::Taken`] and [`AdoptFault::Limit`] of nodes or domains where
/// [`Catalogue::make_domain`](domains::Catalogue::make_domain) has them; then `Limit` with `serial` exactly where fewer serials
/// are left than objects are to be made. After these the world is as it was. After [`AdoptFault::NoMemory`] it is to be
/// dropped.
pub fn adopt(
    alloc: Global,
    world: &mut World,
    path: &DomainPath,
    owner: &Name,
    loaded: Loaded,
) -> Result<Counts, AdoptFault>
    ensures faults { IsBlamed result (adopt_fault world.old.register path.now loaded) }
    ensures unchanged { OnRefusal result (world.new ≡ world.old) }

    // A domain of this owner with the number and the root's id that were next; besides, only serials were drawn.
    ensures domain { OnOk result (get world.new.register.catalogue.nodes path.now
        ≡ Some (new_domain world.old.register.catalogue.next world.old.register.run
        world.old.register.serial owner.now)) }
    ensures register { OnOk result (world.new.register
        ≡ register_adopted world.old.register path.now owner.now loaded) }

    // Each object of the document at its id, and all others as they were.
    ensures objects { OnOk result ((seen world.new).objects
        ≡ objects_adopted world.old.register loaded (seen world.old).objects) }
    ensures others { OnOk result ((q : Id) → q.domain ≢ world.old.register.catalogue.next
        → get (seen world.new).objects q ≡ get (seen world.old).objects q) }
    ensures counts { IfOk result (λ counts. counts ≡ counts_of loaded) }

    // What a document held is what the document at the path holds, under the fresh ids.
    ensures document { OnOk result
        (IsReadBack world.old.register loaded (seen world.new) path.now) }
    ensures says { WorldStillSays world.old world.new }
{
    documents_read_back();
    world.is_whole();
    may_adopt(world, path, &loaded)?;
    let counts = Counts::of(&loaded);
    make_domain(alloc, world, path, owner, loaded)?;
    Ok(counts)
}

// What speaks against a new domain with the objects of a document.
fn may_adopt(world: &World, path: &DomainPath, loaded: &Loaded) -> Result<(), AdoptFault>
    ensures { IsBlamed result (adopt_fault world.now.register path.now loaded.now) }
{
    if let Err(fault) = world.catalogue().domain_number(path) {
        return Err(AdoptFault::from(fault));
    }
    if u128::from(world.serials_left()) < serials_needed(loaded) {
        return Err(AdoptFault::Limit {
            what: LimitKind::Serial,
        });
    }
    Ok(())
}

fn make_domain(
    alloc: Global,
    world: &mut World,
    path: &DomainPath,
    owner: &Name,
    loaded: Loaded,
) -> Result<(), AllocError>
    requires free { domain_fault world.old.register.catalogue path.now ≡ None }
    requires room { world.old.register.serial + other_count loaded < 2 ^ 40 }
    ensures register { OnOk result (world.new.register
        ≡ register_adopted world.old.register path.now owner.now loaded) }
    ensures objects { OnOk result ((seen world.new).objects
        ≡ objects_adopted world.old.register loaded (seen world.old).objects) }
    ensures says { WorldStillSays world.old world.new }
{
    world.is_whole();
    let root = new_root(world, path, owner)?;
    let renamed = rename(alloc, root, loaded)?;
    put_root(world, root, renamed.root)?;
    put_others(world, root.domain, renamed.others)
}

// The root of a new domain that nothing speaks against.
fn new_root(world: &mut World, path: &DomainPath, owner: &Name) -> Result<ObjectId, AllocError>
    requires free { domain_fault world.old.register.catalogue path.now ≡ None }
    requires room { world.old.register.serial < serial_limit }
    ensures ok { OnOk result (world.new
        ≡ with_register world.old (domain_added world.old.register path.now owner.now)) }
    ensures root { IfOk result (λ root. root ≡ root_of world.old.register.catalogue.next
        world.old.register.run world.old.register.serial) }
    ensures says { WorldStillSays world.old world.new }
{
    match world.make_domain(path, owner) {
        Ok(root) => Ok(root),
        Err(CatFault::NoMemory) => Err(AllocError),
        Err(
            CatFault::NoFolder
            | CatFault::Taken
            | CatFault::Limit { .. }
            | CatFault::NoDomain
            | CatFault::NotEmpty
            | CatFault::Root,
        ) => unreachable!(),
    }
}

fn put_root(world: &mut World, id: ObjectId, root: Option<NewObject>) -> Result<(), AllocError>
    requires given { IsGiven world.old.register id }
    requires new { get (seen world.old).objects id ≡ None }
    requires kind { IfSome root (λ o. kind_of_body o.body ≡ id.kind) }
    ensures register { OnOk result (world.new.register ≡ world.old.register) }
    ensures objects { OnOk result ((seen world.new).objects ≡ with_root (seen world.old).objects id root) }
    ensures says { WorldStillSays world.old world.new }
{
    match root {
        Some(object) => world.put_object(id, object.into_object()),
        None => Ok(()),
    }
}

// There are as many serials left as objects.
fn put_others(world: &mut World, number: u64, others: NewObjects) -> Result<(), AllocError>
    requires number { number < world.old.register.catalogue.next }
    requires room { world.old.register.serial + length others ≤ serial_limit }
    ensures world { OnOk result (seen world.new ≡ placed_each number (seen world.old) others) }
    ensures says { WorldStillSays world.old world.new }
{
    let mut others = others;
    while let Some(object) = others.take_next()? {
        put_object(world, number, object)?;
    }
    Ok(())
}

fn put_object(world: &mut World, number: u64, object: NewObject) -> Result<(), AllocError>
    requires number { number < world.old.register.catalogue.next }
    requires room { world.old.register.serial < serial_limit }
    ensures world { OnOk result (seen world.new ≡ placed number (seen world.old) object) }
    ensures says { WorldStillSays world.old world.new }
{
    let Some(id) = world.fresh(object.kind(), number) else {
        unreachable!();
    };
    world.put_object(id, object.into_object())
}
