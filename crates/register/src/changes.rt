//! Changes of the folders and domains, each with its mark.

ghost use Rattle.std.specs.Prelude.{◌≡◌, ◌<◌, ◌^◌, None, IfOk, OnErr, OnOk};
ghost use Rattle.domains.specs.Changes.{Blames, domain_fault, entry_fault, make_fault, new_domain};
ghost use Rattle.domains.specs.Changes.{new_node, remove_fault, root_of, with_entry, without_node};
ghost use Rattle.domains.specs.Contents.{with_node};
ghost use Rattle.domains.specs.declared.classes.NodeClass.TheVariants.{Folder};
ghost use Rattle.register.specs.Looks.{MayBlame};
ghost use Rattle.register.specs.Marks.{with_domain, with_path};

use crate::marks::Marks;
use access_lists::Rights;
use domains::{CatFault, Catalogue};
use object_ids::{DomainPath, Name, ObjectId};

// Makes a folder, and marks its path. An error leaves all as it was.
pub(crate) fn make_folder(
    catalogue: &mut Catalogue,
    marks: &mut Marks,
    path: &DomainPath,
    owner: &Name,
) -> Result<(), CatFault>
    ensures ok { OnOk result
        (catalogue.new ≡ with_node catalogue.old path.now (new_node Folder owner.now)) }
    ensures marks { OnOk result (marks.new ≡ with_path marks.old path.now) }
    ensures err { OnErr result (catalogue.new ≡ catalogue.old) }
    ensures unmarked { OnErr result (marks.new ≡ marks.old) }
    ensures why { MayBlame result (make_fault catalogue.old path.now) }
{
    let fresh = marks.mark(path)?;
    match catalogue.make_folder(path, owner) {
        Ok(()) => {}
        Err(fault) => {
            marks.take_back(path, fresh);
            return Err(fault);
        }
    }
    Ok(())
}

// Makes a domain that nothing speaks against, and marks its path and the next number. An error leaves all as it was, and
// comes only where memory runs out.
pub(crate) fn make_domain(
    catalogue: &mut Catalogue,
    marks: &mut Marks,
    path: &DomainPath,
    owner: &Name,
    run: u32,
    serial: u64,
) -> Result<ObjectId, CatFault>
    requires run { run < 2 ^ 22 }
    requires serial { serial < 2 ^ 40 }
    requires free { domain_fault catalogue.old path.now ≡ None }
    ensures ok { OnOk result (catalogue.new
        ≡ with_node catalogue.old path.now (new_domain catalogue.old.next run serial owner.now)) }
    ensures marks { OnOk result (marks.new ≡ with_domain marks.old path.now) }
    ensures root { IfOk result (λ root. root ≡ root_of catalogue.old.next run serial) }
    ensures err { OnErr result (catalogue.new ≡ catalogue.old) }
    ensures unmarked { OnErr result (marks.new ≡ marks.old) }
    ensures why { Blames result (domain_fault catalogue.old path.now) }
{
    let fresh = marks.mark(path)?;
    match catalogue.make_domain(path, owner, run, serial) {
        Ok(root) => {
            marks.mark_next();
            Ok(root)
        }
        Err(fault) => {
            marks.take_back(path, fresh);
            Err(fault)
        }
    }
}

// Removes a node, and marks its path. An error leaves all as it was.
pub(crate) fn remove_node(
    catalogue: &mut Catalogue,
    marks: &mut Marks,
    path: &DomainPath,
) -> Result<(), CatFault>
    ensures ok { OnOk result (catalogue.new ≡ without_node catalogue.old path.now) }
    ensures marks { OnOk result (marks.new ≡ with_path marks.old path.now) }
    ensures err { OnErr result (catalogue.new ≡ catalogue.old) }
    ensures unmarked { OnErr result (marks.new ≡ marks.old) }
    ensures why { MayBlame result (remove_fault catalogue.old path.now) }
{
    let fresh = marks.mark(path)?;
    match catalogue.remove(path) {
        Ok(()) => {}
        Err(fault) => {
            marks.take_back(path, fresh);
            return Err(fault);
        }
    }
    Ok(())
}

// Puts an entry into the list of a node, and marks the node's path. An error leaves all as it was.
pub(crate) fn set_entry(
    catalogue: &mut Catalogue,
    marks: &mut Marks,
    path: &DomainPath,
    name: &Name,
    rights: Rights,
) -> Result<(), CatFault>
    ensures ok { OnOk result (catalogue.new ≡ with_entry catalogue.old path.now name.now rights) }
    ensures marks { OnOk result (marks.new ≡ with_path marks.old path.now) }
    ensures err { OnErr result (catalogue.new ≡ catalogue.old) }
    ensures unmarked { OnErr result (marks.new ≡ marks.old) }
    ensures why { MayBlame result (entry_fault catalogue.old path.now name.now) }
{
    let fresh = marks.mark(path)?;
    match catalogue.set_entry(path, name, rights) {
        Ok(()) => {}
        Err(fault) => {
            marks.take_back(path, fresh);
            return Err(fault);
        }
    }
    Ok(())
}
