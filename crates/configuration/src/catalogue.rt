ghost use Rattle.std.specs.Prelude.{◌≡◌, ◌≤◌, ◌+◌, not, length, Some, None, IfOk, OnOk, IsErrOf, string_bytes, unwrap_or};
ghost use Rattle.std.specs.List.{list_all};
ghost use Rattle.std.specs.FinMap as map;
ghost use Rattle.object_ids.specs.Paths.{path_of, root_path};
ghost use Rattle.containers.specs.TextMaps.Keyed.{keyed};
ghost use Rattle.domains.specs.Contents.{HasRoot, IsNumberFree, IsPlace, NumberFits, only_root, with_node};
ghost use Rattle.configuration.specs.Catalogues.{ArePaths, CanBePut, catalogue_of, default_setting};
ghost use Rattle.configuration.specs.Catalogues.{domain_node, domain_nodes, folder_node, folder_nodes};
ghost use Rattle.configuration.specs.Catalogues.{has_parent, is_tree, root_of, with_nodes};

use crate::fault::Refusal;
use crate::limits::{MAX_BELOW_ROOT, MAX_NAME_LEN};
use crate::people::read_name;
use crate::setting::Setting;
use crate::settings::Settings;
use domains::{Catalogue, Node, NodeClass};
use object_ids::{Kind, ObjectId, PathFault, parent_text, read_path};
use std::alloc::Global;
use std::collections::BTreeMap;

/// The catalogue of configured folders and domains.
pub fn make_catalogue(
    alloc: Global,
    folders: Settings,
    domains: Settings,
) -> Result<Catalogue, Refusal>
    ensures ok { IfOk result (λ catalogue. catalogue_of folders domains ≡ Some catalogue) }
    ensures bad { IsErrOf result Refusal.BadKey → catalogue_of folders domains ≡ None }
{
    let mut folders = folders;
    let root = folders.take_root();
    if !is_tree(&folders, &domains) {
        return Err(Refusal::BadKey);
    }
    let mut catalogue = root_catalogue(alloc, root)?;
    put_folders(alloc, &mut catalogue, folders.into_entries())?;
    put_domains(alloc, &mut catalogue, domains.into_entries())?;
    Ok(catalogue)
}

// Whether folders beside `/` and domains make a tree.
fn is_tree(folders: &Settings, domains: &Settings) -> bool
    ensures { result ≡ is_tree folders.now domains.now }
{
    if domains.contains("/") {
        return false;
    }
    if !are_apart(folders, domains) {
        return false;
    }
    if !have_parents(folders, folders) {
        return false;
    }
    if !have_parents(folders, domains) {
        return false;
    }
    folders.len() + domains.len() <= MAX_BELOW_ROOT
}

fn are_apart(folders: &Settings, domains: &Settings) -> bool
    ensures { result ≡ list_all (λ e. not (map.contains_key folders.now e.0)) (map.entries domains.now) }
{
    let _ordered = domains.entries.len();
    are_new(folders, &domains.entries)
}

fn are_new(folders: &Settings, settings: &BTreeMap<String, Setting>) -> bool
    ensures { result ≡ list_all (λ e. not (map.contains_key folders.now e.0)) (keyed string_bytes settings.now.entries) }
{
    'paths: for (path, _setting) in settings {
        if folders.contains(path.as_str()) {
            return false;
        }
    }
    true
}

fn have_parents(folders: &Settings, settings: &Settings) -> bool
    ensures { result ≡ list_all (λ e. has_parent folders.now e.0) (map.entries settings.now) }
{
    let _ordered = settings.entries.len();
    entries_have_parents(folders, &settings.entries)
}

fn entries_have_parents(folders: &Settings, settings: &BTreeMap<String, Setting>) -> bool
    ensures { result ≡ list_all (λ e. has_parent folders.now e.0) (keyed string_bytes settings.now.entries) }
{
    'paths: for (path, _setting) in settings {
        if !has_parent(folders, path.as_str()) {
            return false;
        }
    }
    true
}

// Whether a path lies in `/` or in a configured folder.
fn has_parent(folders: &Settings, path: &str) -> bool
    ensures { result ≡ has_parent folders.now path.now }
{
    let parent = parent_text(path);
    parent == "/" || folders.contains(parent)
}

// The catalogue of the folder `/` alone.
fn root_catalogue(alloc: Global, root: Option<Setting>) -> Result<Catalogue, Refusal>
    ensures ok { IfOk result (λ catalogue. catalogue ≡ only_root (folder_node (unwrap_or root default_setting))) }
    ensures memory { ¬ (IsErrOf result Refusal.BadKey) }
{
    match root {
        Some(setting) => configured_root(alloc, setting),
        None => {
            let owner = read_name(alloc, "default", MAX_NAME_LEN)?;
            Ok(Catalogue::new(alloc, owner)?)
        }
    }
}

fn configured_root(alloc: Global, setting: Setting) -> Result<Catalogue, Refusal>
    ensures ok { IfOk result (λ catalogue. catalogue ≡ only_root (folder_node setting)) }
    ensures memory { ¬ (IsErrOf result Refusal.BadKey) }
{
    let Ok(path) = read_path(alloc, "/") else {
        return Err(Refusal::NoMemory);
    };
    let mut catalogue = Catalogue::new(alloc, setting.owner.copy()?)?;
    catalogue.put_node(
        &path,
        Node {
            class: NodeClass::Folder,
            owner: setting.owner,
            list: setting.list,
        },
    )?;
    Ok(catalogue)
}

// Puts folders into a catalogue.
fn put_folders(
    alloc: Global,
    catalogue: &mut Catalogue,
    folders: BTreeMap<String, Setting>,
) -> Result<(), Refusal>
    requires paths { ArePaths (keyed string_bytes folders.entries) }
    requires free { CanBePut catalogue.old (folder_nodes (keyed string_bytes folders.entries)) }
    ensures ok { OnOk result (catalogue.new ≡ with_nodes catalogue.old (folder_nodes (keyed string_bytes folders.entries))) }
    ensures memory { ¬ (IsErrOf result Refusal.BadKey) }
{
    'folders: for (path, setting) in folders {
        put_folder(alloc, catalogue, path.as_str(), setting)?;
    }
    Ok(())
}

fn put_folder(
    alloc: Global,
    catalogue: &mut Catalogue,
    path: &str,
    setting: Setting,
) -> Result<(), Refusal>
    requires canonical { path_of path.now ≡ Some path.now }
    requires place { IsPlace catalogue.old path.now }
    ensures ok { OnOk result (catalogue.new ≡ with_node catalogue.old path.now (folder_node setting)) }
    ensures memory { ¬ (IsErrOf result Refusal.BadKey) }
{
    put_new(alloc, catalogue, path, NodeClass::Folder, setting)
}

// Puts domains into a catalogue, each with the next number.
fn put_domains(
    alloc: Global,
    catalogue: &mut Catalogue,
    domains: BTreeMap<String, Setting>,
) -> Result<(), Refusal>
    requires paths { ArePaths (keyed string_bytes domains.entries) }
    requires free { CanBePut catalogue.old (domain_nodes catalogue.old.next (keyed string_bytes domains.entries)) }
    requires few { catalogue.old.next + length (keyed string_bytes domains.entries) ≤ MAX_BELOW_ROOT + 1 }
    ensures ok { OnOk result (catalogue.new
        ≡ with_nodes catalogue.old (domain_nodes catalogue.old.next (keyed string_bytes domains.entries))) }
    ensures memory { ¬ (IsErrOf result Refusal.BadKey) }
{
    'domains: for (path, setting) in domains {
        put_domain(alloc, catalogue, path.as_str(), setting)?;
    }
    Ok(())
}

fn put_domain(
    alloc: Global,
    catalogue: &mut Catalogue,
    path: &str,
    setting: Setting,
) -> Result<(), Refusal>
    requires canonical { path_of path.now ≡ Some path.now }
    requires place { IsPlace catalogue.old path.now }
    requires few { catalogue.old.next ≤ MAX_BELOW_ROOT }
    ensures ok { OnOk result (catalogue.new ≡ with_node catalogue.old path.now (domain_node catalogue.old.next setting)) }
    ensures memory { ¬ (IsErrOf result Refusal.BadKey) }
{
    let number = catalogue.next_number();
    put_new(alloc, catalogue, path, domain_class(number), setting)
}

fn domain_class(number: u64) -> NodeClass
    requires { number ≤ MAX_BELOW_ROOT }
    ensures { result ≡ NodeClass.Domain number (root_of number) }
{
    NodeClass::Domain {
        number,
        root: ObjectId {
            kind: Kind::Group,
            domain: number,
            run: 0,
            serial: number.saturating_sub(1),
        },
    }
}

// Puts a node of this class at a path where none is.
fn put_new(
    alloc: Global,
    catalogue: &mut Catalogue,
    path: &str,
    class: NodeClass,
    setting: Setting,
) -> Result<(), Refusal>
    requires canonical { path_of path.now ≡ Some path.now }
    requires fits { NumberFits class }
    requires free { IsNumberFree catalogue.old path.now class }
    requires root { HasRoot class }
    requires place { IsPlace catalogue.old path.now }
    ensures ok { OnOk result (catalogue.new
        ≡ with_node catalogue.old path.now (record { class = class; owner = setting.owner; list = setting.list })) }
    ensures memory { ¬ (IsErrOf result Refusal.BadKey) }
{
    let path = match read_path(alloc, path) {
        Ok(path) => path,
        Err(PathFault::BadPath) => return Err(Refusal::BadKey),
        Err(PathFault::NoMemory) => return Err(Refusal::NoMemory),
    };
    let has_place = catalogue.has_place(&path);
    prove!(has_place);
    let node = Node {
        class,
        owner: setting.owner,
        list: setting.list,
    };
    catalogue.put_node(&path, node)?;
    Ok(())
}
