//! Names of attributes and titles of links, of which none stands twice in its list.

ghost use Rattle.std.specs.Prelude.{◌≡◌, ◌≤◌, false, IfOk, length, option_map};
ghost use Rattle.std.specs.FinMap.{contains_key};
ghost use Rattle.attributes.specs.AttributeMaps.{longest_name};
ghost use Rattle.groups_links.specs.Titles.{IsGoodTitle};
ghost use Rattle.documents.specs.Parts.Faults.{Answers};
ghost use Rattle.documents.specs.Parts.Names.{name_in, new_name, new_title, title_in};
ghost use Rattle.object_ids.specs.Names.{has_no_slash};

use crate::parts::faults::{DocCause, DocFault, refused};
use crate::parts::title_maps::Targets;
use attributes::{Attributes, MAX_ATTRIBUTE_NAME};
use groups_links::MAX_TITLE;
use object_ids::{Name, NameFault};
use std::alloc::Global;

// The name of an attribute, which no attribute before it has.
pub(crate) fn new_name(
    alloc: Global,
    path: &str,
    attributes: &Attributes,
    text: Option<&str>,
) -> Result<Name, DocFault>
    ensures exact { Answers result
        (new_name path.now attributes.now (option_map (λ t. t.now) text.entry)) }
    ensures short { IfOk result (λ name. length name ≤ longest_name) }
    ensures new { IfOk result (λ name. contains_key attributes.now name ≡ false) }
{
    let name = read_name(alloc, path, MAX_ATTRIBUTE_NAME, text)?;
    if attributes.get(&name).is_some() {
        Err(refused(alloc, path, DocCause::BadName))
    } else {
        Ok(name)
    }
}

// The title of a link, which no link before it has.
pub(crate) fn new_title(
    alloc: Global,
    path: &str,
    links: &Targets,
    text: Option<&str>,
) -> Result<Name, DocFault>
    ensures exact { Answers result
        (new_title path.now links.now (option_map (λ t. t.now) text.entry)) }
    ensures good { IfOk result IsGoodTitle }
    ensures new { IfOk result (λ title. contains_key links.now title ≡ false) }
{
    let title = read_title(alloc, path, text)?;
    if links.get(&title).is_some() {
        Err(refused(alloc, path, DocCause::BadName))
    } else {
        Ok(title)
    }
}

fn read_title(alloc: Global, path: &str, text: Option<&str>) -> Result<Name, DocFault>
    ensures exact { Answers result (title_in path.now (option_map (λ t. t.now) text.entry)) }
    ensures good { IfOk result IsGoodTitle }
{
    let title = read_name(alloc, path, MAX_TITLE, text)?;
    if has_no_slash(title.text().as_bytes()) {
        Ok(title)
    } else {
        Err(refused(alloc, path, DocCause::BadName))
    }
}

fn read_name(alloc: Global, path: &str, most: usize, text: Option<&str>) -> Result<Name, DocFault>
    ensures exact { Answers result (name_in most path.now (option_map (λ t. t.now) text.entry)) }
    ensures short { IfOk result (λ name. length name ≤ most) }
{
    let Some(text) = text else {
        return Err(refused(alloc, path, DocCause::BadName));
    };
    match Name::read(alloc, text, most) {
        Ok(name) => Ok(name),
        Err(NameFault::BadName) => Err(refused(alloc, path, DocCause::BadName)),
        Err(NameFault::NoMemory) => Err(DocFault::NoMemory),
    }
}

fn has_no_slash(bytes: &[u8]) -> bool
    ensures { result ≡ has_no_slash bytes.now }
{
    bytes.iter().all(|byte| *byte != b'/')
}
