// Links whose targets have fresh ids.
ghost use Rattle.std.specs.Prelude.{◌≡◌, ◌<◌, false, IfOk, OnOk};
ghost use Rattle.std.specs.FinMap.{contains_key, get, insert, len};
ghost use Rattle.containers.specs.TextMaps.Keyed.{with_values};
ghost use Rattle.groups_links.specs.GroupLinks.{most_links};
ghost use Rattle.groups_links.specs.Targets.{IsSoundLink};
ghost use Rattle.groups_links.specs.Titles.{IsGoodTitle};
ghost use Rattle.documents.specs.Parts.TitleMaps.{IsSoundTarget};
ghost use Rattle.json_import.specs.Fresh.Renamed.{renamed_link};
ghost use Rattle.json_import.specs.Fresh.Taking.{put_at};

use crate::fresh::names::FreshIds;
use documents::parts::{Target, Targets};
use groups_links::{LinkTo, Links};
use object_ids::{Name, PutFault};
use std::alloc::{AllocError, Global};

/// The same links, of which the hard ones lead to fresh ids.
pub(crate) fn renamed_links(
    alloc: Global,
    ids: &FreshIds,
    links: &Targets,
) -> Result<Links, AllocError>
    ensures { IfOk result (λ m. m ≡ with_values (renamed_link ids.now.names ids.now.root) links.now) }
{
    links.is_whole();
    let mut renamed = Links::new(alloc);
    let mut after = None;
    while let Some(title) = links.next_title(after) {
        put_renamed(ids, links, title, &mut renamed)?;
        after = Some(title);
    }
    Ok(renamed)
}

fn put_renamed(
    ids: &FreshIds,
    links: &Targets,
    title: &Name,
    renamed: &mut Links,
) -> Result<(), AllocError>
    requires new { contains_key renamed.old title.now ≡ false }
    requires room { len renamed.old < most_links }
    ensures { OnOk result (renamed.new
        ≡ put_at (renamed_link ids.now.names ids.now.root) title.now (get links.now title.now) renamed.old) }
{
    links.is_whole();
    let Some(target) = links.get(title) else {
        return Ok(());
    };
    let link = renamed_link(ids, target)?;
    put_link(renamed, title.copy()?, link)
}

fn renamed_link(ids: &FreshIds, target: &Target) -> Result<LinkTo, AllocError>
    requires { IsSoundTarget target.now }
    ensures same { IfOk result
        (λ link. link ≡ renamed_link ids.now.names ids.now.root target.now) }
    ensures sound { IfOk result IsSoundLink }
{
    match target {
        Target::Hard(text) => Ok(LinkTo::Hard(ids.find(text.text()))),
        Target::Soft(path) => Ok(LinkTo::Soft(path.copy()?)),
        Target::External { path, file } => Ok(LinkTo::External {
            path: path.copy()?,
            file: file.copy()?,
        }),
    }
}

fn put_link(links: &mut Links, title: Name, link: LinkTo) -> Result<(), AllocError>
    requires title { IsGoodTitle title }
    requires link { IsSoundLink link }
    requires new { contains_key links.old title ≡ false }
    requires room { len links.old < most_links }
    ensures { OnOk result (links.new ≡ insert links.old title link) }
{
    match links.put(title, link) {
        Ok(()) => Ok(()),
        Err(PutFault::NoMemory) => Err(AllocError),
        // The title is new, and there is room.
        Err(PutFault::Taken | PutFault::Limit) => unreachable!(),
    }
}
