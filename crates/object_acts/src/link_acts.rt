//! What is answered and changed of a group's links.

ghost use Rattle.std.specs.Prelude.{◌≡◌, IfOk, codes};
ghost use Rattle.shapes.specs.declared.printing.Form.TheVariants.{Rest};
ghost use Rattle.groups_links.specs.Titles.{IsGoodTitle};
ghost use Rattle.groups_links.specs.Targets.{IsSoundLink};
ghost use Rattle.groups_links.specs.Printed.{links_list};
ghost use Rattle.object_ops.specs.Replies.{Follows, only};
ghost use Rattle.object_ops.specs.declared.replies.Reply.TheVariants.{Done};
ghost use Rattle.object_acts.specs.Acts.{link_put, link_read, drop_from};

use crate::names::{no_name, taken};
use groups_links::{LinkTo, Links, MAX_LINKS, NoName, PutFault, link_json};
use object_ids::{LimitKind, Name};
use object_ops::{Refusal, Reply};
use shapes::Form;
use std::alloc::{AllocError, Global};

/// A new link.
pub(crate) fn put_link(
    alloc: Global,
    links: &mut Links,
    title: &Name,
    link: &LinkTo,
) -> Result<Reply, AllocError>
    requires title { IsGoodTitle title.now }
    requires link { IsSoundLink link.now }
    ensures { Follows (link_put title.now link.now links.old) links.old result links.new }
{
    let link = link.copy()?;
    match links.put(title.copy()?, link) {
        Ok(()) => Ok(Reply::done(alloc, 201)),
        Err(PutFault::Taken) => taken(title),
        Err(PutFault::Limit) => Ok(Reply::Refused(Refusal::Limit {
            limit: MAX_LINKS as u64,
            what: LimitKind::Links,
        })),
        Err(PutFault::NoMemory) => Err(AllocError),
    }
}

/// The removal of a link.
pub(crate) fn drop_link(alloc: Global, links: &mut Links, title: &Name) -> Result<Reply, AllocError>
    ensures { Follows (drop_from title.now links.old) links.old result links.new }
{
    match links.remove(title) {
        Ok(()) => Ok(Reply::done(alloc, 200)),
        Err(NoName) => no_name(title),
    }
}

/// One link.
pub(crate) fn get_link(alloc: Global, links: &Links, title: &Name) -> Result<Reply, AllocError>
    ensures { IfOk result (λ r. r ≡ link_read title.now links.now) }
{
    match links.get(title) {
        Some(link) => {
            let tree = link_json(alloc, title, link, Form::Rest)?;
            Reply::keyed(alloc, 200, "link", tree)
        }
        None => no_name(title),
    }
}

/// All links, in byte order of their titles.
pub(crate) fn list_links(alloc: Global, links: &Links) -> Result<Reply, AllocError>
    ensures { IfOk result (λ r. r ≡ Done 200 (only (codes "links") (links_list links.now Rest))) }
{
    let tree = links.list(alloc, Form::Rest)?;
    Reply::keyed(alloc, 200, "links", tree)
}
