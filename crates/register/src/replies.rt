//! What requests of folders, domains and access lists are answered, and why they are refused.

ghost use Rattle.std.specs.Prelude.{◌≡◌, IfOk, codes};
ghost use Rattle.std.specs.FinMap as map;
ghost use Rattle.access_lists.specs.EntryTrees.{acl_tree, acls_tree};
ghost use Rattle.domains.specs.NodeTrees.{class_tree, node_tree};
ghost use Rattle.object_ops.specs.Replies.{only};
ghost use Rattle.object_ops.specs.declared.refusals.Refusal.TheVariants.{Limit, NoName, Taken};
ghost use Rattle.object_ops.specs.declared.replies.Reply.{Reply};
ghost use Rattle.object_ops.specs.declared.replies.Reply.TheVariants.{Done};
ghost use Rattle.register.specs.Decided.{acl_body, acls_body, most_of, owner_of};
ghost use Rattle.register.specs.Looks.{VerdictAnswers, VerdictAnswersEntry, VerdictRefuses};
ghost use Rattle.register.specs.Looks.{VerdictRefusesFault};

use crate::register::SERIAL_LIMIT;
use crate::verdicts::Verdict;
use access_lists::{AccessList, Caller, MAX_ENTRIES, Rights, acl_json, acls_json};
use domains::{CatFault, MAX_NODES, NUMBER_LIMIT, Node, NodeClass, node_json};
use object_ids::{DomainPath, LimitKind, MAX_PATH_LEN, Name, NameFault};
use object_ops::{Refusal, Reply};
use std::alloc::{AllocError, Global};

// ---- replies

// Answered, or there was no memory.
pub(crate) fn answered(reply: Result<Reply, AllocError>) -> Verdict
    ensures { (wanted : Reply) → IfOk reply (λ r. r ≡ wanted) → VerdictAnswers wanted result }
{
    match reply {
        Ok(reply) => Verdict::Answered(reply),
        Err(AllocError) => Verdict::NoMemory,
    }
}

// A node.
pub(crate) fn node_verdict(alloc: Global, node: &Node) -> Verdict
    ensures { VerdictAnswers (Done 200 (node_tree node.now)) result }
{
    answered(node_reply(alloc, 200, node))
}

fn node_reply(alloc: Global, status: u16, node: &Node) -> Result<Reply, AllocError>
    ensures { IfOk result (λ r. r ≡ Done status (node_tree node.now)) }
{
    Ok(Reply::with(status, node_json(alloc, node)?))
}

// A node that is still to be made.
pub(crate) fn made_reply(
    alloc: Global,
    class: &NodeClass,
    owner: &Name,
) -> Result<Reply, AllocError>
    ensures { IfOk result (λ r. r ≡ Done 201 (class_tree class.now owner.now)) }
{
    let node = Node {
        class: *class,
        owner: owner.copy()?,
        list: AccessList::new(alloc),
    };
    node_reply(alloc, 201, &node)
}

// The entries of an access list.
pub(crate) fn acls_verdict(alloc: Global, list: &AccessList) -> Verdict
    ensures { VerdictAnswers (Done 200 (acls_body list.now)) result }
{
    answered(acls_reply(alloc, list))
}

fn acls_reply(alloc: Global, list: &AccessList) -> Result<Reply, AllocError>
    ensures { IfOk result (λ r. r ≡ Done 200 (acls_body list.now)) }
{
    let acls = acls_json(alloc, list)?;
    Reply::keyed(alloc, 200, "acls", acls)
}

// One entry of an access list, where there is one of the name.
pub(crate) fn acl_verdict(alloc: Global, list: &AccessList, name: &Name) -> Verdict
    ensures { VerdictAnswersEntry name.now (map.get list.now name.now) result }
{
    match list.get(name) {
        Some(rights) => answered(acl_reply(alloc, name, &rights)),
        None => no_name(name),
    }
}

fn acl_reply(alloc: Global, name: &Name, rights: &Rights) -> Result<Reply, AllocError>
    ensures { IfOk result (λ r. r ≡ Done 200 (acl_body name.now rights.now)) }
{
    let acl = acl_json(alloc, name, rights)?;
    Reply::keyed(alloc, 200, "acl", acl)
}

// ---- owners

// Who owns what a caller makes.
pub(crate) fn owner_of(alloc: Global, caller: &Caller) -> Result<Name, AllocError>
    ensures { IfOk result (λ name. name ≡ owner_of caller.now) }
{
    match &caller.user {
        Some(name) => name.copy(),
        None => default_owner(alloc),
    }
}

fn default_owner(alloc: Global) -> Result<Name, AllocError>
    ensures { IfOk result (λ name. name ≡ codes "default") }
{
    match Name::read(alloc, "default", 255) {
        Ok(name) => Ok(name),
        Err(NameFault::NoMemory) => Err(AllocError),
        Err(NameFault::BadName) => unreachable!(),
    }
}

// ---- refusals

fn no_name(name: &Name) -> Verdict
    ensures { VerdictRefuses (NoName name.now) result }
{
    match name.copy() {
        Ok(name) => Verdict::Refused(Refusal::NoName { name }),
        Err(AllocError) => Verdict::NoMemory,
    }
}

fn taken(alloc: Global, path: &DomainPath) -> Verdict
    ensures { VerdictRefuses (Taken path.now) result }
{
    match Name::read(alloc, path.text(), MAX_PATH_LEN) {
        Ok(name) => Verdict::Refused(Refusal::Taken { name }),
        Err(NameFault::NoMemory) => Verdict::NoMemory,
        // Every path is a name of as many bytes.
        Err(NameFault::BadName) => unreachable!(),
    }
}

// The refusal for what speaks against a change of the catalogue.
pub(crate) fn refused(alloc: Global, path: &DomainPath, fault: CatFault) -> Verdict
    ensures { VerdictRefusesFault path.now fault result }
{
    match fault {
        CatFault::NoFolder | CatFault::NoDomain => Verdict::Refused(Refusal::NoDomain),
        CatFault::Taken => taken(alloc, path),
        CatFault::Limit { what } => limit(what),
        CatFault::NotEmpty => Verdict::Refused(Refusal::NotEmpty),
        CatFault::Root => Verdict::Refused(Refusal::Root),
        CatFault::NoMemory => Verdict::NoMemory,
    }
}

// There can be no more of something.
pub(crate) fn limit(what: LimitKind) -> Verdict
    ensures { result ≡ Verdict.Refused (Limit (most_of what) what) }
{
    Verdict::Refused(Refusal::Limit {
        limit: most_of(what),
        what,
    })
}

fn most_of(what: LimitKind) -> u64
    ensures { result ≡ most_of what }
{
    match what {
        LimitKind::Links => 65_536,
        LimitKind::Attributes => 1_024,
        LimitKind::Entries => MAX_ENTRIES as u64,
        LimitKind::Nodes => MAX_NODES,
        LimitKind::Serial => SERIAL_LIMIT,
        LimitKind::Domain => NUMBER_LIMIT - 1,
    }
}
