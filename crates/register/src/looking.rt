//! What a request meets at the folder or domain that decides over it.

ghost use Rattle.std.specs.Prelude.{◌≡◌};
ghost use Rattle.std.specs.FinMap as map;
ghost use Rattle.object_ops.specs.Needs.{decided_at};
ghost use Rattle.register.specs.Decided.{fits, is_folder};
ghost use Rattle.register.specs.Looks.{IsFitting, looked};

use access_lists::{Caller, decide};
use domains::{Catalogue, NodeClass};
use object_ops::{Op, Request, needs, on_text};

// What a request meets.
#[derive(Clone, Copy)]
pub(crate) enum Looked {
    // No folder or domain of the wanted class.
    Missing,
    // One whose list doesn't give the right.
    Denied,
    // One whose list gives the right.
    Allowed { class: NodeClass },
}

// Looks up the folder or domain that decides over a request, and the right in its list. Takes no memory.
pub(crate) fn look(catalogue: &Catalogue, caller: &Caller, request: &Request) -> Looked
    ensures looked { result ≡ looked caller.now request.now.op
        (map.get catalogue.now.nodes (decided_at request.now)) }
    ensures fitting { IsFitting request.now.op result }
{
    let Some(node) = catalogue.find_text(on_text(request)) else {
        return Looked::Missing;
    };
    if !fits(&request.op, &node.class) {
        return Looked::Missing;
    }
    let (_, right) = needs(request);
    if !decide(&node.list, caller, right) {
        return Looked::Denied;
    }
    Looked::Allowed { class: node.class }
}

// Whether a node of a class can be asked this.
fn fits(op: &Op, class: &NodeClass) -> bool
    ensures { result ≡ fits op.now class.now }
{
    match op {
        Op::GetNode
        | Op::Flush
        | Op::DropNode
        | Op::GetAcls
        | Op::GetAcl { .. }
        | Op::PutAcl { .. } => true,
        Op::PutNode { .. } | Op::ListNodes => is_folder(class),
        _ => !is_folder(class),
    }
}

fn is_folder(class: &NodeClass) -> bool
    ensures { result ≡ is_folder class.now }
{
    match class {
        NodeClass::Folder => true,
        NodeClass::Domain { .. } => false,
    }
}
