//! Which right a request needs, and at which folder or domain.

ghost use Rattle.std.specs.Prelude.{◌≡◌};
ghost use Rattle.object_ops.specs.Needs.{right_for, on_for, decided_at};

use crate::ops::{Op, Request};
use access_lists::Right;

/// Whose access list decides over a request: that of the folder or domain of its path, or that of the parent folder.
#[derive(Clone, Copy, Debug, PartialEq, Eq)]
pub enum On {
    /// That of its path.
    Own,
    /// That of the parent folder.
    Parent,
}

/// Whose access list decides over a request, and the right that it has to give.
pub fn needs(request: &Request) -> (On, Right)
    ensures on { result.0 ≡ on_for request.now.op }
    ensures right { result.1 ≡ right_for request.now.op }
{
    (deciding(&request.op), right_for(&request.op))
}

/// The text of the path at which a request is decided. It takes no memory.
pub fn on_text(request: &Request) -> &str
    ensures { result.now ≡ decided_at request.now }
{
    match deciding(&request.op) {
        On::Own => request.path.text(),
        On::Parent => request.path.parent_text(),
    }
}

fn deciding(op: &Op) -> On
    ensures { result ≡ on_for op.now }
{
    match op {
        Op::PutNode { .. } => On::Parent,
        _ => On::Own,
    }
}

fn right_for(op: &Op) -> Right
    ensures { result ≡ right_for op.now }
{
    match op {
        Op::PutNode { .. } | Op::MakeObject { .. } | Op::PutLink { .. } | Op::PutAttribute { .. } =>
            Right::Create,
        Op::Flush | Op::PutShape { .. } | Op::PutValue { .. } => Right::Update,
        Op::DropNode | Op::DropObject { .. } | Op::DropLink { .. } | Op::DropAttribute { .. } =>
            Right::Delete,
        Op::GetAcls | Op::GetAcl { .. } => Right::ReadAcl,
        Op::PutAcl { .. } => Right::UpdateAcl,
        _ => Right::Read,
    }
}
