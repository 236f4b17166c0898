ghost use Rattle.std.specs.Prelude.{◌≡◌};
ghost use Rattle.access_lists.specs.RightWords.{holds};

use crate::right::Right;

/// An entry of an access list: the set of the rights that are true.
#[derive(Clone, Copy, Debug, PartialEq, Eq)]
pub struct Rights {
    pub create: bool,
    pub read: bool,
    pub update: bool,
    pub delete: bool,
    pub read_acl: bool,
    pub update_acl: bool,
}

impl Rights {
    /// All six rights.
    pub const ALL: Rights = Rights {
        create: true,
        read: true,
        update: true,
        delete: true,
        read_acl: true,
        update_acl: true,
    };

    /// Whether the entry has a right.
    pub fn holds(&self, right: Right) -> bool
        ensures { result ≡ holds right self.now }
    {
        match right {
            Right::Create => self.create,
            Right::Read => self.read,
            Right::Update => self.update,
            Right::Delete => self.delete,
            Right::ReadAcl => self.read_acl,
            Right::UpdateAcl => self.update_acl,
        }
    }
}
