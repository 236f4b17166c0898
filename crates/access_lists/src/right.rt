ghost use Rattle.std.specs.Prelude.{◌≡◌};
ghost use Rattle.access_lists.specs.RightWords.{right_name};

/// What a caller may be allowed to do.
#[derive(Clone, Copy, Debug, PartialEq, Eq)]
pub enum Right {
    Create,
    Read,
    Update,
    Delete,
    /// To read the access list.
    ReadAcl,
    /// To change the access list.
    UpdateAcl,
}

impl Right {
    /// The right as the HDF REST API writes it.
    pub fn name(self) -> &'static str
        ensures { result.now ≡ right_name self }
    {
        match self {
            Right::Create => "create",
            Right::Read => "read",
            Right::Update => "update",
            Right::Delete => "delete",
            Right::ReadAcl => "readACL",
            Right::UpdateAcl => "updateACL",
        }
    }
}
