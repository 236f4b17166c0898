ghost use Rattle.std.specs.Prelude.{◌≡◌};
ghost use Rattle.object_ids.specs.Limits.{limit_word};

/// What there can be no more of.
#[derive(Clone, Copy, Debug, PartialEq, Eq)]
pub enum LimitKind {
    /// The links of a group.
    Links,
    /// The attributes of an object.
    Attributes,
    /// The entries of an access list.
    Entries,
    /// The folders and domains.
    Nodes,
    /// The serials of a run.
    Serial,
    /// The numbers of domains.
    Domain,
}

impl LimitKind {
    /// The word for it in a refusal.
    pub fn word(self) -> &'static str
        ensures { result.now ≡ limit_word self }
    {
        match self {
            LimitKind::Links => "links",
            LimitKind::Attributes => "attributes",
            LimitKind::Entries => "entries",
            LimitKind::Nodes => "nodes",
            LimitKind::Serial => "serial",
            LimitKind::Domain => "domain",
        }
    }
}
