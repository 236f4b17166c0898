ghost use Rattle.std.specs.Prelude.{◌≡◌, option_map};
ghost use Rattle.command_words.specs.Commands.{verb_named};
ghost use Rattle.command_words.specs.Lines.{has};
ghost use Rattle.command_words.specs.Views.{row_of};

/// A command's name, its options, and the name of its place, where it has one.
#[derive(Clone, Copy)]
pub struct Row<'a> {
    pub name: &'a str,
    pub options: &'a [&'a str],
    pub place: Option<&'a str>,
}

/// `init`
pub const INIT: Row<'static> = Row {
    name: "init",
    options: &["config", "journal", "lanes"],
    place: None,
};

/// `session`
pub const SESSION: Row<'static> = Row {
    name: "session",
    options: &["config", "journal"],
    place: None,
};

/// `serve`
pub const SERVE: Row<'static> = Row {
    name: "serve",
    options: &["config", "journal", "listen", "workers", "links"],
    place: None,
};

/// `export`
pub const EXPORT: Row<'static> = Row {
    name: "export",
    options: &["journal"],
    place: Some("path"),
};

/// `import`
pub const IMPORT: Row<'static> = Row {
    name: "import",
    options: &["journal", "owner"],
    place: Some("path"),
};

/// `sample`
pub const SAMPLE: Row<'static> = Row {
    name: "sample",
    options: &[],
    place: Some("n"),
};

/// `verify`
pub const VERIFY: Row<'static> = Row {
    name: "verify",
    options: &["journal"],
    place: None,
};

/// The row of the command of this name.
pub fn row_named(name: &str) -> Option<Row<'static>>
    ensures { option_map row_of result ≡ option_map (λ v. v.row) (verb_named name.now) }
{
    if name == INIT.name {
        return Some(INIT);
    }
    if name == SESSION.name {
        return Some(SESSION);
    }
    if name == SERVE.name {
        return Some(SERVE);
    }
    if name == EXPORT.name {
        return Some(EXPORT);
    }
    if name == IMPORT.name {
        return Some(IMPORT);
    }
    if name == SAMPLE.name {
        return Some(SAMPLE);
    }
    if name == VERIFY.name {
        return Some(VERIFY);
    }
    None
}

impl<'a> Row<'a> {
    /// Whether it has an option of this name.
    pub fn has_option(&self, name: &str) -> bool
        ensures { result ≡ has name.now (row_of self.now).options }
    {
        for own in self.options {
            if *own == name {
                return true;
            }
        }
        false
    }
}
