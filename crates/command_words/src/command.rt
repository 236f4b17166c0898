ghost use Rattle.std.specs.Prelude.{◌≡◌};

use object_ids::{DomainPath, Name, NameFault, PathFault};
use std::alloc::AllocError;

/// The configuration's file where no option names one.
pub const DEFAULT_CONFIG: &str = "hsds.toml";

/// The journal's file where no option names one.
pub const DEFAULT_JOURNAL: &str = "hsds.journal";

/// The owner of a new domain where no option names one.
pub const DEFAULT_OWNER: &str = "default";

/// The most bytes of an owner's name.
pub const MAX_OWNER_LEN: usize = 255;

/// How many lanes a new journal's world has where no option says it.
pub const DEFAULT_LANES: u32 = 4;

/// The most lanes that a new journal's world may have.
pub const MAX_LANES: u32 = 16;

/// The address that is listened at where no option names one.
pub const DEFAULT_LISTEN: &str = "127.0.0.1:5101";

/// How many workers serve links where no option says it.
pub const DEFAULT_WORKERS: u32 = 4;

/// The most workers that may serve links.
pub const MAX_WORKERS: u32 = 16;

/// How many links each worker serves where no option says it.
pub const DEFAULT_LINKS: u32 = 1_000;

/// The most links that a worker may serve.
pub const MAX_LINKS: u32 = 65_536;

/// A text of the words, which contracts see as its bytes.
pub type WordText<'a> = &'a str;

/// A command, with the values of its options.
#[derive(Drop)]
pub enum Wanted<'a> {
    /// `init`: make a journal of the configured folders and domains.
    Init {
        /// The configuration's file.
        config: WordText<'a>,
        /// The journal's file.
        journal: WordText<'a>,
        /// Over how many lanes the objects are spread, from 1 to 16.
        lanes: u32,
    },
    /// `session`: serve the standard input to the standard output.
    Session {
        /// The configuration's file.
        config: WordText<'a>,
        /// The journal's file.
        journal: WordText<'a>,
    },
    /// `serve`: serve the links that come to an address.
    Serve {
        /// The configuration's file.
        config: WordText<'a>,
        /// The journal's file.
        journal: WordText<'a>,
        /// The address that is listened at.
        listen: WordText<'a>,
        /// How many workers serve links side by side, from 1 to 16.
        workers: u32,
        /// How many links each worker serves, from 1 to 65,536.
        links: u32,
    },
    /// `export`: print the document of a domain.
    Export {
        /// The domain's path.
        path: DomainPath,
        /// The journal's file.
        journal: WordText<'a>,
    },
    /// `import`: make a domain of a document from the standard input.
    Import {
        /// The path of the new domain.
        path: DomainPath,
        /// The journal's file.
        journal: WordText<'a>,
        /// The owner of the new domain.
        owner: Name,
    },
    /// `sample`: print the sums of a sample world.
    Sample {
        /// The number that its values begin with.
        n: u32,
    },
    /// `verify`: say what the journal holds.
    Verify {
        /// The journal's file.
        journal: WordText<'a>,
    },
}

/// Why words give no command.
#[derive(Clone, Copy, Debug, PartialEq, Eq)]
pub enum WordsFault {
    /// They are none.
    Refused,
    /// Memory is wanting.
    NoMemory,
}

impl From<AllocError> for WordsFault {
    ghost use Rattle.command_words.specs.declared.command.WordsFault.TheVariants.{NoMemory};

    ghost from_gives = { λ _ e. e ≡ NoMemory };

    fn from(_: AllocError) -> WordsFault {
        WordsFault::NoMemory
    }
}

impl From<PathFault> for WordsFault {
    ghost use Rattle.command_words.specs.Views.{of_path};

    ghost from_gives = { λ fault e. e ≡ of_path fault };

    fn from(fault: PathFault) -> WordsFault {
        match fault {
            PathFault::BadPath => WordsFault::Refused,
            PathFault::NoMemory => WordsFault::NoMemory,
        }
    }
}

impl From<NameFault> for WordsFault {
    ghost use Rattle.command_words.specs.Views.{of_name};

    ghost from_gives = { λ fault e. e ≡ of_name fault };

    fn from(fault: NameFault) -> WordsFault {
        match fault {
            NameFault::BadName => WordsFault::Refused,
            NameFault::NoMemory => WordsFault::NoMemory,
        }
    }
}
