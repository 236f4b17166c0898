ghost use Rattle.std.specs.Prelude.{◌≡◌};
ghost use Rattle.hsds_cli.specs.Status.{config_status, export_status, number_of, text_status, word_of};
ghost use Rattle.hsds_cli.specs.declared.status.Status.{Status};

use configuration::ConfigFault;
use edge_traits::source_texts::TextFault;
use json_export::ExportFault;

/// How a run of the program ends.
#[derive(Clone, Copy, Debug, PartialEq, Eq)]
pub enum Status {
    /// All that was asked is done.
    Done,
    /// The words are no command.
    Words,
    /// The configuration can't be used.
    Configuration,
    /// The configuration or the input had a fault.
    ReadFault,
    /// The output had a fault.
    WriteFault,
    /// The disk had a fault.
    DiskFault,
    /// No world stands on the disk.
    NotAJournal,
    /// No document is given, or one isn't taken.
    Refused,
    /// A journal stands on the disk already.
    JournalExists,
    /// A door had a fault.
    DoorFault,
    /// The input ended inside a request, or at one that ends the link.
    InputCut,
    /// No run is left, or no room on the disk.
    UsedUp,
    /// A link made as many requests as it may.
    Budget,
    /// There was no memory to begin with.
    NoMemory,
}

impl Status {
    /// The number with which the program exits.
    pub fn number(self) -> u8
        ensures { result ≡ number_of self }
    {
        match self {
            Status::Done => 0,
            Status::Words => 1,
            Status::Configuration => 2,
            Status::ReadFault => 3,
            Status::WriteFault => 4,
            Status::DiskFault => 5,
            Status::NotAJournal => 6,
            Status::Refused => 7,
            Status::JournalExists => 8,
            Status::DoorFault => 9,
            Status::InputCut => 10,
            Status::UsedUp => 11,
            Status::Budget => 12,
            Status::NoMemory => 13,
        }
    }
}

impl From<TextFault> for Status {
    ghost from_gives = { λ fault status. status ≡ text_status fault };

    fn from(fault: TextFault) -> Status {
        match fault {
            TextFault::TooLong => Status::Configuration,
            TextFault::ReadFault => Status::ReadFault,
            TextFault::NoMemory => Status::NoMemory,
        }
    }
}

impl From<ConfigFault> for Status {
    ghost from_gives = { λ fault status. status ≡ config_status fault };

    fn from(fault: ConfigFault) -> Status {
        match fault {
            ConfigFault::BadToml | ConfigFault::BadKey => Status::Configuration,
            ConfigFault::NoMemory => Status::NoMemory,
        }
    }
}

impl From<ExportFault> for Status {
    ghost from_gives = { λ fault status. status ≡ export_status fault };

    fn from(fault: ExportFault) -> Status {
        match fault {
            ExportFault::NoDomain | ExportFault::TooLarge => Status::Refused,
            ExportFault::NoMemory => Status::NoMemory,
        }
    }
}

/// The word for an exit number, which the program prints to standard error.
pub fn status_word(number: u8) -> &'static str
    ensures { (status : Status) → number ≡ number_of status → result.now ≡ word_of status }
{
    match number {
        0 => "done",
        1 => "words",
        2 => "configuration",
        3 => "read-fault",
        4 => "write-fault",
        5 => "disk-fault",
        6 => "not-a-journal",
        7 => "refused",
        8 => "journal-exists",
        9 => "door-fault",
        10 => "input-cut",
        11 => "used-up",
        12 => "budget",
        _ => "no-memory",
    }
}
