ghost use Rattle.std.specs.Prelude.{◌≡◌, IsErr, None, option_and_then};
ghost use Rattle.std.specs.Io.{ReadsAtMost};
ghost use Rattle.std.specs.Io.KnownBytes.{ReadConsumes};
ghost use Rattle.edge_traits.specs.Causes.{HasCause};

use edge_traits::{Failed, FaultCount, Source};
use std::io::Read;

/// A file that may not have been opened. It tells what is left where its reader does, and each read of a missing file is
/// a fault. It owns its reader and holds no end that is lent, so the trait's empty list of names is right for it, as it is
/// for the sources and sinks over std.
#[derive(Drop)]
pub struct OptionalFile<R: Read> {
    reader: Option<R>,
    count: FaultCount,
}

impl<R: Read> OptionalFile<R> {
    /// The file, where it was opened, with no fault yet.
    pub fn new(reader: Option<R>) -> OptionalFile<R>
        ensures left { ⟦<OptionalFile<R> as Source>⟧.left result
            ≡ option_and_then R.remaining reader }
        ensures faults { ⟦<OptionalFile<R> as Source>⟧.faults result ≡ 0 }
    {
        OptionalFile {
            reader,
            count: FaultCount::new(),
        }
    }
}

impl<R: Read> Source for OptionalFile<R> {
    ghost left = { λ s. option_and_then R.remaining s.reader };

    ghost faults = { λ s. s.count };

    fn read(&mut self, buf: &mut [u8]) -> Result<usize, Failed>
        ensures bound { ReadsAtMost result buf.old }
        ensures bytes { ReadConsumes (⟦<OptionalFile<R> as Source>⟧.left self.old)
            (⟦<OptionalFile<R> as Source>⟧.left self.new) result buf.new }
        ensures beside { ⟦<OptionalFile<R> as Source>⟧.beside self.new
            ≡ ⟦<OptionalFile<R> as Source>⟧.beside self.old }
        ensures names { ⟦<OptionalFile<R> as Source>⟧.names self.new
            ≡ ⟦<OptionalFile<R> as Source>⟧.names self.old }
        ensures cause { HasCause (⟦<OptionalFile<R> as Source>⟧.faults self.old)
            (⟦<OptionalFile<R> as Source>⟧.faults self.new) result }

        // A file that was not opened gives nothing, not even an end.
        ensures missing { self.old.reader ≡ None → IsErr result }
    {
        let Some(reader) = &mut self.reader else {
            self.count.rise();
            return Err(Failed);
        };
        let Ok(count) = reader.read(buf) else {
            self.count.rise();
            return Err(Failed);
        };
        Ok(count)
    }
}
