ghost use Rattle.std.specs.Prelude.{◌≡◌, ℕ};

use crate::faults::FaultCount;
use crate::{Failed, Source};
use std::io::Read;

/// A source over a reader of std. It tells what is left where the reader does.
#[derive(Drop)]
pub struct StdSource<R: Read> {
    reader: R,
    count: FaultCount,
}

impl<R: Read> StdSource<R> {
    /// A source of what the reader gives, with no fault yet.
    pub fn new(reader: R) -> StdSource<R>
        ensures left { ⟦<StdSource<R> as Source>⟧.left result ≡ R.remaining reader }
        ensures faults { ⟦<StdSource<R> as Source>⟧.faults result ≡ 0 }
    {
        StdSource {
            reader,
            count: FaultCount::new(),
        }
    }
}

impl<R: Read> Source for StdSource<R> {
    ghost left = { λ s. R.remaining s.reader };

    ghost faults = { λ s. s.count };

    fn read(&mut self, buf: &mut [u8]) -> Result<usize, Failed> {
        match self.reader.read(buf) {
            Ok(count) => Ok(count),
            Err(_) => {
                self.count.rise();
                Err(Failed)
            }
        }
    }
}
