ghost use Rattle.std.specs.Prelude.{◌≡◌, ℕ};

use crate::faults::FaultCount;
use crate::{Failed, Sink};
use std::io::Write;

/// A sink over a writer of std. It tells what it holds where the writer does.
#[derive(Drop)]
pub struct StdSink<W: Write> {
    writer: W,
    count: FaultCount,
}

impl<W: Write> StdSink<W> {
    /// A sink into the writer, with no fault yet.
    pub fn new(writer: W) -> StdSink<W>
        ensures held { ⟦<StdSink<W> as Sink>⟧.held result ≡ W.contents writer }
        ensures faults { ⟦<StdSink<W> as Sink>⟧.faults result ≡ 0 }
    {
        StdSink {
            writer,
            count: FaultCount::new(),
        }
    }
}

impl<W: Write> Sink for StdSink<W> {
    ghost held = { λ s. W.contents s.writer };

    ghost faults = { λ s. s.count };

    fn write(&mut self, bytes: &[u8]) -> Result<usize, Failed> {
        match self.writer.write(bytes) {
            Ok(count) if count > 0 || bytes.is_empty() => Ok(count),
            _ => {
                self.count.rise();
                Err(Failed)
            }
        }
    }
}
