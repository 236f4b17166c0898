ghost use Rattle.std.specs.Prelude.{◌≡◌, ℕ, Some, List, refl};

use crate::{Failed, Link, MemSink, MemSource, Sink, Source};

/// A link in memory: a source and a sink.
#[derive(Drop)]
pub struct MemLink {
    source: MemSource,
    sink: MemSink,
}

impl MemLink {
    /// A link of these two ends.
    pub fn new(source: MemSource, sink: MemSink) -> MemLink
        ensures left { ⟦<MemLink as Source>⟧.left result ≡ ⟦<MemSource as Source>⟧.left source }
        ensures held { ⟦<MemLink as Sink>⟧.held result ≡ ⟦<MemSink as Sink>⟧.held sink }
        ensures read_faults { ⟦<MemLink as Source>⟧.faults result ≡ ⟦<MemSource as Source>⟧.faults source }
        ensures write_faults { ⟦<MemLink as Sink>⟧.faults result ≡ ⟦<MemSink as Sink>⟧.faults sink }
    {
        MemLink { source, sink }
    }

    /// The bytes that the link's sink holds.
    pub fn bytes(&self) -> &[u8]
        ensures { ⟦<MemLink as Sink>⟧.held self.now ≡ Some result.now }
    {
        self.sink.bytes()
    }
}

impl Source for MemLink {
    ghost left = { λ l. ⟦<MemSource as Source>⟧.left l.source };

    ghost faults = { λ l. ⟦<MemSource as Source>⟧.faults l.source };

    ghost beside = { λ l. (⟦<MemSink as Sink>⟧.held l.sink, ⟦<MemSink as Sink>⟧.faults l.sink) };

    fn read(&mut self, buf: &mut [u8]) -> Result<usize, Failed> {
        self.source.read(buf)
    }
}

impl Sink for MemLink {
    ghost held = { λ l. ⟦<MemSink as Sink>⟧.held l.sink };

    ghost faults = { λ l. ⟦<MemSink as Sink>⟧.faults l.sink };

    ghost beside = { λ l. (⟦<MemSource as Source>⟧.left l.source, ⟦<MemSource as Source>⟧.faults l.source) };

    fn write(&mut self, bytes: &[u8]) -> Result<usize, Failed> {
        self.sink.write(bytes)
    }
}

impl Link for MemLink {
    ghost source_beside = { λ link. refl };

    ghost sink_beside = { λ link. refl };

    ghost one_object = { λ link. refl };
}
