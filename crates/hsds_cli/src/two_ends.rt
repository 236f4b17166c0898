//! Two streams as one link.

ghost use Rattle.std.specs.Prelude.{◌∷◌, [], refl};

use edge_traits::{Failed, Link, Sink, Source};

/// Two ends that are lent as one link.
#[derive(Drop)]
pub struct TwoEnds<'a, S, K> {
    pub input: &'a mut S,
    pub out: &'a mut K,
}

impl<'a, S: Source, K: Sink> Source for TwoEnds<'a, S, K> {
    ghost left = { λ l. S.left l.input.now };

    ghost faults = { λ l. S.Source.faults l.input.now };

    ghost beside = { λ l. (K.held l.out.now, K.Sink.faults l.out.now) };

    ghost names = { λ l. l.input.ghost_name ∷ l.out.ghost_name ∷ [] };

    fn read(&mut self, buf: &mut [u8]) -> Result<usize, Failed> {
        self.input.read(buf)
    }
}

impl<'a, S: Source, K: Sink> Sink for TwoEnds<'a, S, K> {
    ghost held = { λ l. K.held l.out.now };

    ghost faults = { λ l. K.Sink.faults l.out.now };

    ghost beside = { λ l. (S.left l.input.now, S.Source.faults l.input.now) };

    ghost names = { λ l. l.input.ghost_name ∷ l.out.ghost_name ∷ [] };

    fn write(&mut self, bytes: &[u8]) -> Result<usize, Failed> {
        self.out.write(bytes)
    }
}

impl<'a, S: Source, K: Sink> Link for TwoEnds<'a, S, K> {
    ghost source_beside = { λ link. refl };

    ghost sink_beside = { λ link. refl };

    ghost one_object = { λ link. refl };
}
