ghost use Rattle.std.specs.Prelude.{◌≡◌};

use crate::{Sink, Source};

/// Both ends of a conversation in one object. The two counts of faults are kept apart: no read touches what the sink
/// holds or its count, and no write what the source has left or its count.
pub trait Link: Source + Sink {
    /// Beside the source stands the sink.
    ghost source_beside: { (link : Self) → Self.Source.beside link ≡ (Self.Sink.held link, Self.Sink.faults link) };

    /// Beside the sink stands the source.
    ghost sink_beside: { (link : Self) → Self.Sink.beside link ≡ (Self.Source.left link, Self.Source.faults link) };

    /// Both ends are reached through the same references.
    ghost one_object: { (link : Self) → Self.Source.names link ≡ Self.Sink.names link };
}
