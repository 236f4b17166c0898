//! The configuration that a source spells.

ghost use Rattle.std.specs.Prelude.{◌≤◌, IfErr, IfOk};
ghost use Rattle.configuration.specs.ConfiguredNodes.{HasFirstRoots, HasFirstSerials};
ghost use Rattle.hsds_cli.specs.Runs.{IsRefusal};
ghost use Rattle.hsds_cli.specs.Sides.{Spells};

use crate::status::Status;
use configuration::{Config, read_config};
use edge_traits::Source;
use edge_traits::source_texts::read_text;
use std::alloc::Global;

/// The most bytes of a configuration.
pub const CONFIG_LIMIT: usize = 1 << 20;

/// The configuration that a source spells.
pub fn configured<C: Source>(alloc: Global, config: &mut C) -> Result<Config, Status>
    ensures ok { IfOk result (λ made. Spells (C.left config.old) made) }
    ensures roots { IfOk result (λ made. HasFirstRoots made.catalogue) }
    ensures serials { IfOk result (λ made. HasFirstSerials made.catalogue) }
    ensures err { IfErr result (λ status. IsRefusal (C.left config.old)
        (C.faults config.old) (C.faults config.new) status) }
    ensures later { C.faults config.old ≤ C.faults config.new }
{
    let text = read_text(alloc, config, CONFIG_LIMIT)?;
    Ok(read_config(alloc, text.as_slice())?)
}
