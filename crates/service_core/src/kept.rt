//! The world as a journal keeps it.

use crate::world::World;
use flush_journal::Batch;
use flush_journal::keepings::Kept;
use std::alloc::AllocError;

impl Kept for World {
    ghost use Rattle.service_core.specs.Records.{DescribesWorld, IsCutRecord, WorldSays, as_kept};
    ghost use Rattle.service_core.specs.Steps as steps;

    ghost World = { steps.World };

    ghost world = { as_kept };

    ghost places = { λ w. w.register.places };

    ghost says = { WorldSays };

    ghost tells = { λ held w. DescribesWorld held w.register.run w };

    ghost is_cut = { IsCutRecord };

    fn cut(&mut self, into: &mut Batch) -> Result<(), AllocError> {
        let result = self.cut(into);
        self.is_described();
        result
    }

    fn places(&self) -> u64 {
        self.places()
    }
}
