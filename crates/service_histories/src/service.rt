//! The array service, as a service with a register and lanes.

use lane_histories::{Lanes, MarkedLanes, ReadyLanes};

/// The register, the owners of the lanes, and the records that a journal holds of them.
pub struct ArrayService;

impl Lanes for ArrayService {
    ghost use Rattle.service_histories.specs.ArrayServices.{array_service};
    ghost use Rattle.service_histories.specs.JournalParts.{array_contents};

    ghost service = { array_service };

    ghost contents = { array_contents };
}

impl MarkedLanes for ArrayService {
    ghost use Rattle.service_histories.specs.ArrayServices.{array_service};
    ghost use Rattle.service_histories.specs.JournalParts.{array_contents};
    ghost use Rattle.service_histories.specs.Markings.{array_marking};

    ghost service = { array_service };

    ghost contents = { array_contents };

    ghost marking = { array_marking };
}

impl ReadyLanes for ArrayService {
    ghost use Rattle.service_histories.specs.ArrayServices.{array_service};
    ghost use Rattle.service_histories.specs.Readies.{array_readiness};

    ghost service = { array_service };

    ghost readiness = { array_readiness };
}
