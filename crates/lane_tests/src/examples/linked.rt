//! Objects in two lanes, which are linked from a group and then made.

use lane_histories::{Lanes, ReadyLanes};

/// The objects of each lane, and the next id.
pub struct LinkedObjects;

impl Lanes for LinkedObjects {
    ghost use Rattle.lane_tests.specs.Examples.Links.{contents, links};

    ghost service = { λ lanes. links };

    ghost contents = { λ lanes. contents };
}

impl ReadyLanes for LinkedObjects {
    ghost use Rattle.lane_tests.specs.Examples.Links.{links, readiness};

    ghost service = { λ lanes. links };

    ghost readiness = { λ lanes. readiness };
}
