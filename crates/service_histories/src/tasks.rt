//! What a turn of a lane does.

use object_ops::{Grant, Op, Step};

/// What a turn of a lane does: a step of a granted request, or the drop of a domain's objects.
#[derive(Drop)]
pub enum Task {
    /// One step of what is asked, on the object that it touches.
    TakesStep { grant: Grant, op: Op, step: Step },
    /// All objects of the domain of a number go.
    DropsDomain { number: u64 },
}
