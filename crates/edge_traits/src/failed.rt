/// A call of a source, a sink, a disk or a door failed. It is answered only where that object's count of faults rose
/// in this call.
#[derive(Clone, Copy, Debug, PartialEq, Eq)]
pub struct Failed;
