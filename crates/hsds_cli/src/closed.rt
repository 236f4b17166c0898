use rest_session::halls::Report;
use rest_session::links::LinkEnd;

/// How the links of a run ended: a list of ends for a session's one link, or one for each door, in order.
#[derive(Drop)]
pub enum Ends {
    /// The one link of a session.
    Link(LinkEnd),
    /// The links of each door, one after another, with what its worker tells.
    Doors(Vec<Report>),
}

/// How a session or a server left the world.
#[derive(Drop)]
pub struct Closed {
    /// How many requests the world had decided at the end.
    pub front: u64,
    /// How many of these are kept.
    pub kept: u64,
    /// How the links ended.
    pub ends: Ends,
}
