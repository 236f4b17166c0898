//! One link, from its first message to its end, over any service: each message that the link gives
//! has its one answer, in order, in whatever pieces the bytes come.

mod end;
pub mod laws;
mod response;
mod serve;
mod service;
mod writing;

pub use end::{BUDGET, LinkEnd};
pub use response::{Response, ResponseBody};
pub use serve::serve_link;
pub use service::Service;
