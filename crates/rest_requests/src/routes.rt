//! The routes of the service (HDF REST API): the paths that name something, and the methods of RFC 9110 that each of
//! them has.

mod routes;
mod table;

pub use routes::{Method, Methods, Route};
pub use table::RouteTable;
