//! Bearer tokens: who sends a request, by its Authorization header (RFC 9110, section 11.6.2; RFC 6750, section 2.1).

mod header;
mod table;

pub use header::bearer_token;
pub use table::TokenTable;
