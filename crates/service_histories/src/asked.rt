//! What is asked of the register.

use access_lists::Caller;
use object_ops::Request;
use std::snapshot::Snapshot;

/// Who asks, and what, as clauses see them. Both are lent for the call alone, so that an entry which
/// outlives it has no other part in them.
pub type Asked = (Snapshot<Caller>, Snapshot<Request>);
