//! Why a message is no request.

ghost use Rattle.std.specs.Prelude.{◌≡◌};
ghost use Rattle.rest_requests.specs.declared.fault.RequestFault.TheVariants as fault;

use crate::routes::Methods;
use object_ops::Refusal;
use std::alloc::AllocError;

/// Why a message is no request.
#[derive(Drop)]
pub enum RequestFault {
    /// It is refused.
    Refused {
        /// Why.
        refusal: Refusal,
        /// The methods of the route, where the method is refused; else none.
        allow: Methods,
    },
    /// Memory ran out.
    NoMemory,
}

impl From<AllocError> for RequestFault {
    ghost from_gives = { λ _ e. e ≡ fault.NoMemory };

    fn from(_error: AllocError) -> RequestFault {
        RequestFault::NoMemory
    }
}
