ghost use Rattle.std.specs.Prelude.{◌≡◌, ◌≤◌, length, IfSome, codes};
ghost use Rattle.std.specs.Option.{option_copied};
ghost use Rattle.http_wire.specs.Replies.{phrase_of};

use http::StatusCode;

/// What stands behind the digits of a status (RFC 9110, section 15), for the statuses that are answered.
pub fn phrase_of(status: u16) -> Option<&'static str>
    ensures value { option_copied result ≡ phrase_of status }
    ensures bound { IfSome result (λ phrase. length phrase.now ≤ 31) }
{
    match StatusCode::from_u16(status).ok()? {
        StatusCode::OK => Some("OK"),
        StatusCode::CREATED => Some("Created"),
        StatusCode::NO_CONTENT => Some("No Content"),
        StatusCode::BAD_REQUEST => Some("Bad Request"),
        StatusCode::UNAUTHORIZED => Some("Unauthorized"),
        StatusCode::FORBIDDEN => Some("Forbidden"),
        StatusCode::NOT_FOUND => Some("Not Found"),
        StatusCode::METHOD_NOT_ALLOWED => Some("Method Not Allowed"),
        StatusCode::CONFLICT => Some("Conflict"),
        StatusCode::GONE => Some("Gone"),
        StatusCode::PAYLOAD_TOO_LARGE => Some("Content Too Large"),
        StatusCode::REQUEST_HEADER_FIELDS_TOO_LARGE => Some("Request Header Fields Too Large"),
        StatusCode::NOT_IMPLEMENTED => Some("Not Implemented"),
        StatusCode::SERVICE_UNAVAILABLE => Some("Service Unavailable"),
        StatusCode::INSUFFICIENT_STORAGE => Some("Insufficient Storage"),
        _ => None,
    }
}
