//! Answers to requests, as a link writes them.

ghost use Rattle.std.specs.Prelude.{◌≡◌, ◌⊎◌, Bool, [], IfOk};
ghost use Rattle.rest_session.specs.Links.Replies.{reply_bytes};
ghost use Rattle.http_wire.specs.Replies.{no_memory_reply};
ghost use Rattle.service_core.specs.AnswerTrees.Exact.{IsExact};
ghost use Rattle.rest_session.specs.Responses.{IsKeptAnswer, IsResponse, IsSaid, IsUnkept, refused};
ghost use Rattle.rest_session.specs.Responses.{extra_of, extra_said, listed, status_said};

use crate::links::{Response, ResponseBody};
use crate::texts::{answer_text, refusal_text};
use flush_journal::Why;
use http_wire::Extra;
use object_ops::{Refusal, Reply};
use rest_requests::routes::Methods;
use service_core::{Answer, What};
use std::alloc::{AllocError, Global};

/// The answer that says that memory is wanting. It takes none.
pub fn no_memory() -> Response
    ensures { (close : Bool) → reply_bytes result close ≡ no_memory_reply close }
{
    Response {
        status: 507,
        extra: Extra::None,
        body: ResponseBody::Fixed("{\"reason\":\"no-memory\"}"),
    }
}

/// The answer that refuses a request. `path` is where the request was decided; `allow` has the methods of its route.
///
/// # Errors
///
/// Only where memory runs out.
pub fn refusal_reply(
    alloc: Global,
    path: &str,
    refusal: &Refusal,
    allow: Methods,
) -> Result<Response, AllocError>
    ensures { IfOk result (λ reply. (close : Bool)
        → reply_bytes reply close ≡ refused path.now refusal.now allow close) }
{
    let text = refusal_text(alloc, path, refusal)?;
    Ok(Response {
        status: refusal.status(),
        extra: extra_of(refusal, allow),
        body: ResponseBody::Text(text),
    })
}

/// Answers what is no request.
pub(crate) fn refuse(alloc: Global, refusal: &Refusal, allow: Methods) -> Response
    ensures { (close : Bool) → (reply_bytes result close ≡ refused [] refusal.now allow close)
        ⊎ (reply_bytes result close ≡ no_memory_reply close) }
{
    match refusal_reply(alloc, "", refusal, allow) {
        Ok(reply) => reply,
        Err(_) => no_memory(),
    }
}

/// Says why a change that stands was not kept.
pub(crate) fn unkept_reply(alloc: Global, why: Why) -> Response
    ensures { (close : Bool) → IsUnkept why close (reply_bytes result close) }
{
    match why {
        Why::DiskFault => refuse(alloc, &Refusal::DiskFault, Methods::NONE),
        Why::JournalFull { end, need, room } => {
            refuse(
                alloc,
                &Refusal::JournalFull { end, need, room },
                Methods::NONE,
            )
        }
        Why::NotAJournal { .. } | Why::Exists | Why::NoMemory => no_memory(),
    }
}

// The header line that a refusal has beside.
fn extra_of(refusal: &Refusal, allow: Methods) -> Extra
    ensures { result ≡ extra_of refusal.now allow }
{
    match refusal {
        Refusal::BadToken | Refusal::Forbidden { .. } => Extra::Bearer,
        Refusal::Method => Extra::Allow(listed(allow)),
        _ => Extra::None,
    }
}

// The methods of a route, as an answer lists them.
fn listed(methods: Methods) -> http_wire::Methods
    ensures { result ≡ listed methods }
{
    http_wire::Methods {
        delete: methods.delete,
        get: methods.get,
        post: methods.post,
        put: methods.put,
    }
}

/// The answer to a request that was decided at `path`. Where its text finds no memory, it says that memory is wanting.
pub fn answer_reply(alloc: Global, path: &str, answer: &Answer) -> Response
    requires { IsExact answer.now.what }
    ensures { (close : Bool)
        → IsResponse path.now answer.now.what close (reply_bytes result close) }
{
    match said(alloc, path, answer) {
        Ok(reply) => reply,
        Err(_) => no_memory(),
    }
}

/// The answer to a request that was to be kept first. Where it wasn't, it acknowledges nothing.
pub(crate) fn kept_reply(
    alloc: Global,
    path: &str,
    answer: &Answer,
    kept: Result<(), Why>,
) -> Response
    requires { IsExact answer.now.what }
    ensures { (close : Bool)
        → IsKeptAnswer path.now answer.now.what close kept (reply_bytes result close) }
{
    match kept {
        Ok(()) => answer_reply(alloc, path, answer),
        Err(why) => unkept_reply(alloc, why),
    }
}

// The answer with its text.
fn said(alloc: Global, path: &str, answer: &Answer) -> Result<Response, AllocError>
    requires { IsExact answer.now.what }
    ensures { IfOk result (λ reply. (close : Bool)
        → IsSaid path.now answer.now.what close (reply_bytes reply close)) }
{
    let text = answer_text(alloc, path, answer)?;
    Ok(Response {
        status: status_said(&answer.what),
        extra: extra_said(&answer.what),
        body: ResponseBody::Text(text),
    })
}

// The status of an answer.
fn status_said(what: &What) -> u16
    ensures { result ≡ status_said what.now }
{
    match what {
        What::Replied(Reply::Done { status, .. }) => *status,
        What::Replied(Reply::Refused(refusal)) => refusal.status(),
        What::Denied { .. } => 403,
        What::NoMemory => 507,
    }
}

// The header line that an answer has beside.
fn extra_said(what: &What) -> Extra
    ensures { result ≡ extra_said what.now }
{
    match what {
        What::Replied(Reply::Refused(refusal)) => extra_of(refusal, Methods::NONE),
        What::Denied { .. } => Extra::Bearer,
        What::Replied(Reply::Done { .. }) | What::NoMemory => Extra::None,
    }
}
