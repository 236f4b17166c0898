//! The reading of a request.

ghost use Rattle.std.specs.Prelude.{◌≡◌, IfOk};
ghost use Rattle.std.specs.Option.{option_copied};
ghost use Rattle.object_ops.specs.Conditions.{IsSoundOp};
ghost use Rattle.request_bodies.specs.Refusing.{Answers, Gives};
ghost use Rattle.rest_requests.specs.Requests.{AnswersAt, LendsAt, allow_of, copied, form_by};
ghost use Rattle.rest_requests.specs.Requests.{form_of, is_flush, known};
ghost use Rattle.rest_requests.specs.Requests.{methods_at, request_of, routed, said};

use crate::domain::domain_of;
use crate::fault::RequestFault;
use crate::forms::{Form, form_at};
use crate::operations::op_of;
use crate::parts::RequestParts;
use crate::queries::{first_value, path_and_query};
use crate::routes::{Method, Methods, Route};
use crate::tokens::Tokens;
use access_lists::Caller;
use object_ops::{Refusal, Request};
use request_bodies::BodyFault;
use std::alloc::{AllocError, Global};

/// The caller and the request that a message is. The caller is a copy; [`lent_request`] lends it.
///
/// # Errors
///
/// The first refusal, in this order: `NoRoute`, `Method`, `BadToken`, `BadDomain`, `BadJson`, `BadField`,
/// `UnsupportedType`, `BadShape`, `BadName`; but creation properties and the value of an attribute are judged only where
/// type and shape are accepted.
pub fn read_request(
    alloc: Global,
    parts: &RequestParts<'_>,
    tokens: &Tokens,
) -> Result<(Caller, Request), RequestFault>
    ensures exact { AnswersAt (said parts.now).target result
        (request_of tokens.now (said parts.now)) }
    ensures sound { IfOk result (λ read. IsSoundOp read.1.op) }
{
    let (caller, request) = lent_request(alloc, parts, tokens)?;
    Ok((caller.copy()?, request))
}

/// The caller, whom the tokens lend, and the request that a message is.
///
/// # Errors
///
/// Those of [`read_request`].
pub fn lent_request<'t>(
    alloc: Global,
    parts: &RequestParts<'_>,
    tokens: &'t Tokens,
) -> Result<(&'t Caller, Request), RequestFault>
    ensures exact { LendsAt (said parts.now).target result
        (request_of tokens.now (said parts.now)) }
    ensures sound { IfOk result (λ read. IsSoundOp read.1.op) }
{
    match request(alloc, parts, tokens) {
        Ok(read) => Ok(read),
        Err(BodyFault::NoMemory) => Err(RequestFault::NoMemory),
        Err(BodyFault::Refused(refusal)) => Err(RequestFault::Refused {
            allow: allow_of(tokens, parts.target, &refusal),
            refusal,
        }),
    }
}

fn request<'t>(
    alloc: Global,
    parts: &RequestParts<'_>,
    tokens: &'t Tokens,
) -> Result<(&'t Caller, Request), BodyFault>
    ensures exact { Gives copied result (request_of tokens.now (said parts.now)) }
    ensures sound { IfOk result (λ read. IsSoundOp read.1.op) }
{
    let (path, query) = path_and_query(parts.target);
    let route = routed(tokens, path)?;
    let form = form_of(route, parts.method)?;
    let caller = known(tokens, parts.authorization)?;
    let domain = domain_of(alloc, query, parts.domain)?;
    let form = form_by(alloc, query, form)?;
    let op = op_of(alloc, form, path, query, parts.body)?;
    Ok((caller, Request { path: domain, op }))
}

fn routed(tokens: &Tokens, path: &str) -> Result<Route, BodyFault>
    ensures { Answers result (routed path.now) }
{
    match tokens.route(path) {
        Some(route) => Ok(route),
        None => Err(BodyFault::Refused(Refusal::NoRoute)),
    }
}

fn form_of(route: Route, method: &str) -> Result<Form, BodyFault>
    ensures { Answers result (form_of route method.now) }
{
    let Some(method) = Method::named(method) else {
        return Err(BodyFault::Refused(Refusal::Method));
    };
    match form_at(route, method) {
        Some(form) => Ok(form),
        None => Err(BodyFault::Refused(Refusal::Method)),
    }
}

// What is asked where a query may ask for a flush.
fn form_by(alloc: Global, query: &str, form: Form) -> Result<Form, AllocError>
    ensures { IfOk result (λ by. by ≡ form_by query.now form) }
{
    if form == Form::PutNode && is_flush(alloc, query)? {
        return Ok(Form::Flush);
    }
    Ok(form)
}

fn is_flush(alloc: Global, query: &str) -> Result<bool, AllocError>
    ensures { IfOk result (λ flush. flush ≡ is_flush query.now) }
{
    match first_value(alloc, query, "flush")? {
        Some(text) => Ok(text.as_str() == "1"),
        None => Ok(false),
    }
}

fn known<'a>(tokens: &'a Tokens, authorization: Option<&[u8]>) -> Result<&'a Caller, BodyFault>
    ensures { Gives (λ caller. caller.now) result
        (known tokens.now (option_copied authorization.entry)) }
{
    match tokens.identify(authorization) {
        Some(caller) => Ok(caller),
        None => Err(BodyFault::Refused(Refusal::BadToken)),
    }
}

// The methods that the answer to a refusal lists.
fn allow_of(tokens: &Tokens, target: &str, refusal: &Refusal) -> Methods
    ensures { result ≡ allow_of target.now refusal.now }
{
    match refusal {
        Refusal::Method => methods_at(tokens, target),
        _ => Methods::NONE,
    }
}

fn methods_at(tokens: &Tokens, target: &str) -> Methods
    ensures { result ≡ methods_at target.now }
{
    let (path, _) = path_and_query(target);
    match tokens.route(path) {
        Some(route) => route.methods(),
        None => Methods::NONE,
    }
}
