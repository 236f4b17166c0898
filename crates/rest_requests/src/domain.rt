//! Where a request is asked: the path of a folder or a domain.

ghost use Rattle.std.specs.Prelude.{◌≡◌, IfOk, option_map};
ghost use Rattle.std.specs.Cow.{cow_str_bytes};
ghost use Rattle.std.specs.Option.{option_copied};
ghost use Rattle.request_bodies.specs.Refusing.{Answers};
ghost use Rattle.rest_requests.specs.Domains.{bytes_path, domain_of, header_path, named_domain, path_in};

use crate::queries::{first_value, text_in};
use object_ids::{DomainPath, PathFault, read_path};
use object_ops::Refusal;
use request_bodies::BodyFault;
use std::alloc::{AllocError, Global};
use std::borrow::CowStr;

/// The path at which a request is asked: what the query has at `domain`, else at `host`, else the header's value, as
/// it stands, else `/`.
pub(crate) fn domain_of(
    alloc: Global,
    query: &str,
    header: Option<&[u8]>,
) -> Result<DomainPath, BodyFault>
    ensures { Answers result (domain_of query.now (option_copied header.entry)) }
{
    match named_domain(alloc, query)? {
        Some(text) => path_in(alloc, text.as_str()),
        None => header_path(alloc, header),
    }
}

fn named_domain(alloc: Global, query: &str) -> Result<Option<CowStr<'_>>, AllocError>
    ensures { IfOk result (λ text. option_map cow_str_bytes text ≡ named_domain query.now) }
{
    match first_value(alloc, query, "domain")? {
        Some(text) => Ok(Some(text)),
        None => first_value(alloc, query, "host"),
    }
}

fn header_path(alloc: Global, header: Option<&[u8]>) -> Result<DomainPath, BodyFault>
    ensures { Answers result (header_path (option_copied header.entry)) }
{
    match header {
        Some(bytes) => bytes_path(alloc, bytes),
        None => path_in(alloc, "/"),
    }
}

fn bytes_path(alloc: Global, bytes: &[u8]) -> Result<DomainPath, BodyFault>
    ensures { Answers result (bytes_path bytes.now) }
{
    match text_in(bytes) {
        Some(text) => path_in(alloc, text),
        None => Err(BodyFault::Refused(Refusal::BadDomain)),
    }
}

fn path_in(alloc: Global, text: &str) -> Result<DomainPath, BodyFault>
    ensures { Answers result (path_in text.now) }
{
    match read_path(alloc, text) {
        Ok(path) => Ok(path),
        Err(PathFault::BadPath) => Err(BodyFault::Refused(Refusal::BadDomain)),
        Err(PathFault::NoMemory) => Err(BodyFault::NoMemory),
    }
}
