//! Requests by their names, and the texts of answers.

ghost use Rattle.std.specs.Prelude.{IfOk, IfSome};
ghost use Rattle.object_ops.specs.Conditions.{IsSoundOp};

use access_lists::{Caller, Names, Right};
use object_ids::Name;
use object_ops::{Refusal, Reply, Request, on_text, refusal_json};
use rest_requests::{RequestParts, Tokens, read_request};
use service_core::{What, World};
use std::alloc::{AllocError, Global};
use std::test::Fail;

/// A name, who asks, at which path, the method, the target and the body. `~` stands for the numbers of an id of the
/// domain 1 that is made in run 1, `^` for those of run 2: serials of even numbers are of lane 0, the others of lane 1.
const REQUESTS: &str = r#"make|alice|/lab|POST|/groups|{}
join0|alice|/lab|POST|/groups|{"link":{"id":"g~00","name":"x"}}
join1|alice|/lab|POST|/groups|{"link":{"id":"g~01","name":"x"}}
put0|alice|/lab|PUT|/groups/g~00/attributes/u|{"type":"H5T_STD_I8LE","value":7}
put1|alice|/lab|PUT|/groups/g~01/attributes/u|{"type":"H5T_STD_I8LE","value":7}
new0|alice|/lab|PUT|/groups/g^00/attributes/u|{"type":"H5T_STD_I8LE","value":7}
drop0|alice|/lab|DELETE|/groups/g~00/attributes/u|
drop1|alice|/lab|DELETE|/groups/g~01/attributes/u|
unlink0|alice|/lab|DELETE|/groups/g~00/links/x|
get0|alice|/lab|GET|/groups/g~00/links|
get1|alice|/lab|GET|/groups/g~01/attributes|
gone1|alice|/lab|DELETE|/groups/g~01|
bob0|bob|/lab|PUT|/groups/g~00/attributes/v|{"type":"H5T_STD_I8LE","value":8}
bob1|bob|/lab|PUT|/groups/g~01/attributes/v|{"type":"H5T_STD_I8LE","value":8}
see1|bob|/lab|GET|/groups/g~01/attributes|
deny|alice|/lab|PUT|/acls/bob|{"create":false,"read":false,"update":false,"delete":false,"readACL":false,"updateACL":false}
allow|alice|/lab|PUT|/acls/bob|{"create":true,"read":true,"update":true,"delete":true,"readACL":true,"updateACL":true}
lists|alice|/lab|GET|/acls|
flush|alice|/lab|PUT|/?flush=1|
end|alice|/lab|DELETE|/|
lab|alice|/lab|PUT|/|
far|alice|/far|PUT|/|
far0|alice|/far|POST|/groups|{}
folder|alice|/f|PUT|/|{"folder":true}"#;

/// A column of a row.
pub(crate) fn column(row: &str, at: usize) -> &str {
    row.split('|').nth(at).unwrap_or("")
}

/// The row of a name; an empty one where there is none.
pub(crate) fn row_of(name: &str) -> &'static str {
    for row in REQUESTS.split('\n') {
        if column(row, 0) == name {
            return row;
        }
    }
    ""
}

/// A user of some groups; nothing where memory ran out.
fn user(alloc: Global, name: &str, groups: &str) -> Option<Caller> {
    let mut names = Names::new(alloc);
    for group in groups.split_ascii_whitespace() {
        names.push(Name::read(alloc, group, 253).ok()?).ok()?;
    }
    Some(Caller {
        user: Some(Name::read(alloc, name, 255).ok()?),
        groups: names,
    })
}

/// The users of the laboratory; nothing where memory ran out.
pub(crate) fn known(alloc: Global) -> Option<Tokens> {
    let mut tokens = Tokens::new(alloc).ok()?;
    for (name, groups) in [("alice", "lab"), ("bob", "lab ops"), ("carol", "lab")] {
        tokens
            .put(name.as_bytes(), user(alloc, name, groups)?)
            .ok()?;
    }
    Some(tokens)
}

pub(crate) fn tokens(alloc: Global) -> Result<Tokens, Fail> {
    match known(alloc) {
        Some(tokens) => Ok(tokens),
        None => Err(Fail::from("no memory")),
    }
}

fn bearer(user: &str) -> &'static [u8] {
    match user {
        "alice" => b"Bearer alice",
        "carol" => b"Bearer carol",
        _ => b"Bearer bob",
    }
}

/// A text with the numbers of the ids that it names.
pub(crate) fn spelled(alloc: Global, text: &str) -> Result<String, AllocError> {
    let text = text.replace(alloc, "~", "-00000000-0001-8000-8000-0100000000")?;
    text.replace(alloc, "^", "-00000000-0001-8000-8000-0200000000")
}

/// The caller and the request of a row; nothing where it is none, or memory ran out.
pub(crate) fn read_ask(alloc: Global, tokens: &Tokens, row: &str) -> Option<(Caller, Request)>
    ensures { IfSome result (λ read. IsSoundOp read.1.op) }
{
    let target = spelled(alloc, column(row, 4)).ok()?;
    let body = spelled(alloc, column(row, 5)).ok()?;
    let message = RequestParts {
        method: column(row, 3),
        target: target.as_str(),
        authorization: Some(bearer(column(row, 1))),
        domain: Some(column(row, 2).as_bytes()),
        body: body.as_bytes(),
    };
    match read_request(alloc, &message, tokens) {
        Ok(read) => Some(read),
        Err(_) => None,
    }
}

/// The caller and the request of a row.
pub(crate) fn read_row(alloc: Global, tokens: &Tokens, row: &str) -> Result<(Caller, Request), Fail>
    ensures { IfOk result (λ read. IsSoundOp read.1.op) }
{
    match read_ask(alloc, tokens, row) {
        Some(read) => Ok(read),
        None => Err(Fail::from("a row is no request")),
    }
}

/// The request of a row.
pub(crate) fn request_of(alloc: Global, tokens: &Tokens, row: &str) -> Result<Request, Fail>
    ensures { IfOk result (λ request. IsSoundOp request.op) }
{
    match read_ask(alloc, tokens, row) {
        Some((_, request)) => Ok(request),
        None => Err(Fail::from("a row is no request")),
    }
}

// ---- answers

fn with_status(alloc: Global, status: u16, body: &str) -> Result<String, AllocError> {
    format!(in alloc; "{status} {body}")
}

pub(crate) fn refusal_text(
    alloc: Global,
    path: &str,
    refusal: &Refusal,
) -> Result<String, AllocError> {
    let tree = refusal_json(alloc, path, refusal)?;
    with_status(alloc, refusal.status(), tree.to_string(alloc)?.as_str())
}

pub(crate) fn denial_text(alloc: Global, path: &str, right: Right) -> Result<String, AllocError> {
    refusal_text(alloc, path, &Refusal::Forbidden { right })
}

/// The status and the body of an answer.
pub(crate) fn reply_text(alloc: Global, path: &str, reply: &Reply) -> Result<String, AllocError> {
    match reply {
        Reply::Done { status, body } => with_status(alloc, *status, body.text(alloc)?.as_str()),
        Reply::Refused(refusal) => refusal_text(alloc, path, refusal),
    }
}

/// The same of what is answered at a place; nothing where memory ran out.
pub(crate) fn answer_text(alloc: Global, path: &str, what: &What) -> Option<String> {
    match what {
        What::Replied(reply) => reply_text(alloc, path, reply).ok(),
        What::Denied { right } => denial_text(alloc, path, *right).ok(),
        What::NoMemory => None,
    }
}

/// What a world answers to a request.
pub(crate) fn answer_of(
    alloc: Global,
    world: &mut World,
    caller: &Caller,
    request: &Request,
) -> Result<String, Fail>
    requires { IsSoundOp request.now.op }
{
    if !world.has_room() {
        return Err(Fail::from("no room"));
    }
    let answer = world.step(caller, request);
    match answer_text(alloc, on_text(request), &answer.what) {
        Some(text) => Ok(text),
        None => Err(Fail::from("no memory")),
    }
}

/// What it answers to the request of a row.
pub(crate) fn answer_to(
    alloc: Global,
    tokens: &Tokens,
    world: &mut World,
    row: &str,
) -> Result<String, Fail> {
    let (caller, request) = read_row(alloc, tokens, row)?;
    answer_of(alloc, world, &caller, &request)
}
