//! Exchanges of alice over one link: requests, and what they are to be answered.
//!
//! A row is a method and a target, a body, and the status and the body of the answer. `~` stands for the middle of the id of an
//! object that was made in run 1, and `#` for that of the root. A line that begins with blanks goes on with the row before it.

use std::alloc::{AllocError, Global};

const MADE: &str = "-00000000-0001-8000-8000-01000000000";

const ROOT: &str = "-00000000-0001-8000-8000-000000000000";

/// What is sent, and what is to be answered.
#[derive(Drop)]
pub struct Exchange {
    pub sent: String,
    pub answers: String,
}

/// A column of a row, or nothing.
pub fn column(row: &str, at: usize) -> &str {
    row.split('|').nth(at).unwrap_or("")
}

/// A text as it is meant.
pub fn spelled(alloc: Global, text: &str) -> Result<String, AllocError> {
    let text = text.replace(alloc, "\n    ", "")?;
    text.replace(alloc, "~", MADE)?.replace(alloc, "#", ROOT)
}

/// The bytes of an answer, of which the status tells further lines.
fn reply(alloc: Global, status: &str, body: &str) -> Result<String, AllocError> {
    if status == "204 No Content" {
        return format!(in alloc; "HTTP/1.1 {status}\r\n\r\n");
    }
    let size = body.len();
    let extra = if status == "403 Forbidden" {
        "WWW-Authenticate: Bearer realm=\"hsds\"\r\n"
    } else {
        ""
    };
    format!(in alloc;
        "HTTP/1.1 {status}\r\nContent-Type: application/json\r\nContent-Length: {size}\r\n\
         {extra}\r\n{body}"
    )
}

/// The bytes of a request to the domain `/home/lab`.
fn request(alloc: Global, line: &str, body: &str) -> Result<String, AllocError> {
    let size = body.len();
    format!(in alloc;
        "{line} HTTP/1.1\r\nAuthorization: Bearer ta\r\nX-Hdf-domain: /home/lab\r\n\
         Content-Length: {size}\r\n\r\n{body}"
    )
}

/// The exchange of some rows.
pub fn exchange_of(alloc: Global, rows: &str) -> Result<Exchange, AllocError> {
    let rows = spelled(alloc, rows)?;
    let mut sent = String::new(alloc);
    let mut answers = String::new(alloc);
    for row in rows.as_str().split('\n') {
        sent.push_str(request(alloc, column(row, 0), column(row, 1))?.as_str())?;
        answers.push_str(reply(alloc, column(row, 2), column(row, 3))?.as_str())?;
    }
    Ok(Exchange { sent, answers })
}
