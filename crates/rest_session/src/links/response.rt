ghost use Rattle.std.specs.Prelude.{◌≡◌};

use http_wire::Extra;

/// The body of an answer.
#[derive(Drop)]
pub enum ResponseBody {
    /// A text of its own.
    Text(String),
    /// A constant text, which takes no memory.
    Fixed(&'static str),
}

impl ResponseBody {
    ghost use Rattle.rest_session.specs.Links.Replies.{body_bytes};

    /// Its bytes.
    pub fn as_bytes(&self) -> &[u8]
        ensures { result.now ≡ body_bytes self.now }
    {
        match self {
            ResponseBody::Text(text) => text.as_bytes(),
            ResponseBody::Fixed(text) => text.as_bytes(),
        }
    }
}

/// An answer, without the lines that stand in front of each body.
#[derive(Drop)]
pub struct Response {
    pub status: u16,
    pub extra: Extra,
    pub body: ResponseBody,
}
