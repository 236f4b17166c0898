//! Why a request is refused.

ghost use Rattle.std.specs.Prelude.{◌≡◌};
ghost use Rattle.object_ops.specs.Refusals.{status_of, reason_of};

use crate::words::{FieldWord, SelectWord, ShapeWord, ValueWord};
use access_lists::Right;
use hdf_types::Class;
use object_ids::{LimitKind, Name, ObjectId};

/// Why a request is refused. Of several refusals of one request the one that stands first here decides, but what folders,
/// domains, access lists and the serials of a run refuse, and a link to another domain, come before what an object
/// refuses; and too many points come before any fault of one of them.
#[derive(Drop)]
pub enum Refusal {
    /// The head is none (RFC 9112).
    BadHead,
    /// The head is too long, or has too many fields.
    HeadTooLong,
    /// The length of the body is none, or stands twice.
    BadLength,
    /// The body is too long.
    BodyTooLong,
    /// The body comes in a transfer coding.
    TransferCoding,
    /// No route has the path.
    NoRoute,
    /// The route has not the method.
    Method,
    /// The credentials are no bearer token of the table (RFC 6750, section 3.1).
    BadToken,
    /// The path of the folder or the domain is none.
    BadDomain,
    /// The body is no JSON object.
    BadJson,
    /// A part is missing or of the wrong form.
    BadField {
        /// The part.
        field: FieldWord,
    },
    /// The class of types is not supported.
    UnsupportedType {
        /// The class.
        class: Class,
    },
    /// The shape is none.
    BadShape {
        /// What is wrong.
        fault: ShapeWord,
    },
    /// A name or a title is none.
    BadName,
    /// No folder or domain of the wanted class stands at the path.
    NoDomain,
    /// The list in force doesn't give the caller the right.
    Forbidden {
        /// The right that the request needs.
        right: Right,
    },
    /// No object has the id.
    NoObject {
        /// The id.
        id: ObjectId,
    },
    /// No object has the id any more.
    Gone {
        /// The id.
        id: ObjectId,
    },
    /// The selection, the points or the dims don't fit the dataset's shape.
    BadSelect {
        /// What is wrong.
        fault: SelectWord,
        /// The axis, where one is at fault.
        axis: Option<u8>,
        /// The byte of a text, where one is at fault.
        byte: Option<u64>,
        /// The number of a point, where one is at fault.
        index: Option<u64>,
    },
    /// More points, elements or bytes than one request may have.
    TooMany {
        /// How many.
        count: u64,
        /// How many there may be.
        limit: u64,
    },
    /// The value doesn't fit the type and the part.
    BadValue {
        /// What is wrong.
        fault: ValueWord,
        /// The place of the element in row-major order, where one is at fault.
        place: Option<u64>,
        /// The length of a list, where it is at fault.
        got: Option<u64>,
        /// The length that the list should have.
        want: Option<u64>,
    },
    /// The name, the title or the path is there already.
    Taken {
        /// The name.
        name: Name,
    },
    /// The folder isn't empty.
    NotEmpty,
    /// No link, attribute or entry has the name.
    NoName {
        /// The name.
        name: Name,
    },
    /// The root is never removed.
    Root,
    /// There are as many as there may be.
    Limit {
        /// How many there may be.
        limit: u64,
        /// What there are so many of.
        what: LimitKind,
    },
    /// The disk failed.
    DiskFault,
    /// The journal has no room.
    JournalFull {
        /// Where the journal ends.
        end: u64,
        /// How many bytes more it needs.
        need: u64,
        /// How many bytes it may have.
        room: u64,
    },
}

impl Refusal {
    /// The status of its answer (RFC 9110, section 15).
    pub fn status(&self) -> u16
        ensures { result ≡ status_of self.now }
    {
        match self {
            Refusal::BadToken => 401,
            Refusal::Forbidden { .. } => 403,
            Refusal::NoRoute
            | Refusal::NoDomain
            | Refusal::NoObject { .. }
            | Refusal::NoName { .. } => 404,
            Refusal::Method => 405,
            Refusal::Taken { .. } | Refusal::NotEmpty | Refusal::Root | Refusal::Limit { .. } =>
                409,
            Refusal::Gone { .. } => 410,
            Refusal::BodyTooLong | Refusal::TooMany { .. } => 413,
            Refusal::HeadTooLong => 431,
            Refusal::TransferCoding => 501,
            Refusal::DiskFault | Refusal::JournalFull { .. } => 503,
            _ => 400,
        }
    }

    /// The word for it in its answer.
    pub fn reason(&self) -> &'static str
        ensures { result.now ≡ reason_of self.now }
    {
        match self {
            Refusal::BadHead => "bad-head",
            Refusal::HeadTooLong => "head-too-long",
            Refusal::BadLength => "bad-length",
            Refusal::BodyTooLong => "body-too-long",
            Refusal::TransferCoding => "transfer-coding",
            Refusal::NoRoute => "no-route",
            Refusal::Method => "method",
            Refusal::BadToken => "bad-token",
            Refusal::BadDomain => "bad-domain",
            Refusal::BadJson => "bad-json",
            Refusal::BadField { .. } => "bad-field",
            Refusal::UnsupportedType { .. } => "unsupported-type",
            Refusal::BadShape { .. } => "bad-shape",
            Refusal::BadName => "bad-name",
            Refusal::NoDomain => "no-domain",
            Refusal::Forbidden { .. } => "forbidden",
            Refusal::NoObject { .. } => "no-object",
            Refusal::Gone { .. } => "gone",
            Refusal::BadSelect { .. } => "bad-select",
            Refusal::TooMany { .. } => "too-many",
            Refusal::BadValue { .. } => "bad-value",
            Refusal::Taken { .. } => "taken",
            Refusal::NotEmpty => "not-empty",
            Refusal::NoName { .. } => "no-name",
            Refusal::Root => "root",
            Refusal::Limit { .. } => "limit",
            Refusal::DiskFault => "disk-fault",
            Refusal::JournalFull { .. } => "journal-full",
        }
    }
}
