//! What a message says.

/// The parts of a message that say what is asked. The headers are the first of their names.
#[derive(Clone, Copy)]
pub struct RequestParts<'a> {
    /// The method.
    pub method: &'a str,
    /// The target: a path, and behind a `?` a query.
    pub target: &'a str,
    /// The value of the header Authorization.
    pub authorization: Option<&'a [u8]>,
    /// The value of the header X-Hdf-domain.
    pub domain: Option<&'a [u8]>,
    /// The body.
    pub body: &'a [u8],
}
