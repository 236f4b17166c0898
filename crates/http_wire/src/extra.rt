/// The methods that a route takes.
#[derive(Clone, Copy, Debug, PartialEq, Eq)]
pub struct Methods {
    pub delete: bool,
    pub get: bool,
    pub post: bool,
    pub put: bool,
}

/// The header line that an answer has beside type and length.
#[derive(Clone, Copy, Debug, PartialEq, Eq)]
pub enum Extra {
    None,
    /// The scheme of credentials (RFC 6750, section 3).
    Bearer,
    /// The methods that the route takes (RFC 9110, section 10.2.1).
    Allow(Methods),
}
