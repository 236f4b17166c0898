/// The most bytes of the name of a user, an owner or an entry of an access list.
pub const MAX_NAME_LEN: usize = 255;

/// The most bytes of the name of a group.
pub const MAX_GROUP_LEN: usize = 253;

/// The most bytes of a token.
pub const MAX_TOKEN_LEN: usize = 255;

/// The most folders and domains beside `/`.
pub const MAX_BELOW_ROOT: usize = 65_535;
