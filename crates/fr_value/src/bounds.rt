/// The most bytes that a symbol or a string may have.
pub const MAX_TEXT_BYTES: usize = 1_048_575;

/// The greatest size that a list may have.
pub(crate) const MAX_SIZE: u32 = 1_048_576;

/// The greatest depth that a list may have.
pub(crate) const MAX_DEPTH: u32 = 64;
