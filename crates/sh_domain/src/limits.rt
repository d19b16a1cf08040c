//! The limits of what is accepted.

/// The most bytes that the text of a certificate may have.
pub const MAX_CERTIFICATE: usize = 67_108_864;
