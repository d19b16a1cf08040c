//! Here-documents that wait for their bodies (XCU 2.7.4).

/// A here-document whose body has not come.
#[derive(Debug, Drop)]
pub struct Mark {
    /// Where its operator is.
    pub at: u32,
    /// Whether tabs are stripped, as with `<<-`.
    pub strip: bool,
    /// Whether the delimiter is quoted.
    pub quoted: bool,
    /// The delimiter without its quoting.
    pub delimiter: Vec<u8>,
    /// How many levels are open around the operator.
    pub depth: u8,
}
