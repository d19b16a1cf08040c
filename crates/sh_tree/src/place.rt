//! Places of findings.

use crate::items::Items;

/// Which rule a finding is of, in the order of their names.
#[derive(Clone, Copy, Debug, PartialEq, Eq, PartialOrd, Ord)]
pub enum Code {
    /// A name may be unset inside a pipeline.
    P1,
    /// The positional parameters change inside a pipeline.
    P2,
    /// An expansion is unquoted.
    Q1,
    /// A parameter may be unset.
    U1,
    /// HOME may be unset.
    U2,
    /// A parameter may be unset in arithmetic.
    U3,
}

/// Where a demand is unmet: the offset in the script, the rule, and the name that it is about, or
/// nothing.
#[derive(Debug, Drop)]
pub struct Place {
    pub at: u32,
    pub code: Code,
    pub subject: Items<u8>,
}
