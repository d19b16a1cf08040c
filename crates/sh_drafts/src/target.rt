//! Where a certificate is looked at.

use crate::place::{Part, Place};

/// A place, and the function of an index.
#[derive(Clone, Copy, Debug, PartialEq, Eq)]
pub struct Target {
    pub place: Place,
    pub function: u16,
}

impl Target {
    /// Where the first command is entered, and the first function.
    pub const FIRST: Target = Target {
        place: Place {
            part: Part::Before,
            index: 0,
        },
        function: 0,
    };
}
