//! What sweeps over a script need: what is known where a command is entered, and what the flow
//! rules ask, as it is gathered and lowered.
#![tactic(auto)]

mod asked;
mod before;
mod claims;
mod gather;
pub mod known;
pub mod laws;
mod lower;
mod news;
pub mod nowhere;
mod plain;
mod sides;
mod slots;
mod stated;
pub mod texts;
pub mod waits;

pub use before::{lower_before, lower_left, lower_zero};
pub use claims::claims_of;
pub use gather::Gather;
pub use lower::lower_gathered;
pub use news::News;
pub use plain::carry_over;
pub use sides::Sides;
pub use slots::spot_of;
pub use stated::Unstated;
