//! The commands and the bodies of functions that a search has yet to look at, each at most once.
#![tactic(auto)]

mod calls;
mod commands;
mod flags;
mod late;
mod order;
mod ordered;
mod units;
mod waiting;

pub use calls::Calls;
pub use commands::{Inside, Look};
pub use flags::Flags;
pub use late::Late;
pub use ordered::Reason;
pub use units::{Unit, Units};
pub use waiting::Waiting;
