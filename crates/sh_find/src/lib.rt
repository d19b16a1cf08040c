//! The greatest certificate of a script: the search begins with the one that claims everything, and
//! lowers what breaks a flow rule until nothing does.
#![tactic(auto)]

mod filling;
mod search;

pub use filling::fill;
pub use search::{find, find_by_rounds, find_counted};
