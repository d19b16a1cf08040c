//! What a check of a certificate finds: the flow rules first, then the demands.
#![tactic(auto)]

mod flow;

pub use flow::{Flow, check_flow};
