//! The check of a certificate against a script: the flow rules first, then the demands. `laws` says
//! what a certificate that passes is good for in the runs of the script. `fill` gives the
//! certificate to which a compact one is filled.
#![tactic(auto)]

pub mod laws;

pub use sh_checks::{Flow, check_flow};
pub use sh_domain::FlowRule;
pub use sh_find::fill;
