//! A script that is admitted, and what is reported of a certificate of it.
#![tactic(auto)]

mod prepared;
mod told;
mod verdicts;

pub use prepared::{Prepared, prepare};
pub use told::verdict_of;
pub use verdicts::{judged, judged_kept};
