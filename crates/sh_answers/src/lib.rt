//! What is reported of a script, the text of it, and the ends that it goes between.
#![tactic(auto)]

mod counted;
mod ends;
pub mod laws;
mod moves;
mod task;
pub mod texts;
mod verdict;

pub use counted::{Counted, end_answer};
pub use ends::{Broken, Counts, Feed, Outlet};
pub use moves::{Fault, read_all, write_all};
pub use task::{Action, Task};
pub use verdict::{Finding, Report, Verdict, in_order};
