//! What is answered of a script by its bytes: the engine from the bytes of a script to the text of
//! its answer.
#![tactic(auto)]

mod checks;
mod claimed;
mod engine;
pub mod laws;
mod lints;
mod prints;

pub use checks::check;
pub use claimed::certified;
pub use engine::run;
pub use lints::{certificate, lint};
pub use prints::canonical_text;
pub use sh_answers::{
    Action, Broken, Counted, Counts, Fault, Feed, Finding, Outlet, Report, Task, Verdict,
};
pub use sh_judged::verdict_of;
