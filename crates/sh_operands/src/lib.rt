//! What the operands of built-in utilities say: options, and how many fields they give; and what is
//! in a word (XCU 2.5, 2.15).
#![tactic(auto)]

mod counts;
pub mod laws;
mod looks;
mod options;

pub use counts::count_behind;
pub use looks::{Look, is_ifs, word_has};
pub use options::{positional_at, read_operands, unset_operands};
