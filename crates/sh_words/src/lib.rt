//! Words, read part by part. If commands are in a word, the reader stops until they are handed
//! back.
#![tactic(auto)]

mod builder;
mod frames;
mod mode;
mod stack;

pub use builder::{Next, WordBuilder};
pub use mode::Mode;
