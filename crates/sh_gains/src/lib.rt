//! What words leave known.
#![tactic(auto)]

mod elements;
pub mod gains;
mod known;

pub use elements::gain_operands;
pub use gains::gain_target;
pub use known::Known;
