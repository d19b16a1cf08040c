//! Rows: sets of numbers below a count, as sorted numbers or as bits.
#![tactic(auto)]

mod bits;
mod kernels;
mod names;
mod row;

pub use bits::BitRow;
pub use kernels::{
    is_set, is_set_within, join_words, meet_sets, meet_words, remove_sets, remove_words, set,
    unset, within_words,
};
pub use names::NameRow;
pub use row::Row;
