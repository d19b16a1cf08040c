//! The hash of names.
#![tactic(auto)]

mod name_hash;

pub use name_hash::NameHash;
