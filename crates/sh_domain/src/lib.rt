//! What is surely set before and after each command of a script: policies, names, rules and
//! demands. A checker has to test the rules and the demands. They are definitions, in `specs/`;
//! `laws` holds them against known scripts.
#![tactic(auto)]

mod certificate;
mod compact;
mod knowledge;
pub mod laws;
mod limits;
mod loops;
mod name_set;
mod names;
mod number_set;
mod numbered;
mod operands;
mod policy;
mod row_hasher;
mod rows;
mod rule;
mod sights;

pub use certificate::{Certificate, Drops, Entry, Facts, FunctionEntry};
pub use compact::{Compact, Given};
pub use knowledge::{Assured, Knowledge, Return};
pub use limits::MAX_CERTIFICATE;
pub use loops::is_loop;
pub use names::Names;
pub use number_set::NumberSet;
pub use numbered::precedes;
pub use policy::{Policy, PolicyFault};
pub use row_hasher::RowHash;
pub use rows::{RowId, Rows};
pub use rule::FlowRule;
