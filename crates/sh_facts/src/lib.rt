//! Certificates as texts: how they are written, read and measured. The policies, names and facts
//! that they speak of are those of `sh_domain`.
#![tactic(auto)]

mod compact_forms;
mod compact_length;
mod compact_lines;
mod compact_reading;
mod compact_texts;
mod compacting;
mod finding;
mod forms;
mod length;
mod lines;
mod reading;
mod row_length;
mod row_texts;
mod splits;
mod texts;

pub use compact_length::is_compact_too_long;
pub use compact_reading::read_any;
pub use compact_texts::write_compact;
pub use compacting::{compact_of, start_of};
pub use length::is_too_long;
pub use reading::read_certificate;
pub use sh_domain::{
    Assured, Certificate, Compact, Drops, Entry, Facts, FlowRule, FunctionEntry, Given, Knowledge,
    MAX_CERTIFICATE, Names, NumberSet, Policy, PolicyFault, RowId, Rows, laws,
};
pub use texts::write_certificate;
