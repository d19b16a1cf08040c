//! The functions of a script and the static texts of its commands, and whether it is analysed.
#![tactic(auto)]

mod found;
mod functions;
pub mod laws;
mod numbers;
mod operands;
mod profile;
mod rules;
mod site;
mod sites;
mod table;
pub mod walk;
mod word_text;

pub use numbers::number_in;
pub use operands::{are_static, ends_in_o, is_number, is_set_option};
pub use profile::admit;
pub use sh_runs::{Kind, definition_in, ends_options, is_dashed, kind_of};
pub use site::Around;
pub use table::CallTable;
pub use word_text::{WordText, lone_part};
