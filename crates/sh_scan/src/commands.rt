//! What a command, or a piece of one, begins with (XCU 2.4, 2.7, 2.10).
mod bare;
mod classes;
mod leads;
mod operators;
mod redirection;

pub use bare::{declares_at, is_bare_name_at};
pub use classes::{
    begins_command, begins_compound, begins_pipeline, begins_simple, clause_end_of, is_redirection,
    link_of, separator,
};
pub use leads::lead_at;
pub use operators::{direction_of, operator_at, strip_of};
pub use redirection::redirection_at;
