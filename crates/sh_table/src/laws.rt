//! The laws of `sh_runs`, handed on: what holds of runs, and of the commands that are admitted.

pub use sh_runs::laws::{
    admitted, events, examples, field_rows, fields, form_rows, goes_on, operands, profile, rows,
    step_rows,
};
