//! Tokens of words (XCU 2.2, 2.6).
mod braced;
mod contexts;
mod dollar;
mod escapes;
mod parameters;
mod plain;
mod signs;
mod sites;
mod tilde;

pub use contexts::{
    in_arithmetic, in_body, in_double, in_operand, in_removal, in_unsplit, in_use, in_value,
    in_word,
};
pub use signs::{single_sign, token_at};
pub use sites::is_quoted;
