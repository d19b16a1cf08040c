//! The places that a certificate claims something of.

use sh_tree::Span;

/// A place. Of a command, by its number: before it, after it by its status, and each turn of a
/// loop. Of a function: where it is entered, by its name, and where it returns by its status, by
/// the span of its name.
#[derive(Clone, Copy)]
pub enum Place<'a> {
    Before(u32),
    Zero(u32),
    Nonzero(u32),
    Head(u32),
    Entry(&'a [u8]),
    ReturnZero(Span),
    ReturnNonzero(Span),
}
