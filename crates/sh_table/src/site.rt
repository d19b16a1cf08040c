//! The commands of a script, each with what is round it.

use sh_tree::Span;

/// What is round a place, with no started process, part of a pipeline or other definition between
/// (XCU 2.15, break and return).
#[derive(Clone, Copy, Debug, PartialEq, Eq)]
pub struct Around {
    /// How many loops are, up to 255.
    pub loops: u8,
    /// Whether a function is.
    pub in_function: bool,
    /// Whether a loop is round the pipeline that the place is in a part of.
    pub beyond: bool,
}

/// What a command is to the profile, beside the texts of its words.
#[derive(Clone, Copy)]
pub enum Form {
    /// A simple command, and whether its name is more than plain bytes.
    Simple { quoted: bool },
    /// A function definition, by the function's name.
    Defines(Span),
    /// Another compound command.
    Other,
}

/// A command: its number, the offset at which it starts, and what is round it.
#[derive(Clone, Copy)]
pub struct Site {
    pub number: u32,
    pub at: u32,
    pub around: Around,
    pub form: Form,
}
