//! How a word is read, by what it is.
ghost use Rattle.std.specs.Prelude.{◌≡◌, ◌≤◌, length};
ghost use Rattle.sh_words.specs.Modes as modes;

use sh_scan::{in_body, in_operand, in_unsplit, in_value, in_word};
use sh_tree::{Context, MAX_SCRIPT};

/// What a word is.
#[derive(Clone, Copy, Debug, PartialEq, Eq)]
pub enum Mode {
    /// A command name, an operand or a word of `for`, whose fields are split (XCU 2.6.5).
    Word,
    /// The target of a redirection, the word of `case` or one of its patterns.
    Unsplit,
    /// The value of an assignment.
    Value,
    /// An operand of `export` or `readonly`. An assignment there is read as one (XCU 2.9.1.1).
    Operand,
    /// The body of a here-document, up to the offset `end` (XCU 2.7.4).
    Body {
        end: u32,
        /// Whether tabs are stripped, as with `<<-`.
        strip: bool,
        /// Whether the delimiter is quoted, so that nothing is special in the body.
        quoted: bool,
    },
}

impl Mode {
    /// The text that a word of the mode can see.
    pub fn seen(self, script: &[u8]) -> &[u8]
        ensures value { result.now ≡ modes.seen script.entry.now self }
        ensures within { length result.now ≤ length script.entry.now }
    {
        match self {
            Mode::Body { end, .. } => &script[..script.len().min(end as usize)],
            Mode::Word | Mode::Unsplit | Mode::Value | Mode::Operand => script,
        }
    }

    /// The context of a word at `at`.
    pub fn context(self, script: &[u8], at: u32) -> Context
        requires small { length script.now ≤ MAX_SCRIPT }
        requires inside { at ≤ length script.now }
        ensures { result ≡ modes.context_of script.now self at }
    {
        match self {
            Mode::Word => in_word(at),
            Mode::Unsplit => in_unsplit(at),
            Mode::Value => in_value(at),
            Mode::Operand => in_operand(script, at),
            Mode::Body { strip, quoted, .. } => in_body(quoted, strip),
        }
    }

    /// The byte before the first one: a body begins a line. 0 if there is none.
    pub fn first_prior(self) -> u8
        ensures { result ≡ modes.first_prior self }
    {
        match self {
            Mode::Body { .. } => b'\n',
            Mode::Word | Mode::Unsplit | Mode::Value | Mode::Operand => 0,
        }
    }
}
