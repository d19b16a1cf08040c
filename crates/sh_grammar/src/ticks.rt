//! Backquoted substitutions around commands (XCU 2.6.3).
ghost use Rattle.std.specs.Prelude.{◌≡◌, ◌<◌, ◌≤◌, length, IfSome};
ghost use Rattle.sh_grammar.specs.Ticks as ticks;

use sh_tree::{Fault, Form, MAX_SCRIPT, Refusal};

/// Whether commands are in a backquoted substitution, with whose closing backquote their text then
/// ends.
#[derive(Clone, Copy, Debug, PartialEq, Eq)]
pub enum Ticks {
    /// In none.
    Outside,
    /// In its commands.
    Here {
        /// Whether it is in double quotes.
        quoted: bool,
    },
    /// In a substitution in its commands.
    Deeper {
        /// Whether it is in double quotes.
        quoted: bool,
    },
}

impl Ticks {
    /// In another substitution inside, which no backquote closes.
    #[tactic(auto, unfolding(crate::specs::Ticks::deeper))]
    pub fn deeper(self) -> Ticks
        ensures { result ≡ ticks.deeper self }
    {
        match self {
            Ticks::Outside => Ticks::Outside,
            Ticks::Here { quoted } | Ticks::Deeper { quoted } => Ticks::Deeper { quoted },
        }
    }

    /// Whether the substitution is in double quotes, if there is one.
    #[tactic(auto, unfolding(crate::specs::Ticks::quoted_of))]
    pub fn quoted(self) -> Option<bool>
        ensures { result ≡ ticks.quoted_of self }
    {
        match self {
            Ticks::Outside => None,
            Ticks::Here { quoted } | Ticks::Deeper { quoted } => Some(quoted),
        }
    }

    /// The place of the closing backquote, over which something ran to the end of the text.
    #[tactic(auto, unfolding(crate::specs::Ticks::overrun))]
    pub fn overrun(self, script: &[u8]) -> Option<u32>
        requires small { length script.now ≤ MAX_SCRIPT }
        ensures value { result ≡ ticks.overrun self (length script.now) }
        ensures within { IfSome result (λ at. at < length script.now) }
    {
        match self {
            Ticks::Outside => None,
            Ticks::Here { .. } | Ticks::Deeper { .. } => (script.len() as u32).checked_sub(1),
        }
    }

    /// What is reported of the backquote at `at`, which ends the text and has no place there.
    #[tactic(auto, unfolding(crate::specs::Ticks::misplaced))]
    pub fn misplaced(self, at: u32) -> Refusal
        ensures { result ≡ ticks.misplaced self at }
    {
        match self {
            Ticks::Outside => Refusal::Syntax(Fault::OpenSubstitution, at),
            Ticks::Here { .. } => Refusal::Syntax(Fault::UnexpectedToken, at),
            Ticks::Deeper { .. } => Refusal::LeftOut(Form::BackquoteInside, at),
        }
    }
}
