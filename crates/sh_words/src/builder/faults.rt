//! What is reported if a word cannot go on.
ghost use Rattle.std.specs.Prelude.{◌≡◌, ◌≤◌, ◌<◌, length};
ghost use Rattle.sh_tree.specs.standard.language.Contexts as contexts;
ghost use Rattle.sh_tree.specs.standard.language.Words as words;
ghost use Rattle.sh_words.specs.Faults as faults;

use super::WordBuilder;
use crate::frames::{Frame, Holder, Opening};
use sh_scan::{closes_at, in_word, token_at};
use sh_tree::{CommandStyle, Fault, Figure, Form, Lexeme, MAX_SCRIPT, Refusal, Sign, Token};

/// Whether the fault is of something that the end of the text leaves open.
fn is_unclosed(fault: Fault) -> bool
    ensures { result ≡ faults.is_unclosed fault }
{
    matches!(
        fault,
        Fault::OpenSingle | Fault::OpenDouble | Fault::OpenBraced | Fault::OpenArith
    )
}

/// Whether a braced expansion begins at `at` that the text does not end.
fn is_unended(script: &[u8], at: u32) -> bool
    requires small { length script.now ≤ MAX_SCRIPT }
    requires inside { at ≤ length script.now }
    ensures { result ≡ faults.is_unended (words.token script.now (contexts.in_word at) 0 at).sign }
{
    token_at(script, in_word(at), 0, at).sign == Sign::Fault(Fault::OpenBraced)
}

/// Whether something is open before the backquote at `place`, which ends the text, or is refused
/// there.
#[tactic(auto, unfolding(crate::specs::Faults::is_met))]
fn is_met(script: &[u8], place: u32, found: Refusal) -> bool
    requires small { length script.now ≤ MAX_SCRIPT }
    requires inside { place ≤ length script.now }
    ensures { result ≡ faults.is_met script.now place found }
{
    match found {
        Refusal::Syntax(fault, at) => is_unclosed(fault) || place <= at,
        Refusal::LeftOut(form, at) => {
            place <= at || (form == Form::Braced && is_unended(&script[..place as usize], at))
        }
        _ => false,
    }
}

/// What is reported of a refusal: the backquote that closes the commands around the word, if
/// something is open before it.
#[tactic(auto, unfolding(crate::specs::Faults::reported))]
pub fn reported(inside: Option<bool>, script: &[u8], found: Refusal) -> Refusal
    requires small { length script.now ≤ MAX_SCRIPT }
    ensures { result ≡ faults.reported inside script.now found }
{
    let last = script.len().saturating_sub(1) as u32;
    if inside.is_some()
        && closes_at(CommandStyle::Backquote, script, last)
        && is_met(script, last, found)
    {
        Refusal::LeftOut(Form::BackquoteInside, last)
    } else {
        found
    }
}

impl Opening {
    fn open_fault(self) -> Fault
        ensures { result ≡ faults.open_fault self }
    {
        match self {
            Opening::Double => Fault::OpenDouble,
            Opening::Use(..) | Opening::Remove(..) => Fault::OpenBraced,
            Opening::Arith => Fault::OpenArith,
        }
    }
}

impl WordBuilder {
    /// The text ends at `at`: the innermost opening is reported.
    #[tactic(auto, unfolding(crate::specs::Faults::left_open))]
    fn left_open(&self, at: u32) -> Refusal
        ensures { result ≡ faults.left_open self.now.frames at }
    {
        match self.frames.top() {
            Some(Frame::Opened { start, opening, .. }) => {
                Refusal::Syntax(opening.open_fault(), *start)
            }
            Some(Frame::Operation(_)) | None => Refusal::Syntax(Fault::UnexpectedEnd, at),
        }
    }

    /// No part begins with the sign of the token at `start`.
    #[tactic(auto, unfolding(crate::specs::Faults::no_part))]
    pub(crate) fn no_part(&self, token: Token, start: u32) -> Refusal
        ensures { result ≡ faults.no_part self.now.frames token.sign start token.end }
    {
        match token.sign {
            Sign::Fault(fault) => Refusal::Syntax(fault, token.end),
            Sign::LeftOut(form) => Refusal::LeftOut(form, token.end),
            Sign::Open => self.left_open(start),
            _ => Refusal::Syntax(Fault::BadArith, start),
        }
    }

    /// The token has no place in the expression.
    #[tactic(auto, unfolding(crate::specs::Faults::bad))]
    pub(crate) fn bad(&self, lexeme: Lexeme) -> Refusal
        ensures { result ≡ faults.bad self.now.holder lexeme.figure lexeme.start }
    {
        match lexeme.figure {
            Figure::End => Refusal::Syntax(
                Fault::OpenArith,
                self.holder.arithmetic_start(lexeme.start),
            ),
            Figure::LeftOut(form) => Refusal::LeftOut(form, lexeme.start),
            Figure::FinalBackslash => Refusal::Syntax(Fault::FinalBackslash, lexeme.start),
            _ => Refusal::Syntax(Fault::BadArith, lexeme.start),
        }
    }
}

impl Holder {
    /// Where the arithmetic expansion began, or else `at`.
    fn arithmetic_start(&self, at: u32) -> u32
        ensures { result ≡ faults.arithmetic_start self.now at }
    {
        match self {
            Holder::Operand { start, .. } => *start,
            Holder::Parts { .. } => at,
        }
    }
}
