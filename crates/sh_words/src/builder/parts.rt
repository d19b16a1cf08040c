//! The parts of a context (XCU 2.2, 2.6).
ghost use Rattle.std.specs.Prelude.{◌≡◌, ◌<◌, ◌≤◌, Ok, None, length};
ghost use Rattle.sh_tree.specs.declared.token.word.Sign.TheVariants as sign;
ghost use Rattle.sh_tree.specs.standard.language.Words as words;
ghost use Rattle.sh_words.specs.Clauses.{Keeps, Steps};
ghost use Rattle.sh_words.specs.Rest.{IsParts, Left, LeftPart};
ghost use Rattle.sh_words.specs.Signs.{IsTokenFrom};
ghost use Rattle.sh_words.specs.Sound.{IsSound, StepMoves, StepSound, StepWorks, Takes, TakesParts, work};
ghost use Rattle.sh_words.specs.States.{context_in, ended, focused, found_in, prior_in, started};
ghost use Rattle.sh_words.specs.Steps.{Closes};
ghost use Rattle.sh_tree.specs.standard.language.Trees.{word};

use super::signs::{is_part, made, opening_of, prior_after, whole_part};
use super::{Next, WordBuilder};
use crate::frames::{Focus, Frame, Holder, Opening};
use sh_scan::token_at;
use sh_tree::{CommandStyle, Fault, Items, MAX_SCRIPT, Part, Refusal, Sign, Span, Token, Word};
use std::alloc::Global;
use std::mem;

impl WordBuilder {
    /// The word begins.
    pub(crate) fn start_step(&mut self, script: &[u8])
        requires small { length script.now ≤ MAX_SCRIPT }
        requires inside { self.old.at ≤ length script.now }
        requires sound { IsSound script.now (focused self.old Focus.Start) }
        ensures keeps { Keeps script.now (Left script.now (focused self.old Focus.Start)) self.new }
        ensures moves { StepMoves script.now self.old self.new (Ok None) }
        ensures sound { IsSound script.now self.new }
        ensures works { work script.now self.new < work script.now (focused self.old Focus.Start) }
        ensures state { self.new ≡ started script.now self.old }
    {
        self.holder = Holder::Parts {
            context: self.mode.context(script, self.at),
            prior: self.mode.first_prior(),
            parts: Items::new(self.alloc),
        };
        self.focus = Focus::Parts;
    }

    /// Reads what is at `at` among parts.
    pub(crate) fn parts_step(&mut self, script: &[u8]) -> Result<Option<Next>, Refusal>
        requires small { length script.now ≤ MAX_SCRIPT }
        requires inside { self.old.at ≤ length script.now }
        requires sound { IsSound script.now (focused self.old Focus.Parts) }
        ensures keeps { Steps script.now (Left script.now (focused self.old Focus.Parts)) self.new result }
        ensures moves { StepMoves script.now self.old self.new result }
        ensures sound { StepSound script.now result self.new }
        ensures works { StepWorks script.now (focused self.old Focus.Parts) self.new result }
        ensures takes { TakesParts script.now self.old self.new result }
    {
        let Holder::Parts { context, prior, .. } = &self.holder else {
            return Err(Refusal::Syntax(Fault::BadArith, self.at));
        };
        let token = token_at(script, *context, *prior, self.at);
        if is_part(token.sign) {
            self.part_step(script, token, self.at)
        } else if token.sign == Sign::Stop {
            self.stop(script, token.end)
        } else {
            self.skip_tabs(token.end);
            Ok(None)
        }
    }

    /// Reads the part at `start`, which begins with the sign of the token.
    pub(crate) fn part_step(
        &mut self,
        script: &[u8],
        token: Token,
        start: u32,
    ) -> Result<Option<Next>, Refusal>
        requires small { length script.now ≤ MAX_SCRIPT }
        requires after { self.old.at ≤ start }
        requires inside { start ≤ length script.now }
        requires sound { IsSound script.now (focused self.old Focus.Parts) }
        requires token { IsTokenFrom script.now start token }
        ensures keeps { Steps script.now (LeftPart script.now self.old token.sign start token.end) self.new result }
        ensures moves { StepMoves script.now self.old self.new result }
        ensures sound { StepSound script.now result self.new }
        ensures works { StepWorks script.now (focused self.old Focus.Parts) self.new result }
        ensures takes { Takes script.now start self.new result }
    {
        let span = Span {
            start,
            end: token.end,
        };
        if let Some(part) = whole_part(token.sign, span) {
            let next = prior_after(script, token.sign, token.end);
            self.give(next, part, token.end)?;
            return Ok(None);
        }
        if let Some((opening, context)) = opening_of(self.holder.context(), token.sign, token.end) {
            return self.open_part(opening, context, start, token.end);
        }
        if let Sign::Substitution(style) = token.sign {
            return self.substitution_step(script, style, start, token.end);
        }
        Err(self.no_part(token, start))
    }

    /// Reads the substitution at `start`, whose commands begin at `end`. No backquote closes those
    /// at the end of the text.
    fn substitution_step(
        &mut self,
        script: &[u8],
        style: CommandStyle,
        start: u32,
        end: u32,
    ) -> Result<Option<Next>, Refusal>
        requires after { self.old.at ≤ start }
        requires moves { start < end }
        requires within { end ≤ length script.now }
        requires sound { IsSound script.now (focused self.old Focus.Parts) }
        ensures keeps { Steps script.now (LeftPart script.now self.old (Sign.Substitution style) start end) self.new result }
        ensures moves { StepMoves script.now self.old self.new result }
        ensures sound { StepSound script.now result self.new }
        ensures works { StepWorks script.now (focused self.old Focus.Parts) self.new result }
        ensures takes { Takes script.now start self.new result }
    {
        if style == CommandStyle::Backquote && end as usize == script.len() {
            return Err(Refusal::Syntax(Fault::OpenSubstitution, start));
        }
        self.ask(style, start, end)
    }

    /// The context ends, and what ends it goes up to `end`.
    fn stop(&mut self, script: &[u8], end: u32) -> Result<Option<Next>, Refusal>
        requires after { self.old.at ≤ end }
        requires within { end ≤ length script.now }
        requires sound { IsSound script.now (focused self.old Focus.Parts) }
        requires parts { IsParts self.old.holder }
        requires stops { words.token script.now (context_in self.old.holder) (prior_in self.old.holder) self.old.at ≡ record { sign = sign.Stop; end = end } }
        ensures keeps { Steps script.now (Left script.now (focused self.old Focus.Parts)) self.new result }
        ensures moves { StepMoves script.now self.old self.new result }
        ensures sound { StepSound script.now result self.new }
        ensures works { StepWorks script.now (focused self.old Focus.Parts) self.new result }
        ensures takes { TakesParts script.now self.old self.new result }
    {
        match self.frames.pop() {
            None => Ok(Some(Next::Done(self.whole_word(end)))),
            Some(
                Frame::Opened {
                    holder,
                    depth,
                    start,
                    inside,
                    opening,
                },
            ) => self.close_part(holder, depth, start, inside, opening, end),
            Some(Frame::Operation(_)) => Err(Refusal::Syntax(Fault::BadArith, end)),
        }
    }

    /// The whole word was read, up to `end`.
    fn whole_word(&mut self, end: u32) -> Word
        ensures word { result ≡ word self.old.begin end (found_in self.old.holder) }
        ensures state { self.new ≡ ended self.old end }
    {
        let empty = Holder::Parts {
            context: self.holder.context(),
            prior: 0,
            parts: Items::new(self.alloc),
        };
        let holder = mem::replace(&mut self.holder, empty);
        self.focus = Focus::Parts;
        self.at = end;
        Word {
            span: Span {
                start: self.begin,
                end,
            },
            parts: holder.into_parts(self.alloc),
        }
    }

    /// The innermost part was read, up to `end`, and is given to what is around it.
    fn close_part(
        &mut self,
        holder: Holder,
        depth: u8,
        start: u32,
        inside: u32,
        opening: Opening,
        end: u32,
    ) -> Result<Option<Next>, Refusal>
        ensures { Closes self.old holder depth start inside opening end self.new result }
    {
        let inner = mem::replace(&mut self.holder, holder);
        self.depth = depth;
        match made(opening, start, inside, inner.into_parts(self.alloc), end) {
            None => Err(Refusal::Syntax(Fault::BadArith, start)),
            Some(part) => {
                self.give(0, part, end)?;
                Ok(None)
            }
        }
    }
}

impl Holder {
    /// The parts that it holds.
    fn into_parts(self, alloc: Global) -> Items<Part>
        ensures { result ≡ found_in self }
    {
        match self {
            Holder::Parts { parts, .. } => parts,
            Holder::Operand { .. } => Items::new(alloc),
        }
    }
}
