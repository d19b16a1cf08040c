//! How a builder goes from state to state.
ghost use Rattle.std.specs.Prelude.{◌≡◌, ◌<◌, ◌≤◌, true, false, MatchResult};
ghost use Rattle.sh_words.specs.States.{context_in, focus_in, given, had, holder_in, is_arithmetic, level_start, nests, operating, pushed, skipped};
ghost use Rattle.sh_words.specs.Steps.{Asked, Enters, Opens};

use super::{Next, WordBuilder};
use crate::frames::{Focus, Frame, Holder, Opening, Operation};
use sh_scan::is_quoted;
use sh_tree::{CommandStyle, Context, Expr, Items, MAX_NESTING, Part, Refusal};
use std::alloc::Global;
use std::mem;

impl Holder {
    /// The context in which the next part is read.
    pub fn context(&self) -> Context
        ensures { result ≡ context_in self.now }
    {
        match self {
            Holder::Parts { context, .. } | Holder::Operand { context, .. } => *context,
        }
    }
}

impl Opening {
    /// Whether a level is open in it.
    fn nests(self) -> bool
        ensures { result ≡ nests self }
    {
        match self {
            Opening::Double => false,
            Opening::Use(..) | Opening::Remove(..) | Opening::Arith => true,
        }
    }

    pub fn is_arithmetic(self) -> bool
        ensures { result ≡ is_arithmetic self }
    {
        match self {
            Opening::Arith => true,
            Opening::Double | Opening::Use(..) | Opening::Remove(..) => false,
        }
    }

    /// Where its level begins.
    fn level_start(self, start: u32, inside: u32) -> u32
        ensures { result ≡ level_start self start inside }
    {
        match self {
            Opening::Arith => start,
            Opening::Double | Opening::Use(..) | Opening::Remove(..) => inside,
        }
    }

    /// What takes the parts in it, or its operands.
    fn holder(self, alloc: Global, context: Context, start: u32) -> Holder
        ensures { result ≡ holder_in self context start }
    {
        if self.is_arithmetic() {
            Holder::Operand { context, start }
        } else {
            Holder::Parts {
                context,
                prior: 0,
                parts: Items::new(alloc),
            }
        }
    }

    fn focus(self) -> Focus
        ensures { result ≡ focus_in self }
    {
        if self.is_arithmetic() {
            Focus::Expression
        } else {
            Focus::Parts
        }
    }
}

impl WordBuilder {
    /// Whether as many levels are open as may be.
    pub(crate) fn is_deep(&self) -> bool
        ensures yes { result ≡ true → 64 ≤ self.now.depth }
        ensures no { result ≡ false → self.now.depth < 64 }
    {
        u32::from(self.depth) >= MAX_NESTING
    }

    /// The part was read, up to `end`; `next` is its last byte if that is plain, else 0.
    pub(crate) fn give(&mut self, next: u8, part: Part, end: u32) -> Result<(), Refusal>
        ensures { MatchResult result (λ _. self.new ≡ given self.old next part end) (λ e. e ≡ Refusal.Memory) }
    {
        match &mut self.holder {
            Holder::Parts { prior, parts, .. } => {
                parts.push(part)?;
                *prior = next;
                self.focus = Focus::Parts;
            }
            Holder::Operand { .. } => self.focus = Focus::Have(Expr::Expansion(part)),
        }
        self.at = end;
        Ok(())
    }

    /// The expression was read, up to `end`.
    pub(crate) fn have(&mut self, depth: u8, expr: Expr, end: u32)
        ensures { self.new ≡ had self.old depth expr end }
    {
        self.focus = Focus::Have(expr);
        self.depth = depth;
        self.at = end;
    }

    /// Puts a frame around what begins at `end`.
    fn push(&mut self, frame: Frame, depth: u8, focus: Focus, end: u32) -> Result<(), Refusal>
        ensures { MatchResult result (λ _. self.new ≡ pushed self.old frame depth focus end) (λ e. e ≡ Refusal.Memory) }
    {
        self.frames.push(frame)?;
        self.depth = depth;
        self.focus = focus;
        self.at = end;
        Ok(())
    }

    /// An operand of the operation is read from `end` on.
    pub(crate) fn operate(
        &mut self,
        operation: Operation,
        depth: u8,
        focus: Focus,
        end: u32,
    ) -> Result<(), Refusal>
        ensures { MatchResult result (λ _. self.new ≡ operating self.old operation depth focus end) (λ e. e ≡ Refusal.Memory) }
    {
        self.push(Frame::Operation(operation), depth, focus, end)
    }

    /// The same one level deeper. The level begins at `place`.
    pub(crate) fn enter(
        &mut self,
        operation: Operation,
        focus: Focus,
        end: u32,
        place: u32,
    ) -> Result<Option<Next>, Refusal>
        ensures { Enters self.old operation focus end place self.new result }
    {
        if self.is_deep() {
            return Err(Refusal::TooDeep(place));
        }
        self.operate(operation, self.depth + 1, focus, end)?;
        Ok(None)
    }

    /// Opens a part at `start`, whose inside begins at `inside`.
    pub(crate) fn open_part(
        &mut self,
        opening: Opening,
        context: Context,
        start: u32,
        inside: u32,
    ) -> Result<Option<Next>, Refusal>
        ensures { Opens self.old opening context start inside self.new result }
    {
        let mut depth = self.depth;
        if opening.nests() {
            if self.is_deep() {
                return Err(Refusal::TooDeep(opening.level_start(start, inside)));
            }
            depth += 1;
        }
        let holder = mem::replace(&mut self.holder, opening.holder(self.alloc, context, start));
        let frame = Frame::Opened {
            holder,
            depth: self.depth,
            start,
            inside,
            opening,
        };
        self.push(frame, depth, opening.focus(), inside)?;
        Ok(None)
    }

    /// Asks for the commands of the substitution at `start`, which begin at `end`.
    pub(crate) fn ask(
        &mut self,
        style: CommandStyle,
        start: u32,
        end: u32,
    ) -> Result<Option<Next>, Refusal>
        ensures { Asked self.old style start end self.new result }
    {
        if self.is_deep() {
            return Err(Refusal::TooDeep(start));
        }
        self.focus = Focus::Commands(start, style);
        self.at = end;
        Ok(Some(Next::Inner {
            at: end,
            depth: self.depth + 1,
            style,
            quoted: is_quoted(self.holder.context().site),
        }))
    }

    /// Skips tabs that are no part of the text.
    pub(crate) fn skip_tabs(&mut self, end: u32)
        ensures { self.new ≡ skipped self.old end }
    {
        if let Holder::Parts { prior, .. } = &mut self.holder {
            *prior = 0;
        }
        self.focus = Focus::Parts;
        self.at = end;
    }
}
