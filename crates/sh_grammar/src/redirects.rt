//! Redirections (XCU 2.7).
ghost use Rattle.std.specs.Prelude.{◌-◌, ◌≡◌, ◌+◌, ◌≤◌, ◌<◌, length, Some, IfOk};
ghost use Rattle.sh_tree.specs.standard.language.Commands as commands;
ghost use Rattle.sh_grammar.specs.Nests.{Nests};
ghost use Rattle.sh_grammar.specs.States.{Stands};
ghost use Rattle.sh_grammar.specs.Readers.{Answers, RedirectFrom, RedirectsFrom};
ghost use Rattle.sh_grammar.specs.Targets.{IsMarked, TargetFrom};

use super::delimiters::{awaited, mark_at};
use super::grammar::Grammar;
use super::state::Cursor;
use sh_scan::{direction_of, is_redirection, redirection_at, strip_of};
use sh_tree::{
    Direction, Items, Lead, MAX_SCRIPT, Redirect, Redirection, Refusal, Script, Stage, Target, Word,
};
use sh_words::Mode;
use std::alloc::Global;

pub fn is_word(lead: Lead) -> bool
    ensures { result ≡ commands.is_word lead }
{
    matches!(lead, Lead::Word)
}

impl<F: Fn(Global, &[u8], Cursor) -> Result<(Script, Cursor), Refusal>> Grammar<F> {
    /// The word after an operator that ends at `end`.
    #[tactic(auto, using(crate::proofs::RedirectLemmas::target_none, crate::proofs::RedirectLemmas::target_refused, crate::proofs::RedirectLemmas::target_read, crate::proofs::ReaderLemmas::refused_none))]
    fn target(&self, script: &[u8], end: u32, from: Cursor) -> Result<(Word, Cursor), Refusal>
        requires small { length script.now ≤ MAX_SCRIPT }
        requires stands { Stands script.now from }
        requires moves { from.at < end }
        requires within { end ≤ length script.now }
        requires further { length script.now - from.at ≤ self.now.left }
        requires nests { Nests self.now.left (F.pre self.now.nested) (F.post self.now.nested) }
        ensures reads { Answers script.now (TargetFrom script.now end from) end result }
        ensures begins { IfOk result (λ r. r.0.span.start < length script.now) }
    {
        let target = from.next_from(script, end);
        let stage = Stage::Named(false);
        if !is_word(target.lead(script, stage)) {
            return Err(target.unexpected_at(script, stage));
        }
        let (word, behind) = self.word(script, Mode::Unsplit, target)?;
        Ok((word, behind))
    }

    /// The redirection of a file, whose operator is read.
    #[tactic(auto, using(crate::proofs::RedirectLemmas::redirect_refused, crate::proofs::RedirectLemmas::redirect_read))]
    fn file(
        &self,
        script: &[u8],
        front: Redirection,
        direction: Direction,
        from: Cursor,
    ) -> Result<(Redirect, Cursor), Refusal>
        requires small { length script.now ≤ MAX_SCRIPT }
        requires stands { Stands script.now from }
        requires begins { commands.redirection script.now from.at ≡ Some front }
        requires way { commands.direction_of front.operator ≡ Some direction }
        requires moves { from.at < front.end }
        requires within { front.end ≤ length script.now }
        requires further { length script.now - from.at ≤ self.now.left }
        requires nests { Nests self.now.left (F.pre self.now.nested) (F.post self.now.nested) }
        ensures { Answers script.now (RedirectFrom script.now from) (from.at + 1) result }
    {
        let (word, behind) = self.target(script, front.end, from)?;
        let redirect = Redirect {
            at: front.at,
            number: front.number,
            target: Target::File(direction, word),
        };
        Ok((redirect, behind))
    }

    /// A here-document, whose operator is read. Its body comes after the newline.
    #[tactic(auto, using(crate::proofs::RedirectLemmas::redirect_refused, crate::proofs::RedirectLemmas::document_refused))]
    fn here_document(
        &self,
        script: &[u8],
        front: Redirection,
        strip: bool,
        from: Cursor,
    ) -> Result<(Redirect, Cursor), Refusal>
        requires small { length script.now ≤ MAX_SCRIPT }
        requires stands { Stands script.now from }
        requires begins { commands.redirection script.now from.at ≡ Some front }
        requires way { commands.strip_of front.operator ≡ Some strip }
        requires moves { from.at < front.end }
        requires operator { front.at < front.end }
        requires within { front.end ≤ length script.now }
        requires further { length script.now - from.at ≤ self.now.left }
        requires nests { Nests self.now.left (F.pre self.now.nested) (F.post self.now.nested) }
        ensures reads { Answers script.now (RedirectFrom script.now from) (from.at + 1) result }
        ensures marked { IfOk result (λ r. IsMarked front.at r.1.pending) }
    {
        let depth = from.depth();
        let (word, behind) = self.target(script, front.end, from)?;
        let mark = mark_at(self.alloc, script, front.at, strip, &word, depth)?;
        let behind = behind.awaiting(mark)?;
        let redirect = Redirect {
            at: front.at,
            number: front.number,
            target: Target::Here(awaited(self.alloc, strip, word)),
        };
        Ok((redirect, behind))
    }

    /// The redirection at a token that begins one.
    #[tactic(auto, using(crate::proofs::RedirectLemmas::no_redirect, crate::proofs::RedirectLemmas::redirect_neither, crate::proofs::ReaderLemmas::refused_none))]
    pub fn redirect_at(&self, script: &[u8], from: Cursor) -> Result<(Redirect, Cursor), Refusal>
        requires small { length script.now ≤ MAX_SCRIPT }
        requires stands { Stands script.now from }
        requires further { length script.now - from.at ≤ self.now.left }
        requires nests { Nests self.now.left (F.pre self.now.nested) (F.post self.now.nested) }
        ensures { Answers script.now (RedirectFrom script.now from) (from.at + 1) result }
    {
        let Some(front) = redirection_at(script, from.at()) else {
            return Err(from.unexpected_at(script, Stage::Named(false)));
        };
        if let Some(direction) = direction_of(front.operator) {
            return self.file(script, front, direction, from);
        }
        match strip_of(front.operator) {
            Some(strip) => self.here_document(script, front, strip, from),
            None => Err(from.unexpected_at(script, Stage::Named(false))),
        }
    }

    /// The redirections after a compound command.
    #[tactic(auto, using(crate::proofs::RedirectLemmas::redirects_none, crate::proofs::RedirectLemmas::redirects_more, crate::proofs::RedirectLemmas::redirects_refused, crate::proofs::RedirectLemmas::redirects_all))]
    #[inline(never)]
    pub fn redirects_at(
        &self,
        script: &[u8],
        from: Cursor,
    ) -> Result<(Items<Redirect>, Cursor), Refusal>
        requires small { length script.now ≤ MAX_SCRIPT }
        requires stands { Stands script.now from }
        requires further { length script.now - from.at ≤ self.now.left }
        requires nests { Nests self.now.left (F.pre self.now.nested) (F.post self.now.nested) }
        ensures { Answers script.now (RedirectsFrom script.now from) from.at result }
    {
        let mut redirects = Items::new(self.alloc);
        let mut next = from;
        while is_redirection(next.lead(script, Stage::Named(false))) {
            let (redirect, behind) = self.redirect_at(script, next)?;
            redirects.push(redirect)?;
            next = behind;
        }
        Ok((redirects, next))
    }
}
