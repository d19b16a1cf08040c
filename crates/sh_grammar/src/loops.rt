//! `while` and `until` (XCU 2.9.4.5, 2.9.4.6).
ghost use Rattle.std.specs.Prelude.{◌-◌, ◌≡◌, ◌+◌, ◌<◌, ◌≤◌, length};
ghost use Rattle.sh_grammar.specs.Nests.{Nests};
ghost use Rattle.sh_grammar.specs.Phrases.{DoFrom, loop_word};
ghost use Rattle.sh_grammar.specs.States.{Stands};
ghost use Rattle.sh_grammar.specs.Readers.{Answers, CompoundFrom};
ghost use Rattle.sh_tree.specs.declared.token.command.Stage.TheVariants.{First};
ghost use Rattle.sh_tree.specs.standard.language.Commands as tokens;

use super::grammar::Grammar;
use super::reserved::{enter, expect};
use super::state::Cursor;
use sh_tree::{Kind, Lead, LoopKind, MAX_NESTING, MAX_SCRIPT, Refusal, Reserved, Script};
use std::alloc::Global;

fn word_of(kind: LoopKind) -> Reserved
    ensures { result ≡ loop_word kind }
{
    match kind {
        LoopKind::While => Reserved::While,
        LoopKind::Until => Reserved::Until,
    }
}

impl<F: Fn(Global, &[u8], Cursor) -> Result<(Script, Cursor), Refusal>> Grammar<F> {
    /// `do`, a list and `done`.
    #[tactic(auto, using(crate::proofs::LoopLemmas::do_none, crate::proofs::LoopLemmas::do_refused, crate::proofs::LoopLemmas::do_read, crate::proofs::ReaderLemmas::refused_none))]
    #[inline(always)]
    pub fn do_group(&self, script: &[u8], from: Cursor) -> Result<(Script, Cursor), Refusal>
        requires small { length script.now ≤ MAX_SCRIPT }
        requires stands { Stands script.now from }
        requires further { length script.now - from.at ≤ self.now.left }
        requires nests { Nests self.now.left (F.pre self.now.nested) (F.post self.now.nested) }
        ensures { Answers script.now (DoFrom script.now from) from.at result }
    {
        let first = expect(script, Reserved::Do, from)?;
        let (list, end) = self.list_before(script, Reserved::Done, first)?;
        Ok((list, end))
    }

    /// The loop of the kind.
    #[tactic(auto, using(crate::proofs::LoopLemmas::condition_refused, crate::proofs::LoopLemmas::body_refused, crate::proofs::LoopLemmas::loop_read))]
    #[inline(never)]
    pub fn loop_of(
        &self,
        script: &[u8],
        kind: LoopKind,
        from: Cursor,
    ) -> Result<(Kind, Cursor), Refusal>
        requires small { length script.now ≤ MAX_SCRIPT }
        requires stands { Stands script.now from }
        requires word { Lead.Reserved (loop_word kind) ≡ tokens.lead_at script.now First from.at }
        requires shallow { from.depth < MAX_NESTING }
        requires further { length script.now - from.at ≤ self.now.left }
        requires nests { Nests self.now.left (F.pre self.now.nested) (F.post self.now.nested) }
        ensures { Answers script.now (CompoundFrom script.now (Lead.Reserved (loop_word kind)) from) (from.at + 1) result }
    {
        let depth = from.depth();
        let (condition, behind) = self.list(script, enter(script, word_of(kind), from))?;
        let (body, end) = self.do_group(script, behind)?;
        let found = Kind::Loop {
            kind,
            condition,
            body,
        };
        Ok((found, end.at_depth(depth)))
    }
}
