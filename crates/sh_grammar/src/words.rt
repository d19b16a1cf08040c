//! Words (XCU 2.2, 2.6).
ghost use Rattle.std.specs.Prelude.{◌-◌, ◌≡◌, ◌≤◌, ◌<◌, ℕ, not, ◌&&◌, true, List, length, IfOk};
ghost use Rattle.sh_tree.specs.standard.language.Contexts as contexts;
ghost use Rattle.sh_tree.specs.standard.language.Commands as commands;
ghost use Rattle.sh_words.specs.Modes as modes;
ghost use Rattle.sh_grammar.specs.Modes.{Begins, Builds, IsWhole};
ghost use Rattle.sh_grammar.specs.Nests.{Nests};
ghost use Rattle.sh_grammar.specs.States.{Lies, Stands};
ghost use Rattle.sh_grammar.specs.Readers.{Answers, WordAt};

use super::grammar::Grammar;
use super::kept::split_at;
use super::state::Cursor;
use sh_scan::is_location_at;
use sh_tree::{Form, MAX_SCRIPT, Refusal, Script, Stage, Word};
use sh_words::{Mode, Next, WordBuilder};
use std::alloc::Global;

/// The mode of a word at a stage of a simple command.
#[tactic(auto, unfolding(sh_tree::specs::standard::language::Contexts::in_stage))]
pub fn mode_of(stage: Stage) -> Mode
    ensures whole { IsWhole result }
    ensures value { (b : List ℕ) (i : ℕ) → modes.context_of b result i ≡ contexts.in_stage b stage i }
{
    match stage {
        Stage::Named(true) => Mode::Operand,
        Stage::Named(false) | Stage::First | Stage::Prefixed => Mode::Word,
    }
}

/// Whether the word from `start` to `end` may be an IO location. The value of an assignment is
/// none.
fn is_location(script: &[u8], mode: Mode, start: u32, end: u32) -> bool
    requires small { length script.now ≤ MAX_SCRIPT }
    requires ordered { start ≤ end }
    requires inside { end ≤ length script.now }
    ensures value { result ≡ (not (modes.context_of script.now mode start).colons && commands.is_location script.now start end) }
    ensures within { result ≡ true → start < length script.now }
{
    let value = mode.context(script, start).colons;
    !value && is_location_at(script, start, end)
}

impl<F: Fn(Global, &[u8], Cursor) -> Result<(Script, Cursor), Refusal>> Grammar<F> {
    /// The word of a mode at `at`, and the state after as many commands as are in it.
    #[tactic(auto, using(crate::proofs::WordLemmas::driven_new, crate::proofs::WordLemmas::word_refused, crate::proofs::WordLemmas::word_done))]
    pub fn built(
        &self,
        script: &[u8],
        mode: Mode,
        at: u32,
        from: Cursor,
    ) -> Result<(Word, Cursor), Refusal>
        requires small { length script.now ≤ MAX_SCRIPT }
        requires inside { at ≤ length script.now }
        requires ordered { from.at ≤ at }
        requires whole { modes.seen script.now mode ≡ script.now }
        requires lies { Lies script.now from }
        requires further { length script.now - from.at ≤ self.now.left }
        requires nests { Nests self.now.left (F.pre self.now.nested) (F.post self.now.nested) }
        ensures { Builds script.now mode at from result }
    {
        let quoted = from.get().ticks.quoted();
        let mut builder = WordBuilder::start(self.alloc, mode, from.depth(), at, quoted)?;
        let mut last = from;
        loop {
            match builder.run(script)? {
                Next::Done(word) => return Ok((word, last)),
                Next::Inner {
                    at,
                    depth,
                    style,
                    quoted,
                } => {
                    let here = last.get();
                    let (commands, end) = self.commands_at(script, style, quoted, at, depth, here)?;
                    builder.resume(commands, end.at() + 1)?;
                    last = last.counting(end.count());
                }
            }
        }
    }

    /// The word of a mode at `at`, and where the token after it begins.
    #[tactic(auto, using(crate::proofs::WordLemmas::word_unread, crate::proofs::WordLemmas::whole_seen, crate::proofs::StateLemmas::lies_of))]
    pub fn word_at(
        &self,
        script: &[u8],
        mode: Mode,
        at: u32,
        from: Cursor,
    ) -> Result<(Word, Cursor), Refusal>
        requires small { length script.now ≤ MAX_SCRIPT }
        requires inside { at ≤ length script.now }
        requires ordered { from.at ≤ at }
        requires whole { IsWhole mode }
        requires stands { Stands script.now from }
        requires further { length script.now - from.at ≤ self.now.left }
        requires nests { Nests self.now.left (F.pre self.now.nested) (F.post self.now.nested) }
        ensures reads { Answers script.now (WordAt script.now (modes.context_of script.now mode at) at from) at result }
        ensures moves { IfOk result (λ r. Begins script.now (modes.context_of script.now mode at) at from → at < r.1.at) }
    {
        let (word, last) = self.built(script, mode, at, from)?;
        if is_location(script, mode, at, word.span.end) {
            return Err(Refusal::LeftOut(Form::IoLocation, at));
        }
        if let Some(place) = split_at(script, last.get().joins, word.parts.as_slice()) {
            return Err(Refusal::LeftOut(Form::Continuation, place));
        }
        let behind = last.next_from(script, word.span.end);
        Ok((word, behind))
    }

    /// The word of a mode at the token here, and where the token after it begins.
    pub fn word(&self, script: &[u8], mode: Mode, from: Cursor) -> Result<(Word, Cursor), Refusal>
        requires small { length script.now ≤ MAX_SCRIPT }
        requires whole { IsWhole mode }
        requires stands { Stands script.now from }
        requires further { length script.now - from.at ≤ self.now.left }
        requires nests { Nests self.now.left (F.pre self.now.nested) (F.post self.now.nested) }
        ensures reads { Answers script.now (WordAt script.now (modes.context_of script.now mode from.at) from.at from) from.at result }
        ensures moves { IfOk result (λ r. Begins script.now (modes.context_of script.now mode from.at) from.at from → from.at < r.1.at) }
    {
        let at = from.at();
        self.word_at(script, mode, at, from)
    }
}
