//! `for` (XCU 2.9.4.2).
ghost use Rattle.std.specs.Prelude.{◌-◌, ◌≡◌, ◌+◌, ◌<◌, ◌≤◌, true, false, length, Some};
ghost use Rattle.sh_grammar.specs.Fors.{ForWordsFrom, ListedFrom, WordsFrom};
ghost use Rattle.sh_grammar.specs.Nests.{Nests};
ghost use Rattle.sh_grammar.specs.States.{Stands};
ghost use Rattle.sh_grammar.specs.Readers.{Answers, CompoundFrom};
ghost use Rattle.sh_tree.specs.declared.token.command.Stage.TheVariants.{First};
ghost use Rattle.sh_tree.specs.standard.language.Commands as tokens;

use super::breaks::parted;
use super::compounds::is_same;
use super::grammar::Grammar;
use super::redirects::is_word;
use super::reserved::{enter, skip};
use super::state::Cursor;
use sh_scan::{is_bare_name_at, name_at, separator};
use sh_tree::{
    Items, Kind, Lead, MAX_NESTING, MAX_SCRIPT, Operator, Refusal, Reserved, Script, Span, Stage,
    Word,
};
use sh_words::Mode;
use std::alloc::Global;

/// Whether the token ends the words after `in`.
fn ends_words(lead: Lead) -> bool
    ensures yes { result ≡ true → tokens.separator lead ≡ Some false }
    ensures no { result ≡ false → tokens.separator lead ≡ Some false → ⊥ }
{
    matches!(separator(lead), Some(false))
}

impl<F: Fn(Global, &[u8], Cursor) -> Result<(Script, Cursor), Refusal>> Grammar<F> {
    /// The words at a token, whose fields are split.
    #[tactic(auto, using(crate::proofs::ForLemmas::word_begins, crate::proofs::ForLemmas::words_none, crate::proofs::ForLemmas::words_more, crate::proofs::ForLemmas::words_refused, crate::proofs::ForLemmas::words_all))]
    fn words_at(&self, script: &[u8], from: Cursor) -> Result<(Items<Word>, Cursor), Refusal>
        requires small { length script.now ≤ MAX_SCRIPT }
        requires stands { Stands script.now from }
        requires further { length script.now - from.at ≤ self.now.left }
        requires nests { Nests self.now.left (F.pre self.now.nested) (F.post self.now.nested) }
        ensures { Answers script.now (WordsFrom script.now from) from.at result }
    {
        let mut words = Items::new(self.alloc);
        let mut next = from;
        while is_word(next.lead(script, Stage::Named(false))) {
            let (word, behind) = self.word(script, Mode::Word, next)?;
            words.push(word)?;
            next = behind;
        }
        Ok((words, next))
    }

    /// The words after `in`, and what separates them from `do`.
    #[tactic(auto, using(crate::proofs::ForLemmas::listed_refused, crate::proofs::ForLemmas::listed_unended, crate::proofs::ForLemmas::listed_stopped, crate::proofs::ForLemmas::listed_read, crate::proofs::ReaderLemmas::refused_none))]
    fn listed(&self, script: &[u8], from: Cursor) -> Result<(Items<Word>, Cursor), Refusal>
        requires small { length script.now ≤ MAX_SCRIPT }
        requires stands { Stands script.now from }
        requires further { length script.now - from.at ≤ self.now.left }
        requires nests { Nests self.now.left (F.pre self.now.nested) (F.post self.now.nested) }
        ensures { Answers script.now (ListedFrom script.now from) from.at result }
    {
        let (words, behind) = self.words_at(script, from)?;
        let lead = behind.lead(script, Stage::First);
        if !ends_words(lead) {
            return Err(behind.unexpected_at(script, Stage::Named(false)));
        }
        let end = self.breaks(script, parted(script, lead, behind))?;
        Ok((words, end))
    }

    /// What is between the name and `do`.
    #[tactic(auto, using(crate::proofs::ForLemmas::arguments_ended, crate::proofs::ForLemmas::arguments_stopped, crate::proofs::ForLemmas::for_words_stopped, crate::proofs::ForLemmas::arguments_read, crate::proofs::ForLemmas::for_words_none, crate::proofs::ForLemmas::for_words_refused, crate::proofs::ForLemmas::for_words_read, crate::proofs::ReaderLemmas::refused_none))]
    #[inline(never)]
    fn for_words(
        &self,
        script: &[u8],
        from: Cursor,
    ) -> Result<(Option<Items<Word>>, Cursor), Refusal>
        requires small { length script.now ≤ MAX_SCRIPT }
        requires stands { Stands script.now from }
        requires further { length script.now - from.at ≤ self.now.left }
        requires nests { Nests self.now.left (F.pre self.now.nested) (F.post self.now.nested) }
        ensures { Answers script.now (ForWordsFrom script.now from) from.at result }
    {
        let first = from.lead(script, Stage::First);
        if is_same(first, Lead::Operator(Operator::Semicolon)) {
            let end = self.breaks(script, from.next(script, 1))?;
            return Ok((None, end));
        }
        let next = self.breaks(script, from)?;
        let lead = next.lead(script, Stage::First);
        if is_same(lead, Lead::Reserved(Reserved::Do)) {
            return Ok((None, next));
        }
        if !is_same(lead, Lead::Reserved(Reserved::In)) {
            return Err(next.unexpected_at(script, Stage::Named(false)));
        }
        let (words, behind) = self.listed(script, skip(script, Reserved::In, next))?;
        Ok((Some(words), behind))
    }

    /// `for`, a name, its words and what it does.
    #[tactic(auto, using(crate::proofs::ForLemmas::for_unnamed, crate::proofs::ForLemmas::for_refused, crate::proofs::ForLemmas::for_body_refused, crate::proofs::ForLemmas::for_read, crate::proofs::ReaderLemmas::refused_none))]
    #[inline(never)]
    pub fn for_loop(&self, script: &[u8], from: Cursor) -> Result<(Kind, Cursor), Refusal>
        requires small { length script.now ≤ MAX_SCRIPT }
        requires stands { Stands script.now from }
        requires word { Lead.Reserved Reserved.For ≡ tokens.lead_at script.now First from.at }
        requires shallow { from.depth < MAX_NESTING }
        requires further { length script.now - from.at ≤ self.now.left }
        requires nests { Nests self.now.left (F.pre self.now.nested) (F.post self.now.nested) }
        ensures { Answers script.now (CompoundFrom script.now (Lead.Reserved Reserved.For) from) (from.at + 1) result }
    {
        let depth = from.depth();
        let first = enter(script, Reserved::For, from);
        let at = first.at();
        if !is_bare_name_at(script, at) {
            return Err(first.unexpected_at(script, Stage::Named(false)));
        }
        let name = Span {
            start: at,
            end: name_at(script, at),
        };
        let (words, behind) = self.for_words(script, first.next_from(script, name.end))?;
        let (body, end) = self.do_group(script, behind)?;
        Ok((Kind::For { name, words, body }, end.at_depth(depth)))
    }
}
