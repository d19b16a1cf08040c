//! `case` (XCU 2.9.4.3).
ghost use Rattle.std.specs.Prelude.{◌-◌, ◌≡◌, ◌+◌, ◌<◌, ◌≤◌, length};
ghost use Rattle.sh_grammar.specs.Cases.{ClauseFrom, ClausesFrom, ExpectsIn, PatternsFrom, UnsplitFrom};
ghost use Rattle.sh_grammar.specs.Nests.{Nests};
ghost use Rattle.sh_grammar.specs.States.{Stands, here};
ghost use Rattle.sh_grammar.specs.Readers.{Answers, CompoundFrom};
ghost use Rattle.sh_tree.specs.declared.token.command.Stage.TheVariants.{First};
ghost use Rattle.sh_tree.specs.standard.language.Commands as tokens;
ghost use Rattle.sh_tree.specs.standard.language.Reading as reading;

use super::compounds::is_same;
use super::grammar::Grammar;
use super::redirects::is_word;
use super::reserved::{enter, expect, skip};
use super::state::Cursor;
use sh_scan::clause_end_of;
use sh_tree::{
    Clause, ClauseEnd, Items, Kind, Lead, MAX_NESTING, MAX_SCRIPT, Operator, Refusal, Reserved,
    Script, Stage, Word,
};
use sh_words::Mode;
use std::alloc::Global;

/// After `in`, which has to come where no command can begin.
fn expect_in(script: &[u8], from: Cursor) -> Result<Cursor, Refusal>
    requires small { length script.now ≤ MAX_SCRIPT }
    requires stands { Stands script.now from }
    ensures { ExpectsIn script.now from result }
{
    let lead = from.lead(script, Stage::First);
    if is_same(lead, Lead::Reserved(Reserved::In)) {
        return Ok(skip(script, Reserved::In, from));
    }
    Err(from.unexpected_at(script, Stage::Named(false)))
}

/// After the parenthesis with which a clause may begin.
#[tactic(auto, using(crate::proofs::CaseLemmas::unopened_with, crate::proofs::CaseLemmas::unopened_without))]
fn unopened(script: &[u8], from: Cursor) -> Cursor
    requires small { length script.now ≤ MAX_SCRIPT }
    requires stands { Stands script.now from }
    ensures value { here result ≡ reading.unopened script.now (here from) }
    ensures after { from.at ≤ result.at }
    ensures stands { Stands script.now result }
{
    let lead = from.lead(script, Stage::Named(false));
    if is_same(lead, Lead::Operator(Operator::LeftParenthesis)) {
        return from.next(script, 1);
    }
    from
}

impl<F: Fn(Global, &[u8], Cursor) -> Result<(Script, Cursor), Refusal>> Grammar<F> {
    /// The word at a token, whose fields are not split.
    #[tactic(auto, using(crate::proofs::CaseLemmas::unsplit_none, crate::proofs::CaseLemmas::unsplit_refused, crate::proofs::CaseLemmas::unsplit_read, crate::proofs::ReaderLemmas::refused_none))]
    #[inline(never)]
    fn unsplit(&self, script: &[u8], from: Cursor) -> Result<(Word, Cursor), Refusal>
        requires small { length script.now ≤ MAX_SCRIPT }
        requires stands { Stands script.now from }
        requires further { length script.now - from.at ≤ self.now.left }
        requires nests { Nests self.now.left (F.pre self.now.nested) (F.post self.now.nested) }
        ensures { Answers script.now (UnsplitFrom script.now from) from.at result }
    {
        let stage = Stage::Named(false);
        if !is_word(from.lead(script, stage)) {
            return Err(from.unexpected_at(script, stage));
        }
        let (word, behind) = self.word(script, Mode::Unsplit, from)?;
        Ok((word, behind))
    }

    /// Patterns between bars, and the `)` after them.
    #[tactic(auto, using(crate::proofs::CaseLemmas::patterns_none, crate::proofs::CaseLemmas::patterns_refused, crate::proofs::CaseLemmas::patterns_wrong, crate::proofs::CaseLemmas::patterns_last, crate::proofs::CaseLemmas::patterns_more, crate::proofs::ReaderLemmas::refused_none))]
    #[inline(never)]
    fn patterns(&self, script: &[u8], from: Cursor) -> Result<(Items<Word>, Cursor), Refusal>
        requires small { length script.now ≤ MAX_SCRIPT }
        requires stands { Stands script.now from }
        requires further { length script.now - from.at ≤ self.now.left }
        requires nests { Nests self.now.left (F.pre self.now.nested) (F.post self.now.nested) }
        ensures { Answers script.now (PatternsFrom script.now from) (from.at + 1) result }
    {
        let mut found = Items::new(self.alloc);
        let mut next = from;
        loop {
            let (word, behind) = self.unsplit(script, next)?;
            found.push(word)?;
            let lead = behind.lead(script, Stage::Named(false));
            if is_same(lead, Lead::Operator(Operator::RightParenthesis)) {
                return Ok((found, behind.next(script, 1)));
            }
            if !is_same(lead, Lead::Operator(Operator::Bar)) {
                return Err(behind.unexpected_at(script, Stage::Named(false)));
            }
            next = behind.next(script, 1);
        }
    }

    /// The patterns of a clause and its list.
    #[tactic(auto, using(crate::proofs::CaseLemmas::clause_refused, crate::proofs::CaseLemmas::clause_list_refused, crate::proofs::CaseLemmas::clause_read))]
    fn clause(
        &self,
        script: &[u8],
        from: Cursor,
    ) -> Result<((Items<Word>, Script), Cursor), Refusal>
        requires small { length script.now ≤ MAX_SCRIPT }
        requires stands { Stands script.now from }
        requires further { length script.now - from.at ≤ self.now.left }
        requires nests { Nests self.now.left (F.pre self.now.nested) (F.post self.now.nested) }
        ensures { Answers script.now (ClauseFrom script.now from) (from.at + 1) result }
    {
        let (patterns, first) = self.patterns(script, unopened(script, from))?;
        let (body, behind) = self.inner(script, first)?;
        Ok(((patterns, body), behind))
    }

    /// The clauses at a token, and `esac`.
    #[tactic(auto, using(crate::proofs::CaseLemmas::clauses_none, crate::proofs::CaseLemmas::clauses_all, crate::proofs::CaseLemmas::clauses_refused, crate::proofs::CaseLemmas::clauses_wrong, crate::proofs::CaseLemmas::clauses_stopped, crate::proofs::CaseLemmas::clauses_last, crate::proofs::CaseLemmas::clauses_more, crate::proofs::WidthLemmas::clause_end_inside, crate::proofs::ReaderLemmas::refused_none))]
    fn clauses(&self, script: &[u8], from: Cursor) -> Result<(Items<Clause>, Cursor), Refusal>
        requires small { length script.now ≤ MAX_SCRIPT }
        requires stands { Stands script.now from }
        requires further { length script.now - from.at ≤ self.now.left }
        requires nests { Nests self.now.left (F.pre self.now.nested) (F.post self.now.nested) }
        ensures { Answers script.now (ClausesFrom script.now from) from.at result }
    {
        let mut clauses = Items::new(self.alloc);
        let mut next = from;
        while !is_same(
            next.lead(script, Stage::First),
            Lead::Reserved(Reserved::Esac),
        ) {
            let ((patterns, body), behind) = self.clause(script, next)?;
            let Some(end) = clause_end_of(behind.lead(script, Stage::First)) else {
                let last = expect(script, Reserved::Esac, behind)?;
                let end = ClauseEnd::Break;
                clauses.push(Clause {
                    patterns,
                    body,
                    end,
                })?;
                return Ok((clauses, last));
            };
            clauses.push(Clause {
                patterns,
                body,
                end,
            })?;
            next = self.breaks(script, behind.next(script, 2))?;
        }
        Ok((clauses, skip(script, Reserved::Esac, next)))
    }

    /// `case`, a word, `in` and clauses.
    #[tactic(auto, using(crate::proofs::CaseLemmas::case_word_refused, crate::proofs::CaseLemmas::case_stopped, crate::proofs::CaseLemmas::case_in_stopped, crate::proofs::CaseLemmas::case_none, crate::proofs::CaseLemmas::case_refused, crate::proofs::CaseLemmas::case_read, crate::proofs::ReaderLemmas::refused_none))]
    #[inline(never)]
    pub fn case_of(&self, script: &[u8], from: Cursor) -> Result<(Kind, Cursor), Refusal>
        requires small { length script.now ≤ MAX_SCRIPT }
        requires stands { Stands script.now from }
        requires word { Lead.Reserved Reserved.Case ≡ tokens.lead_at script.now First from.at }
        requires shallow { from.depth < MAX_NESTING }
        requires further { length script.now - from.at ≤ self.now.left }
        requires nests { Nests self.now.left (F.pre self.now.nested) (F.post self.now.nested) }
        ensures { Answers script.now (CompoundFrom script.now (Lead.Reserved Reserved.Case) from) (from.at + 1) result }
    {
        let depth = from.depth();
        let (word, behind) = self.unsplit(script, enter(script, Reserved::Case, from))?;
        let wanted = self.breaks(script, behind)?;
        let inside = expect_in(script, wanted)?;
        let first = self.breaks(script, inside)?;
        let (clauses, end) = self.clauses(script, first)?;
        Ok((Kind::Branches { word, clauses }, end.at_depth(depth)))
    }
}
