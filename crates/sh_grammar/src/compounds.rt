//! Groups and subshells (XCU 2.9.4.1).
ghost use Rattle.std.specs.Prelude.{◌-◌, ◌≡◌, ◌≢◌, ◌+◌, ◌<◌, ◌≤◌, true, false, length};
ghost use Rattle.sh_tree.specs.declared.token.command.Stage.TheVariants.{First};
ghost use Rattle.sh_tree.specs.standard.language.Commands as tokens;
ghost use Rattle.sh_grammar.specs.Brackets.{BracketFrom, inner, outer};
ghost use Rattle.sh_grammar.specs.Nests.{Nests};
ghost use Rattle.sh_grammar.specs.States.{Stands};
ghost use Rattle.sh_grammar.specs.Readers.{Answers, CompoundFrom};

use super::grammar::Grammar;
use super::state::Cursor;
use sh_tree::{
    Kind, Lead, LoopKind, MAX_NESTING, MAX_SCRIPT, Operator, Refusal, Reserved, Script, Stage,
};
use std::alloc::Global;

/// Whether the tokens are the same.
pub fn is_same(lead: Lead, other: Lead) -> bool
    ensures yes { result ≡ true → lead ≡ other }
    ensures no { result ≡ false → lead ≡ other → ⊥ }
{
    lead == other
}

/// One level inside, after the first byte of the token that opens it.
fn inside(script: &[u8], from: Cursor) -> Cursor
    requires small { length script.now ≤ MAX_SCRIPT }
    requires stands { Stands script.now from }
    requires some { from.at < length script.now }
    requires shallow { from.depth < MAX_NESTING }
    ensures value { result ≡ inner script.now from }
    ensures further { from.at < result.at }
    ensures stands { Stands script.now result }
{
    from.next(script, 1).lower()
}

/// After the token of one byte that closes what began where so many levels were open.
fn outside(script: &[u8], depth: u8, close: Cursor) -> Cursor
    requires small { length script.now ≤ MAX_SCRIPT }
    requires shallow { depth ≤ MAX_NESTING }
    requires stands { Stands script.now close }
    requires some { close.at < length script.now }
    ensures value { result ≡ outer script.now depth close }
    ensures further { close.at < result.at }
    ensures stands { Stands script.now result }
{
    close.next(script, 1).at_depth(depth)
}

impl<F: Fn(Global, &[u8], Cursor) -> Result<(Script, Cursor), Refusal>> Grammar<F> {
    /// A list one level deeper, up to the token of one byte that closes it.
    #[tactic(auto, using(crate::proofs::CompoundLemmas::bracket_refused, crate::proofs::CompoundLemmas::bracket_open, crate::proofs::CompoundLemmas::bracket_read, crate::proofs::ReaderLemmas::refused_none))]
    #[inline(always)]
    fn bracketed(
        &self,
        script: &[u8],
        close: Lead,
        from: Cursor,
    ) -> Result<(Script, Cursor), Refusal>
        requires small { length script.now ≤ MAX_SCRIPT }
        requires stands { Stands script.now from }
        requires some { from.at < length script.now }
        requires shallow { from.depth < MAX_NESTING }
        requires token { close ≢ Lead.End }
        requires further { length script.now - from.at ≤ self.now.left }
        requires nests { Nests self.now.left (F.pre self.now.nested) (F.post self.now.nested) }
        ensures { Answers script.now (BracketFrom script.now close from) (from.at + 1) result }
    {
        let depth = from.depth();
        let (list, behind) = self.list(script, inside(script, from))?;
        if !is_same(behind.lead(script, Stage::First), close) {
            return Err(behind.unexpected(script));
        }
        Ok((list, outside(script, depth, behind)))
    }

    #[tactic(auto, using(crate::proofs::CompoundLemmas::group_refused, crate::proofs::CompoundLemmas::group_read))]
    fn group(&self, script: &[u8], from: Cursor) -> Result<(Kind, Cursor), Refusal>
        requires small { length script.now ≤ MAX_SCRIPT }
        requires stands { Stands script.now from }
        requires some { from.at < length script.now }
        requires shallow { from.depth < MAX_NESTING }
        requires further { length script.now - from.at ≤ self.now.left }
        requires nests { Nests self.now.left (F.pre self.now.nested) (F.post self.now.nested) }
        ensures { Answers script.now (CompoundFrom script.now (Lead.Reserved Reserved.LeftBrace) from) (from.at + 1) result }
    {
        let (list, end) = self.bracketed(script, Lead::Reserved(Reserved::RightBrace), from)?;
        Ok((Kind::Group(list), end))
    }

    #[tactic(auto, using(crate::proofs::CompoundLemmas::subshell_refused, crate::proofs::CompoundLemmas::subshell_read))]
    fn subshell(&self, script: &[u8], from: Cursor) -> Result<(Kind, Cursor), Refusal>
        requires small { length script.now ≤ MAX_SCRIPT }
        requires stands { Stands script.now from }
        requires some { from.at < length script.now }
        requires shallow { from.depth < MAX_NESTING }
        requires further { length script.now - from.at ≤ self.now.left }
        requires nests { Nests self.now.left (F.pre self.now.nested) (F.post self.now.nested) }
        ensures { Answers script.now (CompoundFrom script.now (Lead.Operator Operator.LeftParenthesis) from) (from.at + 1) result }
    {
        let (list, end) = self.bracketed(script, Lead::Operator(Operator::RightParenthesis), from)?;
        Ok((Kind::Subshell(list), end))
    }

    /// The compound command that begins with the token.
    pub fn compound(
        &self,
        script: &[u8],
        lead: Lead,
        from: Cursor,
    ) -> Result<(Kind, Cursor), Refusal>
        requires small { length script.now ≤ MAX_SCRIPT }
        requires stands { Stands script.now from }
        requires some { from.at < length script.now }
        requires token { lead ≡ tokens.lead_at script.now First from.at }
        requires shallow { from.depth < MAX_NESTING }
        requires further { length script.now - from.at ≤ self.now.left }
        requires nests { Nests self.now.left (F.pre self.now.nested) (F.post self.now.nested) }
        ensures { Answers script.now (CompoundFrom script.now lead from) (from.at + 1) result }
    {
        if let Lead::Reserved(word) = lead {
            return self.compound_of(script, word, from);
        }
        if is_same(lead, Lead::Operator(Operator::LeftParenthesis)) {
            return self.subshell(script, from);
        }
        Err(from.unexpected_at(script, Stage::First))
    }

    /// The compound command that begins with the reserved word.
    #[inline(always)]
    fn compound_of(
        &self,
        script: &[u8],
        word: Reserved,
        from: Cursor,
    ) -> Result<(Kind, Cursor), Refusal>
        requires small { length script.now ≤ MAX_SCRIPT }
        requires stands { Stands script.now from }
        requires some { from.at < length script.now }
        requires token { Lead.Reserved word ≡ tokens.lead_at script.now First from.at }
        requires shallow { from.depth < MAX_NESTING }
        requires further { length script.now - from.at ≤ self.now.left }
        requires nests { Nests self.now.left (F.pre self.now.nested) (F.post self.now.nested) }
        ensures { Answers script.now (CompoundFrom script.now (Lead.Reserved word) from) (from.at + 1) result }
    {
        match word {
            Reserved::LeftBrace => self.group(script, from),
            Reserved::Case => self.case_of(script, from),
            Reserved::For => self.for_loop(script, from),
            Reserved::If => self.cond(script, from),
            Reserved::While => self.loop_of(script, LoopKind::While, from),
            Reserved::Until => self.loop_of(script, LoopKind::Until, from),
            _ => Err(from.unexpected_at(script, Stage::First)),
        }
    }
}
