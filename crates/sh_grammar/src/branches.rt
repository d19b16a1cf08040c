//! `if` (XCU 2.9.4.4).
ghost use Rattle.std.specs.Prelude.{◌-◌, ◌≡◌, ◌+◌, ◌<◌, ◌≤◌, length};
ghost use Rattle.sh_grammar.specs.Branches.{BranchFrom, BranchesFrom, OtherwiseFrom};
ghost use Rattle.sh_grammar.specs.Nests.{Nests};
ghost use Rattle.sh_grammar.specs.States.{Stands};
ghost use Rattle.sh_grammar.specs.Readers.{Answers, CompoundFrom};
ghost use Rattle.sh_tree.specs.declared.token.command.Stage.TheVariants.{First};
ghost use Rattle.sh_tree.specs.standard.language.Commands as tokens;

use super::compounds::is_same;
use super::grammar::Grammar;
use super::reserved::{enter, expect, skip};
use super::state::Cursor;
use sh_tree::{
    Branch, Items, Kind, Lead, MAX_NESTING, MAX_SCRIPT, Refusal, Reserved, Script, Stage,
};
use std::alloc::Global;

impl<F: Fn(Global, &[u8], Cursor) -> Result<(Script, Cursor), Refusal>> Grammar<F> {
    /// A condition, `then` and a list.
    #[tactic(auto, using(crate::proofs::BranchLemmas::test_refused, crate::proofs::BranchLemmas::consequence_refused, crate::proofs::BranchLemmas::branch_read))]
    fn branch(&self, script: &[u8], from: Cursor) -> Result<(Branch, Cursor), Refusal>
        requires small { length script.now ≤ MAX_SCRIPT }
        requires stands { Stands script.now from }
        requires further { length script.now - from.at < self.now.left }
        requires nests { Nests self.now.left (F.pre self.now.nested) (F.post self.now.nested) }
        ensures { Answers script.now (BranchFrom script.now from) from.at result }
    {
        let (condition, first) = self.list_before(script, Reserved::Then, from)?;
        let (body, behind) = self.list(script, first)?;
        Ok((Branch { condition, body }, behind))
    }

    /// What follows the last branch, up to `fi`.
    #[tactic(auto, using(crate::proofs::BranchLemmas::fi_none, crate::proofs::BranchLemmas::fi_read, crate::proofs::BranchLemmas::else_refused, crate::proofs::BranchLemmas::else_read, crate::proofs::ReaderLemmas::refused_none))]
    fn otherwise(&self, script: &[u8], from: Cursor) -> Result<(Option<Script>, Cursor), Refusal>
        requires small { length script.now ≤ MAX_SCRIPT }
        requires stands { Stands script.now from }
        requires last { tokens.lead_at script.now First from.at ≡ Lead.Reserved Reserved.Elif → ⊥ }
        requires further { length script.now - from.at < self.now.left }
        requires nests { Nests self.now.left (F.pre self.now.nested) (F.post self.now.nested) }
        ensures { Answers script.now (OtherwiseFrom script.now from) from.at result }
    {
        let lead = from.lead(script, Stage::First);
        if is_same(lead, Lead::Reserved(Reserved::Else)) {
            let first = skip(script, Reserved::Else, from);
            let (list, end) = self.list_before(script, Reserved::Fi, first)?;
            return Ok((Some(list), end));
        }
        let end = expect(script, Reserved::Fi, from)?;
        Ok((None, end))
    }

    /// The branches, and what follows them up to `fi`.
    #[tactic(auto, using(crate::proofs::BranchLemmas::branches_none, crate::proofs::BranchLemmas::branches_refused, crate::proofs::BranchLemmas::branches_more, crate::proofs::BranchLemmas::last_refused, crate::proofs::BranchLemmas::branches_read))]
    fn branches(
        &self,
        script: &[u8],
        from: Cursor,
    ) -> Result<((Items<Branch>, Option<Script>), Cursor), Refusal>
        requires small { length script.now ≤ MAX_SCRIPT }
        requires stands { Stands script.now from }
        requires further { length script.now - from.at < self.now.left }
        requires nests { Nests self.now.left (F.pre self.now.nested) (F.post self.now.nested) }
        ensures { Answers script.now (BranchesFrom script.now from) from.at result }
    {
        let mut branches = Items::new(self.alloc);
        let mut next = from;
        loop {
            let (branch, behind) = self.branch(script, next)?;
            branches.push(branch)?;
            let lead = behind.lead(script, Stage::First);
            if !is_same(lead, Lead::Reserved(Reserved::Elif)) {
                let (otherwise, end) = self.otherwise(script, behind)?;
                return Ok(((branches, otherwise), end));
            }
            next = skip(script, Reserved::Elif, behind);
        }
    }

    /// The conditional construct that begins with `if`.
    #[tactic(auto, using(crate::proofs::BranchLemmas::cond_refused, crate::proofs::BranchLemmas::cond_read))]
    #[inline(never)]
    pub fn cond(&self, script: &[u8], from: Cursor) -> Result<(Kind, Cursor), Refusal>
        requires small { length script.now ≤ MAX_SCRIPT }
        requires stands { Stands script.now from }
        requires word { Lead.Reserved Reserved.If ≡ tokens.lead_at script.now First from.at }
        requires shallow { from.depth < MAX_NESTING }
        requires further { length script.now - from.at ≤ self.now.left }
        requires nests { Nests self.now.left (F.pre self.now.nested) (F.post self.now.nested) }
        ensures { Answers script.now (CompoundFrom script.now (Lead.Reserved Reserved.If) from) (from.at + 1) result }
    {
        let depth = from.depth();
        let first = enter(script, Reserved::If, from);
        let ((branches, otherwise), end) = self.branches(script, first)?;
        let found = Kind::Cond {
            branches,
            otherwise,
        };
        Ok((found, end.at_depth(depth)))
    }
}
