//! Newlines between commands (XCU 2.10).
ghost use Rattle.std.specs.Prelude.{◌-◌, ◌≡◌, ◌≤◌, ◌<◌, Err, IfSome, length};
ghost use Rattle.sh_tree.specs.standard.language.Commands as commands;
ghost use Rattle.sh_tree.specs.standard.language.Reading as reading;
ghost use Rattle.sh_tree.specs.declared.token.command.Stage.TheVariants.{First};
ghost use Rattle.sh_grammar.specs.Nests.{Nests};
ghost use Rattle.sh_grammar.specs.States.{Stands, here};
ghost use Rattle.sh_grammar.specs.Breaks.{Breaks, Line};

use super::grammar::Grammar;
use super::state::Cursor;
use sh_tree::{Form, Lead, MAX_SCRIPT, Refusal, Script, Stage};
use std::alloc::Global;

fn is_newline(lead: Lead) -> bool
    ensures { result ≡ commands.is_newline_lead lead }
{
    matches!(lead, Lead::Newline)
}

/// Where the newlines after a separator begin: a newline is one of them.
pub fn parted(script: &[u8], lead: Lead, from: Cursor) -> Cursor
    requires small { length script.now ≤ MAX_SCRIPT }
    requires stands { Stands script.now from }
    requires inside { from.at < length script.now }
    requires token { lead ≡ commands.lead_at script.now First from.at }
    ensures value { here result ≡ reading.parted script.now (here from) }
    ensures after { from.at ≤ result.at }
    ensures stands { Stands script.now result }
{
    if is_newline(lead) {
        from
    } else {
        from.next(script, 1)
    }
}

impl<F: Fn(Global, &[u8], Cursor) -> Result<(Script, Cursor), Refusal>> Grammar<F> {
    /// After a newline, and the bodies of the here-documents before it.
    #[tactic(auto, using(crate::proofs::BreakLemmas::line_across, crate::proofs::BreakLemmas::line_lies, crate::proofs::BreakLemmas::line_marks))]
    #[inline(never)]
    fn line(&self, script: &[u8], from: Cursor) -> Result<Cursor, Refusal>
        requires small { length script.now ≤ MAX_SCRIPT }
        requires stands { Stands script.now from }
        requires further { length script.now - from.at ≤ self.now.left }
        requires nests { Nests self.now.left (F.pre self.now.nested) (F.post self.now.nested) }
        requires inside { from.at < length script.now }
        ensures line { Line script.now from result }
        ensures across { IfSome from.outer (λ at. result ≡ Err (Refusal.LeftOut Form.HereAcross at)) }
    {
        if let Some(at) = from.get().outer {
            return Err(Refusal::LeftOut(Form::HereAcross, at));
        }
        let at = from.at() + 1;
        let (marks, first) = from.on_line(self.alloc, at);
        let behind = self.documents(script, marks.as_slice(), first)?;
        Ok(behind.settled(script))
    }

    /// The first token at or after this one that is no newline.
    ///
    /// # Errors
    ///
    /// `LeftOut` at the operator of a here-document outside that waits for its body; and what is
    /// reported of a body.
    #[tactic(auto, using(crate::proofs::BreakLemmas::skips_none, crate::proofs::BreakLemmas::skips_refused))]
    pub fn breaks(&self, script: &[u8], from: Cursor) -> Result<Cursor, Refusal>
        requires small { length script.now ≤ MAX_SCRIPT }
        requires stands { Stands script.now from }
        requires further { length script.now - from.at ≤ self.now.left }
        requires nests { Nests self.now.left (F.pre self.now.nested) (F.post self.now.nested) }
        ensures { Breaks script.now from result }
    {
        let mut next = from;
        while is_newline(next.lead(script, Stage::First)) {
            next = self.line(script, next)?;
        }
        Ok(next)
    }
}
