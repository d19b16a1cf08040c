//! Commands (XCU 2.9).
ghost use Rattle.std.specs.Prelude.{◌-◌, ◌≡◌, ◌+◌, ◌<◌, ◌≤◌, true, length};
ghost use Rattle.sh_grammar.specs.Nests.{Nests};
ghost use Rattle.sh_grammar.specs.States.{Stands};
ghost use Rattle.sh_grammar.specs.Readers.{Answers, CommandFrom};
ghost use Rattle.sh_grammar.specs.Redirected.{RedirectedFrom};
ghost use Rattle.sh_tree.specs.declared.token.command.Stage.TheVariants.{First};
ghost use Rattle.sh_tree.specs.standard.language.Commands as tokens;
ghost use Rattle.sh_tree.specs.standard.language.Reading as reading;

use super::grammar::Grammar;
use super::state::Cursor;
use sh_scan::{begins_command, begins_compound, begins_simple};
use sh_tree::{
    Command, Items, Kind, Lead, MAX_COMMANDS, MAX_NESTING, MAX_SCRIPT, Redirect, Refusal, Script,
    Stage,
};
use std::alloc::Global;

/// Whether there are no redirections.
#[tactic(auto, unfolding(sh_tree::specs::standard::language::Reading::is_empty))]
fn is_bare(redirects: &Items<Redirect>) -> bool
    ensures { result ≡ reading.is_empty redirects.now }
{
    match redirects.as_slice() {
        [] => true,
        _ => false,
    }
}

impl<F: Fn(Global, &[u8], Cursor) -> Result<(Script, Cursor), Refusal>> Grammar<F> {
    /// A simple command.
    #[tactic(auto, using(crate::proofs::CommandLemmas::command_crowded, crate::proofs::CommandLemmas::simple_read, crate::proofs::CommandLemmas::simple_refused))]
    #[inline(never)]
    fn simple(&self, script: &[u8], from: Cursor) -> Result<(Command, Cursor), Refusal>
        requires small { length script.now ≤ MAX_SCRIPT }
        requires stands { Stands script.now from }
        requires begins { tokens.begins_simple (tokens.lead_at script.now First from.at) ≡ true }
        requires further { length script.now - from.at ≤ self.now.left }
        requires nests { Nests self.now.left (F.pre self.now.nested) (F.post self.now.nested) }
        ensures { Answers script.now (CommandFrom script.now from) (from.at + 1) result }
    {
        let (at, count) = (from.at(), from.count());
        if count == MAX_COMMANDS {
            return Err(Refusal::TooMany);
        }
        let (elements, behind) = self.elements_at(script, from.counted())?;
        let command = Command {
            number: count + 1,
            at,
            kind: Kind::Simple(elements),
            redirects: Items::new(self.alloc),
        };
        Ok((command, behind.closing(false)))
    }

    /// A command.
    #[tactic(auto, using(crate::proofs::CommandLemmas::command_none, crate::proofs::CommandLemmas::rest_defines, crate::proofs::ReaderLemmas::refused_none))]
    pub fn command(&self, script: &[u8], from: Cursor) -> Result<(Command, Cursor), Refusal>
        requires small { length script.now ≤ MAX_SCRIPT }
        requires stands { Stands script.now from }
        requires further { length script.now - from.at ≤ self.now.left }
        requires nests { Nests self.now.left (F.pre self.now.nested) (F.post self.now.nested) }
        ensures { Answers script.now (CommandFrom script.now from) (from.at + 1) result }
    {
        let lead = from.lead(script, Stage::First);
        if !begins_command(lead) {
            return Err(from.unexpected_at(script, Stage::First));
        }
        if begins_simple(lead) {
            return self.simple(script, from);
        }
        if begins_compound(lead) {
            return self.compound_command(script, lead, from);
        }
        self.definition(script, from)
    }

    /// A compound command and its redirections.
    #[tactic(auto, using(crate::proofs::CommandLemmas::command_crowded, crate::proofs::CommandLemmas::compound_deep, crate::proofs::CommandLemmas::compound_refused))]
    pub fn compound_command(
        &self,
        script: &[u8],
        lead: Lead,
        from: Cursor,
    ) -> Result<(Command, Cursor), Refusal>
        requires small { length script.now ≤ MAX_SCRIPT }
        requires stands { Stands script.now from }
        requires some { from.at < length script.now }
        requires token { lead ≡ tokens.lead_at script.now First from.at }
        requires begins { tokens.begins_compound lead ≡ true }
        requires further { length script.now - from.at ≤ self.now.left }
        requires nests { Nests self.now.left (F.pre self.now.nested) (F.post self.now.nested) }
        ensures { Answers script.now (CommandFrom script.now from) (from.at + 1) result }
    {
        let (at, count) = (from.at(), from.count());
        if u32::from(from.depth()) >= MAX_NESTING {
            return Err(Refusal::TooDeep(at));
        }
        if count == MAX_COMMANDS {
            return Err(Refusal::TooMany);
        }
        let (kind, behind) = self.compound(script, lead, from.counted())?;
        self.redirected(script, count + 1, at, kind, behind)
    }

    /// The command that a compound command is with the redirections after it.
    #[tactic(auto, using(crate::proofs::CommandLemmas::redirects_refused))]
    #[inline(never)]
    fn redirected(
        &self,
        script: &[u8],
        number: u32,
        at: u32,
        kind: Kind,
        from: Cursor,
    ) -> Result<(Command, Cursor), Refusal>
        requires small { length script.now ≤ MAX_SCRIPT }
        requires stands { Stands script.now from }
        requires further { length script.now - from.at ≤ self.now.left }
        requires nests { Nests self.now.left (F.pre self.now.nested) (F.post self.now.nested) }
        ensures { Answers script.now (RedirectedFrom script.now number at kind from) from.at result }
    {
        let (redirects, behind) = self.redirects_at(script, from)?;
        let closed = is_bare(&redirects);
        let command = Command {
            number,
            at,
            kind,
            redirects,
        };
        Ok((command, behind.closing(closed)))
    }
}
