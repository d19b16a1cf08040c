//! Function definitions (XCU 2.9.5).
ghost use Rattle.std.specs.Prelude.{◌-◌, ◌≡◌, ◌+◌, ◌<◌, ◌≤◌, length};
ghost use Rattle.sh_grammar.specs.Definitions.{Parenthesized};
ghost use Rattle.sh_grammar.specs.Nests.{Nests};
ghost use Rattle.sh_grammar.specs.States.{Stands};
ghost use Rattle.sh_grammar.specs.Readers.{Answers, CommandFrom};
ghost use Rattle.sh_tree.specs.declared.token.command.Lead.TheVariants as lead;
ghost use Rattle.sh_tree.specs.declared.token.command.Stage.TheVariants.{First};
ghost use Rattle.sh_tree.specs.standard.language.Commands as tokens;

use super::compounds::is_same;
use super::grammar::Grammar;
use super::state::Cursor;
use sh_scan::{begins_compound, name_at};
use sh_tree::{
    Boxed, Command, Items, Kind, Lead, MAX_COMMANDS, MAX_SCRIPT, Operator, Refusal, Script, Span,
    Stage,
};
use std::alloc::Global;

/// After the two parentheses that have to be here.
fn parentheses(script: &[u8], from: Cursor) -> Result<Cursor, Refusal>
    requires small { length script.now ≤ MAX_SCRIPT }
    requires stands { Stands script.now from }
    ensures { Parenthesized script.now from result }
{
    let stage = Stage::Named(false);
    if !is_same(
        from.lead(script, stage),
        Lead::Operator(Operator::LeftParenthesis),
    ) {
        return Err(from.unexpected_at(script, stage));
    }
    let close = from.next(script, 1);
    if !is_same(
        close.lead(script, stage),
        Lead::Operator(Operator::RightParenthesis),
    ) {
        return Err(close.unexpected_at(script, stage));
    }
    Ok(close.next(script, 1))
}

impl<F: Fn(Global, &[u8], Cursor) -> Result<(Script, Cursor), Refusal>> Grammar<F> {
    /// A definition: a name, two parentheses and a compound command.
    #[tactic(auto, using(crate::proofs::CommandLemmas::command_crowded, crate::proofs::DefinitionLemmas::definition_bare, crate::proofs::DefinitionLemmas::definition_stopped, crate::proofs::DefinitionLemmas::definition_empty, crate::proofs::DefinitionLemmas::definition_refused, crate::proofs::DefinitionLemmas::definition_read, crate::proofs::ReaderLemmas::refused_none))]
    #[inline(never)]
    pub fn definition(&self, script: &[u8], from: Cursor) -> Result<(Command, Cursor), Refusal>
        requires small { length script.now ≤ MAX_SCRIPT }
        requires stands { Stands script.now from }
        requires begins { tokens.lead_at script.now First from.at ≡ lead.Definition }
        requires further { length script.now - from.at ≤ self.now.left }
        requires nests { Nests self.now.left (F.pre self.now.nested) (F.post self.now.nested) }
        ensures { Answers script.now (CommandFrom script.now from) (from.at + 1) result }
    {
        let (at, count) = (from.at(), from.count());
        if count == MAX_COMMANDS {
            return Err(Refusal::TooMany);
        }
        let name = Span {
            start: at,
            end: name_at(script, at),
        };
        let behind = parentheses(script, from.counted().next_from(script, name.end))?;
        let first = self.breaks(script, behind)?;
        let lead = first.lead(script, Stage::First);
        if !begins_compound(lead) {
            return Err(first.unexpected(script));
        }
        let (body, end) = self.compound_command(script, lead, first)?;
        let command = Command {
            number: count + 1,
            at,
            kind: Kind::Define {
                name,
                body: Boxed::new(self.alloc, body)?,
            },
            redirects: Items::new(self.alloc),
        };
        Ok((command, end))
    }
}
