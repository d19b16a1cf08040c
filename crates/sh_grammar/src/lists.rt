//! Pipelines and lists (XCU 2.9.2, 2.9.3).
ghost use Rattle.std.specs.Prelude.{◌-◌, ◌≡◌, ◌+◌, ◌<◌, ◌≤◌, ◌||◌, not, true, false, length};
ghost use Rattle.sh_grammar.specs.Items.{RestFrom};
ghost use Rattle.sh_grammar.specs.Nests.{Nests};
ghost use Rattle.sh_grammar.specs.States.{Stands};
ghost use Rattle.sh_grammar.specs.Readers.{Answers, AndOrFrom, CommandsFrom, LinksFrom, PipelineFrom, SequenceFrom};
ghost use Rattle.sh_tree.specs.declared.token.command.Stage.TheVariants.{First};
ghost use Rattle.sh_tree.specs.standard.language.Commands as tokens;

use super::breaks::parted;
use super::grammar::Grammar;
use super::state::Cursor;
use sh_scan::{begins_pipeline, link_of, separator};
use sh_tree::{
    AndOr, Command, Item, Items, Lead, Link, MAX_SCRIPT, Operator, Pipe, Refusal, Reserved, Script,
    Stage,
};
use std::alloc::Global;

fn is_bang(lead: Lead) -> bool
    ensures yes { result ≡ true → lead ≡ Lead.Reserved Reserved.Bang }
    ensures no { result ≡ false → lead ≡ Lead.Reserved Reserved.Bang → ⊥ }
{
    matches!(lead, Lead::Reserved(Reserved::Bang))
}

fn is_bar(lead: Lead) -> bool
    ensures { result ≡ tokens.is_bar lead }
{
    matches!(lead, Lead::Operator(Operator::Bar))
}

fn is_reserved(lead: Lead) -> bool
    ensures { result ≡ tokens.is_reserved lead }
{
    matches!(lead, Lead::Reserved(_))
}

/// Whether an item ends before a token that separates nothing: a reserved word has to be one that
/// may close something.
fn closes(lead: Lead, closed: bool) -> bool
    ensures { result ≡ (not (tokens.is_reserved lead) || closed) }
{
    !is_reserved(lead) || closed
}

impl<F: Fn(Global, &[u8], Cursor) -> Result<(Script, Cursor), Refusal>> Grammar<F> {
    /// Commands with bars between them.
    #[tactic(auto, using(crate::proofs::ListLemmas::commands_none, crate::proofs::ListLemmas::commands_refused, crate::proofs::ListLemmas::commands_last, crate::proofs::ListLemmas::commands_stopped, crate::proofs::ListLemmas::commands_more))]
    fn commands(&self, script: &[u8], from: Cursor) -> Result<(Items<Command>, Cursor), Refusal>
        requires small { length script.now ≤ MAX_SCRIPT }
        requires stands { Stands script.now from }
        requires further { length script.now - from.at ≤ self.now.left }
        requires nests { Nests self.now.left (F.pre self.now.nested) (F.post self.now.nested) }
        ensures { Answers script.now (CommandsFrom script.now from) (from.at + 1) result }
    {
        let mut parts = Items::new(self.alloc);
        let mut next = from;
        loop {
            let (command, behind) = self.command(script, next)?;
            parts.push(command)?;
            if !is_bar(behind.lead(script, Stage::First)) {
                return Ok((parts, behind));
            }
            next = self.breaks(script, behind.next(script, 1))?;
        }
    }

    #[tactic(auto, using(crate::proofs::ListLemmas::negated_refused, crate::proofs::ListLemmas::negated_read, crate::proofs::ListLemmas::straight_refused, crate::proofs::ListLemmas::straight_read))]
    fn pipeline(&self, script: &[u8], from: Cursor) -> Result<(Pipe, Cursor), Refusal>
        requires small { length script.now ≤ MAX_SCRIPT }
        requires stands { Stands script.now from }
        requires further { length script.now - from.at ≤ self.now.left }
        requires nests { Nests self.now.left (F.pre self.now.nested) (F.post self.now.nested) }
        ensures { Answers script.now (PipelineFrom script.now from) (from.at + 1) result }
    {
        if is_bang(from.lead(script, Stage::First)) {
            let (parts, behind) = self.commands(script, from.next(script, 1))?;
            let negated = true;
            return Ok((Pipe { negated, parts }, behind));
        }
        let (parts, behind) = self.commands(script, from)?;
        let negated = false;
        Ok((Pipe { negated, parts }, behind))
    }

    /// The pipelines after the first one of an and-or list.
    #[tactic(auto, using(crate::proofs::ListLemmas::links_none, crate::proofs::ListLemmas::links_refused, crate::proofs::ListLemmas::links_stopped, crate::proofs::ListLemmas::links_more, crate::proofs::ListLemmas::links_all, crate::proofs::WidthLemmas::link_inside))]
    #[inline(never)]
    fn links(&self, script: &[u8], from: Cursor) -> Result<(Items<(Link, Pipe)>, Cursor), Refusal>
        requires small { length script.now ≤ MAX_SCRIPT }
        requires stands { Stands script.now from }
        requires further { length script.now - from.at ≤ self.now.left }
        requires nests { Nests self.now.left (F.pre self.now.nested) (F.post self.now.nested) }
        ensures { Answers script.now (LinksFrom script.now from) from.at result }
    {
        let mut rest = Items::new(self.alloc);
        let mut next = from;
        while let Some(link) = link_of(next.lead(script, Stage::First)) {
            let first = self.breaks(script, next.next(script, 2))?;
            let (pipe, behind) = self.pipeline(script, first)?;
            rest.push((link, pipe))?;
            next = behind;
        }
        Ok((rest, next))
    }

    #[tactic(auto, using(crate::proofs::ListLemmas::first_refused, crate::proofs::ListLemmas::rest_refused, crate::proofs::ListLemmas::list_linked))]
    fn and_or(&self, script: &[u8], from: Cursor) -> Result<(AndOr, Cursor), Refusal>
        requires small { length script.now ≤ MAX_SCRIPT }
        requires stands { Stands script.now from }
        requires further { length script.now - from.at ≤ self.now.left }
        requires nests { Nests self.now.left (F.pre self.now.nested) (F.post self.now.nested) }
        ensures { Answers script.now (AndOrFrom script.now from) (from.at + 1) result }
    {
        let (first, behind) = self.pipeline(script, from)?;
        let (rest, end) = self.links(script, behind)?;
        Ok((AndOr { first, rest }, end))
    }

    /// The items from a token on that is no newline. There are none if no pipeline begins.
    #[tactic(auto, using(crate::proofs::ListLemmas::items_none, crate::proofs::ListLemmas::items_all, crate::proofs::ListLemmas::items_refused, crate::proofs::ListLemmas::items_stopped, crate::proofs::ListLemmas::items_last, crate::proofs::ListLemmas::items_wrong, crate::proofs::ListLemmas::items_more, crate::proofs::ReaderLemmas::refused_none))]
    fn items(&self, script: &[u8], from: Cursor) -> Result<(Items<Item>, Cursor), Refusal>
        requires small { length script.now ≤ MAX_SCRIPT }
        requires stands { Stands script.now from }
        requires further { length script.now - from.at ≤ self.now.left }
        requires nests { Nests self.now.left (F.pre self.now.nested) (F.post self.now.nested) }
        ensures { Answers script.now (RestFrom script.now from) from.at result }
    {
        let mut items = Items::new(self.alloc);
        let mut next = from;
        while begins_pipeline(next.lead(script, Stage::First)) {
            let (list, behind) = self.and_or(script, next)?;
            let lead = behind.lead(script, Stage::First);
            let Some(background) = separator(lead) else {
                if !closes(lead, behind.get().closed) {
                    return Err(behind.unexpected(script));
                }
                let background = false;
                items.push(Item { list, background })?;
                return Ok((items, behind));
            };
            items.push(Item { list, background })?;
            next = self.breaks(script, parted(script, lead, behind))?;
        }
        Ok((items, next))
    }

    /// A list, or newlines alone.
    #[tactic(auto, using(crate::proofs::ListLemmas::sequence_stopped, crate::proofs::ListLemmas::sequence_refused, crate::proofs::ListLemmas::sequence_read))]
    pub fn sequence(&self, script: &[u8], from: Cursor) -> Result<(Script, Cursor), Refusal>
        requires small { length script.now ≤ MAX_SCRIPT }
        requires stands { Stands script.now from }
        requires further { length script.now - from.at ≤ self.now.left }
        requires nests { Nests self.now.left (F.pre self.now.nested) (F.post self.now.nested) }
        ensures { Answers script.now (SequenceFrom script.now from) from.at result }
    {
        let first = self.breaks(script, from)?;
        let (items, behind) = self.items(script, first)?;
        Ok((Script { items }, behind))
    }
}
