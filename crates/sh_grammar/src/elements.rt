//! The elements of simple commands (XCU 2.9.1).
ghost use Rattle.std.specs.Prelude.{◌-◌, ◌≡◌, ◌+◌, ◌≤◌, true, length};
ghost use Rattle.sh_grammar.specs.Elements.{FirstElement};
ghost use Rattle.sh_grammar.specs.Nests.{Nests};
ghost use Rattle.sh_grammar.specs.States.{Stands};
ghost use Rattle.sh_grammar.specs.Readers.{Answers, ElementsFrom};
ghost use Rattle.sh_tree.specs.declared.token.command.Stage.TheVariants.{First};
ghost use Rattle.sh_tree.specs.standard.language.Commands as commands;
ghost use Rattle.sh_tree.specs.standard.language.Reading as reading;

use super::grammar::Grammar;
use super::state::Cursor;
use super::words::mode_of;
use sh_scan::{begins_simple, declares_at, name_at};
use sh_tree::{Element, Items, Lead, MAX_SCRIPT, Refusal, Script, Span, Stage};
use sh_words::Mode;
use std::alloc::Global;

/// The stage after the word at `at`.
fn stage_behind(script: &[u8], stage: Stage, at: u32) -> Stage
    requires small { length script.now ≤ MAX_SCRIPT }
    requires inside { at ≤ length script.now }
    ensures { result ≡ reading.stage_behind script.now stage at }
{
    match stage {
        Stage::Named(declares) => Stage::Named(declares),
        Stage::First | Stage::Prefixed => Stage::Named(declares_at(script, at)),
    }
}

/// The stage after a redirection.
fn redirected(stage: Stage) -> Stage
    ensures { result ≡ reading.redirected stage }
{
    match stage {
        Stage::First | Stage::Prefixed => Stage::Prefixed,
        Stage::Named(declares) => Stage::Named(declares),
    }
}

impl<F: Fn(Global, &[u8], Cursor) -> Result<(Script, Cursor), Refusal>> Grammar<F> {
    /// The element at a token that begins one, and the stage after it.
    #[tactic(auto, using(sh_reads::proofs::BeginningLemmas::name_within))]
    fn element_at(
        &self,
        script: &[u8],
        lead: Lead,
        stage: Stage,
        from: Cursor,
    ) -> Result<(Element, Stage, Cursor), Refusal>
        requires small { length script.now ≤ MAX_SCRIPT }
        requires stands { Stands script.now from }
        requires is { lead ≡ commands.lead_at script.now stage from.at }
        requires begins { commands.begins_simple lead ≡ true }
        requires further { length script.now - from.at ≤ self.now.left }
        requires nests { Nests self.now.left (F.pre self.now.nested) (F.post self.now.nested) }
        ensures { FirstElement script.now (stage, from) result }
    {
        let at = from.at();
        match lead {
            Lead::Assignment => {
                let equals = name_at(script, at);
                let name = Span {
                    start: at,
                    end: equals,
                };
                let (value, behind) = self.word_at(script, Mode::Value, equals + 1, from)?;
                Ok((Element::Assignment { name, value }, Stage::Prefixed, behind))
            }
            Lead::Word => {
                let (word, behind) = self.word(script, mode_of(stage), from)?;
                Ok((Element::Word(word), stage_behind(script, stage, at), behind))
            }
            _ => {
                let (redirect, behind) = self.redirect_at(script, from)?;
                Ok((Element::Redirection(redirect), redirected(stage), behind))
            }
        }
    }

    /// The elements of the simple command at a token.
    #[tactic(auto, using(crate::proofs::ElementLemmas::found_none, crate::proofs::ElementLemmas::not_moved, crate::proofs::ElementLemmas::moved_on, crate::proofs::ElementLemmas::elements_end, crate::proofs::ElementLemmas::elements_more, crate::proofs::ElementLemmas::elements_refused))]
    pub fn elements_at(
        &self,
        script: &[u8],
        from: Cursor,
    ) -> Result<(Items<Element>, Cursor), Refusal>
        requires small { length script.now ≤ MAX_SCRIPT }
        requires stands { Stands script.now from }
        requires begins { commands.begins_simple (commands.lead_at script.now First from.at) ≡ true }
        requires further { length script.now - from.at ≤ self.now.left }
        requires nests { Nests self.now.left (F.pre self.now.nested) (F.post self.now.nested) }
        ensures { Answers script.now (ElementsFrom script.now (First, from)) (from.at + 1) result }
    {
        let mut elements = Items::new(self.alloc);
        let mut stage = Stage::First;
        let mut next = from;
        loop {
            let lead = next.lead(script, stage);
            if !begins_simple(lead) {
                return Ok((elements, next));
            }
            let (element, after, behind) = self.element_at(script, lead, stage, next)?;
            elements.push(element)?;
            stage = after;
            next = behind;
        }
    }
}
