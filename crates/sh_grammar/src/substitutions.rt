//! Command substitutions (XCU 2.6.3).
ghost use Rattle.std.specs.Prelude.{◌-◌, ◌≡◌, ◌<◌, ◌≤◌, IfErr, IfOk, length, take};
ghost use Rattle.sh_grammar.specs.Faults.{IsFault, TellsAt, ended, stage_at};
ghost use Rattle.sh_grammar.specs.Nests.{Nests};
ghost use Rattle.sh_grammar.specs.States.{Lies, Stands, substituted};
ghost use Rattle.sh_grammar.specs.Substitutions as substitution;
ghost use Rattle.sh_grammar.specs.Substitutions.{ClosedFrom, Hands, IsLevel};
ghost use Rattle.sh_grammar.specs.Readers.{Answers, SequenceFrom};
ghost use Rattle.sh_tree.specs.declared.tree.CommandStyle.TheVariants.{Backquote};
ghost use Rattle.sh_tree.specs.standard.language.Commands as tokens;
ghost use Rattle.sh_tree.specs.standard.language.Substitutions as substitutions;

use super::faults::{at_end, unexpected};
use super::grammar::Grammar;
use super::state::{Cursor, State};
use super::ticks::Ticks;
use sh_bodies::filled;
use sh_scan::{backquote_end, closes_at, kept_backslash};
use sh_tree::{CommandStyle, Fault, Form, MAX_NESTING, MAX_SCRIPT, Refusal, Script};
use std::alloc::Global;

/// What is reported of the substitution at `start`, which nothing closes.
fn unclosed_at(script: &[u8], start: u32, here: &State) -> Refusal
    requires small { length script.now ≤ MAX_SCRIPT }
    requires stands { Stands script.now here.now }
    requires begins { start ≤ length script.now }
    ensures open { here.now.at ≡ length script.now → result ≡ ended script.now here.now Fault.OpenSubstitution start }
    ensures which { here.now.at < length script.now → TellsAt script.now (tokens.lead_at script.now (stage_at here.now.fresh) here.now.at) here.now result }
    ensures fault { IsFault script.now result }
{
    if (here.at as usize) < script.len() {
        return unexpected(script, here);
    }
    at_end(script, here, Fault::OpenSubstitution, start)
}

/// Where the substitution of the style opens, whose commands begin at `at`.
#[tactic(auto, unfolding(crate::specs::Substitutions::opened))]
fn opened_at(style: CommandStyle, at: u32) -> u32
    ensures value { result ≡ substitution.opened style at }
    ensures before { result ≤ at }
{
    match style {
        CommandStyle::Paren => at.saturating_sub(2),
        CommandStyle::Backquote => at.saturating_sub(1),
    }
}

/// Whether the refusal has a place before `at`, or none.
#[tactic(auto, unfolding(crate::specs::Substitutions::is_told_before))]
fn is_told_before(refusal: Refusal, at: u32) -> bool
    ensures { result ≡ substitution.is_told_before refusal at }
{
    match refusal {
        Refusal::Syntax(_, place) | Refusal::LeftOut(_, place) | Refusal::TooDeep(place) => {
            place < at
        }
        _ => true,
    }
}

/// What is reported of commands between backquotes with a backslash at `at` that goes before they
/// are read. It is their refusal, if it comes first, or else the backslash.
#[tactic(auto, unfolding(crate::specs::Substitutions::first_told))]
fn first_told(found: Result<(Script, Cursor), Refusal>, at: u32) -> Refusal
    ensures { result ≡ substitution.first_told found at }
{
    match found {
        Err(refusal) if is_told_before(refusal, at) => refusal,
        _ => Refusal::LeftOut(Form::BackslashInBackquotes, at),
    }
}

impl<F: Fn(Global, &[u8], Cursor) -> Result<(Script, Cursor), Refusal>> Grammar<F> {
    /// The commands of a level, after which the same backquotes are around as before.
    fn inside(&self, script: &[u8], from: Cursor) -> Result<(Script, Cursor), Refusal>
        requires small { length script.now ≤ MAX_SCRIPT }
        requires stands { Stands script.now from }
        requires further { length script.now - from.at < self.now.left }
        requires nests { Nests self.now.left (F.pre self.now.nested) (F.post self.now.nested) }
        ensures reads { Answers script.now (SequenceFrom script.now from) from.at result }
        ensures around { IfOk result (λ r. r.1.ticks ≡ from.ticks) }
    {
        let ticks = from.get().ticks;
        let (commands, behind) = self.inner(script, from)?;
        Ok((commands, behind.with_ticks(ticks)))
    }

    /// The commands of the substitution at `start`, up to what closes it.
    #[tactic(auto, using(crate::proofs::SubstitutionLemmas::closed_refused, crate::proofs::SubstitutionLemmas::closed_open, crate::proofs::SubstitutionLemmas::closed_across, crate::proofs::FaultLemmas::first_in, crate::proofs::SubstitutionLemmas::closed_read, crate::proofs::ReaderLemmas::refused_none))]
    fn substitution(
        &self,
        script: &[u8],
        style: CommandStyle,
        start: u32,
        from: Cursor,
    ) -> Result<(Script, Cursor), Refusal>
        requires small { length script.now ≤ MAX_SCRIPT }
        requires stands { Stands script.now from }
        requires level { IsLevel from }
        requires begins { start ≤ length script.now }
        requires further { length script.now - from.at < self.now.left }
        requires nests { Nests self.now.left (F.pre self.now.nested) (F.post self.now.nested) }
        ensures reads { Answers script.now (ClosedFrom style script.now from) from.at result }
        ensures told { IfErr result (substitution.TellsClosed script.now style start from) }
    {
        let (commands, behind) = self.inside(script, from)?;
        if !closes_at(style, script, behind.at()) {
            return Err(unclosed_at(script, start, behind.get()));
        }
        if let Some(at) = behind.get().first_pending() {
            return Err(Refusal::LeftOut(Form::HereAcross, at));
        }
        let (bodies, behind) = behind.ended(self.alloc);
        let list = filled(self.alloc, commands, bodies)?;
        Ok((list, behind))
    }

    /// The commands that begin at or after `at` in a word, with so many levels open, up to what
    /// closes them in the text.
    #[tactic(auto, using(crate::proofs::SubstitutionLemmas::answers_earlier))]
    fn level(
        &self,
        text: &[u8],
        style: CommandStyle,
        at: u32,
        depth: u8,
        ticks: Ticks,
        around: &State,
    ) -> Result<(Script, Cursor), Refusal>
        requires small { length text.now ≤ MAX_SCRIPT }
        requires inside { at ≤ length text.now }
        requires ordered { around.now.at ≤ at }
        requires lies { Lies text.now around.now }
        requires shallow { depth ≤ MAX_NESTING }
        requires further { length text.now - at < self.now.left }
        requires nests { Nests self.now.left (F.pre self.now.nested) (F.post self.now.nested) }
        ensures reads { Answers text.now (ClosedFrom style text.now (substituted text.now at depth ticks around.now)) at result }
        ensures told { IfErr result (substitution.TellsClosed text.now style (substitution.opened style at) (substituted text.now at depth ticks around.now)) }
    {
        let first = around.within(self.alloc, text, at, depth, ticks);
        let from = Cursor::new(self.alloc, first)?;
        self.substitution(text, style, opened_at(style, at), from)
    }

    /// The commands that begin at or after `at` in a word, up to the backquote that ends at `end`.
    #[tactic(auto, using(crate::proofs::SubstitutionLemmas::front_hands, crate::proofs::SubstitutionLemmas::kept_hands))]
    fn backquoted(
        &self,
        script: &[u8],
        end: u32,
        at: u32,
        depth: u8,
        quoted: bool,
        around: &State,
    ) -> Result<(Script, Cursor), Refusal>
        requires small { length script.now ≤ MAX_SCRIPT }
        requires inside { at ≤ end }
        requires within { end ≤ length script.now }
        requires value { end ≡ substitutions.backquote_end script.now at }
        requires ordered { around.now.at ≤ at }
        requires lies { Lies script.now around.now }
        requires shallow { depth ≤ MAX_NESTING }
        requires further { length script.now - at < self.now.left }
        requires nests { Nests self.now.left (F.pre self.now.nested) (F.post self.now.nested) }
        ensures hands { Hands script.now Backquote quoted at depth around.now result }
        ensures told { IfErr result (substitution.TellsBackquoted (take end script.now) quoted at depth around.now) }
    {
        let text = &script[..end as usize];
        let found = self.level(
            text,
            CommandStyle::Backquote,
            at,
            depth,
            Ticks::Here { quoted },
            around,
        );
        match kept_backslash(&text[at as usize..], quoted) {
            None => found,
            Some(further) => Err(first_told(found, at + further)),
        }
    }

    /// The commands of a substitution of the style in a word. They begin at or after `at`, with so
    /// many levels open. `quoted` says whether it is in double quotes. By that, more backslashes
    /// between backquotes are refused.
    #[tactic(auto, using(crate::proofs::SubstitutionLemmas::paren_hands, crate::proofs::SubstitutionLemmas::open_hands, crate::proofs::SubstitutionLemmas::paren_told, crate::proofs::SubstitutionLemmas::closed_told, crate::proofs::SubstitutionLemmas::open_told))]
    pub fn commands_at(
        &self,
        script: &[u8],
        style: CommandStyle,
        quoted: bool,
        at: u32,
        depth: u8,
        around: &State,
    ) -> Result<(Script, Cursor), Refusal>
        requires small { length script.now ≤ MAX_SCRIPT }
        requires inside { at ≤ length script.now }
        requires ordered { around.now.at ≤ at }
        requires lies { Lies script.now around.now }
        requires shallow { depth ≤ MAX_NESTING }
        requires further { length script.now - at < self.now.left }
        requires nests { Nests self.now.left (F.pre self.now.nested) (F.post self.now.nested) }
        ensures hands { Hands script.now style quoted at depth around.now result }
        ensures told { IfErr result (substitution.TellsHanded script.now style quoted at depth around.now) }
    {
        let ticks = around.ticks;
        match style {
            CommandStyle::Paren => self.level(script, style, at, depth, ticks.deeper(), around),
            CommandStyle::Backquote => match backquote_end(script, at) {
                Some(end) => self.backquoted(script, end, at, depth, quoted, around),
                None => self.level(script, style, at, depth, ticks, around),
            },
        }
    }
}
