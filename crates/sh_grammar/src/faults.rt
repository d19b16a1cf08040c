//! What is reported of a token that has no place (XCU 2.10).
ghost use Rattle.std.specs.Prelude.{◌≡◌, ◌<◌, ◌≤◌, length};
ghost use Rattle.sh_tree.specs.standard.language.Commands as commands;
ghost use Rattle.sh_grammar.specs.Faults.{IsFault, IsPlace, TellsAt, ended, stage_at};
ghost use Rattle.sh_grammar.specs.States.{Stands};

use super::kept::joined_in;
use super::state::{Cursor, State};
use sh_scan::lead_at;
use sh_tree::{Fault, Form, Lead, MAX_SCRIPT, Refusal, Stage};

/// Where a refused form is reported, which the token at `at` is. A line continuation is reported at
/// its backslash, the first from the token's beginning on.
fn place_of(script: &[u8], form: Form, at: u32) -> u32
    requires small { length script.now ≤ MAX_SCRIPT }
    requires inside { at < length script.now }
    ensures which { IsPlace script.now form at result }
    ensures within { result < length script.now }
{
    match form {
        Form::Continuation => match joined_in(&script[at as usize..], false) {
            Some(further) => at + further,
            None => at,
        },
        _ => at,
    }
}

/// What is reported at the end of the text: the closing backquote, if something ran over it. Else
/// it is the first here-document that waits for its body, if one does, or else the fault at `at`.
#[tactic(auto, using(crate::proofs::FaultLemmas::end_is, crate::proofs::FaultLemmas::end_open, crate::proofs::FaultLemmas::end_overrun, crate::proofs::FaultLemmas::first_inside))]
pub fn at_end(script: &[u8], here: &State, fault: Fault, at: u32) -> Refusal
    requires small { length script.now ≤ MAX_SCRIPT }
    requires stands { Stands script.now here.now }
    requires begins { at ≤ length script.now }
    ensures which { result ≡ ended script.now here.now fault at }
    ensures fault { IsFault script.now result }
{
    if let Some(backquote) = here.ticks.overrun(script) {
        return Refusal::LeftOut(Form::BackquoteInside, backquote);
    }
    match here.first_pending() {
        Some(operator) => Refusal::Syntax(Fault::OpenHereDoc, operator),
        None => Refusal::Syntax(fault, at),
    }
}

/// What is reported of the token here, which has no place there.
#[tactic(auto, using(crate::proofs::FaultLemmas::misplaced_fault))]
fn unexpected_at(script: &[u8], stage: Stage, here: &State) -> Refusal
    requires small { length script.now ≤ MAX_SCRIPT }
    requires stands { Stands script.now here.now }
    ensures which { TellsAt script.now (commands.lead_at script.now stage here.now.at) here.now result }
    ensures fault { IsFault script.now result }
{
    match lead_at(script, stage, here.at) {
        Lead::LeftOut(form) => Refusal::LeftOut(form, place_of(script, form, here.at)),
        Lead::End => at_end(script, here, Fault::UnexpectedEnd, here.at),
        Lead::Backquote => here.ticks.misplaced(here.at),
        _ => Refusal::Syntax(Fault::UnexpectedToken, here.at),
    }
}

/// The stage at which the token is reported if nothing goes on.
#[tactic(auto, unfolding(crate::specs::Faults::stage_at))]
fn stage_of(here: &State) -> Stage
    ensures { result ≡ stage_at here.now.fresh }
{
    if here.fresh {
        Stage::First
    } else {
        Stage::Prefixed
    }
}

/// What is reported if nothing that is there goes on.
pub fn unexpected(script: &[u8], here: &State) -> Refusal
    requires small { length script.now ≤ MAX_SCRIPT }
    requires stands { Stands script.now here.now }
    ensures which { TellsAt script.now (commands.lead_at script.now (stage_at here.now.fresh) here.now.at) here.now result }
    ensures fault { IsFault script.now result }
{
    unexpected_at(script, stage_of(here), here)
}

impl Cursor {
    /// What is reported of the token here, which has no place there.
    pub fn unexpected_at(&self, script: &[u8], stage: Stage) -> Refusal
        requires small { length script.now ≤ MAX_SCRIPT }
        requires stands { Stands script.now self.now }
        ensures which { TellsAt script.now (commands.lead_at script.now stage self.now.at) self.now result }
        ensures fault { IsFault script.now result }
    {
        unexpected_at(script, stage, self.get())
    }

    /// What is reported if nothing that is here goes on.
    pub fn unexpected(&self, script: &[u8]) -> Refusal
        requires small { length script.now ≤ MAX_SCRIPT }
        requires stands { Stands script.now self.now }
        ensures which { TellsAt script.now (commands.lead_at script.now (stage_at self.now.fresh) self.now.at) self.now result }
        ensures fault { IsFault script.now result }
    {
        unexpected(script, self.get())
    }
}
