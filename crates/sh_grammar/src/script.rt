//! Scripts (XCU 2.10).
ghost use Rattle.std.specs.Prelude.{◌≡◌, ◌≤◌, length};
ghost use Rattle.sh_tree.specs.Answers.{IsText, Parses};
ghost use Rattle.sh_grammar.specs.Faults.{TellsLimit, TellsMisplaced, TellsPending};
ghost use Rattle.sh_grammar.specs.States.{Stands, first_of};
ghost use Rattle.sh_grammar.specs.Readers.{Answers, SequenceFrom};

use super::grammar::Grammar;
use super::state::{Cursor, State};
use super::ticks::Ticks;
use memchr::memchr;
use sh_bodies::filled;
use sh_scan::blanks_at;
use sh_tree::{Fault, Items, MAX_SCRIPT, Refusal, Script};
use std::alloc::Global;

/// The sequence at a token.
fn sequence_at(alloc: Global, script: &[u8], from: Cursor) -> Result<(Script, Cursor), Refusal>
    requires small { length script.now ≤ MAX_SCRIPT }
    requires stands { Stands script.now from }
    ensures { Answers script.now (SequenceFrom script.now from) from.at result }
{
    Grammar {
        alloc,
        left: script.len() - from.at() as usize,
        nested: sequence_at,
    }
    .sequence(script, from)
}

/// At the first token of a text.
#[tactic(auto, using(crate::proofs::ScriptLemmas::first_stands))]
fn first_state(alloc: Global, script: &[u8]) -> State
    requires small { length script.now ≤ MAX_SCRIPT }
    ensures value { result ≡ first_of script.now }
    ensures stands { Stands script.now (first_of script.now) }
{
    State {
        at: blanks_at(script, 0, false),
        count: 0,
        depth: 0,
        closed: false,
        fresh: true,
        outer: None,
        joins: false,
        tabs: false,
        ticks: Ticks::Outside,
        pending: Items::new(alloc),
        bodies: Items::new(alloc),
    }
}

/// The script that a text is. The text is no longer than it may be and has no NUL byte.
#[tactic(auto, using(crate::proofs::ScriptLemmas::text_read, crate::proofs::ScriptLemmas::text_unended, crate::proofs::ScriptLemmas::text_waits, crate::proofs::ScriptLemmas::text_refused, crate::proofs::ScriptLemmas::none_behind, crate::proofs::ScriptLemmas::told_behind, crate::proofs::ScriptLemmas::refused_behind_none, crate::proofs::ScriptLemmas::pending_before, crate::proofs::ScriptLemmas::refused_pending_none, crate::proofs::ScriptLemmas::limit_refused, crate::proofs::ScriptLemmas::fault_unlimited))]
fn read(alloc: Global, script: &[u8]) -> Result<Script, Refusal>
    requires { IsText script.now }
    ensures reads { Parses script.now result }
    ensures behind { TellsMisplaced script.now result }
    ensures open { TellsPending script.now result }
    ensures limits { TellsLimit script.now result }
{
    let first = Cursor::new(alloc, first_state(alloc, script))?;
    let (found, end) = sequence_at(alloc, script, first)?;
    if (end.at() as usize) < script.len() {
        return Err(end.unexpected(script));
    }
    if let Some(at) = end.get().first_pending() {
        return Err(Refusal::Syntax(Fault::OpenHereDoc, at));
    }
    let (bodies, _end) = end.ended(alloc);
    Ok(filled(alloc, found, bodies)?)
}

/// The one script that the bytes are (XCU 2.10).
///
/// # Errors
///
/// The first refusal in this order: `TooLong`; `NulByte` with the offset of the first NUL byte;
/// then one in reading from the front. That is `Syntax` at what the grammar has no place for, or
/// `LeftOut` at the first byte of a refused form. Or it is `TooDeep` at what would be one level
/// more than there may be, or `TooMany` at one command more. `Memory` if a growth was refused.
#[tactic(auto, using(crate::proofs::Nul::no_nul, crate::proofs::Nul::nul_at, crate::proofs::ScriptLemmas::long_is_none, crate::proofs::ScriptLemmas::nul_is_none, crate::proofs::ScriptLemmas::long_is_closed, crate::proofs::ScriptLemmas::nul_is_closed))]
pub fn parse(alloc: Global, script: &[u8]) -> Result<Script, Refusal>
    ensures reads { Parses script.now result }
    ensures behind { IsText script.now → TellsMisplaced script.now result }
    ensures open { IsText script.now → TellsPending script.now result }
    ensures limits { TellsLimit script.now result }
{
    if script.len() > MAX_SCRIPT {
        return Err(Refusal::TooLong);
    }
    if let Some(at) = memchr(0, script) {
        return Err(Refusal::NulByte(at as u32));
    }
    read(alloc, script)
}
