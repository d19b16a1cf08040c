//! The bodies of functions are units of their own, and the commands outside of them are another
//! (XCU 2.9.5).
ghost use Rattle.std.specs.Prelude.{◌≡◌, ℕ, false, Some, IfOk, IfSome};
ghost use Rattle.sh_tree.specs.declared.tree.Script.{out-Script};
ghost use Rattle.sh_tree.specs.standard.Tree.{text_of};
ghost use Rattle.sh_tree.specs.standard.program.Syntax as p;
ghost use Rattle.sh_tree.specs.standard.program.Trees as trees;
ghost use Rattle.sh_domain.specs.declared.rule.FlowRule.{FlowRule};
ghost use Rattle.sh_domain.specs.Admitted.{functions_in};
ghost use Rattle.sh_domain.specs.Entries as entries;
ghost use Rattle.sh_domain.specs.Entries.{command_entered};
ghost use Rattle.sh_domain.specs.Facts.{facts};
ghost use Rattle.sh_domain.specs.Knowledge.{knowledge_facts};
ghost use Rattle.sh_domain.specs.Order.{IsWithin};
ghost use Rattle.sh_domain.specs.Sheets.{Sheet};
ghost use Rattle.sh_domain.specs.Views.{Seen};
ghost use Rattle.sh_rules.specs.Places.{slot_of};
ghost use Rattle.sh_drafts.specs.Places.{claim_there, place_of};
ghost use Rattle.sh_sweeps.specs.Sweeps.{AreItems, IsPart, known_behind};
ghost use Rattle.sh_drafts.specs.Ready.{IsReady, IsSwept, Keeps};

use crate::own::is_entered;
use crate::sweep::{LEVELS, sweep_definition, sweep_items};
use sh_domain::{Certificate, FlowRule, Knowledge};
use sh_drafts::{Draft, Place, Subject, begin_pass, enter_function, lower_assured, wake_late};
use sh_rules::{Around, Course, Place as Slot, alone, begun};
use sh_sweeps::known::{nonzero_of, zero_of};
use sh_sweeps::nowhere::nothing_behind;
use sh_sweeps::{claims_of, spot_of};
use sh_tree::{Command, Item, Kind, Span};
use sh_worklist::{Unit, Waiting};
use std::alloc::{AllocError, Global};

// How many bodies of a function a call goes over at once. The others are left to later units, so
// that a function of many definitions is not gone over for each call.
const AT_ONCE: usize = 1024;

/// Lowers the certificate in the first bodies of the function that a command calls, except those
/// over which a pass has begun and the call does not go again.
///
/// # Errors
///
/// If a growth was refused.
#[cycle(sweep)]
pub fn sweep_called(
    subject: &Subject<'_>,
    draft: &mut Draft,
    levels: u32,
    command: &Command,
) -> Result<(), AllocError>
    requires ready { IsReady subject.now draft.old.certificate draft.old.probe.count }
    ensures swept { IfOk result (λ unit. IsSwept subject.now draft.old.certificate draft.new.certificate draft.new.probe.count) }
{
    let Some(function) = subject.table.callee(command.number) else {
        return Ok(());
    };
    let definitions = subject.table.definitions(function);
    for number in &definitions[..definitions.len().min(AT_ONCE)] {
        sweep_unseen(subject, draft, levels, *number)?;
    }
    Ok(())
}

/// Whether a command calls a function over whose bodies the sweep goes again at once: a hint. It
/// does not if counts are to be solved apart, nor at the end of a process, since nothing uses what
/// the function returns with.
pub fn is_called_again(
    subject: &Subject<'_>,
    draft: &Draft,
    around: &Around<'_>,
    command: &Command,
) -> bool {
    if around.function.is_none() && draft.waiting.is_last(command.number) {
        return false;
    }
    let Some(function) = subject.table.callee(command.number) else {
        return false;
    };
    match subject.table.definitions(function) {
        [number, ..] => draft.goes_again(*number) && !draft.is_tired(),
        [] => false,
    }
}

// As `sweep_function`, if no pass over the body has begun, or if the call goes over it again.
#[cycle(sweep)]
fn sweep_unseen(
    subject: &Subject<'_>,
    draft: &mut Draft,
    levels: u32,
    number: u32,
) -> Result<(), AllocError>
    requires ready { IsReady subject.now draft.old.certificate draft.old.probe.count }
    ensures swept { IfOk result (λ unit. IsSwept subject.now draft.old.certificate draft.new.certificate draft.new.probe.count) }
{
    if draft.waiting.units.is_unseen(number) {
        return sweep_function(subject, draft, levels, number);
    }
    if !draft.goes_again(number) {
        return Ok(());
    }
    let looks = draft.looks;
    let again = draft.again;
    sweep_function(subject, draft, levels, number)?;
    draft.again = again.saturating_add(draft.looks.saturating_sub(looks));
    Ok(())
}

// Lowers the certificate in the body of the definition of a number, and where its function returns.
#[cycle(sweep)]
fn sweep_function(
    subject: &Subject<'_>,
    draft: &mut Draft,
    levels: u32,
    number: u32,
) -> Result<(), AllocError>
    requires ready { IsReady subject.now draft.old.certificate draft.old.probe.count }
    ensures swept { IfOk result (λ unit. IsSwept subject.now draft.old.certificate draft.new.certificate draft.new.probe.count) }
{
    let commands = subject.commands;
    let index = number.saturating_sub(1) as usize;
    if index >= commands.len() {
        return Ok(());
    }
    draft.waiting.units.begin(number)?;
    let outer = draft.waiting.enter_body(number);
    let traces = draft.traces;
    sweep_defined(subject, draft, levels, commands[index])?;
    draft.traces = traces;
    draft.waiting.leave(outer);
    draft.waiting.units.end(number)
}

// The place that the rules speak of so, if a script may have it, and nothing is stated.
fn place_in(subject: &Subject<'_>, certificate: &Certificate, slot: Slot<'_>) -> Option<Place>
    requires { (probed : ℕ) × IsReady subject.now certificate.now probed }
    ensures there { IfSome result (λ place. Some place ≡ place_of (functions_in subject.now.script.now subject.now.tree.now) (slot_of subject.now.script.now slot.entry)) }
    ensures free { IfSome result (λ place. subject.now.stated ≡ false) }
{
    if subject.stated {
        return None;
    }
    let claims = claims_of(subject, certificate);
    let spot = spot_of(&claims, slot)?;
    spot.place()
}

// Lowers what is claimed at a place to what is known there, if any run comes to it.
fn lower_return(
    subject: &Subject<'_>,
    draft: &mut Draft,
    place: Option<Place>,
    known: &Knowledge,
) -> Result<(), AllocError>
    requires ready { IsReady subject.now draft.old.certificate draft.old.probe.count }
    requires free { IfSome place (λ there. subject.now.stated ≡ false) }
    requires stands { subject.now.stated ≡ false → IfSome place (λ there. (other : Sheet) → Keeps subject.now other
        → IsWithin (facts (claim_there other (Some there))) (knowledge_facts subject.now.names.now known.now)) }
    ensures swept { IfOk result (λ unit. IsSwept subject.now draft.old.certificate draft.new.certificate draft.new.probe.count) }
{
    let Some(place) = place else {
        return Ok(());
    };
    match known {
        Knowledge::NotReached => Ok(()),
        Knowledge::Known(assured) => lower_assured(subject, draft, place, assured),
    }
}

// Lowers the certificate in the body of a definition, and where its function returns.
#[cycle(sweep)]
fn sweep_defined(
    subject: &Subject<'_>,
    draft: &mut Draft,
    levels: u32,
    command: &Command,
) -> Result<(), AllocError>
    requires ready { IsReady subject.now draft.old.certificate draft.old.probe.count }
    requires placed { (by : FlowRule) × (y : entries.Around) × (q : Seen) × IsPart subject.now (command_entered by y q (trees.command_of subject.now.script.now command.now)) }
    ensures swept { IfOk result (λ unit. IsSwept subject.now draft.old.certificate draft.new.certificate draft.new.probe.count) }
{
    match &command.kind {
        Kind::Define { name, body } => sweep_body(subject, draft, levels, *name, body.get()),
        _ => Ok(()),
    }
}

// The index of a function, or the first if a script may not have it: a hint.
fn index_of(subject: &Subject<'_>, name: Span) -> u16 {
    let place = subject.table.function_at(name).unwrap_or(0);
    u16::try_from(place).unwrap_or(0)
}

// Lowers the certificate in the body of a function, and where the function returns.
#[cycle(sweep)]
fn sweep_body(
    subject: &Subject<'_>,
    draft: &mut Draft,
    levels: u32,
    name: Span,
    body: &Command,
) -> Result<(), AllocError>
    requires ready { IsReady subject.now draft.old.certificate draft.old.probe.count }
    requires placed { (by : FlowRule) × (y : entries.Around) × (q : Seen) × (n : ℕ) × (offset : ℕ) × (rs : p.Redirects)
        × IsPart subject.now (command_entered by y q (p.command n offset (p.Define (text_of subject.now.script.now name) (trees.command_of subject.now.script.now body.now)) rs)) }
    ensures swept { IfOk result (λ unit. IsSwept subject.now draft.old.certificate draft.new.certificate draft.new.probe.count) }
{
    let outer = enter_function(&mut draft.waiting, index_of(subject, name));
    sweep_definition(subject, draft, levels, name, body)?;
    draft.waiting.function = outer;
    let zero = zero_of(subject, &draft.certificate, body.number);
    let place = place_in(subject, &draft.certificate, Slot::ReturnZero(name));
    lower_return(subject, draft, place, &zero)?;
    let nonzero = nonzero_of(subject, &draft.certificate, body.number);
    let other = place_in(subject, &draft.certificate, Slot::ReturnNonzero(name));
    lower_return(subject, draft, other, &nonzero)?;
    Ok(())
}

// Whether a pass has noted what is known where the script starts: a hint.
fn is_start_noted(draft: &Draft, items: &[Item]) -> bool {
    let parts = match items {
        [item, ..] => item.list.first.parts.as_slice(),
        [] => &[],
    };
    match parts {
        [command, ..] => is_entered(draft, command),
        [] => false,
    }
}

// Where the commands outside of functions begin. What is known there is noted once.
fn from_start(subject: &Subject<'_>, draft: &Draft) -> Course
    requires { IsReady subject.now draft.now.certificate draft.now.probe.count }
    ensures { AreItems subject.now result.by entries.alone (known_behind subject.now result.behind) (out-Script subject.now.tree.now).items }
{
    if is_start_noted(draft, subject.tree.items.as_slice()) {
        return Course {
            by: FlowRule::F1,
            behind: nothing_behind(),
        };
    }
    let start = subject.start();
    begun(FlowRule::F1, &start)
}

// Lowers the certificate at the commands outside of functions.
fn sweep_outside(subject: &Subject<'_>, draft: &mut Draft) -> Result<(), AllocError>
    requires { IsReady subject.now draft.old.certificate draft.old.probe.count }
    ensures { IfOk result (λ unit. IsSwept subject.now draft.old.certificate draft.new.certificate draft.new.probe.count) }
{
    begin_pass(&mut draft.waiting);
    let mut course = from_start(subject, &*draft);
    let outside = alone();
    let items = subject.tree.items.as_slice();
    sweep_items(subject, draft, LEVELS, &outside, &mut course, items)
}

fn sweep_unit(subject: &Subject<'_>, draft: &mut Draft, unit: Unit) -> Result<(), AllocError>
    requires { IsReady subject.now draft.old.certificate draft.old.probe.count }
    ensures { IfOk result (λ unit. IsSwept subject.now draft.old.certificate draft.new.certificate draft.new.probe.count) }
{
    match unit {
        Unit::Outside => sweep_outside(subject, draft),
        Unit::Body(definition) => sweep_function(subject, draft, LEVELS, definition),
    }
}

// The next unit. If none waits, those wait that look at what is late.
fn next_unit(
    alloc: Global,
    subject: &Subject<'_>,
    waiting: &mut Waiting,
) -> Result<Option<Unit>, AllocError> {
    let rounds = waiting.units.rounds();
    let unit = waiting.next_unit(alloc, subject.table)?;
    if waiting.units.rounds() != rounds {
        begin_pass(waiting);
    }
    if unit.is_some() {
        return Ok(unit);
    }
    wake_late(subject, waiting)?;
    waiting.next_unit(alloc, subject.table)
}

/// Lowers a certificate at the commands that wait until none does, or until the counts are to be
/// solved apart. A sweep is a hint: its clause is true of one that lowers nothing too. The turns
/// after it lower what it leaves.
///
/// # Errors
///
/// If a growth was refused.
pub fn sweep_waiting(subject: &Subject<'_>, draft: &mut Draft) -> Result<(), AllocError>
    requires { IsReady subject.now draft.old.certificate draft.old.probe.count }
    ensures { IfOk result (λ unit. IsSwept subject.now draft.old.certificate draft.new.certificate draft.new.probe.count) }
{
    for _unit in 0..u32::MAX {
        let Some(unit) = next_unit(draft.alloc, subject, &mut draft.waiting)? else {
            return Ok(());
        };
        sweep_unit(subject, draft, unit)?;
        if draft.is_tired() {
            return Ok(());
        }
    }
    Ok(())
}

// Lowers a certificate in a body, if a command defines a function.
fn sweep_if_defined(
    subject: &Subject<'_>,
    draft: &mut Draft,
    command: &Command,
) -> Result<(), AllocError>
    requires { IsReady subject.now draft.old.certificate draft.old.probe.count }
    ensures { IfOk result (λ unit. IsSwept subject.now draft.old.certificate draft.new.certificate draft.new.probe.count) }
{
    if !matches!(&command.kind, Kind::Define { .. }) {
        return Ok(());
    }
    sweep_function(subject, draft, LEVELS, command.number)
}

/// Lowers a certificate at all commands once, those outside of functions first.
///
/// # Errors
///
/// If a growth was refused.
pub fn sweep_round(subject: &Subject<'_>, draft: &mut Draft) -> Result<(), AllocError>
    requires { IsReady subject.now draft.old.certificate draft.old.probe.count }
    ensures { IfOk result (λ unit. IsSwept subject.now draft.old.certificate draft.new.certificate draft.new.probe.count) }
{
    draft.waiting.wait_all();
    sweep_outside(subject, draft)?;
    for command in subject.commands {
        sweep_if_defined(subject, draft, command)?;
    }
    Ok(())
}

/// Lowers a certificate by rounds over all commands until one lowers nothing.
///
/// # Errors
///
/// If a growth was refused.
pub fn sweep_by_rounds(subject: &Subject<'_>, draft: &mut Draft) -> Result<(), AllocError>
    requires { IsReady subject.now draft.old.certificate draft.old.probe.count }
    ensures { IfOk result (λ unit. IsSwept subject.now draft.old.certificate draft.new.certificate draft.new.probe.count) }
{
    for _round in 0..u32::MAX {
        let before = draft.lowered;
        sweep_round(subject, draft)?;
        if draft.lowered == before {
            return Ok(());
        }
    }
    Ok(())
}
