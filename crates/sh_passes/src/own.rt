//! Lowers a command by what it asks itself, and not by what the commands in it ask.
ghost use Rattle.std.specs.Prelude.{◌≡◌, ℕ, List, true, length, IfOk};
ghost use Rattle.sh_tree.specs.standard.program.Syntax.{Text};
ghost use Rattle.sh_domain.specs.Knowledge.{knowledge_facts};
ghost use Rattle.sh_domain.specs.Sheets.{Sheet};
ghost use Rattle.sh_rules.specs.Steps.{met_in};
ghost use Rattle.sh_rules.specs.Visits.{command_by};
ghost use Rattle.sh_rules.specs.Walks as walks;
ghost use Rattle.sh_rules.specs.Walks.{setting};
ghost use Rattle.sh_domain.specs.Admitted.{IsAdmitted};
ghost use Rattle.sh_sweeps.specs.Sides.{AreNumbersBeside, IsQuietBeside, StandsBeside, sided_of};
ghost use Rattle.sh_sweeps.specs.Asked.{asking_by, unstated};
ghost use Rattle.sh_sweeps.specs.Sweeps.{IsCommand, setting_by};
ghost use Rattle.sh_drafts.specs.Ready.{IsReady, IsSwept, Keeps};
ghost use Rattle.sh_drafts.specs.Turns.{AreNumbers, IsQuiet, Stands};
ghost use Rattle.sh_sweeps.specs.Asked.{gathered_of};

use crate::looks::looks_of;
use sh_domain::{Certificate, Facts, FlowRule, Knowledge, is_loop};
use sh_drafts::kept::{drops_of, facts_at};
use sh_drafts::{Draft, Part, Place, Subject, Target, lower_at, note_lowered};
use sh_rules::{Around, Asked, Claims};
use sh_sweeps::{Gather, Sides, Unstated, claims_of, lower_before, lower_gathered};
use sh_tree::Command;
use sh_visits::tell_command;
use std::alloc::AllocError;

// What the flow rules ask at a command, except of what is stated, is done with this.
#[inline(never)]
fn tell_unstated<A: Asked + Copy>(
    claims: &Claims<'_>,
    by: FlowRule,
    around: &Around<'_>,
    known: &Knowledge,
    command: &Command,
    asked: &mut A,
)
    ensures { A.kept asked.new ≡ command_by (unstated A.asked) (setting claims.now) (A.kept asked.old) (met_in (setting claims.now) by around.now known.now command.now) }
{
    let mut unstated = Unstated { asked: *asked };
    tell_command(claims, by, around, known, command, &mut unstated);
    let Unstated { asked: told } = unstated;
    *asked = told;
}

// What the flow rules ask at a command is done with this.
fn tell<A: Asked + Copy>(
    subject: &Subject<'_>,
    certificate: &Certificate,
    by: FlowRule,
    around: &Around<'_>,
    known: &Knowledge,
    command: &Command,
    asked: &mut A,
)
    requires sized { certificate.now.rows.count ≡ length subject.now.names.now }
    requires admitted { IsAdmitted subject.now.script.now subject.now.policy.now subject.now.tree.now subject.now.names.now }
    ensures { A.kept asked.new ≡ command_by (asking_by subject.now.stated A.asked) (setting_by subject.now certificate.now) (A.kept asked.old) (met_in (setting_by subject.now certificate.now) by around.now known.now command.now) }
{
    let claims = claims_of(subject, certificate);
    if subject.stated {
        tell_unstated(&claims, by, around, known, command, asked);
    } else {
        tell_command(&claims, by, around, known, command, asked);
    }
}

// The index of a command, or the first if a script may not have its number: a hint.
fn index_of(command: &Command) -> u16 {
    u16::try_from(command.number.saturating_sub(1)).unwrap_or(0)
}

// Whether a place is one of the command of an index, and the function the one that a sweep is in: a
// hint.
fn is_own(function: u16, target: Target, index: u16) -> bool {
    target.function == function
        && target.place.index == index
        && !target.place.part.is_of_function()
}

/// Whether some run comes to a command, by what is claimed before it: a hint.
pub fn is_entered(draft: &Draft, command: &Command) -> bool {
    let index = index_of(command);
    let part = Part::Before;
    let before = facts_at(&draft.certificate, Place { part, index });
    matches!(before, Some(Facts::Known { .. }))
}

// Whether a function is entered here, and was not yet: a hint.
fn is_unentered(draft: &Draft, place: Place) -> bool {
    place.part == Part::Entered
        && matches!(facts_at(&draft.certificate, place), Some(Facts::NotReached))
}

// Lowers what is claimed at a place, and what a function may drop, by what was gathered. Reports
// whether it lowered any.
fn lower_asked(
    subject: &Subject<'_>,
    draft: &mut Draft,
    gather: &Gather,
) -> Result<bool, AllocError>
    requires ready { IsReady subject.now draft.old.certificate draft.old.probe.count }
    requires numbers { AreNumbers (length subject.now.names.now) (gathered_of gather.now) }
    requires quiet { subject.now.stated ≡ true → IsQuiet (gathered_of gather.now) }
    requires stands { (other : Sheet) → Keeps subject.now other → Stands subject.now.names.now other (gathered_of gather.now) }
    ensures swept { IfOk result (λ is_lowered. IsSwept subject.now draft.old.certificate draft.new.certificate draft.new.probe.count) }
{
    let target = gather.target;
    let before = facts_at(&draft.certificate, target.place);
    let drops = drops_of(&draft.certificate, target.function);
    let is_lowered = lower_gathered(
        subject.names,
        subject.writable,
        &mut draft.certificate,
        &mut draft.probe,
        gather,
    )?;
    note_lowered(subject, draft, target, before, drops, is_lowered)?;
    Ok(is_lowered)
}

// Lowers what is claimed at a place, and what a function may drop, by what a command asks. Says
// whether all of it was kept, and of what more was asked.
fn lower_once(
    subject: &Subject<'_>,
    draft: &mut Draft,
    by: FlowRule,
    around: &Around<'_>,
    known: &Knowledge,
    command: &Command,
    target: Target,
) -> Result<(bool, Target), AllocError>
    requires ready { IsReady subject.now draft.old.certificate draft.old.probe.count }
    requires placed { IsCommand subject.now by (walks.around subject.now.script.now around.now) (knowledge_facts subject.now.names.now known.now) command.now }
    ensures swept { IfOk result (λ answer. IsSwept subject.now draft.old.certificate draft.new.certificate draft.new.probe.count) }
{
    let is_first = is_unentered(&*draft, target.place);
    let mut gather = Gather::new(target);
    tell(
        subject,
        &draft.certificate,
        by,
        around,
        known,
        command,
        &mut gather,
    );
    let is_lowered = lower_asked(subject, draft, &gather)?;
    draft.entered = draft
        .entered
        .saturating_add(u64::from(is_lowered && is_first));
    draft.looks = draft.looks.saturating_add(looks_of(command));
    Ok((gather.kept, gather.next))
}

/// Lowers the certificate where a command is entered and after it.
///
/// # Errors
///
/// If a growth was refused.
pub fn lower_command(
    subject: &Subject<'_>,
    draft: &mut Draft,
    by: FlowRule,
    around: &Around<'_>,
    known: &Knowledge,
    command: &Command,
) -> Result<(), AllocError>
    requires ready { IsReady subject.now draft.old.certificate draft.old.probe.count }
    requires placed { IsCommand subject.now by (walks.around subject.now.script.now around.now) (knowledge_facts subject.now.names.now known.now) command.now }
    ensures swept { IfOk result (λ unit. IsSwept subject.now draft.old.certificate draft.new.certificate draft.new.probe.count) }
{
    lower_before(subject, draft, known, command)?;
    lower_behind(subject, draft, by, around, known, command)?;
    Ok(())
}

/// Lowers what is claimed at each turn of a loop, if something is new there.
///
/// # Errors
///
/// If a growth was refused.
pub fn lower_head(
    subject: &Subject<'_>,
    draft: &mut Draft,
    by: FlowRule,
    around: &Around<'_>,
    known: &Knowledge,
    command: &Command,
    is_new: bool,
) -> Result<(), AllocError>
    requires ready { IsReady subject.now draft.old.certificate draft.old.probe.count }
    requires placed { IsCommand subject.now by (walks.around subject.now.script.now around.now) (knowledge_facts subject.now.names.now known.now) command.now }
    ensures swept { IfOk result (λ unit. IsSwept subject.now draft.old.certificate draft.new.certificate draft.new.probe.count) }
{
    if !is_new || !is_loop(command) {
        return Ok(());
    }
    let index = index_of(command);
    let part = Part::Head;
    let place = Place { part, index };
    let function = draft.waiting.function;
    let target = Target { place, function };
    lower_others(subject, draft, by, around, known, command, index, target)?;
    Ok(())
}

// Nothing was asked yet of both places after the command of an index, and of a function.
fn both_places(index: u16, function: u16) -> Sides
    ensures numbers { (names : ℕ) → AreNumbersBeside names (sided_of result) }
    ensures quiet { IsQuietBeside (sided_of result) }
    ensures stands { (names : List Text) (other : Sheet) → StandsBeside names other (sided_of result) }
{
    let part = Part::Zero;
    let place = Place { part, index };
    let target = Target { place, function };
    let part = Part::Nonzero;
    let place = Place { part, index };
    let gather = Gather::new(target);
    Sides {
        gather,
        place,
        known: None,
    }
}

// Gathers for both places what the flow rules ask at a command.
fn ask_behind(
    subject: &Subject<'_>,
    certificate: &Certificate,
    by: FlowRule,
    around: &Around<'_>,
    known: &Knowledge,
    command: &Command,
    sides: &mut Sides,
)
    requires ready { (probed : ℕ) × IsReady subject.now certificate.now probed }
    requires placed { IsCommand subject.now by (walks.around subject.now.script.now around.now) (knowledge_facts subject.now.names.now known.now) command.now }
    requires numbers { AreNumbersBeside (length subject.now.names.now) (sided_of sides.old) }
    requires quiet { IsQuietBeside (sided_of sides.old) }
    requires stands { (other : Sheet) → StandsBeside subject.now.names.now other (sided_of sides.old) }
    ensures numbers { AreNumbersBeside (length subject.now.names.now) (sided_of sides.new) }
    ensures quiet { subject.now.stated ≡ true → IsQuietBeside (sided_of sides.new) }
    ensures stands { (other : Sheet) → Keeps subject.now other → StandsBeside subject.now.names.now other (sided_of sides.new) }
{
    tell(subject, certificate, by, around, known, command, sides);
}

// Lowers what is claimed at the second of two places, if any run comes to it.
fn lower_second(subject: &Subject<'_>, draft: &mut Draft, sides: &Sides) -> Result<(), AllocError>
    requires ready { IsReady subject.now draft.old.certificate draft.old.probe.count }
    requires numbers { AreNumbersBeside (length subject.now.names.now) (sided_of sides.now) }
    requires quiet { subject.now.stated ≡ true → IsQuietBeside (sided_of sides.now) }
    requires stands { (other : Sheet) → Keeps subject.now other → StandsBeside subject.now.names.now other (sided_of sides.now) }
    ensures swept { IfOk result (λ unit. IsSwept subject.now draft.old.certificate draft.new.certificate draft.new.probe.count) }
{
    match &sides.known {
        None => Ok(()),
        Some(sight) => lower_at(subject, draft, sides.place, sight),
    }
}

// Lowers what is claimed at both places after a command by one visit. Says whether all of it was
// kept, and of what more was asked.
fn lower_sides(
    subject: &Subject<'_>,
    draft: &mut Draft,
    by: FlowRule,
    around: &Around<'_>,
    known: &Knowledge,
    command: &Command,
    index: u16,
) -> Result<(bool, Target), AllocError>
    requires ready { IsReady subject.now draft.old.certificate draft.old.probe.count }
    requires placed { IsCommand subject.now by (walks.around subject.now.script.now around.now) (knowledge_facts subject.now.names.now known.now) command.now }
    ensures swept { IfOk result (λ answer. IsSwept subject.now draft.old.certificate draft.new.certificate draft.new.probe.count) }
{
    let mut sides = both_places(index, draft.waiting.function);
    ask_behind(
        subject,
        &draft.certificate,
        by,
        around,
        known,
        command,
        &mut sides,
    );
    draft.looks = draft.looks.saturating_add(looks_of(command));
    if sides.gather.kept {
        return Ok((true, sides.gather.next));
    }
    lower_asked(subject, draft, &sides.gather)?;
    lower_second(subject, draft, &sides)?;
    Ok((false, sides.gather.next))
}

// Lowers what is claimed elsewhere, and what a function may drop, by what the command of an index
// asks, here and at one more place.
fn lower_others(
    subject: &Subject<'_>,
    draft: &mut Draft,
    by: FlowRule,
    around: &Around<'_>,
    known: &Knowledge,
    command: &Command,
    index: u16,
    target: Target,
) -> Result<(), AllocError>
    requires ready { IsReady subject.now draft.old.certificate draft.old.probe.count }
    requires placed { IsCommand subject.now by (walks.around subject.now.script.now around.now) (knowledge_facts subject.now.names.now known.now) command.now }
    ensures swept { IfOk result (λ unit. IsSwept subject.now draft.old.certificate draft.new.certificate draft.new.probe.count) }
{
    let (kept, next) = lower_once(subject, draft, by, around, known, command, target)?;
    if kept || is_own(draft.waiting.function, next, index) || next == target {
        return Ok(());
    }
    lower_once(subject, draft, by, around, known, command, next)?;
    Ok(())
}

/// Lowers what is claimed after a command. Lowers too what is claimed elsewhere or what a function
/// may drop, if the command asks for more of that.
///
/// # Errors
///
/// If a growth was refused.
pub fn lower_behind(
    subject: &Subject<'_>,
    draft: &mut Draft,
    by: FlowRule,
    around: &Around<'_>,
    known: &Knowledge,
    command: &Command,
) -> Result<(), AllocError>
    requires ready { IsReady subject.now draft.old.certificate draft.old.probe.count }
    requires placed { IsCommand subject.now by (walks.around subject.now.script.now around.now) (knowledge_facts subject.now.names.now known.now) command.now }
    ensures swept { IfOk result (λ unit. IsSwept subject.now draft.old.certificate draft.new.certificate draft.new.probe.count) }
{
    let index = index_of(command);
    let (kept, next) = lower_sides(subject, draft, by, around, known, command, index)?;
    if kept || is_own(draft.waiting.function, next, index) {
        return Ok(());
    }
    lower_others(subject, draft, by, around, known, command, index, next)?;
    Ok(())
}
