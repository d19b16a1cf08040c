//! Lowers a command where it is entered and after it to what is known there, without a visit.
ghost use Rattle.std.specs.Prelude.{◌≡◌, ◌-◌, false, IfOk};
ghost use Rattle.sh_domain.specs.declared.rule.FlowRule as rule;
ghost use Rattle.sh_domain.specs.Entries as entries;
ghost use Rattle.sh_domain.specs.Knowledge.{assured_facts, knowledge_facts};
ghost use Rattle.sh_drafts.specs.declared.place.Part.TheVariants.{Nonzero, Zero};
ghost use Rattle.sh_drafts.specs.Gathered.{fitting_place};
ghost use Rattle.sh_drafts.specs.Places as spec;
ghost use Rattle.sh_drafts.specs.Places.{is_stated_part};
ghost use Rattle.sh_sweeps.specs.Sweeps.{ClaimsWithin, IsCommand};
ghost use Rattle.sh_drafts.specs.Ready.{IsReady, IsSwept};

use sh_domain::{Assured, Knowledge};
use sh_drafts::{Draft, Part, Place, Subject, lower_assured, of_command};
use sh_rules::Behind;
use sh_tree::Command;
use std::alloc::AllocError;

// A part of the command of a number, if a script may have one of it.
fn place_of_part(part: Part, number: u32) -> Option<Place>
    ensures { result ≡ fitting_place (spec.at part (number - 1)) }
{
    of_command(part, number).place()
}

// Lowers what is claimed at a part of the command of a number, with this assured.
fn lower_part(
    subject: &Subject<'_>,
    draft: &mut Draft,
    part: Part,
    number: u32,
    assured: &Assured,
) -> Result<(), AllocError>
    requires ready { IsReady subject.now draft.old.certificate draft.old.probe.count }
    requires free { is_stated_part part ≡ false }
    requires stands { ClaimsWithin subject.now part number (assured_facts subject.now.names.now assured.now) }
    ensures swept { IfOk result (λ unit. IsSwept subject.now draft.old.certificate draft.new.certificate draft.new.probe.count) }
{
    let Some(place) = place_of_part(part, number) else {
        return Ok(());
    };
    lower_assured(subject, draft, place, assured)
}

// Lowers what is claimed at a part of the command of a number to what is known there, if any run
// comes to it.
fn lower_known(
    subject: &Subject<'_>,
    draft: &mut Draft,
    part: Part,
    number: u32,
    known: &Knowledge,
) -> Result<(), AllocError>
    requires ready { IsReady subject.now draft.old.certificate draft.old.probe.count }
    requires free { is_stated_part part ≡ false }
    requires stands { ClaimsWithin subject.now part number (knowledge_facts subject.now.names.now known.now) }
    ensures swept { IfOk result (λ unit. IsSwept subject.now draft.old.certificate draft.new.certificate draft.new.probe.count) }
{
    match known {
        Knowledge::NotReached => Ok(()),
        Knowledge::Known(assured) => lower_part(subject, draft, part, number, assured),
    }
}

/// Lowers what is claimed where a command is entered to what is known there, if any run comes.
///
/// # Errors
///
/// If a growth was refused.
#[tactic(auto, unfolding(sh_drafts::specs::Places::is_stated_part))]
pub fn lower_before(
    subject: &Subject<'_>,
    draft: &mut Draft,
    known: &Knowledge,
    command: &Command,
) -> Result<(), AllocError>
    requires ready { IsReady subject.now draft.old.certificate draft.old.probe.count }
    requires placed { (by : rule.FlowRule) × (around : entries.Around) × IsCommand subject.now by around (knowledge_facts subject.now.names.now known.now) command.now }
    ensures swept { IfOk result (λ unit. IsSwept subject.now draft.old.certificate draft.new.certificate draft.new.probe.count) }
{
    lower_known(subject, draft, Part::Before, command.number, known)
}

/// Lowers what is claimed after the command of a number, if its status is zero, to what is known
/// there, if any run comes.
///
/// # Errors
///
/// If a growth was refused.
#[tactic(auto, unfolding(sh_drafts::specs::Places::is_stated_part))]
pub fn lower_zero(
    subject: &Subject<'_>,
    draft: &mut Draft,
    number: u32,
    known: &Knowledge,
) -> Result<(), AllocError>
    requires ready { IsReady subject.now draft.old.certificate draft.old.probe.count }
    requires stands { ClaimsWithin subject.now Zero number (knowledge_facts subject.now.names.now known.now) }
    ensures swept { IfOk result (λ unit. IsSwept subject.now draft.old.certificate draft.new.certificate draft.new.probe.count) }
{
    lower_known(subject, draft, Part::Zero, number, known)
}

/// Lowers what is claimed after the command of a number to what is known there by its status, if
/// any run comes.
///
/// # Errors
///
/// If a growth was refused.
#[tactic(auto, unfolding(sh_drafts::specs::Places::is_stated_part))]
pub fn lower_left(
    subject: &Subject<'_>,
    draft: &mut Draft,
    number: u32,
    left: &Behind,
) -> Result<(), AllocError>
    requires ready { IsReady subject.now draft.old.certificate draft.old.probe.count }
    requires zero { ClaimsWithin subject.now Zero number (knowledge_facts subject.now.names.now left.now.zero) }
    requires nonzero { ClaimsWithin subject.now Nonzero number (knowledge_facts subject.now.names.now left.now.nonzero) }
    ensures swept { IfOk result (λ unit. IsSwept subject.now draft.old.certificate draft.new.certificate draft.new.probe.count) }
{
    lower_zero(subject, draft, number, &left.zero)?;
    lower_known(subject, draft, Part::Nonzero, number, &left.nonzero)?;
    Ok(())
}
