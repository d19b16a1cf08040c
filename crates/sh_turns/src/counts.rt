//! The counts of positional parameters are solved apart from the sets of names (XCU 2.5.1).
ghost use Rattle.std.specs.Prelude.{◌≡◌, ℕ, true, false, length, get_or, Option, Some, None, IfOk, IfSome};
ghost use Rattle.sh_counts.specs.Equations.{worth};
ghost use Rattle.sh_turns.specs.Counts as spec;
ghost use Rattle.sh_turns.specs.Counts.{AreClaimed, AreOverAll, AreUnsure, HasAtMostThere, count_place};
ghost use Rattle.sh_drafts.specs.Ready.{IsReady, IsSwept};

use crate::unsure::unsure_of;
use sh_domain::{Certificate, Facts};
use sh_drafts::kept::facts_at;
use sh_drafts::lower::lower_args;
use sh_drafts::{Draft, Part, Place, Subject, fitting, note_place};
use sh_tally::{ENDS, PARTS, Places, Tally};
use std::alloc::{AllocError, Global};

// The part of a function by its rank.
#[tactic(auto, unfolding(crate::specs::Counts::end_by))]
fn end_by(rank: usize) -> Part
    ensures { result ≡ spec.end_by rank }
{
    match rank {
        0 => Part::Entered,
        1 => Part::ReturnZero,
        _ => Part::ReturnNonzero,
    }
}

// The part of a command or of a function by its number and rank.
#[tactic(auto, unfolding(crate::specs::Counts::part_by))]
fn part_by(number: usize, rank: usize) -> Part
    ensures { result ≡ spec.part_by number rank }
{
    match rank {
        0 => Part::Before,
        1 => Part::Zero,
        2 => Part::Nonzero,
        3 => Part::Head,
        _ => end_by(number % ENDS),
    }
}

// The index of a command or of a function by its number: commands have numbers from 1.
#[tactic(auto, unfolding(crate::specs::Counts::index_by))]
fn index_by(part: Part, number: usize) -> usize
    ensures { result ≡ spec.index_by part number }
{
    match part {
        Part::Before => number.saturating_sub(1),
        Part::Zero => number.saturating_sub(1),
        Part::Nonzero => number.saturating_sub(1),
        Part::Head => number.saturating_sub(1),
        Part::Entered => number / ENDS,
        Part::ReturnZero => number / ENDS,
        Part::ReturnNonzero => number / ENDS,
    }
}

// The place of a count, if a script may have a command or a function of its number.
#[tactic(auto, unfolding(sh_drafts::specs::Gathered::fitting))]
fn place_of_count(count: usize) -> Option<Place>
    ensures { IfSome result (λ place. place ≡ count_place count) }
{
    let number = count / PARTS;
    let part = part_by(number, count % PARTS);
    let index = fitting(index_by(part, number))?;
    Some(Place { part, index })
}

// How many parameters are claimed at a place, if any run comes there.
#[tactic(auto, unfolding(crate::specs::Counts::args_of))]
fn args_at(certificate: &Certificate, place: Place) -> Option<u16>
    ensures { result ≡ spec.args_at certificate.now place }
{
    match facts_at(certificate, place)? {
        Facts::NotReached => None,
        Facts::Known { args, .. } => Some(args),
    }
}

// How many are claimed at the place of a count.
fn claimed_count(certificate: &Certificate, count: usize) -> Option<u16>
    ensures { IfSome result (λ args. spec.args_at certificate.now (count_place count) ≡ Some args) }
{
    let place = place_of_count(count)?;
    args_at(certificate, place)
}

// The counts that are claimed.
fn counts_of(alloc: Global, certificate: &Certificate) -> Result<Vec<Option<u16>>, AllocError>
    ensures { IfOk result (λ counts. AreClaimed certificate.now counts.items) }
{
    let commands = certificate.entries.len().saturating_add(1);
    let numbers = commands.max(certificate.functions.len().saturating_mul(ENDS));
    let mut counts = Vec::new(alloc);
    for count in 0..numbers.saturating_mul(PARTS) {
        counts.push(claimed_count(certificate, count))?;
    }
    Ok(counts)
}

// Whether the command of an index is a `return`: a hint.
fn is_return(subject: &Subject<'_>, index: u16) -> bool {
    matches!(subject.table.text(index as u32 + 1, 0), Some(b"return"))
}

// Notes whether the count at a place was lowered. No equation says what a `return` hands on, so it
// waits if its own was.
fn note_solved(
    subject: &Subject<'_>,
    draft: &mut Draft,
    place: Place,
    is_lowered: bool,
) -> Result<(), AllocError>
    ensures certificate { draft.new.certificate ≡ draft.old.certificate }
    ensures probe { draft.new.probe ≡ draft.old.probe }
{
    note_place(subject, draft, place, None, is_lowered)?;
    if is_lowered && place.part == Part::Before && is_return(subject, place.index) {
        draft.waiting.wait(place.index as u32 + 1)?;
    }
    Ok(())
}

// Lowers the count at a place.
fn lower_count(
    subject: &Subject<'_>,
    draft: &mut Draft,
    place: Place,
    args: u16,
) -> Result<(), AllocError>
    requires ready { IsReady subject.now draft.old.certificate draft.old.probe.count }
    requires free { subject.now.stated ≡ false }
    requires over { HasAtMostThere subject.now args place }
    ensures { IfOk result (λ unit. IsSwept subject.now draft.old.certificate draft.new.certificate draft.new.probe.count) }
{
    let is_lowered = lower_args(&mut draft.certificate, place, args)?;
    note_solved(subject, draft, place, is_lowered)?;
    Ok(())
}

// The count that is claimed, if a run comes to its place.
fn claim_at(claimed: &[Option<u16>], count: usize) -> Option<u16>
    ensures { result ≡ get_or claimed.now count None }
{
    match claimed.get(count) {
        Some(args) => *args,
        None => None,
    }
}

// The count that solves the equations. One that is not there is not bounded.
fn solved_at(counts: &[u16], count: usize) -> u16
    ensures { result ≡ worth counts.now count }
{
    match counts.get(count) {
        Some(args) => *args,
        None => u16::MAX,
    }
}

// Lowers a count, if a run comes to its place and more is claimed there.
fn lower_claimed(
    subject: &Subject<'_>,
    draft: &mut Draft,
    claimed: &[Option<u16>],
    counts: &[u16],
    count: usize,
) -> Result<(), AllocError>
    requires ready { IsReady subject.now draft.old.certificate draft.old.probe.count }
    requires free { subject.now.stated ≡ false }
    requires over { (a : ℕ) → get_or claimed.now count None ≡ Some a → HasAtMostThere subject.now (worth counts.now count) (count_place count) }
    ensures { IfOk result (λ unit. IsSwept subject.now draft.old.certificate draft.new.certificate draft.new.probe.count) }
{
    let Some(most) = claim_at(claimed, count) else {
        return Ok(());
    };
    let args = solved_at(counts, count);
    if most <= args {
        return Ok(());
    }
    let Some(place) = place_of_count(count) else {
        return Ok(());
    };
    lower_count(subject, draft, place, args)
}

// Lowers each count that is claimed to the one that solves the equations.
fn lower_all(
    subject: &Subject<'_>,
    draft: &mut Draft,
    claimed: &[Option<u16>],
    counts: &[u16],
) -> Result<(), AllocError>
    requires ready { IsReady subject.now draft.old.certificate draft.old.probe.count }
    requires free { subject.now.stated ≡ false }
    requires over { AreOverAll subject.now claimed.now counts.now }
    ensures { IfOk result (λ unit. IsSwept subject.now draft.old.certificate draft.new.certificate draft.new.probe.count) }
{
    for count in 0..claimed.len() {
        lower_claimed(subject, draft, claimed, counts, count)?;
    }
    Ok(())
}

// The counts that solve the equations of a script. No certificate that keeps the rules claims a
// greater one at such a place.
fn solved(
    alloc: Global,
    subject: &Subject<'_>,
    certificate: &Certificate,
    claimed: &[Option<u16>],
    unsure: &[Option<u16>],
) -> Result<Vec<u16>, AllocError>
    requires ready { (probed : ℕ) × IsReady subject.now certificate.now probed }
    requires free { subject.now.stated ≡ false }
    requires claimed { AreClaimed certificate.now claimed.now }
    requires unsure { AreUnsure subject.now certificate.now unsure.now }
    ensures { IfOk result (λ counts. AreOverAll subject.now claimed.now counts.items) }
{
    let tally = Tally {
        script: subject.script,
        table: subject.table,
        places: Places { counts: claimed },
        unsure,
    };
    tally.lowered(alloc, subject.tree)
}

/// Lowers the count at each place to the greatest that the equations of the script allow. The sets
/// of names stay. If a compact certificate states claims, it lowers nothing.
///
/// # Errors
///
/// If a growth was refused.
pub fn solve_counts(subject: &Subject<'_>, draft: &mut Draft) -> Result<(), AllocError>
    requires { IsReady subject.now draft.old.certificate draft.old.probe.count }
    ensures { IfOk result (λ unit. IsSwept subject.now draft.old.certificate draft.new.certificate draft.new.probe.count) }
{
    if subject.stated {
        return Ok(());
    }
    let claimed = counts_of(draft.alloc, &draft.certificate)?;
    let unsure = unsure_of(draft.alloc, subject, &draft.certificate)?;
    let counts = solved(
        draft.alloc,
        subject,
        &draft.certificate,
        claimed.as_slice(),
        unsure.as_slice(),
    )?;
    lower_all(subject, draft, claimed.as_slice(), counts.as_slice())
}
