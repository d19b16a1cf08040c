//! Lowers what is claimed at a place to what is known there, without a visit.
ghost use Rattle.std.specs.Prelude.{◌≡◌, true, false, length, Some, IfOk};
ghost use Rattle.sh_domain.specs.Facts.{facts};
ghost use Rattle.sh_domain.specs.Knowledge.{assured_facts};
ghost use Rattle.sh_domain.specs.Order.{IsWithin};
ghost use Rattle.sh_domain.specs.Sheets.{Sheet};
ghost use Rattle.sh_drafts.specs.Kept.{sight_facts, IsNamed};
ghost use Rattle.sh_drafts.specs.Idle.{ClaimStays};
ghost use Rattle.sh_drafts.specs.Numbers.{by_name};
ghost use Rattle.sh_drafts.specs.Places.{claim_there, is_stated_part};
ghost use Rattle.sh_drafts.specs.Ready.{IsReady, IsSwept, Keeps};
ghost use Rattle.sh_drafts.specs.Writable.{sets_in};

use crate::draft::Draft;
use crate::kept::facts_at;
use crate::lower::lower;
use crate::place::Place;
use crate::sight::Sight;
use crate::sights::sight_of;
use crate::subject::Subject;
use crate::used::drop_unused;
use crate::wakes::note_place;
use sh_domain::Assured;
use std::alloc::AllocError;

/// Lowers what is claimed at a place to what is known there, if a text of a certificate may name
/// what is left.
///
/// # Errors
///
/// If a growth was refused.
pub fn lower_at(
    subject: &Subject<'_>,
    draft: &mut Draft,
    place: Place,
    known: &Sight,
) -> Result<(), AllocError>
    requires ready { IsReady subject.now draft.old.certificate draft.old.probe.count }
    requires free { subject.now.stated ≡ true → is_stated_part place.part ≡ false }
    requires named { IsNamed (length subject.now.names.now) (sight_facts known.now) }
    requires stands { (other : Sheet) → Keeps subject.now other → IsWithin (facts (claim_there other (Some place))) (by_name subject.now.names.now (sight_facts known.now)) }
    ensures swept { IfOk result (λ unit. IsSwept subject.now draft.old.certificate draft.new.certificate draft.new.probe.count) }
    ensures fits { IfOk result (λ unit. ClaimStays draft.new.certificate place (sight_facts known.now) (sets_in subject.now.writable.now.vars subject.now.writable.now.functions)) }
{
    let before = facts_at(&draft.certificate, place);
    let is_lowered = lower(
        subject.names,
        subject.writable,
        &mut draft.certificate,
        &mut draft.probe,
        place,
        known,
    )?;
    note_place(subject, draft, place, before, is_lowered)?;
    Ok(())
}

// Whether no more than this is claimed at a place: a hint.
fn is_low(draft: &Draft, place: Place, assured: &Assured) -> bool {
    match facts_at(&draft.certificate, place) {
        Some(facts) => assured.includes(&draft.certificate.rows, &facts),
        None => true,
    }
}

/// Lowers what is claimed at a place to what is assured there.
///
/// # Errors
///
/// If a growth was refused.
pub fn lower_assured(
    subject: &Subject<'_>,
    draft: &mut Draft,
    place: Place,
    assured: &Assured,
) -> Result<(), AllocError>
    requires ready { IsReady subject.now draft.old.certificate draft.old.probe.count }
    requires free { subject.now.stated ≡ true → is_stated_part place.part ≡ false }
    requires stands { (other : Sheet) → Keeps subject.now other → IsWithin (facts (claim_there other (Some place))) (assured_facts subject.now.names.now assured.now) }
    ensures swept { IfOk result (λ unit. IsSwept subject.now draft.old.certificate draft.new.certificate draft.new.probe.count) }
{
    draft.looks = draft.looks.saturating_add(1);
    drop_unused(draft)?;
    if is_low(&*draft, place, assured) {
        return Ok(());
    }
    let sight = sight_of(subject.names, assured);
    lower_at(subject, draft, place, &sight)?;
    Ok(())
}
