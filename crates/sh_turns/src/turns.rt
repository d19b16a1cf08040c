//! Turns of the search: a walk over the script, and what is lowered by it.
ghost use Rattle.std.specs.Prelude.{◌≡◌, ◌⊎◌, ℕ, List, Bool, true, false, [], length, flat_map, Option, IfOk};
ghost use Rattle.std.specs.List.{list_all};
ghost use Rattle.sh_tree.specs.standard.program.Trees.{script_of};
ghost use Rattle.sh_domain.specs.Faults.{broken};
ghost use Rattle.sh_domain.specs.Forms.{is_variable};
ghost use Rattle.sh_domain.specs.Order.{IsBelow};
ghost use Rattle.sh_domain.specs.Reading.{claim_fits};
ghost use Rattle.sh_domain.specs.Rules.{script_bounds};
ghost use Rattle.sh_domain.specs.Sheets.{Sheet};
ghost use Rattle.sh_domain.specs.Admitted.{IsAdmitted, claims_in, functions_in};
ghost use Rattle.sh_drafts.specs.declared.place.Place as place;
ghost use Rattle.sh_drafts.specs.Idle.{IsIdle};
ghost use Rattle.sh_drafts.specs.Places.{claim_there};
ghost use Rattle.sh_sweeps.specs.Next.{IsBroken, IsOfScript};
ghost use Rattle.sh_drafts.specs.Stated.{asked_bounds};
ghost use Rattle.sh_drafts.specs.Turns.{AreNumbers, IsQuiet, IsTurn, Stands, sheet_by};
ghost use Rattle.sh_sweeps.specs.Asked.{gathered_of};
ghost use Rattle.sh_drafts.specs.Working.{IsWorking};
ghost use Rattle.sh_drafts.specs.Writable.{sets_in};
ghost use Rattle.sh_drafts.specs.Starts.{start_of};

use crate::asked::ask;
use sh_domain::Certificate;
use sh_drafts::{Subject, Target};
use sh_rows::BitRow;
use sh_sweeps::{Gather, lower_gathered};
use std::alloc::AllocError;

// All that is asked of the certificate, gathered for a place and a function.
fn asked(subject: &Subject<'_>, certificate: &Certificate, target: Target) -> Gather
    requires sized { certificate.now.rows.count ≡ length subject.now.names.now }
    requires admitted { IsAdmitted subject.now.script.now subject.now.policy.now subject.now.tree.now subject.now.names.now }
    ensures numbers { AreNumbers (length subject.now.names.now) (gathered_of result) }
    ensures rules { result.kept ≡ true → flat_map (broken (start_of subject.now) (claims_in subject.now.script.now subject.now.tree.now (sheet_by subject.now.names.now certificate.now)))
        (asked_bounds subject.now.stated (script_bounds (script_of subject.now.script.now subject.now.tree.now))) ≡ [] }
    ensures stands { (d : Sheet) → ((o : Option place.Place) → claim_fits subject.now.names.now (claim_there d o) ≡ true)
        → flat_map (broken (start_of subject.now) (claims_in subject.now.script.now subject.now.tree.now d)) (asked_bounds subject.now.stated (script_bounds (script_of subject.now.script.now subject.now.tree.now))) ≡ []
        → IsBelow (claims_in subject.now.script.now subject.now.tree.now d) (claims_in subject.now.script.now subject.now.tree.now (sheet_by subject.now.names.now certificate.now))
        → Stands subject.now.names.now d (gathered_of result) }
    ensures quiet { subject.now.stated ≡ true → IsQuiet (gathered_of result) }
    ensures next { result.kept ≡ false → IsOfScript subject.now certificate.now
        → IsBroken subject.now certificate.now target ⊎ IsBroken subject.now certificate.now result.next }
    ensures idle { list_all is_variable subject.now.names.now ≡ true → IsOfScript subject.now certificate.now
        → IsIdle certificate.now (sets_in subject.now.writable.now.vars subject.now.writable.now.functions) (gathered_of result) → IsBroken subject.now certificate.now target → ⊥ }
{
    let gather = Gather::new(target);
    ask(subject, certificate, gather)
}

// Lowers a certificate at a place and a function where it breaks a flow rule, and says of which
// others more was asked.
fn lower_next(
    subject: &Subject<'_>,
    certificate: &mut Certificate,
    probe: &mut BitRow,
    target: Target,
) -> Result<Target, AllocError>
    requires admitted { IsAdmitted subject.now.script.now subject.now.policy.now subject.now.tree.now subject.now.names.now }
    requires variables { list_all is_variable subject.now.names.now ≡ true }
    requires working { IsOfScript subject.now certificate.old }
    requires breaks { IsBroken subject.now certificate.old target }
    requires probed { probe.old.count ≡ length subject.now.names.now }
    ensures turn { IfOk result (λ next. (loops : List Bool) (functions : ℕ) → IsWorking subject.now.names.now loops functions certificate.old
        → IsTurn subject.now.names.now loops functions (start_of subject.now) (functions_in subject.now.script.now subject.now.tree.now)
        subject.now.stated (asked_bounds subject.now.stated (script_bounds (script_of subject.now.script.now subject.now.tree.now))) certificate.old certificate.new false) }
    ensures probed { IfOk result (λ next. probe.new.count ≡ length subject.now.names.now) }
{
    let gather = asked(subject, certificate, target);
    lower_gathered(subject.names, subject.writable, certificate, probe, &gather)?;
    Ok(gather.next)
}

/// Lowers a certificate where it does not keep all flow rules, and says whether it keeps them. The
/// target is left at a place and a function that more was asked of, if there are any. This is a
/// hint where the next turn begins.
///
/// # Errors
///
/// If a growth was refused.
pub fn turn(
    subject: &Subject<'_>,
    certificate: &mut Certificate,
    probe: &mut BitRow,
    target: &mut Target,
) -> Result<bool, AllocError>
    requires admitted { IsAdmitted subject.now.script.now subject.now.policy.now subject.now.tree.now subject.now.names.now }
    requires variables { list_all is_variable subject.now.names.now ≡ true }
    requires working { IsOfScript subject.now certificate.old }
    requires probed { probe.old.count ≡ length subject.now.names.now }
    ensures turn { IfOk result (λ kept. (loops : List Bool) (functions : ℕ) → IsWorking subject.now.names.now loops functions certificate.old
        → IsTurn subject.now.names.now loops functions (start_of subject.now) (functions_in subject.now.script.now subject.now.tree.now)
        subject.now.stated (asked_bounds subject.now.stated (script_bounds (script_of subject.now.script.now subject.now.tree.now))) certificate.old certificate.new kept) }
    ensures probed { IfOk result (λ kept. probe.new.count ≡ length subject.now.names.now) }
{
    let gather = asked(subject, certificate, *target);
    if gather.kept {
        return Ok(true);
    }
    if lower_gathered(subject.names, subject.writable, certificate, probe, &gather)? {
        *target = gather.next;
        return Ok(false);
    }
    *target = lower_next(subject, certificate, probe, gather.next)?;
    Ok(false)
}
