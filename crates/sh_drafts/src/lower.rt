//! Lowers what a certificate claims at a place to what is known there, or its count alone, and adds
//! to what a function may drop.
ghost use Rattle.std.specs.Prelude.{◌≡◌, ◌<◌, ◌≤◌, ℕ, List, Bool, true, false, length, Some, IfOk};
ghost use Rattle.sh_tree.specs.standard.program.Syntax.{Text};
ghost use Rattle.sh_tree.specs.declared.limits.TheConstants.{MAX_NAMES};
ghost use Rattle.sh_domain.specs.KeptRows.{Stay};
ghost use Rattle.sh_drafts.specs.Facts.{with_args};
ghost use Rattle.sh_drafts.specs.Kept.{seen_of, sight_facts, IsNamed};
ghost use Rattle.sh_domain.specs.declared.certificate.Drops as drops;
ghost use Rattle.sh_drafts.specs.Places.{drops_at};
ghost use Rattle.sh_drafts.specs.Idle.{ClaimStays, CountStays, DropsStay};
ghost use Rattle.sh_drafts.specs.Working.{AreBelow, AreFine, AreWithin, IsCounted, IsLowered, IsWorking, sets_of};
ghost use Rattle.sh_drafts.specs.Writable.{IsWritten, sets_in};

use crate::kept::{drops_of, facts_at, put, put_drops};
use crate::kept_rows::{is_within, keep, meet_facts};
use crate::place::{Part, Place};
use crate::sight::Sight;
use crate::writable::Writable;
use sh_domain::{Certificate, Drops, Facts, Names, NumberSet, RowId, Rows};
use sh_rows::BitRow;
use std::alloc::AllocError;

// What is claimed at an earlier place of the command, or at one of the command before it: a hint.
fn facts_near(certificate: &Certificate, place: Place) -> Facts {
    let index = match place.part {
        Part::Before => place.index.saturating_sub(1),
        _ => place.index,
    };
    let Some(entry) = certificate.entries.get(index as usize) else {
        return Facts::NotReached;
    };
    if place.part == Part::Zero {
        entry.before
    } else {
        entry.zero
    }
}

/// Puts the claim of a place to what it and what is known there both claim; says whether it did. It
/// does so if the place is there and claims more, and what is left names only what a text of a
/// certificate may name.
///
/// # Errors
///
/// If a growth was refused.
pub fn lower(
    names: &Names,
    writable: &Writable,
    certificate: &mut Certificate,
    probe: &mut BitRow,
    place: Place,
    known: &Sight,
) -> Result<bool, AllocError>
    requires few { length names.now ≤ MAX_NAMES }
    requires written { IsWritten names.now (sets_in writable.now.vars writable.now.functions) }
    requires count { certificate.old.rows.count ≡ length names.now }
    requires probed { probe.old.count ≡ length names.now }
    requires named { IsNamed (length names.now) (sight_facts known.now) }
    ensures lowered { IfOk result (λ changed. (loops : List Bool) (functions : ℕ) → IsWorking names.now loops functions certificate.old
        → IsLowered certificate.old certificate.new place (sight_facts known.now) changed) }
    ensures working { IfOk result (λ changed. (loops : List Bool) (functions : ℕ) → IsWorking names.now loops functions certificate.old
        → IsWorking names.now loops functions certificate.new) }
    ensures idle { IfOk result (λ changed. changed ≡ false → ClaimStays certificate.old place (sight_facts known.now) (sets_in writable.now.vars writable.now.functions)) }
    ensures fits { IfOk result (λ changed. ClaimStays certificate.new place (sight_facts known.now) (sets_in writable.now.vars writable.now.functions)) }
    ensures probed { IfOk result (λ changed. probe.new.count ≡ length names.now) }
{
    let Some(facts) = facts_at(certificate, place) else {
        return Ok(false);
    };
    if is_within(&certificate.rows, facts, known) {
        return Ok(false);
    }
    let mut left = *known;
    meet_facts(&certificate.rows, facts, &mut left);
    if !writable.has(&left.vars, &left.functions) {
        return Ok(false);
    }
    let near = facts_near(certificate, place);
    let kept = keep(&mut certificate.rows, probe, &left, facts, near)?;
    put(certificate, place, kept)?;
    Ok(true)
}

/// Lowers the claim of a place if any run comes to it.
///
/// # Errors
///
/// If a growth was refused.
#[tactic(auto, unfolding(crate::specs::Kept::seen_of))]
pub fn lower_known(
    names: &Names,
    writable: &Writable,
    certificate: &mut Certificate,
    probe: &mut BitRow,
    place: Place,
    known: &Option<Sight>,
) -> Result<bool, AllocError>
    requires few { length names.now ≤ MAX_NAMES }
    requires written { IsWritten names.now (sets_in writable.now.vars writable.now.functions) }
    requires count { certificate.old.rows.count ≡ length names.now }
    requires probed { probe.old.count ≡ length names.now }
    requires named { IsNamed (length names.now) (seen_of known.now) }
    ensures lowered { IfOk result (λ changed. (loops : List Bool) (functions : ℕ) → IsWorking names.now loops functions certificate.old
        → IsLowered certificate.old certificate.new place (seen_of known.now) changed) }
    ensures working { IfOk result (λ changed. (loops : List Bool) (functions : ℕ) → IsWorking names.now loops functions certificate.old
        → IsWorking names.now loops functions certificate.new) }
    ensures idle { IfOk result (λ changed. changed ≡ false → ClaimStays certificate.old place (seen_of known.now) (sets_in writable.now.vars writable.now.functions)) }
    ensures fits { IfOk result (λ changed. ClaimStays certificate.new place (seen_of known.now) (sets_in writable.now.vars writable.now.functions)) }
    ensures probed { IfOk result (λ changed. probe.new.count ≡ length names.now) }
{
    match known {
        None => Ok(false),
        Some(sight) => lower(names, writable, certificate, probe, place, sight),
    }
}

/// Puts the count of parameters that is claimed at a place to this one, if that is less; says
/// whether it did. The rows stay, so it takes no memory for them, whatever names they have.
///
/// # Errors
///
/// If a growth was refused.
pub fn lower_args(
    certificate: &mut Certificate,
    place: Place,
    args: u16,
) -> Result<bool, AllocError>
    ensures lowered { IfOk result (λ changed. (names : List Text) (loops : List Bool) (functions : ℕ) → IsWorking names loops functions certificate.old
        → IsLowered certificate.old certificate.new place (with_args args) changed) }
    ensures working { IfOk result (λ changed. (names : List Text) (loops : List Bool) (functions : ℕ) → IsWorking names loops functions certificate.old
        → IsWorking names loops functions certificate.new) }
    ensures fits { IfOk result (λ changed. CountStays certificate.new place args) }
{
    let Some(facts) = facts_at(certificate, place) else {
        return Ok(false);
    };
    match facts {
        Facts::NotReached => Ok(false),
        Facts::Known {
            vars,
            functions,
            args: claimed,
        } => {
            if claimed <= args {
                return Ok(false);
            }
            let fewer = Facts::Known {
                vars,
                functions,
                args,
            };
            put(certificate, place, fewer)?;
            Ok(true)
        }
    }
}

// Whether these may be dropped.
fn are_in_rows(rows: &Rows, drops: Drops, vars: &NumberSet, functions: &NumberSet) -> bool
    requires { rows.now.count ≤ MAX_NAMES }
    ensures all { AreWithin (sets_in vars.now functions.now) (sets_of rows.now drops) → result ≡ true }
    ensures there { result ≡ true → AreWithin (sets_in vars.now functions.now) (sets_of rows.now drops) }
{
    vars.is_in_row(rows, drops.vars) && functions.is_in_row(rows, drops.functions)
}

// The places of rows of these variables and these functions. A row that is not there is added. The
// rows of the drops so far are compared first.
fn keep_drops(
    rows: &mut Rows,
    probe: &mut BitRow,
    vars: NumberSet,
    functions: NumberSet,
    kept: Drops,
) -> Result<Drops, AllocError>
    requires probed { probe.old.count ≡ rows.old.count }
    requires below { AreBelow rows.old.count (sets_in vars functions) }
    ensures stay { Stay rows.old.rows rows.new.rows }
    ensures count { rows.new.count ≡ rows.old.count }
    ensures probed { probe.new.count ≡ probe.old.count }
    ensures vars { IfOk result (λ d. d.vars.index < length rows.new.rows) }
    ensures functions { IfOk result (λ d. d.functions.index < length rows.new.rows) }
    ensures sets { IfOk result (λ d. sets_of rows.new d ≡ sets_in vars functions) }
{
    let sight = Sight {
        vars,
        functions,
        args: 0,
    };
    let near = Facts::Known {
        vars: kept.vars,
        functions: kept.functions,
        args: 0,
    };
    match keep(rows, probe, &sight, near, near)? {
        Facts::NotReached => unreachable!(),
        Facts::Known {
            vars,
            functions,
            ..
        } => Ok(Drops { vars, functions }),
    }
}

/// Lets the function of an index drop these variables and these functions too; says whether it did.
/// It does so if the function is there and may not yet, and a text of a certificate may name them.
///
/// # Errors
///
/// If a growth was refused.
pub fn add_drops(
    names: &Names,
    writable: &Writable,
    certificate: &mut Certificate,
    probe: &mut BitRow,
    index: u16,
    vars: &NumberSet,
    functions: &NumberSet,
) -> Result<bool, AllocError>
    requires few { length names.now ≤ MAX_NAMES }
    requires written { IsWritten names.now (sets_in writable.now.vars writable.now.functions) }
    requires count { certificate.old.rows.count ≡ length names.now }
    requires probed { probe.old.count ≡ length names.now }
    requires below { AreBelow (length names.now) (sets_in vars.now functions.now) }
    requires fine { (d : drops.Drops) → drops_at certificate.old index ≡ Some d → AreFine names.now certificate.old.rows d }
    ensures counted { IfOk result (λ changed. (loops : List Bool) (defined : ℕ) → IsWorking names.now loops defined certificate.old → IsCounted certificate.old certificate.new index (sets_in vars.now functions.now) changed) }
    ensures working { IfOk result (λ changed. (loops : List Bool) (defined : ℕ) → IsWorking names.now loops defined certificate.old → IsWorking names.now loops defined certificate.new) }
    ensures idle { IfOk result (λ changed. changed ≡ false → DropsStay certificate.old index (sets_in vars.now functions.now) (sets_in writable.now.vars writable.now.functions)) }
    ensures fits { IfOk result (λ changed. DropsStay certificate.new index (sets_in vars.now functions.now) (sets_in writable.now.vars writable.now.functions)) }
    ensures probed { IfOk result (λ changed. probe.new.count ≡ length names.now) }
{
    let Some(drops) = drops_of(certificate, index) else {
        return Ok(false);
    };
    if are_in_rows(&certificate.rows, drops, vars, functions) {
        return Ok(false);
    }
    let mut vars = *vars;
    let mut functions = *functions;
    vars.join_row(&certificate.rows, drops.vars);
    functions.join_row(&certificate.rows, drops.functions);
    if !writable.has(&vars, &functions) {
        return Ok(false);
    }
    let kept = keep_drops(&mut certificate.rows, probe, vars, functions, drops)?;
    put_drops(certificate, index, kept);
    Ok(true)
}
