//! The certificate that claims what is stated, and everything elsewhere.
ghost use Rattle.std.specs.Prelude.{◌≡◌, ◌<◌, ◌≤◌, ◌+◌, ◌||◌, ℕ, List, Bool, true, false, length, Some, None, IfOk};
ghost use Rattle.sh_tree.specs.declared.limits.TheConstants.{MAX_NAMES};
ghost use Rattle.sh_domain.specs.Admitted.{IsAdmitted};
ghost use Rattle.sh_domain.specs.KeptRows.{holds_at};
ghost use Rattle.sh_domain.specs.Reading.{loops_of};
ghost use Rattle.sh_domain.specs.declared.certificate.Certificate as certificate;
ghost use Rattle.sh_domain.specs.NumberSets.{numbers_of};
ghost use Rattle.sh_drafts.specs.Begun.{HasStated, IsBegun, IsBegunAt, IsStateable, functions_below, heads_below, stated_at};
ghost use Rattle.sh_drafts.specs.Kept.{IsNamed, fact_of, seen_of};
ghost use Rattle.sh_drafts.specs.Places as spec;
ghost use Rattle.sh_drafts.specs.Working.{IsWorking};
ghost use Rattle.sh_drafts.specs.declared.place.Place as places;

use crate::first::unreached;
use crate::kept::function_part;
use crate::lower::{add_drops, lower_known};
use crate::place::{Part, Place};
use crate::sight::Sight;
use crate::subject::Subject;
use sh_domain::{Certificate, Compact, Facts, NumberSet, RowId, Rows};
use sh_rows::BitRow;
use std::alloc::{AllocError, Global};

// The numbers of a row.
fn numbers_in(rows: &Rows, id: RowId) -> NumberSet
    requires { rows.now.count ≤ MAX_NAMES }
    ensures same { (k : ℕ) → numbers_of result k ≡ holds_at rows.now.rows id.index k }
    ensures below { (k : ℕ) → numbers_of result k ≡ true → k < rows.now.count }
{
    let mut set = NumberSet::new();
    match rows.row(id) {
        Some(_row) => set.join_row(rows, id),
        None => {}
    }
    set
}

// What is seen where facts hold, if any run comes there.
#[tactic(auto, unfolding(crate::specs::Kept::fact_of, crate::specs::Kept::seen_of))]
fn sight_by(rows: &Rows, facts: Facts) -> Option<Sight>
    requires { rows.now.count ≤ MAX_NAMES }
    ensures seen { seen_of result ≡ fact_of rows.now.rows facts }
    ensures named { IsNamed rows.now.count (seen_of result) }
{
    match facts {
        Facts::NotReached => None,
        Facts::Known {
            vars,
            functions,
            args,
        } => {
            let vars = numbers_in(rows, vars);
            let functions = numbers_in(rows, functions);
            Some(Sight {
                vars,
                functions,
                args,
            })
        }
    }
}

// The facts that are stated at a place, if any are.
#[tactic(auto, unfolding(crate::specs::Begun::stated_at))]
fn stated_at(compact: &Compact, place: Place) -> Option<Facts>
    ensures { result ≡ stated_at compact.now place }
{
    if place.part.is_of_function() {
        let entry = compact.functions.get(place.index as usize)?;
        return function_part(entry, place.part);
    }
    if place.part.is_of_command() || place.index as u32 >= compact.commands {
        return None;
    }
    let facts = compact.heads.get(&(place.index as u32 + 1))?;
    Some(*facts)
}

// Claims what is stated at a place.
fn state(
    subject: &Subject<'_>,
    certificate: &mut Certificate,
    probe: &mut BitRow,
    place: Place,
) -> Result<(), AllocError>
    requires admitted { IsAdmitted subject.now.script.now subject.now.policy.now subject.now.tree.now subject.now.names.now }
    requires working { (loops : List Bool) × (functions : ℕ) × IsWorking subject.now.names.now loops functions certificate.old }
    requires probed { probe.old.count ≡ length subject.now.names.now }
    requires sized { subject.now.compact.now.rows.count ≡ length subject.now.names.now }
    requires stateable { IsStateable subject.now.names.now subject.now.compact.now }
    requires stated { spec.is_stated_part place.part ≡ true }
    ensures begun { IfOk result (λ unit. (done : places.Place → Bool) (first : ℕ) → done place ≡ false → IsBegunAt subject.now.compact.now done first certificate.old
        → IsBegunAt subject.now.compact.now (λ q. spec.same q place || done q) first certificate.new) }
    ensures working { IfOk result (λ unit. (loops : List Bool) (functions : ℕ) → IsWorking subject.now.names.now loops functions certificate.old
        → IsWorking subject.now.names.now loops functions certificate.new) }
    ensures probed { IfOk result (λ unit. probe.new.count ≡ length subject.now.names.now) }
{
    let Some(facts) = stated_at(subject.compact, place) else {
        return Ok(());
    };
    let known = sight_by(&subject.compact.rows, facts);
    lower_known(
        subject.names,
        subject.writable,
        certificate,
        probe,
        place,
        &known,
    )?;
    Ok(())
}

// Has the function of an index drop what is stated.
fn state_drops(
    subject: &Subject<'_>,
    certificate: &mut Certificate,
    probe: &mut BitRow,
    index: u16,
) -> Result<(), AllocError>
    requires admitted { IsAdmitted subject.now.script.now subject.now.policy.now subject.now.tree.now subject.now.names.now }
    requires working { (loops : List Bool) × (functions : ℕ) × IsWorking subject.now.names.now loops functions certificate.old }
    requires probed { probe.old.count ≡ length subject.now.names.now }
    requires sized { subject.now.compact.now.rows.count ≡ length subject.now.names.now }
    requires stateable { IsStateable subject.now.names.now subject.now.compact.now }
    ensures begun { IfOk result (λ unit. (done : places.Place → Bool) → IsBegunAt subject.now.compact.now done index certificate.old → IsBegunAt subject.now.compact.now done (index + 1) certificate.new) }
    ensures working { IfOk result (λ unit. (loops : List Bool) (functions : ℕ) → IsWorking subject.now.names.now loops functions certificate.old
        → IsWorking subject.now.names.now loops functions certificate.new) }
    ensures probed { IfOk result (λ unit. probe.new.count ≡ length subject.now.names.now) }
{
    let Some(entry) = subject.compact.functions.get(index as usize) else {
        return Ok(());
    };
    let vars = numbers_in(&subject.compact.rows, entry.drops.vars);
    let functions = numbers_in(&subject.compact.rows, entry.drops.functions);
    add_drops(
        subject.names,
        subject.writable,
        certificate,
        probe,
        index,
        &vars,
        &functions,
    )?;
    Ok(())
}

// Claims what is stated at the turns of loops.
fn state_heads(
    subject: &Subject<'_>,
    certificate: &mut Certificate,
    probe: &mut BitRow,
    commands: u16,
) -> Result<(), AllocError>
    requires admitted { IsAdmitted subject.now.script.now subject.now.policy.now subject.now.tree.now subject.now.names.now }
    requires working { (loops : List Bool) × (functions : ℕ) × IsWorking subject.now.names.now loops functions certificate.old }
    requires probed { probe.old.count ≡ length subject.now.names.now }
    requires sized { subject.now.compact.now.rows.count ≡ length subject.now.names.now }
    requires stateable { IsStateable subject.now.names.now subject.now.compact.now }
    requires begun { IsBegunAt subject.now.compact.now (heads_below 0) 0 certificate.old }
    ensures begun { IfOk result (λ unit. IsBegunAt subject.now.compact.now (heads_below commands) 0 certificate.new) }
    ensures working { IfOk result (λ unit. (loops : List Bool) (functions : ℕ) → IsWorking subject.now.names.now loops functions certificate.old
        → IsWorking subject.now.names.now loops functions certificate.new) }
    ensures probed { IfOk result (λ unit. probe.new.count ≡ length subject.now.names.now) }
{
    for index in 0..commands {
        let part = Part::Head;
        state(subject, certificate, probe, Place { part, index })?;
    }
    Ok(())
}

// Claims what is stated round the function of an index, and has it drop what is stated.
fn state_function(
    subject: &Subject<'_>,
    certificate: &mut Certificate,
    probe: &mut BitRow,
    index: u16,
) -> Result<(), AllocError>
    requires admitted { IsAdmitted subject.now.script.now subject.now.policy.now subject.now.tree.now subject.now.names.now }
    requires working { (loops : List Bool) × (functions : ℕ) × IsWorking subject.now.names.now loops functions certificate.old }
    requires probed { probe.old.count ≡ length subject.now.names.now }
    requires sized { subject.now.compact.now.rows.count ≡ length subject.now.names.now }
    requires stateable { IsStateable subject.now.names.now subject.now.compact.now }
    ensures begun { IfOk result (λ unit. IsBegunAt subject.now.compact.now (functions_below index) index certificate.old → IsBegunAt subject.now.compact.now (functions_below (index + 1)) (index + 1) certificate.new) }
    ensures working { IfOk result (λ unit. (loops : List Bool) (functions : ℕ) → IsWorking subject.now.names.now loops functions certificate.old
        → IsWorking subject.now.names.now loops functions certificate.new) }
    ensures probed { IfOk result (λ unit. probe.new.count ≡ length subject.now.names.now) }
{
    let entered = Place {
        part: Part::Entered,
        index,
    };
    state(subject, certificate, probe, entered)?;
    let zero = Place {
        part: Part::ReturnZero,
        index,
    };
    state(subject, certificate, probe, zero)?;
    let nonzero = Place {
        part: Part::ReturnNonzero,
        index,
    };
    state(subject, certificate, probe, nonzero)?;
    state_drops(subject, certificate, probe, index)?;
    Ok(())
}

// Claims what is stated round functions, and has them drop what is stated.
fn state_functions(
    subject: &Subject<'_>,
    certificate: &mut Certificate,
    probe: &mut BitRow,
    functions: u16,
) -> Result<(), AllocError>
    requires admitted { IsAdmitted subject.now.script.now subject.now.policy.now subject.now.tree.now subject.now.names.now }
    requires working { (loops : List Bool) × (functions : ℕ) × IsWorking subject.now.names.now loops functions certificate.old }
    requires probed { probe.old.count ≡ length subject.now.names.now }
    requires sized { subject.now.compact.now.rows.count ≡ length subject.now.names.now }
    requires stateable { IsStateable subject.now.names.now subject.now.compact.now }
    requires begun { IsBegunAt subject.now.compact.now (functions_below 0) 0 certificate.old }
    ensures begun { IfOk result (λ unit. IsBegunAt subject.now.compact.now (functions_below functions) functions certificate.new) }
    ensures working { IfOk result (λ unit. (loops : List Bool) (functions : ℕ) → IsWorking subject.now.names.now loops functions certificate.old
        → IsWorking subject.now.names.now loops functions certificate.new) }
    ensures probed { IfOk result (λ unit. probe.new.count ≡ length subject.now.names.now) }
{
    for index in 0..functions {
        state_function(subject, certificate, probe, index)?;
    }
    Ok(())
}

/// The certificate that claims what is stated, and everything elsewhere.
///
/// # Errors
///
/// If a growth was refused.
pub fn begun(
    alloc: Global,
    subject: &Subject<'_>,
    probe: &mut BitRow,
    commands: u16,
    functions: u16,
) -> Result<Certificate, AllocError>
    requires admitted { IsAdmitted subject.now.script.now subject.now.policy.now subject.now.tree.now subject.now.names.now }
    requires probed { probe.old.count ≡ length subject.now.names.now }
    requires sized { subject.now.compact.now.rows.count ≡ length subject.now.names.now }
    requires stateable { IsStateable subject.now.names.now subject.now.compact.now }
    requires commands { length subject.now.commands.now ≡ commands }
    requires counted { subject.now.compact.now.commands ≡ commands }
    requires has { (c : certificate.Certificate) → IsWorking subject.now.names.now (loops_of subject.now.commands.now) functions c → HasStated subject.now.compact.now c }
    requires functions { length subject.now.compact.now.functions.items ≡ functions }
    ensures begun { IfOk result (λ c. IsBegun subject.now.compact.now c) }
    ensures working { IfOk result (λ c. IsWorking subject.now.names.now (loops_of subject.now.commands.now) functions c) }
    ensures probed { IfOk result (λ c. probe.new.count ≡ length subject.now.names.now) }
{
    let count = subject.names.count();
    let hash = subject.compact.rows.hash();
    let mut certificate = unreached(alloc, count, hash, subject.commands, functions as usize)?;
    state_heads(subject, &mut certificate, probe, commands)?;
    state_functions(subject, &mut certificate, probe, functions)?;
    Ok(certificate)
}
