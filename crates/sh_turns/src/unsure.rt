//! The functions that may be undefined at a call. A utility may run in place of such a function
//! (XCU 2.9.1.4).
ghost use Rattle.std.specs.Prelude.{◌≡◌, ◌-◌, Some, IfOk, IfSome};
ghost use Rattle.sh_domain.specs.Names.{number_of};
ghost use Rattle.sh_drafts.specs.Places.{at};
ghost use Rattle.sh_drafts.specs.declared.place.Part.TheVariants as part;
ghost use Rattle.sh_turns.specs.Counts as spec;
ghost use Rattle.sh_turns.specs.Counts.{AreUnsure, IsUnsure};

use sh_domain::{Certificate, Facts, Names};
use sh_drafts::kept::facts_at;
use sh_drafts::{Part, Place, Subject, fitting};
use sh_table::CallTable;
use std::alloc::{AllocError, Global};

// Whether this function may be undefined, if this is claimed.
#[tactic(auto, unfolding(crate::specs::Counts::may_lack))]
fn may_lack(certificate: &Certificate, names: &Names, function: &[u8], facts: Facts) -> bool
    ensures { result ≡ spec.may_lack names.now certificate.now function.now facts }
{
    match facts {
        Facts::NotReached => false,
        Facts::Known { functions, .. } => match names.number(function) {
            Some(number) => !certificate.rows.has(functions, number),
            None => true,
        },
    }
}

// The place before the command of a number.
#[tactic(auto, unfolding(sh_drafts::specs::Gathered::fitting))]
fn before(number: usize) -> Option<Place>
    ensures { IfSome result (λ place. place ≡ at part.Before (number - 1)) }
{
    let index = fitting(number.saturating_sub(1))?;
    Some(Place {
        part: Part::Before,
        index,
    })
}

// The index of the function of this name, if the script has one.
fn function_of(table: &CallTable<'_>, name: &[u8]) -> Option<u16>
    ensures { IfSome result (λ function. number_of table.now.functions.names name.now ≡ Some function) }
{
    match table.function_place(name) {
        Some(function) => u16::try_from(function).ok(),
        None => None,
    }
}

// The function that the command of a number calls, if it may be undefined there.
#[tactic(auto, using(crate::proofs::CountLemmas::unsure_there))]
fn unsure_at(subject: &Subject<'_>, certificate: &Certificate, number: usize) -> Option<u16>
    ensures { IfSome result (λ function. IsUnsure subject.now certificate.now number function) }
{
    let command = u32::try_from(number).ok()?;
    let name = subject.table.text(command, 0)?;
    let function = function_of(subject.table, name)?;
    let place = before(number)?;
    let claim = facts_at(certificate, place)?;
    if may_lack(certificate, subject.names, name, claim) {
        Some(function)
    } else {
        None
    }
}

/// For each number of a command the function that it calls, if that may be undefined there.
///
/// # Errors
///
/// If a growth was refused.
pub fn unsure_of(
    alloc: Global,
    subject: &Subject<'_>,
    certificate: &Certificate,
) -> Result<Vec<Option<u16>>, AllocError>
    ensures { IfOk result (λ unsure. AreUnsure subject.now certificate.now unsure.items) }
{
    let mut unsure = Vec::new(alloc);
    for number in 0..certificate.entries.len().saturating_add(1) {
        unsure.push(unsure_at(subject, certificate, number))?;
    }
    Ok(unsure)
}
