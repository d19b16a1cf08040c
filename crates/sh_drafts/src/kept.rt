//! What a certificate has at a place.
ghost use Rattle.std.specs.Prelude.{◌≡◌, ◌<◌, true, length, is_some, OnOk};
ghost use Rattle.sh_drafts.specs.Places as spec;

use crate::place::{Part, Place};
use sh_domain::{Certificate, Drops, Entry, Facts, FunctionEntry};
use std::alloc::AllocError;

// A part of what is claimed of a command.
#[tactic(auto, unfolding(crate::specs::Places::entry_part))]
fn entry_part(entry: &Entry, part: Part) -> Option<Facts>
    ensures { result ≡ spec.entry_part entry.now part }
{
    match part {
        Part::Before => Some(entry.before),
        Part::Zero => Some(entry.zero),
        Part::Nonzero => Some(entry.nonzero),
        Part::Head => None,
        Part::Entered => None,
        Part::ReturnZero => None,
        Part::ReturnNonzero => None,
    }
}

/// A part of what is claimed of a function.
#[tactic(auto, unfolding(crate::specs::Places::function_part))]
pub fn function_part(entry: &FunctionEntry, part: Part) -> Option<Facts>
    ensures { result ≡ spec.function_part entry.now part }
{
    match part {
        Part::Entered => Some(entry.before),
        Part::ReturnZero => Some(entry.zero),
        Part::ReturnNonzero => Some(entry.nonzero),
        Part::Before => None,
        Part::Zero => None,
        Part::Nonzero => None,
        Part::Head => None,
    }
}

// With this fact in its part.
#[tactic(auto, unfolding(crate::specs::Places::entry_with))]
fn entry_with(mut entry: Entry, part: Part, facts: Facts) -> Entry
    ensures { result ≡ spec.entry_with part facts entry }
{
    match part {
        Part::Before => entry.before = facts,
        Part::Zero => entry.zero = facts,
        Part::Nonzero => entry.nonzero = facts,
        Part::Head => (),
        Part::Entered => (),
        Part::ReturnZero => (),
        Part::ReturnNonzero => (),
    }
    entry
}

#[tactic(auto, unfolding(crate::specs::Places::function_with))]
fn function_with(mut entry: FunctionEntry, part: Part, facts: Facts) -> FunctionEntry
    ensures { result ≡ spec.function_with part facts entry }
{
    match part {
        Part::Entered => entry.before = facts,
        Part::ReturnZero => entry.zero = facts,
        Part::ReturnNonzero => entry.nonzero = facts,
        Part::Before => (),
        Part::Zero => (),
        Part::Nonzero => (),
        Part::Head => (),
    }
    entry
}

/// The facts at a place, if it is there.
#[tactic(auto, unfolding(crate::specs::Places::kept_at))]
pub fn facts_at(certificate: &Certificate, place: Place) -> Option<Facts>
    ensures { result ≡ spec.kept_at certificate.now place }
{
    let index = place.index as usize;
    if place.part.is_of_command() {
        let entry = certificate.entries.get(index)?;
        return entry_part(entry, place.part);
    }
    if place.part.is_of_function() {
        let entry = certificate.functions.get(index)?;
        return function_part(entry, place.part);
    }
    let facts = certificate.heads.get(&(place.index as u32 + 1))?;
    Some(*facts)
}

/// What the function of an index may drop, if it is there.
pub fn drops_of(certificate: &Certificate, index: u16) -> Option<Drops>
    ensures { result ≡ spec.drops_at certificate.now index }
{
    let entry = certificate.functions.get(index as usize)?;
    Some(entry.drops)
}

fn put_entry(entries: &mut Vec<Entry>, index: usize, part: Part, facts: Facts)
    requires { index < length entries.old.items }
    ensures { spec.EntryPut entries.old.items entries.new.items index part facts }
{
    let entry = entry_with(entries[index], part, facts);
    entries[index] = entry;
}

fn put_function(entries: &mut Vec<FunctionEntry>, index: usize, part: Part, facts: Facts)
    requires { index < length entries.old.items }
    ensures { spec.FunctionPut entries.old.items entries.new.items index part facts }
{
    let entry = function_with(entries[index], part, facts);
    entries[index] = entry;
}

/// Puts facts at a place that is there.
///
/// # Errors
///
/// If a growth was refused.
pub fn put(certificate: &mut Certificate, place: Place, facts: Facts) -> Result<(), AllocError>
    requires { is_some (spec.kept_at certificate.old place) ≡ true }
    ensures { OnOk result (spec.IsPut certificate.old certificate.new place facts) }
{
    let index = place.index as usize;
    if place.part.is_of_command() {
        put_entry(&mut certificate.entries, index, place.part, facts);
    } else if place.part.is_of_function() {
        put_function(&mut certificate.functions, index, place.part, facts);
    } else {
        certificate.heads.insert(place.index as u32 + 1, facts)?;
    }
    Ok(())
}

/// Puts what a function may drop, if it is there.
pub fn put_drops(certificate: &mut Certificate, index: u16, drops: Drops)
    requires { is_some (spec.drops_at certificate.old index) ≡ true }
    ensures { spec.IsDropped certificate.old certificate.new index drops }
{
    let index = index as usize;
    let mut entry = certificate.functions[index];
    entry.drops = drops;
    certificate.functions[index] = entry;
}
