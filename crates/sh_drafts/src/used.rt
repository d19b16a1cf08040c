//! Drops the rows of a certificate that no claim has any more.
ghost use Rattle.std.specs.Prelude.{◌≡◌, length, Some, slice_get, IfOk, IfSome, OnOk};
ghost use Rattle.sh_drafts.specs.Used.{AreDone, DropsMoved, EntryMoved, FunctionMoved, HeadMoved, IsMoved, IsNoted, IsRow, IsSame, IsUsed};

use crate::draft::{Draft, room_after};
use crate::first::no_names;
use indexmap::IndexMap;
use sh_domain::{Certificate, Drops, Entry, Facts, FunctionEntry, RowId, Rows};
use std::alloc::{AllocError, Global};

// The rows in use so far. By the index of each row that there was, its place among these.
#[derive(Drop)]
pub struct Used {
    alloc: Global,
    rows: Rows,
    places: Vec<Option<RowId>>,
}

// No row is in use yet.
fn none_used(alloc: Global, rows: &Rows) -> Result<Used, AllocError>
    ensures { IfOk result (λ used. IsNoted rows.now used) }
{
    let places = vec![in alloc; None; rows.len()]?;
    Ok(Used {
        alloc,
        rows: Rows::new(alloc, rows.count(), rows.hash()),
        places,
    })
}

// The place of a row among those in use, if it is there.
fn place_of(used: &Used, id: RowId) -> Option<RowId>
    ensures { IfSome result (λ place. slice_get used.now.places.items id.index ≡ Some (Some place)) }
{
    match used.places.get(id.index) {
        Some(place) => *place,
        None => None,
    }
}

// Adds a row to those in use. One that there was not has no names.
fn add_row(used: &mut Used, rows: &Rows, id: RowId) -> Result<RowId, AllocError>
    requires { IsNoted rows.now used.old }
    ensures used { IfOk result (λ place. IsUsed rows.now used.old used.new) }
    ensures moved { IfOk result (λ place. IsRow rows.now.rows used.new.rows.rows id place) }
{
    let Some(row) = rows.row(id) else {
        let none = no_names(used.alloc, &mut used.rows, rows.count())?;
        return Ok(none);
    };
    let place = used.rows.intern(row)?;
    used.places[id.index] = Some(place);
    Ok(place)
}

// The place of a row among those in use, to which it is added.
fn use_row(used: &mut Used, rows: &Rows, id: RowId) -> Result<RowId, AllocError>
    requires { IsNoted rows.now used.old }
    ensures used { IfOk result (λ place. IsUsed rows.now used.old used.new) }
    ensures moved { IfOk result (λ place. IsRow rows.now.rows used.new.rows.rows id place) }
{
    match place_of(&*used, id) {
        Some(place) => Ok(place),
        None => add_row(used, rows, id),
    }
}

fn use_facts(used: &mut Used, rows: &Rows, facts: Facts) -> Result<Facts, AllocError>
    requires { IsNoted rows.now used.old }
    ensures used { IfOk result (λ f. IsUsed rows.now used.old used.new) }
    ensures moved { IfOk result (λ f. IsMoved rows.now.rows used.new.rows.rows facts f) }
{
    match facts {
        Facts::NotReached => Ok(Facts::NotReached),
        Facts::Known {
            vars,
            functions,
            args,
        } => {
            let vars = use_row(used, rows, vars)?;
            let functions = use_row(used, rows, functions)?;
            Ok(Facts::Known {
                vars,
                functions,
                args,
            })
        }
    }
}

fn use_entry(used: &mut Used, rows: &Rows, entry: Entry) -> Result<Entry, AllocError>
    requires { IsNoted rows.now used.old }
    ensures used { IfOk result (λ e. IsUsed rows.now used.old used.new) }
    ensures moved { IfOk result (λ e. EntryMoved rows.now.rows used.new.rows.rows entry e) }
{
    let before = use_facts(used, rows, entry.before)?;
    let zero = use_facts(used, rows, entry.zero)?;
    let nonzero = use_facts(used, rows, entry.nonzero)?;
    Ok(Entry {
        before,
        zero,
        nonzero,
    })
}

fn use_drops(used: &mut Used, rows: &Rows, drops: Drops) -> Result<Drops, AllocError>
    requires { IsNoted rows.now used.old }
    ensures used { IfOk result (λ d. IsUsed rows.now used.old used.new) }
    ensures moved { IfOk result (λ d. DropsMoved rows.now.rows used.new.rows.rows drops d) }
{
    let vars = use_row(used, rows, drops.vars)?;
    let functions = use_row(used, rows, drops.functions)?;
    Ok(Drops { vars, functions })
}

fn use_function(
    used: &mut Used,
    rows: &Rows,
    entry: FunctionEntry,
) -> Result<FunctionEntry, AllocError>
    requires { IsNoted rows.now used.old }
    ensures used { IfOk result (λ e. IsUsed rows.now used.old used.new) }
    ensures moved { IfOk result (λ e. FunctionMoved rows.now.rows used.new.rows.rows entry e) }
{
    let before = use_facts(used, rows, entry.before)?;
    let drops = use_drops(used, rows, entry.drops)?;
    let zero = use_facts(used, rows, entry.zero)?;
    let nonzero = use_facts(used, rows, entry.nonzero)?;
    Ok(FunctionEntry {
        before,
        drops,
        zero,
        nonzero,
    })
}

fn use_entries(used: &mut Used, rows: &Rows, entries: &mut Vec<Entry>) -> Result<(), AllocError>
    requires { IsNoted rows.now used.old }
    ensures used { OnOk result (IsUsed rows.now used.old used.new) }
    ensures moved { OnOk result (AreDone (EntryMoved rows.now.rows used.new.rows.rows) (length entries.old.items) entries.old.items entries.new.items) }
{
    for index in 0..entries.len() {
        let entry = use_entry(used, rows, entries[index])?;
        entries[index] = entry;
    }
    Ok(())
}

fn use_heads(
    used: &mut Used,
    rows: &Rows,
    heads: &mut IndexMap<u32, Facts>,
) -> Result<(), AllocError>
    requires { IsNoted rows.now used.old }
    ensures used { OnOk result (IsUsed rows.now used.old used.new) }
    ensures moved { OnOk result (AreDone (HeadMoved rows.now.rows used.new.rows.rows) (length heads.old.entries) heads.old.entries heads.new.entries) }
{
    for index in 0..heads.len() {
        let facts = use_facts(used, rows, heads[index])?;
        heads[index] = facts;
    }
    Ok(())
}

fn use_functions(
    used: &mut Used,
    rows: &Rows,
    functions: &mut Vec<FunctionEntry>,
) -> Result<(), AllocError>
    requires { IsNoted rows.now used.old }
    ensures used { OnOk result (IsUsed rows.now used.old used.new) }
    ensures moved { OnOk result (AreDone (FunctionMoved rows.now.rows used.new.rows.rows) (length functions.old.items) functions.old.items functions.new.items) }
{
    for index in 0..functions.len() {
        let entry = use_function(used, rows, functions[index])?;
        functions[index] = entry;
    }
    Ok(())
}

// Drops the rows that no claim has.
fn keep_used(alloc: Global, certificate: &mut Certificate) -> Result<(), AllocError>
    ensures { OnOk result (IsSame certificate.old certificate.new) }
{
    let mut used = none_used(alloc, &certificate.rows)?;
    use_entries(&mut used, &certificate.rows, &mut certificate.entries)?;
    use_heads(&mut used, &certificate.rows, &mut certificate.heads)?;
    use_functions(&mut used, &certificate.rows, &mut certificate.functions)?;
    certificate.rows = used.rows;
    Ok(())
}

/// Drops the rows that no claim has any more, if there is no room for more rows. All claims stay.
/// When it does so is a hint.
///
/// # Errors
///
/// If a growth was refused.
#[tactic(auto, using(crate::proofs::UsedLemmas::same_again))]
pub fn drop_unused(draft: &mut Draft) -> Result<(), AllocError>
    ensures same { OnOk result (IsSame draft.old.certificate draft.new.certificate) }
    ensures probe { draft.new.probe ≡ draft.old.probe }
{
    if draft.certificate.rows.len() <= draft.room {
        return Ok(());
    }
    keep_used(draft.alloc, &mut draft.certificate)?;
    draft.room = room_after(
        draft.certificate.rows.len(),
        draft.certificate.entries.len(),
    );
    Ok(())
}
