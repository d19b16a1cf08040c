//! The compact certificate of a certificate.
ghost use Rattle.std.specs.Prelude.{◌≡◌, ◌≤◌, ◌<◌, ◌^◌, ◌++◌, ℕ, nat_eq, false, List, [], length, map, None, option_map, IfOk, OnOk};
ghost use Rattle.std.specs.Option.{option_copied};
ghost use Rattle.indexmap.specs.IndexMap.{get};
ghost use Rattle.sh_tree.specs.declared.limits.TheConstants.{MAX_NAMES};
ghost use Rattle.sh_tree.specs.standard.program.Syntax.{Text};
ghost use Rattle.sh_domain.specs.Certificates.{claim_of, commands_from, drops_of, function_claims, in_byte_order, names_at, sheet_of};
ghost use Rattle.sh_domain.specs.Compacts.{compact_claims, compact_of_sheet, known_claim, names_among, turns_from, turns_of, with_turn};
ghost use Rattle.sh_domain.specs.Knowledge.{among, knowledge_facts};
ghost use Rattle.sh_domain.specs.Facts.{start_facts};
ghost use Rattle.sh_facts.specs.Compacting.{Keeps};

use crate::compact_reading::put_last;
use indexmap::IndexMap;
use sh_domain::{
    Certificate, Compact, Drops, Facts, FunctionEntry, Knowledge, Names, NumberSet, Policy, RowId,
    Rows,
};
use sh_rows::{BitRow, Row};
use std::alloc::{AllocError, Global};

/// What is known where a script starts, of its names.
pub fn start_of(names: &Names, policy: &Policy) -> Knowledge
    ensures { knowledge_facts names.now result ≡ among names.now (start_facts policy.now) }
{
    Knowledge::start(names, policy)
}

/// The compact certificate that states what a certificate claims at the heads of loops and round
/// functions, with what is known at the start.
///
/// # Errors
///
/// If a growth was refused.
pub fn compact_of(
    alloc: Global,
    certificate: &Certificate,
    start: &Knowledge,
) -> Result<Compact, AllocError>
    requires few { certificate.now.rows.count ≤ MAX_NAMES }
    requires commands { length certificate.now.entries.items < 2 ^ 32 }
    ensures sheet { IfOk result (λ c. (names : List Text) → length names ≡ certificate.now.rows.count
        → compact_claims (in_byte_order names) c ≡ compact_of_sheet (known_claim (in_byte_order names) start.now) (sheet_of (in_byte_order names) certificate.now)) }
    ensures sized { IfOk result (λ c. c.rows.count ≡ certificate.now.rows.count) }
{
    let mut rows = Rows::new(alloc, certificate.rows.count(), certificate.rows.hash());
    let start = keep_known(alloc, &mut rows, start)?;
    let heads = keep_heads(alloc, &mut rows, certificate)?;
    let functions = keep_functions(alloc, &mut rows, certificate)?;
    Ok(Compact {
        commands: certificate.entries.len() as u32,
        start,
        rows,
        heads,
        functions,
    })
}

// What is known, of the names that the rows may have.
fn keep_known(alloc: Global, rows: &mut Rows, known: &Knowledge) -> Result<Facts, AllocError>
    requires { rows.old.count ≤ MAX_NAMES }
    ensures { IfOk result (λ f. Keeps rows.old rows.new (λ later. (names : List Text) → length names ≡ rows.old.count
        → claim_of (in_byte_order names) later f ≡ known_claim (in_byte_order names) known.now)) }
{
    match known {
        Knowledge::NotReached => Ok(Facts::NotReached),
        Knowledge::Known(assured) => Ok(Facts::Known {
            vars: keep_set(alloc, rows, assured.vars())?,
            functions: keep_set(alloc, rows, assured.functions())?,
            args: assured.args(),
        }),
    }
}

// The row of these numbers, of those that are below the count.
fn keep_set(alloc: Global, rows: &mut Rows, numbers: &NumberSet) -> Result<RowId, AllocError>
    requires { rows.old.count ≤ MAX_NAMES }
    ensures { IfOk result (λ id. Keeps rows.old rows.new (λ later. (names : List Text) → length names ≡ rows.old.count
        → names_at (in_byte_order names) later id ≡ names_among (in_byte_order names) numbers.now)) }
{
    let mut named = NumberSet::below(rows.count());
    named.meet(numbers);
    let mut row = BitRow::empty(alloc, rows.count())?;
    row.copy_from(named.words());
    let kept = rows.intern(&row)?;
    Ok(kept)
}

// The facts at the head of each loop, by rising numbers.
fn keep_heads(
    alloc: Global,
    rows: &mut Rows,
    certificate: &Certificate,
) -> Result<IndexMap<u32, Facts>, AllocError>
    requires sized { rows.old.count ≡ certificate.now.rows.count }
    requires few { length certificate.now.entries.items < 2 ^ 32 }
    ensures { IfOk result (λ hs. Keeps rows.old rows.new (λ later. (order : List (ℕ × Text))
        → turns_of order later hs.entries ≡ turns_from 1 (commands_from order certificate.now 1 certificate.now.entries.items))) }
{
    let mut heads = IndexMap::new(alloc);
    let count = certificate.entries.len() as u32;
    for done in 0..count {
        let head = certificate.head(done + 1);
        keep_head(alloc, rows, &mut heads, &certificate.rows, done + 1, head)?;
    }
    Ok(heads)
}

// The facts at the head of a command, if it is a loop, after the others.
fn keep_head(
    alloc: Global,
    rows: &mut Rows,
    heads: &mut IndexMap<u32, Facts>,
    from: &Rows,
    number: u32,
    head: Option<&Facts>,
) -> Result<(), AllocError>
    requires sized { rows.old.count ≡ from.now.count }
    requires last { get nat_eq heads.old number ≡ None }
    ensures kept { OnOk result (Keeps rows.old rows.new (λ later. (order : List (ℕ × Text)) → turns_of order later heads.new.entries
        ≡ turns_of order later heads.old.entries ++ with_turn number (option_map (claim_of order from.now) (option_copied head.entry)) [])) }
    ensures others { OnOk result ((k : ℕ) → nat_eq number k ≡ false → get nat_eq heads.new k ≡ get nat_eq heads.old k) }
{
    match head {
        Some(facts) => {
            let kept = keep_facts(alloc, rows, from, *facts)?;
            put_last(heads, number, kept)?;
            Ok(())
        }
        None => Ok(()),
    }
}

fn keep_functions(
    alloc: Global,
    rows: &mut Rows,
    certificate: &Certificate,
) -> Result<Vec<FunctionEntry>, AllocError>
    requires { rows.old.count ≡ certificate.now.rows.count }
    ensures { IfOk result (λ es. Keeps rows.old rows.new (λ later. (order : List (ℕ × Text))
        → map (function_claims order later) es.items ≡ map (function_claims order certificate.now.rows) certificate.now.functions.items)) }
{
    let mut entries = Vec::new(alloc);
    for entry in &certificate.functions {
        entries.push(keep_function(alloc, rows, &certificate.rows, entry)?)?;
    }
    Ok(entries)
}

fn keep_function(
    alloc: Global,
    rows: &mut Rows,
    from: &Rows,
    entry: &FunctionEntry,
) -> Result<FunctionEntry, AllocError>
    requires { rows.old.count ≡ from.now.count }
    ensures { IfOk result (λ e. Keeps rows.old rows.new (λ later. (order : List (ℕ × Text)) → function_claims order later e ≡ function_claims order from.now entry.now)) }
{
    Ok(FunctionEntry {
        before: keep_facts(alloc, rows, from, entry.before)?,
        drops: keep_drops(alloc, rows, from, entry.drops)?,
        zero: keep_facts(alloc, rows, from, entry.zero)?,
        nonzero: keep_facts(alloc, rows, from, entry.nonzero)?,
    })
}

fn keep_facts(
    alloc: Global,
    rows: &mut Rows,
    from: &Rows,
    facts: Facts,
) -> Result<Facts, AllocError>
    requires { rows.old.count ≡ from.now.count }
    ensures { IfOk result (λ f. Keeps rows.old rows.new (λ later. (order : List (ℕ × Text)) → claim_of order later f ≡ claim_of order from.now facts)) }
{
    match facts {
        Facts::NotReached => Ok(Facts::NotReached),
        Facts::Known {
            vars,
            functions,
            args,
        } => {
            let kept = keep_drops(alloc, rows, from, Drops { vars, functions })?;
            Ok(Facts::Known {
                vars: kept.vars,
                functions: kept.functions,
                args,
            })
        }
    }
}

fn keep_drops(
    alloc: Global,
    rows: &mut Rows,
    from: &Rows,
    drops: Drops,
) -> Result<Drops, AllocError>
    requires { rows.old.count ≡ from.now.count }
    ensures { IfOk result (λ d. Keeps rows.old rows.new (λ later. (order : List (ℕ × Text)) → drops_of order later d ≡ drops_of order from.now drops)) }
{
    Ok(Drops {
        vars: keep_row(alloc, rows, from, drops.vars)?,
        functions: keep_row(alloc, rows, from, drops.functions)?,
    })
}

// The row of another certificate's place, or one of no numbers if it has none there.
fn keep_row(alloc: Global, rows: &mut Rows, from: &Rows, id: RowId) -> Result<RowId, AllocError>
    requires { rows.old.count ≡ from.now.count }
    ensures { IfOk result (λ kept. Keeps rows.old rows.new (λ later. (order : List (ℕ × Text)) → names_at order later kept ≡ names_at order from.now id)) }
{
    match from.row(id) {
        Some(row) => {
            let kept = rows.intern(row)?;
            Ok(kept)
        }
        None => {
            let none = BitRow::empty(alloc, rows.count())?;
            let kept = rows.intern(&none)?;
            Ok(kept)
        }
    }
}
