//! Reading the text of a certificate of either version.
ghost use Rattle.std.specs.Prelude.{◌≡◌, ℕ, ◌+◌, ◌≤◌, nat_eq, false, ◌∷◌, [], ◌++◌, length, map, None, Ok, OnOk, IfOk, IfErr, IsErrOf, IsOk};
ghost use Rattle.indexmap.specs.IndexMap.{get};
ghost use Rattle.sh_domain.specs.CompactForms.{is_compact, read_compact_text, read_given};
ghost use Rattle.sh_domain.specs.CompactReading as fit;
ghost use Rattle.sh_domain.specs.Reading.{loops_of};
ghost use Rattle.sh_facts.specs.CompactParts as part;
ghost use Rattle.sh_facts.specs.Fields.{outcome};
ghost use Rattle.sh_facts.specs.ReadParts.{Misses};

use crate::compact_lines::{
    after_compact_counts, after_compact_version, after_start, is_compact, test_compact, turn_line,
};
use crate::reading::{read_certificate, read_facts, read_functions};
use indexmap::IndexMap;
use sh_domain::{Compact, Facts, Given, MAX_CERTIFICATE, Names, RowHash, Rows, is_loop};
use sh_table::CallTable;
use sh_tree::{Command, Refusal, Script, commands};
use std::alloc::{AllocError, Global};

/// The certificate of a text of either version, for a script with these calls and these names. Its
/// first line says the version.
///
/// # Errors
///
/// `CertSyntax` with the number of the first line that has not the form, from 1, or with 0 if the
/// text is longer than `MAX_CERTIFICATE`. `CertShape` if the text has the form and does not fit the
/// script. Then it has other counts than the script's, or a name that is none of the names. Or it
/// has a head at another command than a loop, or none at one. `Memory` if a growth was refused,
/// which requires a text that has the form.
pub fn read_any(
    alloc: Global,
    text: &[u8],
    tree: &Script,
    table: &CallTable,
    names: &Names,
) -> Result<Given, Refusal>
    ensures reads { fit.ReadsGiven text.now tree.now (length table.now.functions.names) names.now result }
    ensures memory { IsErrOf result Refusal.Memory → IsOk (read_given text.now) }
    ensures sized { IfOk result (λ g. (fit.given_rows g).count ≡ length names.now) }
{
    if is_compact(text) {
        let compact = read_compact(alloc, text, tree, table, names)?;
        return Ok(Given::Compact(compact));
    }
    let certificate = read_certificate(alloc, text, tree, table, names)?;
    Ok(Given::Full(certificate))
}

fn read_compact(
    alloc: Global,
    text: &[u8],
    tree: &Script,
    table: &CallTable,
    names: &Names,
) -> Result<Compact, Refusal>
    ensures reads { part.ReadsCompact text.now tree.now (length table.now.functions.names) names.now result }
    ensures memory { IsErrOf result Refusal.Memory → IsOk (read_compact_text text.now) }
    ensures sized { IfOk result (λ c. c.rows.count ≡ length names.now) }
{
    if text.len() > MAX_CERTIFICATE {
        return Err(Refusal::CertSyntax(0));
    }
    if let Err(line) = test_compact(text) {
        return Err(Refusal::CertSyntax(line));
    }
    let commands = commands(alloc, tree)?;
    read_lines(alloc, text, &commands, table.functions().len(), names)
}

// The compact certificate of a text that has the form.
fn read_lines(
    alloc: Global,
    text: &[u8],
    commands: &[&Command],
    functions: usize,
    names: &Names,
) -> Result<Compact, Refusal>
    requires form { outcome (read_compact_text text.now) ≡ Ok tt }
    ensures reads { part.AnswersCompact text.now names.now (loops_of commands.now) functions result }
    ensures sized { IfOk result (λ c. c.rows.count ≡ length names.now) }
{
    let Ok(left) = after_compact_version(text) else {
        unreachable!()
    };
    let Ok((counts, left)) = after_compact_counts(left) else {
        unreachable!()
    };
    let Ok((start, left)) = after_start(left) else {
        unreachable!()
    };
    if !counts.has(commands.len(), functions) {
        return Err(Refusal::CertShape);
    }
    let numbers = loop_numbers(alloc, commands)?;
    if counts.loops as usize != numbers.len() {
        return Err(Refusal::CertShape);
    }
    let mut rows = Rows::new(alloc, names.count(), RowHash::of(names.hash(), text));
    let start = read_facts(alloc, names, &mut rows, start)?;
    let read = read_turns(alloc, names, &mut rows, &numbers, left)?;
    let first = 4 + counts.loops as u32;
    let entries = read_functions(alloc, names, &mut rows, first, counts.functions, read.left)?;
    Ok(Compact {
        commands: counts.commands as u32,
        start,
        rows,
        heads: read.heads,
        functions: entries,
    })
}

// The numbers of the loops among these commands.
fn loop_numbers(alloc: Global, commands: &[&Command]) -> Result<Vec<u16>, AllocError>
    requires few { length commands.now ≤ 65535 }
    ensures { IfOk result (λ numbers. numbers.items ≡ fit.loop_numbers 1 (loops_of commands.now)) }
{
    let mut numbers = Vec::new(alloc);
    let mut number: u16 = 0;
    for command in commands {
        number += 1;
        if is_loop(command) {
            numbers.push(number)?;
        }
    }
    Ok(numbers)
}

// The facts at the heads of the loops, and what follows their lines.
#[derive(Drop)]
struct ReadTurns<'t> {
    heads: IndexMap<u32, Facts>,
    left: &'t [u8],
}

fn read_turns<'t>(
    alloc: Global,
    names: &Names,
    rows: &mut Rows,
    numbers: &[u16],
    text: &'t [u8],
) -> Result<ReadTurns<'t>, Refusal>
    requires count { rows.old.count ≡ length names.now }
    ensures ok { IfOk result (λ x. part.ReadsTurns names.now numbers.now text.entry.now rows.old x.heads.entries x.left.now rows.new) }
    ensures refusal { IfErr result (Misses (part.NoTurnsFit names.now numbers.now text.entry.now)) }
{
    let mut left = text;
    let mut heads = IndexMap::new(alloc);
    let mut least = 0;
    for number in numbers {
        let Some((turn, behind)) = turn_line(least, left) else {
            return Err(Refusal::CertShape);
        };
        if turn.number != *number {
            return Err(Refusal::CertShape);
        }
        let facts = read_facts(alloc, names, rows, turn.facts)?;
        put_last(&mut heads, *number as u32, facts)?;
        least = *number as u32 + 1;
        left = behind;
    }
    Ok(ReadTurns { heads, left })
}

/// Puts the facts of a loop after the others. None of these is its own.
pub fn put_last(
    heads: &mut IndexMap<u32, Facts>,
    number: u32,
    facts: Facts,
) -> Result<(), AllocError>
    ensures put { OnOk result (get nat_eq heads.old number ≡ None → heads.new.entries ≡ heads.old.entries ++ (number, facts) ∷ []) }
    ensures others { OnOk result ((k : ℕ) → nat_eq number k ≡ false → get nat_eq heads.new k ≡ get nat_eq heads.old k) }
{
    heads.insert(number, facts)?;
    Ok(())
}
