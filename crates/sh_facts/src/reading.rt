//! Reading the text of a certificate.
ghost use Rattle.std.specs.Prelude.{◌≡◌, ℕ, ◌+◌, ◌*◌, ◌<◌, ◌≤◌, ◌^◌, ◌||◌, nat_eq, true, false, [], length, map, option_map, None, Ok, OnOk, IfOk, IfErr, IsErrOf, IsOk};
ghost use Rattle.indexmap.specs.IndexMap.{get};
ghost use Rattle.sh_facts.specs.Fields as field;
ghost use Rattle.sh_domain.specs.Forms as form;
ghost use Rattle.sh_domain.specs.KeptRows.{bits_of};
ghost use Rattle.sh_domain.specs.Names.{are_distinct, is_among};
ghost use Rattle.sh_domain.specs.Reading as fit;
ghost use Rattle.sh_facts.specs.ReadParts as part;

use crate::finding::number_from;
use crate::forms::{CommandTexts, FactText, FunctionTexts, SetTexts};
use crate::lines::{after_counts, after_version, command_line, function_line, test_lines};
use crate::splits::first_piece;
use indexmap::IndexMap;
use sh_domain::{
    Certificate, Drops, Entry, Facts, FunctionEntry, MAX_CERTIFICATE, Names, RowHash, RowId, Rows,
    is_loop,
};
use sh_rows::{BitRow, Row};
use sh_table::CallTable;
use sh_tree::{Command, Kind, Refusal, Script, commands};
use std::alloc::{AllocError, Global};

/// The certificate of a text, version 1, for a script with these calls and these names.
///
/// # Errors
///
/// `CertSyntax` with the number of the first line that has not the form, from 1, or with 0 if the
/// text is longer than `MAX_CERTIFICATE`. `CertShape` if the text has the form and does not fit the
/// script. Then it has other counts than the script's, or a name that is none of the names. Or it
/// has a head at another command than a loop, or none at one. `Memory` if a growth was refused,
/// which requires a text that has the form.
pub fn read_certificate(
    alloc: Global,
    text: &[u8],
    tree: &Script,
    table: &CallTable,
    names: &Names,
) -> Result<Certificate, Refusal>
    ensures reads { fit.Reads text.now tree.now (length table.now.functions.names) names.now result }
    ensures memory { IsErrOf result Refusal.Memory → IsOk (form.read_text text.now) }
    ensures sized { IfOk result (λ c. c.rows.count ≡ length names.now) }
{
    if text.len() > MAX_CERTIFICATE {
        return Err(Refusal::CertSyntax(0));
    }
    if let Err(line) = test_lines(text) {
        return Err(Refusal::CertSyntax(line));
    }
    let commands = commands(alloc, tree)?;
    read_lines(alloc, text, &commands, table.functions().len(), names)
}

// The certificate of a text that has the form.
fn read_lines(
    alloc: Global,
    text: &[u8],
    commands: &[&Command],
    functions: usize,
    names: &Names,
) -> Result<Certificate, Refusal>
    requires form { field.outcome (form.read_text text.now) ≡ Ok tt }
    ensures reads { fit.Answers text.now names.now (fit.loops_of commands.now) functions result }
    ensures sized { IfOk result (λ c. c.rows.count ≡ length names.now) }
{
    let Ok(left) = after_version(text) else {
        unreachable!()
    };
    let Ok((counts, left)) = after_counts(left) else {
        unreachable!()
    };
    if counts.commands as usize != commands.len() {
        return Err(Refusal::CertShape);
    }
    if counts.functions as usize != functions {
        return Err(Refusal::CertShape);
    }
    let mut rows = Rows::new(alloc, names.count(), RowHash::of(names.hash(), text));
    let read = read_commands(alloc, names, &mut rows, commands, left)?;
    let entries = read_functions(
        alloc,
        names,
        &mut rows,
        3 + counts.commands as u32,
        counts.functions,
        read.left,
    )?;
    Ok(Certificate {
        rows,
        entries: read.entries,
        heads: read.heads,
        functions: entries,
    })
}

// The facts of the commands, and what follows their lines.
#[derive(Drop)]
struct ReadCommands<'t> {
    entries: Vec<Entry>,
    heads: IndexMap<u32, Facts>,
    left: &'t [u8],
}

fn read_commands<'t>(
    alloc: Global,
    names: &Names,
    rows: &mut Rows,
    commands: &[&Command],
    text: &'t [u8],
) -> Result<ReadCommands<'t>, Refusal>
    requires few { length commands.now ≤ 65535 }
    requires count { rows.old.count ≡ length names.now }
    ensures ok { IfOk result (λ x. part.ReadsCommands names.now (fit.loops_of commands.now) text.entry.now x.entries.items (get nat_eq x.heads) x.left.now rows.new) }
    ensures refusal { IfErr result (part.Misses (part.NoneFit names.now (fit.loops_of commands.now) text.entry.now)) }
{
    let mut left = text;
    let mut entries = Vec::new(alloc);
    let mut heads = IndexMap::new(alloc);
    let mut number: u16 = 0;
    for command in commands {
        number += 1;
        let Some((texts, behind)) = command_line(number, left) else {
            return Err(Refusal::CertShape);
        };
        let (entry, head) = read_command(alloc, names, rows, is_loop(command), texts)?;
        entries.push(entry)?;
        put_head(&mut heads, number as u32, head)?;
        left = behind;
    }
    Ok(ReadCommands {
        entries,
        heads,
        left,
    })
}

fn put_head(
    heads: &mut IndexMap<u32, Facts>,
    number: u32,
    head: Option<Facts>,
) -> Result<(), AllocError>
    ensures put { OnOk result (get nat_eq heads.old number ≡ None → get nat_eq heads.new number ≡ head) }
    ensures others { OnOk result ((k : ℕ) → nat_eq number k ≡ false → get nat_eq heads.new k ≡ get nat_eq heads.old k) }
{
    if let Some(facts) = head {
        heads.insert(number, facts)?;
    }
    Ok(())
}

/// The facts of so many functions, whose first is in the line of this number.
pub fn read_functions(
    alloc: Global,
    names: &Names,
    rows: &mut Rows,
    first: u32,
    functions: u16,
    text: &[u8],
) -> Result<Vec<FunctionEntry>, Refusal>
    requires count { rows.old.count ≡ length names.now }
    ensures ok { IfOk result (λ x. part.ReadsFunctions names.now first functions text.now rows.old x.items rows.new) }
    ensures refusal { IfErr result (part.Misses (part.NoFunctionsFit names.now first functions text.now)) }
{
    let mut left = text;
    let mut entries = Vec::new(alloc);
    for done in 0..functions {
        let Some((texts, behind)) = function_line(done + 1, left) else {
            return Err(Refusal::CertShape);
        };
        entries.push(read_function(alloc, names, rows, texts)?)?;
        left = behind;
    }
    Ok(entries)
}

fn read_command(
    alloc: Global,
    names: &Names,
    rows: &mut Rows,
    is_loop: bool,
    texts: CommandTexts<'_>,
) -> Result<(Entry, Option<Facts>), Refusal>
    requires count { rows.old.count ≡ length names.now }
    ensures ok { IfOk result (λ x. part.ReadsCommand names.now texts.entry is_loop rows.old x.0 x.1 rows.new) }
    ensures refusal { IfErr result (part.Misfits (fit.command_fits names.now is_loop (field.command_of texts.entry))) }
{
    let entry = Entry {
        before: read_facts(alloc, names, rows, texts.before)?,
        zero: read_facts(alloc, names, rows, texts.zero)?,
        nonzero: read_facts(alloc, names, rows, texts.nonzero)?,
    };
    let head = read_head(alloc, names, rows, is_loop, texts.head)?;
    Ok((entry, head))
}

fn read_head(
    alloc: Global,
    names: &Names,
    rows: &mut Rows,
    is_loop: bool,
    text: Option<FactText<'_>>,
) -> Result<Option<Facts>, Refusal>
    requires count { rows.old.count ≡ length names.now }
    ensures ok { IfOk result (λ x. part.ReadsHead names.now text.entry is_loop rows.old x rows.new) }
    ensures refusal { IfErr result (part.Misfits (fit.head_fits names.now is_loop (option_map field.claim_of text.entry))) }
{
    match text {
        None => {
            if is_loop {
                return Err(Refusal::CertShape);
            }
            Ok(None)
        }
        Some(text) => {
            if !is_loop {
                return Err(Refusal::CertShape);
            }
            Ok(Some(read_facts(alloc, names, rows, text)?))
        }
    }
}

fn read_function(
    alloc: Global,
    names: &Names,
    rows: &mut Rows,
    texts: FunctionTexts<'_>,
) -> Result<FunctionEntry, Refusal>
    requires count { rows.old.count ≡ length names.now }
    ensures ok { IfOk result (λ e. part.ReadsFunction names.now texts.entry rows.old e rows.new) }
    ensures refusal { IfErr result (part.Misfits (fit.function_fits names.now (field.function_of texts.entry))) }
{
    Ok(FunctionEntry {
        before: read_facts(alloc, names, rows, texts.before)?,
        drops: read_sets(alloc, names, rows, texts.drops)?,
        zero: read_facts(alloc, names, rows, texts.zero)?,
        nonzero: read_facts(alloc, names, rows, texts.nonzero)?,
    })
}

/// The facts of a field, if the script has its names.
pub fn read_facts(
    alloc: Global,
    names: &Names,
    rows: &mut Rows,
    text: FactText<'_>,
) -> Result<Facts, Refusal>
    requires count { rows.old.count ≡ length names.now }
    ensures ok { IfOk result (λ f. part.ReadsFacts names.now text.entry rows.old f rows.new) }
    ensures refusal { IfErr result (part.Misfits (fit.claim_fits names.now (field.claim_of text.entry))) }
{
    match text {
        FactText::NotReached => Ok(Facts::NotReached),
        FactText::Known { args, sets } => {
            let sets = read_sets(alloc, names, rows, sets)?;
            Ok(Facts::Known {
                vars: sets.vars,
                functions: sets.functions,
                args,
            })
        }
    }
}

fn read_sets(
    alloc: Global,
    names: &Names,
    rows: &mut Rows,
    text: SetTexts<'_>,
) -> Result<Drops, Refusal>
    requires count { rows.old.count ≡ length names.now }
    ensures ok { IfOk result (λ d. part.ReadsSets names.now text.entry rows.old d rows.new) }
    ensures refusal { IfErr result (part.Misfits (fit.sets_fit names.now (field.sets_of text.entry))) }
{
    Ok(Drops {
        vars: read_row(alloc, names, rows, text.vars)?,
        functions: read_row(alloc, names, rows, text.functions)?,
    })
}

fn read_row(alloc: Global, names: &Names, rows: &mut Rows, text: &[u8]) -> Result<RowId, Refusal>
    requires count { rows.old.count ≡ length names.now }
    ensures ok { IfOk result (λ id. part.ReadsRow names.now text.now rows.old id rows.new) }
    ensures refusal { IfErr result (part.Misfits (fit.are_known names.now (field.split text.now))) }
{
    let row = row_of(alloc, names, text)?;
    let id = rows.intern(&row)?;
    Ok(id)
}

// The numbers of names with commas between them, if the script has them all.
fn row_of(alloc: Global, names: &Names, text: &[u8]) -> Result<BitRow, Refusal>
    ensures ok { IfOk result (part.IsRowOf names.now text.now) }
    ensures refusal { IfErr result (part.Misfits (fit.are_known names.now (field.split text.now))) }
{
    let mut row = BitRow::empty(alloc, names.count())?;
    if !text.is_empty() {
        add_names(names, &mut row, text)?;
    }
    Ok(row)
}

fn add_names(names: &Names, row: &mut BitRow, text: &[u8]) -> Result<(), Refusal>
    requires distinct { are_distinct names.now ≡ true }
    requires count { row.old.count ≡ length names.now }
    ensures numbers { OnOk result ((k : ℕ) → bits_of row.new k ≡ (bits_of row.old k || is_among names.now (form.pieces 44 text.now) k)) }
    ensures count { row.new.count ≡ row.old.count }
    ensures known { OnOk result (fit.are_known names.now (form.pieces 44 text.now) ≡ true) }
    ensures refusal { IfErr result (part.Misfits (fit.are_known names.now (form.pieces 44 text.now))) }
{
    let mut left = Some(text);
    let mut place = 0;
    while let Some(rest) = left {
        let (name, behind) = first_piece(rest, b',');
        let Some(number) = number_from(names, name, &mut place) else {
            return Err(Refusal::CertShape);
        };
        row.add(number)?;
        left = behind;
    }
    Ok(())
}
