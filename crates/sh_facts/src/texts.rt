//! The text of a certificate.
ghost use Rattle.std.specs.Prelude.{◌≡◌, ◌++◌, ◌^◌, ◌<◌, ◌∷◌, [], length, map, Ok, OnOk, IfOk};
ghost use Rattle.std.specs.Option.{option_copied};
ghost use Rattle.sh_domain.specs.Sheets as text;
ghost use Rattle.sh_domain.specs.Certificates as claims;
ghost use Rattle.sh_domain.specs.Forms.{read_sheet};
ghost use Rattle.sh_domain.specs.RoundTrips.{HasText, claimed};

use crate::row_texts::RowTexts;
use sh_domain::{Certificate, Drops, Entry, Facts, FunctionEntry, Names, RowId};
use std::alloc::{AllocError, Global};
use std::io::Write;

/// The one text of a certificate, version 1, for the names of its numbers. It has a line for each
/// command and each function, the names of each set in rising byte order. If rows name variables
/// and functions, and there is no more of anything than a text may have, it reads as what the
/// certificate claims.
///
/// # Errors
///
/// If a growth was refused.
pub fn write_certificate(
    alloc: Global,
    certificate: &Certificate,
    names: &Names,
) -> Result<Vec<u8>, AllocError>
    requires commands { length certificate.now.entries.items < 2 ^ 32 }
    requires functions { length certificate.now.functions.items < 2 ^ 32 }
    ensures text { IfOk result (λ t. t.items ≡ text.certificate_text (claims.sheet_of (claims.in_byte_order names.now) certificate.now)) }
    ensures back { IfOk result (λ t. HasText names.now certificate.now → read_sheet t.items ≡ Ok (claimed names.now certificate.now)) }
{
    let mut out = Vec::new(alloc);
    push_first(&mut out)?;
    push_counts(
        &mut out,
        certificate.entries.len(),
        certificate.functions.len(),
    )?;
    let mut texts = RowTexts::new(alloc, &certificate.rows, names);
    push_entries(&mut out, &mut texts, certificate)?;
    push_functions(&mut out, &mut texts, &certificate.functions)?;
    Ok(out)
}

#[tactic(auto, unfolding(sh_domain::specs::Sheets::joined))]
fn push_first(out: &mut Vec<u8>) -> Result<(), AllocError>
    ensures { OnOk result (out.new.items ≡ out.old.items ++ text.line (text.first_line ∷ [])) }
{
    out.extend_from_slice(b"shset certificate 1\n")?;
    Ok(())
}

#[tactic(auto, unfolding(sh_domain::specs::Sheets::joined))]
fn push_counts(out: &mut Vec<u8>, commands: usize, functions: usize) -> Result<(), AllocError>
    ensures { OnOk result (out.new.items ≡ out.old.items ++ text.line (text.count_fields commands functions)) }
{
    write!(out, "commands {commands} functions {functions}\n").map_err(|_error| AllocError)
}

fn push_entries(
    out: &mut Vec<u8>,
    texts: &mut RowTexts<'_>,
    certificate: &Certificate,
) -> Result<(), AllocError>
    requires few { length certificate.now.entries.items < 2 ^ 32 }
    requires rows { texts.old.rows ≡ certificate.now.rows }
    ensures text { OnOk result (out.new.items ≡ out.old.items ++ text.numbered_lines text.command_fields 1 (claims.commands_from (claims.in_byte_order texts.old.names) certificate.now 1 certificate.now.entries.items)) }
    ensures same { texts.new ≡ texts.old }
{
    let mut number: u32 = 0;
    for entry in &certificate.entries {
        number += 1;
        let head = certificate.head(number);
        push_entry(out, texts, number, entry, head)?;
    }
    Ok(())
}

#[tactic(auto, unfolding(sh_domain::specs::Sheets::joined, sh_domain::specs::Sheets::head_fields))]
fn push_entry(
    out: &mut Vec<u8>,
    texts: &mut RowTexts<'_>,
    number: u32,
    entry: &Entry,
    head: Option<&Facts>,
) -> Result<(), AllocError>
    ensures text { OnOk result (out.new.items ≡ out.old.items ++ text.line (text.command_fields number (claims.command_claims (claims.in_byte_order texts.old.names) texts.old.rows entry.now (option_copied head.entry)))) }
    ensures same { texts.new ≡ texts.old }
{
    write!(out, "c {number}").map_err(|_error| AllocError)?;
    push_fact(out, texts, entry.before)?;
    push_fact(out, texts, entry.zero)?;
    push_fact(out, texts, entry.nonzero)?;
    if let Some(head) = head {
        push_fact(out, texts, *head)?;
    }
    out.push(b'\n')?;
    Ok(())
}

/// The lines of the functions.
pub fn push_functions(
    out: &mut Vec<u8>,
    texts: &mut RowTexts<'_>,
    functions: &[FunctionEntry],
) -> Result<(), AllocError>
    requires { length functions.now < 2 ^ 32 }
    ensures text { OnOk result (out.new.items ≡ out.old.items ++ text.numbered_lines text.function_fields 1 (map (claims.function_claims (claims.in_byte_order texts.old.names) texts.old.rows) functions.now)) }
    ensures same { texts.new ≡ texts.old }
{
    let mut number: u32 = 0;
    for entry in functions {
        number += 1;
        push_function(out, texts, number, entry)?;
    }
    Ok(())
}

#[tactic(auto, unfolding(sh_domain::specs::Sheets::joined, sh_domain::specs::Sheets::head_fields))]
fn push_function(
    out: &mut Vec<u8>,
    texts: &mut RowTexts<'_>,
    number: u32,
    entry: &FunctionEntry,
) -> Result<(), AllocError>
    ensures text { OnOk result (out.new.items ≡ out.old.items ++ text.line (text.function_fields number (claims.function_claims (claims.in_byte_order texts.old.names) texts.old.rows entry.now))) }
    ensures same { texts.new ≡ texts.old }
{
    write!(out, "f {number}").map_err(|_error| AllocError)?;
    push_fact(out, texts, entry.before)?;
    push_drops(out, texts, entry.drops)?;
    push_fact(out, texts, entry.zero)?;
    push_fact(out, texts, entry.nonzero)?;
    out.push(b'\n')?;
    Ok(())
}

/// A blank, and the facts.
#[tactic(auto, unfolding(sh_domain::specs::Sheets::joined, sh_domain::specs::Sheets::claim_text, sh_domain::specs::Certificates::claim_of))]
pub fn push_fact(
    out: &mut Vec<u8>,
    texts: &mut RowTexts<'_>,
    facts: Facts,
) -> Result<(), AllocError>
    ensures text { OnOk result (out.new.items ≡ out.old.items ++ 32 ∷ text.claim_text (claims.claim_of (claims.in_byte_order texts.old.names) texts.old.rows facts)) }
    ensures same { texts.new ≡ texts.old }
{
    match facts {
        Facts::NotReached => {
            out.extend_from_slice(b" -")?;
            Ok(())
        }
        Facts::Known {
            vars,
            functions,
            args,
        } => {
            write!(out, " {args}").map_err(|_error| AllocError)?;
            out.push(b':')?;
            push_sets(out, texts, vars, functions)
        }
    }
}

#[tactic(auto, unfolding(sh_domain::specs::Sheets::joined))]
fn push_drops(out: &mut Vec<u8>, texts: &mut RowTexts<'_>, drops: Drops) -> Result<(), AllocError>
    ensures text { OnOk result (out.new.items ≡ out.old.items ++ 32 ∷ text.drops_text (claims.drops_of (claims.in_byte_order texts.old.names) texts.old.rows drops)) }
    ensures same { texts.new ≡ texts.old }
{
    out.push(b' ')?;
    push_sets(out, texts, drops.vars, drops.functions)
}

#[tactic(auto, unfolding(sh_domain::specs::Sheets::joined))]
fn push_sets(
    out: &mut Vec<u8>,
    texts: &mut RowTexts<'_>,
    vars: RowId,
    functions: RowId,
) -> Result<(), AllocError>
    ensures text { OnOk result (out.new.items ≡ out.old.items ++ text.drops_text (record { vars = claims.names_at (claims.in_byte_order texts.old.names) texts.old.rows vars; functions = claims.names_at (claims.in_byte_order texts.old.names) texts.old.rows functions })) }
    ensures same { texts.new ≡ texts.old }
{
    texts.push_row(out, vars)?;
    out.push(b':')?;
    texts.push_row(out, functions)?;
    Ok(())
}
