//! The text of a compact certificate.
ghost use Rattle.std.specs.Prelude.{◌≡◌, ◌++◌, ◌^◌, ◌<◌, ◌∷◌, [], length, map, Ok, OnOk, IfOk};
ghost use Rattle.sh_domain.specs.Certificates.{claim_of, in_byte_order};
ghost use Rattle.sh_domain.specs.CompactForms.{read_compact_sheet};
ghost use Rattle.sh_domain.specs.CompactRoundTrips.{CompactHasText, compact_claimed};
ghost use Rattle.sh_domain.specs.Compacts as text;
ghost use Rattle.sh_domain.specs.Sheets.{line};

use crate::row_texts::RowTexts;
use crate::texts::{push_fact, push_functions};
use sh_domain::{Compact, Facts, Names};
use std::alloc::{AllocError, Global};
use std::io::Write;

/// The one text of a compact certificate, version 2, for the names of its numbers. It has the
/// start, and a line for each loop and each function, the names of each set in rising byte order.
/// Suppose that rows name variables and functions, the numbers of loops rise, and there is no more
/// of anything than a text may have. Then it reads as what the certificate claims.
///
/// # Errors
///
/// If a growth was refused.
pub fn write_compact(alloc: Global, compact: &Compact, names: &Names) -> Result<Vec<u8>, AllocError>
    requires functions { length compact.now.functions.items < 2 ^ 32 }
    ensures text { IfOk result (λ t. t.items ≡ text.compact_text (text.compact_claims (in_byte_order names.now) compact.now)) }
    ensures back { IfOk result (λ t. CompactHasText names.now compact.now → read_compact_sheet t.items ≡ Ok (compact_claimed names.now compact.now)) }
{
    let mut out = Vec::new(alloc);
    push_first(&mut out)?;
    push_counts(
        &mut out,
        compact.commands,
        compact.functions.len(),
        compact.heads.len(),
    )?;
    let mut texts = RowTexts::new(alloc, &compact.rows, names);
    push_start(&mut out, &mut texts, compact.start)?;
    push_turns(&mut out, &mut texts, compact)?;
    push_functions(&mut out, &mut texts, &compact.functions)?;
    Ok(out)
}

#[tactic(auto, unfolding(sh_domain::specs::Sheets::joined))]
fn push_first(out: &mut Vec<u8>) -> Result<(), AllocError>
    ensures { OnOk result (out.new.items ≡ out.old.items ++ line (text.compact_line ∷ [])) }
{
    out.extend_from_slice(b"shset certificate 2\n")?;
    Ok(())
}

#[tactic(auto, unfolding(sh_domain::specs::Sheets::joined))]
fn push_counts(
    out: &mut Vec<u8>,
    commands: u32,
    functions: usize,
    loops: usize,
) -> Result<(), AllocError>
    ensures { OnOk result (out.new.items ≡ out.old.items ++ line (text.compact_counts commands functions loops)) }
{
    write!(out, "commands {commands}").map_err(|_error| AllocError)?;
    write!(out, " functions {functions}").map_err(|_error| AllocError)?;
    write!(out, " loops {loops}").map_err(|_error| AllocError)?;
    out.push(b'\n')?;
    Ok(())
}

#[tactic(auto, unfolding(sh_domain::specs::Sheets::joined))]
fn push_start(out: &mut Vec<u8>, texts: &mut RowTexts<'_>, facts: Facts) -> Result<(), AllocError>
    ensures text { OnOk result (out.new.items ≡ out.old.items ++ line (text.start_fields (claim_of (in_byte_order texts.old.names) texts.old.rows facts))) }
    ensures same { texts.new ≡ texts.old }
{
    out.push(b's')?;
    push_fact(out, texts, facts)?;
    out.push(b'\n')?;
    Ok(())
}

fn push_turns(
    out: &mut Vec<u8>,
    texts: &mut RowTexts<'_>,
    compact: &Compact,
) -> Result<(), AllocError>
    ensures text { OnOk result (out.new.items ≡ out.old.items ++ text.turn_lines (text.turns_of (in_byte_order texts.old.names) texts.old.rows compact.now.heads.entries)) }
    ensures same { texts.new ≡ texts.old }
{
    for index in 0..compact.heads.len() {
        let Some((number, facts)) = compact.heads.get_index(index) else {
            unreachable!()
        };
        push_turn(out, texts, *number, *facts)?;
    }
    Ok(())
}

#[tactic(auto, unfolding(sh_domain::specs::Sheets::joined))]
fn push_turn(
    out: &mut Vec<u8>,
    texts: &mut RowTexts<'_>,
    number: u32,
    facts: Facts,
) -> Result<(), AllocError>
    ensures text { OnOk result (out.new.items ≡ out.old.items ++ line (text.turn_fields (number, claim_of (in_byte_order texts.old.names) texts.old.rows facts))) }
    ensures same { texts.new ≡ texts.old }
{
    write!(out, "h {number}").map_err(|_error| AllocError)?;
    push_fact(out, texts, facts)?;
    out.push(b'\n')?;
    Ok(())
}
