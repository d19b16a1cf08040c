//! The names of rows as texts, each put together once.
ghost use Rattle.std.specs.Prelude.{◌≡◌, ◌++◌, ◌&&◌, not, OnOk, IfOk};
ghost use Rattle.sh_domain.specs.Certificates.{in_byte_order, names_at};
ghost use Rattle.sh_domain.specs.KeptRows.{bits_of};
ghost use Rattle.sh_domain.specs.Numbered.{next_if, next_name};
ghost use Rattle.sh_domain.specs.Sheets.{names_text};

use indexmap::IndexMap;
use sh_domain::{Names, RowId, Rows};
use sh_rows::{BitRow, Row};
use std::alloc::{AllocError, Global};
use std::marker::Model;

/// Rows and the names of their numbers, with the texts of the rows that were written so far.
#[derive(Drop)]
pub struct RowTexts<'a> {
    alloc: Global,
    rows: &'a Rows,
    names: &'a Names,
    // By the index of the row.
    kept: IndexMap<usize, Vec<u8>>,
}

impl<'a> Model for RowTexts<'a> {
    ghost use Rattle.std.specs.Prelude.{nat_eq};
    ghost use Rattle.indexmap.specs.IndexMap.{get};
    ghost use Rattle.sh_facts.specs.RowTexts.{AreTexts, NamedRows};

    ghost Value = { NamedRows };

    ghost view = { λ t. record { names = t.names.now; rows = t.rows.now } };

    ghost invariant = { λ t. AreTexts t.names.now t.rows.now (get nat_eq t.kept) };
}

impl<'a> RowTexts<'a> {
    /// Of these rows, none of which was written.
    pub fn new(alloc: Global, rows: &'a Rows, names: &'a Names) -> RowTexts<'a>
        ensures { result ≡ record { names = names.now; rows = rows.now } }
    {
        RowTexts {
            alloc,
            rows,
            names,
            kept: IndexMap::new(alloc),
        }
    }

    /// The names of a row, with commas between them.
    pub fn push_row(&mut self, out: &mut Vec<u8>, row: RowId) -> Result<(), AllocError>
        ensures text { OnOk result (out.new.items ≡ out.old.items ++ names_text (names_at (in_byte_order self.old.names) self.old.rows row)) }
        ensures same { self.new ≡ self.old }
    {
        if let Some(text) = self.kept.get(&row.index) {
            out.extend_from_slice(text)?;
            return Ok(());
        }
        let text = text_of(self.alloc, self.rows, self.names, row)?;
        out.extend_from_slice(&text)?;
        self.kept.insert(row.index, text)?;
        Ok(())
    }
}

fn text_of(alloc: Global, rows: &Rows, names: &Names, row: RowId) -> Result<Vec<u8>, AllocError>
    ensures { IfOk result (λ t. t.items ≡ names_text (names_at (in_byte_order names.now) rows.now row)) }
{
    let mut text = Vec::new(alloc);
    push_names(&mut text, rows, names, row)?;
    Ok(text)
}

fn push_names(out: &mut Vec<u8>, rows: &Rows, names: &Names, id: RowId) -> Result<(), AllocError>
    ensures { OnOk result (out.new.items ≡ out.old.items ++ names_text (names_at (in_byte_order names.now) rows.now id)) }
{
    let Some(row) = rows.row(id) else {
        return Ok(());
    };
    let count = rows.count();
    let numbers = names.in_byte_order();
    let mut is_first = true;
    for number in numbers {
        let is_wanted = is_in(row, count, *number);
        is_first = push_wanted(out, is_wanted, is_first, names.name(*number))?;
    }
    Ok(())
}

// Whether a number is in a row of numbers below a count.
fn is_in(row: &BitRow, count: u32, number: u32) -> bool
    requires { row.now.count ≡ count }
    ensures { result ≡ bits_of row.now number }
{
    number < count && row.has(number)
}

// The name, if it is wanted, and whether the next one is still the first.
#[tactic(auto, unfolding(sh_domain::specs::Numbered::next_if))]
fn push_wanted(
    out: &mut Vec<u8>,
    is_wanted: bool,
    is_first: bool,
    name: &[u8],
) -> Result<bool, AllocError>
    ensures text { OnOk result (out.new.items ≡ out.old.items ++ next_if is_wanted is_first name.now) }
    ensures first { IfOk result (λ first. first ≡ (is_first && not is_wanted)) }
{
    if !is_wanted {
        return Ok(is_first);
    }
    push_name(out, is_first, name)?;
    Ok(false)
}

// The name, after a comma unless it is the first.
#[tactic(auto, unfolding(sh_domain::specs::Numbered::next_name))]
fn push_name(out: &mut Vec<u8>, is_first: bool, name: &[u8]) -> Result<(), AllocError>
    ensures { OnOk result (out.new.items ≡ out.old.items ++ next_name is_first name.now) }
{
    if is_first {
        out.extend_from_slice(name)?;
        return Ok(());
    }
    out.push(b',')?;
    out.extend_from_slice(name)?;
    Ok(())
}
