//! The certificate that claims everything.
ghost use Rattle.std.specs.Prelude.{◌≡◌, ◌+◌, ◌≤◌, ℕ, List, false, length, nat_eq, None, IfOk, OnOk};
ghost use Rattle.indexmap.specs.IndexMap.{get};
ghost use Rattle.sh_tree.specs.standard.program.Syntax.{Text};
ghost use Rattle.sh_domain.specs.KeptRows.{Stay, holds_at};
ghost use Rattle.sh_domain.specs.Reading.{loops_of};
ghost use Rattle.sh_drafts.specs.Facts.{NotReached};
ghost use Rattle.sh_drafts.specs.First.{AreHeads, ClaimsAll, DropsNothing, head_if};
ghost use Rattle.sh_drafts.specs.Working.{IsWorking};

use indexmap::IndexMap;
use sh_domain::{Certificate, Drops, Entry, Facts, FunctionEntry, RowHash, RowId, Rows, is_loop};
use sh_rows::{BitRow, Row};
use sh_tree::Command;
use std::alloc::{AllocError, Global};

// A head to which no run comes, if it is a loop's.
#[tactic(auto, unfolding(crate::specs::First::head_if))]
fn add_head(heads: &mut IndexMap<u32, Facts>, number: u32, is_loop: bool) -> Result<(), AllocError>
    ensures here { OnOk result (get nat_eq heads.old number ≡ None → get nat_eq heads.new number ≡ head_if is_loop) }
    ensures others { OnOk result ((k : ℕ) → nat_eq number k ≡ false → get nat_eq heads.new k ≡ get nat_eq heads.old k) }
{
    if is_loop {
        heads.insert(number, Facts::NotReached)?;
    }
    Ok(())
}

// A head to which no run comes for each loop, by its number.
fn heads_of(alloc: Global, commands: &[&Command]) -> Result<IndexMap<u32, Facts>, AllocError>
    requires { length commands.now ≤ 65535 }
    ensures { IfOk result (λ heads. AreHeads (loops_of commands.now) (length commands.now) (get nat_eq heads)) }
{
    let mut heads = IndexMap::new(alloc);
    let mut number: u16 = 0;
    for command in commands {
        number += 1;
        add_head(&mut heads, number as u32, is_loop(command))?;
    }
    Ok(heads)
}

/// The row of no names, which is added if there is none.
///
/// # Errors
///
/// If a growth was refused.
pub fn no_names(alloc: Global, rows: &mut Rows, count: u32) -> Result<RowId, AllocError>
    requires count { rows.old.count ≡ count }
    ensures none { IfOk result (λ id. (k : ℕ) → holds_at rows.new.rows id.index k ≡ false) }
    ensures there { IfOk result (λ id. id.index + 1 ≤ length rows.new.rows) }
    ensures stay { Stay rows.old.rows rows.new.rows }
    ensures count { rows.new.count ≡ rows.old.count }
{
    let row = BitRow::empty(alloc, count)?;
    rows.intern(&row)
}

/// No run comes anywhere, and no function drops a name.
///
/// # Errors
///
/// If a growth was refused.
pub fn unreached(
    alloc: Global,
    count: u32,
    hash: RowHash,
    commands: &[&Command],
    functions: usize,
) -> Result<Certificate, AllocError>
    requires { length commands.now ≤ 65535 }
    ensures working { IfOk result (λ c. (names : List Text) → length names ≡ count → IsWorking names (loops_of commands.now) functions c) }
    ensures claims { IfOk result ClaimsAll }
    ensures drops { IfOk result DropsNothing }
{
    let mut rows = Rows::new(alloc, count, hash);
    let none = no_names(alloc, &mut rows, count)?;
    let entry = Entry {
        before: Facts::NotReached,
        zero: Facts::NotReached,
        nonzero: Facts::NotReached,
    };
    let function = FunctionEntry {
        before: Facts::NotReached,
        drops: Drops {
            vars: none,
            functions: none,
        },
        zero: Facts::NotReached,
        nonzero: Facts::NotReached,
    };
    let entries = vec![in alloc; entry; commands.len()]?;
    let functions = vec![in alloc; function; functions]?;
    let heads = heads_of(alloc, commands)?;
    Ok(Certificate {
        rows,
        entries,
        heads,
        functions,
    })
}
