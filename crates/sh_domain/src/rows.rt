//! Rows that are kept once.
ghost use Rattle.std.specs.Prelude.{◌≡◌, ◌<◌, ◌≤◌, ◌+◌, ◌-◌, ◌↔◌, ℕ, [], Some, length, slice_get, IfOk, IfSome, OnErr, IsOk, IsTrue};
ghost use Rattle.std.specs.Option.{option_copied};
ghost use Rattle.sh_rows.specs.declared.bits.BitRow.{BitRow};
ghost use Rattle.sh_domain.specs.KeptRows.{Stay, bits_of, holds_at};

use crate::row_hasher::RowHash;
use indexmap::IndexSet;
use sh_rows::{BitRow, Row};
use std::alloc::{AllocError, Global};
use std::marker::Model;

/// The place of a row among the rows of a certificate. Equal places are equal sets.
#[derive(Clone, Copy, Debug, PartialEq, Eq)]
pub struct RowId {
    pub index: usize,
}

/// Rows of numbers below a count, each set kept once.
#[derive(Debug, Drop)]
pub struct Rows {
    set: IndexSet<BitRow, RowHash>,
    count: u32,
}

impl Model for Rows {
    ghost use Rattle.std.specs.Prelude.{◌≡◌};
    ghost use Rattle.std.specs.List.{All};
    ghost use Rattle.sh_domain.specs.KeptRows.{KeptRows};

    ghost Value = { KeptRows };

    ghost view = { λ r. record { count = r.count; rows = r.set.keys } };

    ghost invariant = { λ r. All (λ row. row.count ≡ r.count) r.set.keys };
}

impl Rows {
    /// No rows, of numbers below `count`. They hash by `hash`, on which no answer depends.
    pub fn new(alloc: Global, count: u32, hash: RowHash) -> Rows
        ensures none { result.rows ≡ [] }
        ensures count { result.count ≡ count }
    {
        Rows {
            set: IndexSet::with_hasher(alloc, hash),
            count,
        }
    }

    /// What the rows hash by.
    pub fn hash(&self) -> RowHash {
        *self.set.hasher()
    }

    /// How many rows there are.
    pub fn len(&self) -> usize
        ensures { result ≡ length self.now.rows }
    {
        self.set.len()
    }

    /// The count that all numbers are below.
    pub fn count(&self) -> u32
        ensures { result ≡ self.now.count }
    {
        self.count
    }

    /// The place of a row with these numbers, which is added if there is none.
    ///
    /// # Errors
    ///
    /// If a growth was refused, which is never for a row that is there.
    pub fn intern(&mut self, row: &BitRow) -> Result<RowId, AllocError>
        requires sized { row.now.count ≡ self.old.count }
        ensures found { IfOk result (λ id. (k : ℕ) → holds_at self.new.rows id.index k ≡ bits_of row.now k) }
        ensures known { IfOk result (λ id. id.index < length self.new.rows) }
        ensures kept { Stay self.old.rows self.new.rows }
        ensures more { length self.new.rows ≤ length self.old.rows + 1 }
        ensures there { (i : ℕ) (r : BitRow) → slice_get self.old.rows i ≡ Some r → r.words.items ≡ row.now.words.items → IsOk result }
        ensures once { (i : ℕ) (r : BitRow) → slice_get self.old.rows i ≡ Some r → r.words.items ≡ row.now.words.items → self.new.rows ≡ self.old.rows }
        ensures err { OnErr result (self.new.rows ≡ self.old.rows) }
        ensures count { self.new.count ≡ self.old.count }
    {
        if let Some(index) = self.set.get_index_of(row) {
            return Ok(RowId { index });
        }
        let own = row.copy()?;
        let (index, _) = self.set.insert_full(own)?;
        Ok(RowId { index })
    }

    /// Whether the row of a place has the same numbers as this one.
    pub fn is_at(&self, id: RowId, row: &BitRow) -> bool
        ensures { IsTrue result ↔ ((r : BitRow) × (slice_get self.now.rows id.index ≡ Some r) × (r.words.items ≡ row.now.words.items)) }
    {
        match self.set.get_index(id.index) {
            Some(kept) => kept.words() == row.words(),
            None => false,
        }
    }

    /// Whether a number is in the row of a place. If there is no row, it is not.
    pub fn has(&self, id: RowId, number: u32) -> bool
        ensures { result ≡ holds_at self.now.rows id.index number }
    {
        match self.set.get_index(id.index) {
            Some(row) => number < self.count && row.has(number),
            None => false,
        }
    }

    /// The row of a place.
    pub fn row(&self, id: RowId) -> Option<&BitRow>
        ensures row { option_copied result ≡ slice_get self.now.rows id.index }
        ensures sized { IfSome result (λ r. r.now.count ≡ self.now.count) }
    {
        self.set.get_index(id.index)
    }
}
