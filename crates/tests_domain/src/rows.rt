//! What a certificate keeps: rows, each once, and facts by their numbers.
ghost use Rattle.std.specs.Prelude.{◌≡◌, IfOk};

use indexmap::IndexMap;
use sh_domain::{Certificate, Drops, Entry, Facts, FunctionEntry, RowHash, RowId, Rows};
use sh_hash::NameHash;
use sh_rows::{BitRow, Row};
use std::alloc::{AllocError, Global};
use std::test::Fail;

const COUNT: u32 = 70;

const NOTHING: RowId = RowId { index: 0 };

/// The numbers of a row, and the place that it has among the rows before it.
type Kept = (&'static [u32], usize);

const ROWS: &[Kept] = &[
    (&[], 0),
    (&[0, 63, 64], 1),
    (&[69], 2),
    (&[64, 0, 63], 1),
    (&[], 0),
    (&[0, 64], 3),
];

/// A row of these numbers, if they are below the count.
fn row_of(alloc: Global, count: u32, numbers: &[u32]) -> Result<BitRow, AllocError>
    ensures { IfOk result (λ r. r.count ≡ count) }
{
    let mut row = BitRow::empty(alloc, count)?;
    for number in numbers {
        if *number < count {
            row.add(*number)?;
        }
    }
    Ok(row)
}

/// Keeps a row of these numbers, and reports its place.
fn place_of(alloc: Global, rows: &mut Rows, numbers: &[u32]) -> Result<Option<RowId>, AllocError> {
    if rows.count() != COUNT || rows.len() > 100 {
        return Ok(None);
    }
    let row = row_of(alloc, COUNT, numbers)?;
    let id = rows.intern(&row)?;
    Ok(Some(id))
}

/// The hash of rows without a script or a certificate.
fn hash() -> RowHash {
    RowHash::of(NameHash::of(&[], &[]), &[])
}

#[test]
fn kept_once(rt: HostRuntime) -> Result<(), Fail> {
    let mut rows = Rows::new(rt.alloc(), COUNT, hash());
    for (numbers, index) in ROWS {
        let place = place_of(rt.alloc(), &mut rows, numbers)?;
        assert!(rt; place == Some(RowId { index: *index }));
    }
    assert!(rt; rows.len() == 4);
    assert!(rt; rows.has(RowId { index: 1 }, 63) && !rows.has(RowId { index: 1 }, 62));
    assert!(rt; !rows.has(RowId { index: 4 }, 0) && !rows.has(RowId { index: 0 }, COUNT));
    Ok(())
}

/// The facts of 65,535 commands fit 6 MiB: three of a command in 96 bytes. The rows come beside.
const _: () = prove!(65_535 * size_of::<Entry>() <= 6 << 20);

/// A certificate of one command, which is a loop, and of one function.
fn one_of_each(alloc: Global, known: Facts) -> Result<Certificate, AllocError> {
    let mut certificate = Certificate {
        rows: Rows::new(alloc, COUNT, hash()),
        entries: Vec::new(alloc),
        heads: IndexMap::new(alloc),
        functions: Vec::new(alloc),
    };
    certificate.entries.push(Entry {
        before: known,
        zero: known,
        nonzero: Facts::NotReached,
    })?;
    certificate.heads.insert(1, known)?;
    certificate.functions.push(FunctionEntry {
        before: known,
        drops: Drops {
            vars: NOTHING,
            functions: NOTHING,
        },
        zero: Facts::NotReached,
        nonzero: known,
    })?;
    Ok(certificate)
}

#[test]
fn read_by_numbers(rt: HostRuntime) -> Result<(), Fail> {
    let known = Facts::Known {
        vars: NOTHING,
        functions: NOTHING,
        args: 2,
    };
    let certificate = one_of_each(rt.alloc(), known)?;
    assert!(rt; certificate.entry(1).is_some() && certificate.entry(2).is_none());
    assert!(rt; certificate.head(1) == Some(&known) && certificate.head(2).is_none());
    assert!(rt; certificate.function(1).is_some() && certificate.function(2).is_none());
    Ok(())
}
