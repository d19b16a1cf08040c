//! Each operation of a row, at both rows, through the bound of them.
ghost use Rattle.std.specs.Prelude.{◌≡◌, IfOk};

use sh_rows::{BitRow, NameRow, Row};
use std::alloc::{AllocError, Global};
use std::process::Abort;
use std::test::Fail;

/// Numbers below a count: those of one row and of another, those in both, and those in the first
/// alone. Then whether the first is within the second.
struct Pair {
    count: u32,
    first: &'static [u32],
    second: &'static [u32],
    both: &'static [u32],
    left: &'static [u32],
    is_within: bool,
}

const PAIRS: &[Pair] = &[
    Pair {
        count: 0,
        first: &[],
        second: &[],
        both: &[],
        left: &[],
        is_within: true,
    },
    Pair {
        count: 1,
        first: &[0],
        second: &[],
        both: &[],
        left: &[0],
        is_within: false,
    },
    Pair {
        count: 1,
        first: &[],
        second: &[0],
        both: &[],
        left: &[],
        is_within: true,
    },
    Pair {
        count: 5,
        first: &[4, 0, 2],
        second: &[2, 3, 4, 0],
        both: &[0, 2, 4],
        left: &[],
        is_within: true,
    },
    Pair {
        count: 64,
        first: &[63, 0],
        second: &[63],
        both: &[63],
        left: &[0],
        is_within: false,
    },
    Pair {
        count: 65,
        first: &[64],
        second: &[63, 64],
        both: &[64],
        left: &[],
        is_within: true,
    },
    Pair {
        count: 65,
        first: &[64, 0],
        second: &[0],
        both: &[0],
        left: &[64],
        is_within: false,
    },
    Pair {
        count: 128,
        first: &[127, 64, 63],
        second: &[127, 63, 64, 1],
        both: &[63, 64, 127],
        left: &[],
        is_within: true,
    },
    Pair {
        count: 300,
        first: &[299, 1, 130, 1],
        second: &[130, 2],
        both: &[130],
        left: &[1, 299],
        is_within: false,
    },
    Pair {
        count: 4096,
        first: &[4095, 0, 2048],
        second: &[2048],
        both: &[2048],
        left: &[0, 4095],
        is_within: false,
    },
];

// The row of these numbers, without those that are not below the count.
fn row_of<T: Row + Drop>(alloc: Global, count: u32, numbers: &[u32]) -> Result<T, AllocError>
    ensures { IfOk result (λ r. T.limit r ≡ count) }
{
    let mut row = T::empty(alloc, count)?;
    for number in numbers {
        if *number < count {
            row.add(*number)?;
        }
    }
    Ok(row)
}

// The numbers of a row, rising.
fn numbers_of<T: Row + Drop>(alloc: Global, row: &T, count: u32) -> Result<Vec<u32>, AllocError>
    requires { T.limit row.now ≡ count }
{
    let mut numbers = Vec::new(alloc);
    for number in 0..count {
        if row.has(number) {
            numbers.push(number)?;
        }
    }
    Ok(numbers)
}

fn intersection<T: Row + Drop>(alloc: Global, pair: &Pair) -> Result<Vec<u32>, AllocError> {
    let mut row: T = row_of(alloc, pair.count, pair.first)?;
    let other: T = row_of(alloc, pair.count, pair.second)?;
    row.meet(&other);
    numbers_of(alloc, &row, pair.count)
}

fn difference<T: Row + Drop>(alloc: Global, pair: &Pair) -> Result<Vec<u32>, AllocError> {
    let mut row: T = row_of(alloc, pair.count, pair.first)?;
    let other: T = row_of(alloc, pair.count, pair.second)?;
    row.remove(&other);
    numbers_of(alloc, &row, pair.count)
}

fn is_within<T: Row + Drop>(alloc: Global, pair: &Pair) -> Result<bool, AllocError> {
    let row: T = row_of(alloc, pair.count, pair.first)?;
    let other: T = row_of(alloc, pair.count, pair.second)?;
    let copy = row.copy()?;
    Ok(row.within(&other) && copy.within(&other))
}

fn check_pairs<T: Row + Drop, R: Abort>(rt: &R, alloc: Global, pairs: &[Pair]) -> Result<(), Fail> {
    for pair in pairs {
        let count = pair.count;
        let both = intersection::<T>(alloc, pair)?;
        assert_eq!(rt; both.as_slice(), pair.both, "both of {count}");
        let left = difference::<T>(alloc, pair)?;
        assert_eq!(rt; left.as_slice(), pair.left, "left of {count}");
        let is_within = is_within::<T>(alloc, pair)?;
        assert_eq!(rt; is_within, pair.is_within, "within of {count}");
    }
    Ok(())
}

// What is left below a count if all but zero is taken out, one by one.
fn remainder<T: Row + Drop>(alloc: Global, count: u32) -> Result<Vec<u32>, AllocError> {
    let mut row: T = row_of(alloc, count, &[0, 1, 63, 64, 65, 127, 128, 129])?;
    for number in 1..count {
        row.clear(number);
    }
    numbers_of(alloc, &row, count)
}

fn check_clear<T: Row + Drop, R: Abort>(rt: &R, alloc: Global, count: u32) -> Result<(), Fail> {
    let left = remainder::<T>(alloc, count)?;
    assert_eq!(rt; left.as_slice(), [0].as_slice(), "of {count}");
    Ok(())
}

#[test]
fn pairs_of_numbers(rt: HostRuntime) -> Result<(), Fail> {
    check_pairs::<NameRow, _>(&rt, rt.alloc(), PAIRS)
}

#[test]
fn pairs_of_bits(rt: HostRuntime) -> Result<(), Fail> {
    check_pairs::<BitRow, _>(&rt, rt.alloc(), PAIRS)
}

#[test]
fn numbers_taken_out(rt: HostRuntime) -> Result<(), Fail> {
    check_clear::<NameRow, _>(&rt, rt.alloc(), 200)
}

#[test]
fn bits_taken_out(rt: HostRuntime) -> Result<(), Fail> {
    check_clear::<BitRow, _>(&rt, rt.alloc(), 200)
}
