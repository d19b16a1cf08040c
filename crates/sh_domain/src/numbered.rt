//! Names with their numbers, in rising byte order.
ghost use Rattle.std.specs.Prelude.{◌≡◌, true, map, IfOk};
ghost use Rattle.sh_domain.specs.Sheets as text;
ghost use Rattle.sh_domain.specs.Certificates as claims;
ghost use Rattle.sh_domain.specs.Names.{are_distinct};
ghost use Rattle.sh_domain.specs.Numbered.{pair_of, IsByteOrder};

use crate::name_set::NameSet;
use std::alloc::{AllocError, Global};
use std::cmp::Ord;

/// A name and its number.
#[derive(Clone, Copy, Debug)]
pub(crate) struct Numbered<'a> {
    pub name: &'a [u8],
    pub number: u32,
}

/// The numbers of the names, in the rising byte order of these.
///
/// # Errors
///
/// If memory runs out.
pub(crate) fn in_byte_order(alloc: Global, names: &NameSet) -> Result<Vec<u32>, AllocError>
    ensures { IfOk result (λ numbers. IsByteOrder names.now numbers.items) }
{
    let order = in_order(alloc, names)?;
    numbers_of(alloc, &order)
}

fn numbers_of(alloc: Global, order: &[Numbered<'_>]) -> Result<Vec<u32>, AllocError>
    ensures { IfOk result (λ numbers. numbers.items ≡ map (λ n. n.number) order.now) }
{
    let mut numbers = Vec::new(alloc);
    for numbered in order {
        numbers.push(numbered.number)?;
    }
    Ok(numbers)
}

// The names with their numbers, in the order of these.
fn all_of(alloc: Global, names: &NameSet) -> Result<Vec<Numbered<'_>>, AllocError>
    ensures all { IfOk result (λ all. map pair_of all.items ≡ claims.numbered 0 names.now) }
    ensures distinct { are_distinct names.now ≡ true }
{
    let mut all: Vec<Numbered<'_>> = Vec::new(alloc);
    for number in 0..names.count() {
        let name = names.name(number);
        all.push(Numbered { name, number })?;
    }
    Ok(all)
}

fn in_order(alloc: Global, names: &NameSet) -> Result<Vec<Numbered<'_>>, AllocError>
    ensures { IfOk result (λ order. map pair_of order.items ≡ claims.in_byte_order names.now) }
{
    let mut order = all_of(alloc, names)?;
    order.sort_by_key(|numbered| numbered.name)?;
    Ok(order)
}

// Whether the first text comes before the second by their bytes.
pub fn precedes(first: &[u8], second: &[u8]) -> bool
    ensures { result ≡ text.precedes first.now second.now }
{
    first.cmp(second).is_lt()
}
