//! Each kernel beside the plain loop over single words, at lengths round a block of four words.
use sh_rows::{join_words, meet_words, remove_words, within_words};
use std::alloc::{AllocError, Global};
use std::process::Abort;
use std::test::Fail;

/// How many words are on each side.
type Lengths = (usize, usize);

const EQUAL: &[Lengths] = &[
    (0, 0),
    (1, 1),
    (2, 2),
    (3, 3),
    (4, 4),
    (5, 5),
    (6, 6),
    (7, 7),
    (8, 8),
    (9, 9),
    (10, 10),
    (11, 11),
    (12, 12),
    (13, 13),
    (14, 14),
    (15, 15),
    (16, 16),
    (17, 17),
    (64, 64),
];

const UNEQUAL: &[Lengths] = &[
    (0, 5),
    (5, 0),
    (4, 5),
    (5, 4),
    (3, 17),
    (17, 3),
    (16, 64),
    (64, 16),
];

// A word with some 32 bits, at places that follow no rule.
fn scattered(seed: u64, place: u64) -> u64 {
    (seed ^ place)
        .wrapping_mul(0x9e37_79b9_7f4a_7c15)
        .rotate_left(29)
        .wrapping_mul(0xbf58_476d_1ce4_e5b9)
}

fn words(alloc: Global, seed: u64, length: usize) -> Result<Vec<u64>, AllocError> {
    let mut words = Vec::new(alloc);
    for place in 0..length as u64 {
        words.push(scattered(seed, place))?;
    }
    Ok(words)
}

fn word(words: &[u64], at: usize) -> u64 {
    words.get(at).copied().unwrap_or(0)
}

// Where the first word is that was not met as it should be.
fn wrong_met(alloc: Global, lengths: Lengths) -> Result<Option<usize>, AllocError> {
    let old = words(alloc, 3, lengths.0)?;
    let other = words(alloc, 5, lengths.1)?;
    let mut met = words(alloc, 3, lengths.0)?;
    meet_words(&mut met, &other);
    Ok((0..lengths.0).find(|at| word(&met, *at) != word(&old, *at) & word(&other, *at)))
}

fn wrong_left(alloc: Global, lengths: Lengths) -> Result<Option<usize>, AllocError> {
    let old = words(alloc, 3, lengths.0)?;
    let other = words(alloc, 5, lengths.1)?;
    let mut left = words(alloc, 3, lengths.0)?;
    remove_words(&mut left, &other);
    Ok((0..lengths.0).find(|at| word(&left, *at) != word(&old, *at) & !word(&other, *at)))
}

fn wrong_joined(alloc: Global, lengths: Lengths) -> Result<Option<usize>, AllocError> {
    let old = words(alloc, 3, lengths.0)?;
    let other = words(alloc, 5, lengths.1)?;
    let mut joined = words(alloc, 3, lengths.0)?;
    join_words(&mut joined, &other);
    Ok((0..lengths.0).find(|at| word(&joined, *at) != word(&old, *at) | word(&other, *at)))
}

// Whether the words are still within the others with one more bit at each place, which they are
// not.
fn is_one_more_within(part: &mut [u64], other: &[u64], at: usize) -> bool {
    if at >= part.len() || word(other, at) == u64::MAX {
        return false;
    }
    let was = part[at];
    part[at] = was | !word(other, at);
    let is_within = within_words(part, other);
    part[at] = was;
    is_within
}

fn wrong_within(alloc: Global, lengths: Lengths) -> Result<Option<usize>, AllocError> {
    let other = words(alloc, 5, lengths.1)?;
    let mut part = words(alloc, 3, lengths.0)?;
    meet_words(&mut part, &other);
    if !within_words(&part, &other) {
        return Ok(Some(lengths.0));
    }
    for at in 0..lengths.0 {
        if is_one_more_within(&mut part, &other, at) {
            return Ok(Some(at));
        }
    }
    Ok(None)
}

fn check_meet(rt: &impl Abort, alloc: Global, rows: &[Lengths]) -> Result<(), Fail> {
    for lengths in rows {
        let wrong = wrong_met(alloc, *lengths)?;
        assert_eq!(rt; wrong, None, "{lengths:?}");
    }
    Ok(())
}

fn check_remove(rt: &impl Abort, alloc: Global, rows: &[Lengths]) -> Result<(), Fail> {
    for lengths in rows {
        let wrong = wrong_left(alloc, *lengths)?;
        assert_eq!(rt; wrong, None, "{lengths:?}");
    }
    Ok(())
}

fn check_join(rt: &impl Abort, alloc: Global, rows: &[Lengths]) -> Result<(), Fail> {
    for lengths in rows {
        let wrong = wrong_joined(alloc, *lengths)?;
        assert_eq!(rt; wrong, None, "{lengths:?}");
    }
    Ok(())
}

fn check_within(rt: &impl Abort, alloc: Global, rows: &[Lengths]) -> Result<(), Fail> {
    for lengths in rows {
        let wrong = wrong_within(alloc, *lengths)?;
        assert_eq!(rt; wrong, None, "{lengths:?}");
    }
    Ok(())
}

#[test]
fn meet_of_equal_lengths(rt: HostRuntime) -> Result<(), Fail> {
    check_meet(&rt, rt.alloc(), EQUAL)
}

#[test]
fn meet_of_unequal_lengths(rt: HostRuntime) -> Result<(), Fail> {
    check_meet(&rt, rt.alloc(), UNEQUAL)
}

#[test]
fn join_of_equal_lengths(rt: HostRuntime) -> Result<(), Fail> {
    check_join(&rt, rt.alloc(), EQUAL)
}

#[test]
fn join_of_unequal_lengths(rt: HostRuntime) -> Result<(), Fail> {
    check_join(&rt, rt.alloc(), UNEQUAL)
}

#[test]
fn remove_of_equal_lengths(rt: HostRuntime) -> Result<(), Fail> {
    check_remove(&rt, rt.alloc(), EQUAL)
}

#[test]
fn remove_of_unequal_lengths(rt: HostRuntime) -> Result<(), Fail> {
    check_remove(&rt, rt.alloc(), UNEQUAL)
}

#[test]
fn within_at_equal_lengths(rt: HostRuntime) -> Result<(), Fail> {
    check_within(&rt, rt.alloc(), EQUAL)
}

#[test]
fn within_at_unequal_lengths(rt: HostRuntime) -> Result<(), Fail> {
    check_within(&rt, rt.alloc(), UNEQUAL)
}
