//! Sets of bits in words: what a row of bits does to another, mostly four words at a time. Each
//! kernel does to each word what its first clause says, whatever the lengths: past its end a slice
//! has words of zeros. The second clause says it of the bits.
ghost use Rattle.std.specs.Prelude.{◌≡◌, ◌+◌, ◌-◌, ◌/◌, ◌<◌, ◌≤◌, ◌&&◌, ◌||◌, ◌==◌, ◌↔◌, ℕ, true, not, nat_lt, length, bit_and, bit_or, slice_index, IsTrue, IfSome, IfNone, IfOk, replicate};
ghost use Rattle.sh_rows.specs.Numbers.{has_bit};
ghost use Rattle.sh_rows.specs.Words.{without, IsMixed, AllWithin};

use std::alloc::{AllocError, Global};
use std::simd::prelude::*;

/// Words with no bit set.
///
/// # Errors
///
/// `AllocError` if a growth was refused.
pub fn zeros(alloc: Global, length: usize) -> Result<Vec<u64>, AllocError>
    ensures { IfOk result (λ words. words.items ≡ replicate length 0) }
{
    vec![in alloc; 0u64; length]
}

/// Whether bit `n` is set.
pub fn is_set(words: &[u64], n: u32) -> bool
    requires { n / 64 < length words.now }
    ensures { result ≡ has_bit n words.now }
{
    (words[n as usize / 64] >> (n % 64)) & 1 == 1
}

/// Sets bit `n`.
pub fn set(words: &mut [u64], n: u32)
    requires { n / 64 < length words.old }
    ensures { (k : ℕ) → has_bit k words.new ≡ (k == n || has_bit k words.old) }
{
    words[n as usize / 64] |= 1u64 << (n % 64);
}

/// Unsets bit `n`.
pub fn unset(words: &mut [u64], n: u32)
    requires { n / 64 < length words.old }
    ensures { (k : ℕ) → has_bit k words.new ≡ (not (k == n) && has_bit k words.old) }
{
    words[n as usize / 64] &= !(1u64 << (n % 64));
}

/// Unsets each bit that is not set in `other`.
pub fn meet_words(words: &mut [u64], other: &[u64])
    ensures words { (k : ℕ) → slice_index words.new k ≡ bit_and (slice_index words.old k) (slice_index other.now k) }
    ensures bits { (k : ℕ) → has_bit k words.new ≡ (has_bit k other.now && has_bit k words.old) }
{
    let shared = words.len().min(other.len());
    let beside = &other[..shared];
    let at = meet_blocks(words, beside);
    meet_rest(words, at, beside);
    zero_rest(words, shared);
}

// The words that have whole blocks of the others beside them, and how many.
fn meet_blocks(words: &mut [u64], other: &[u64]) -> usize
    requires { length other.now ≤ length words.old }
    ensures count { result ≤ length other.now }
    ensures words { IsMixed bit_and words.old words.new (λ k. slice_index other.now k) 0 result }
{
    let (blocks, _) = other.as_chunks::<4>();
    let mut at: usize = 0;
    for block in blocks {
        meet_block(words, at, block);
        at += 4;
    }
    at
}

// Four words from `at` on.
fn meet_block(words: &mut [u64], at: usize, block: &[u64; 4])
    requires { at + 4 ≤ length words.old }
    ensures { IsMixed bit_and words.old words.new (λ k. slice_index block.now (k - at)) at (at + 4) }
{
    let a = u64x4::from_slice(&words[at..]);
    let b = u64x4::from_array(*block);
    (a & b).copy_to_slice(&mut words[at..]);
}

// The words from `from` on that have one beside them.
fn meet_rest(words: &mut [u64], from: usize, other: &[u64])
    requires { (from ≤ length other.now) × (length other.now ≤ length words.old) }
    ensures { IsMixed bit_and words.old words.new (λ k. slice_index other.now k) from (length other.now) }
{
    for at in from..other.len() {
        words[at] &= other[at];
    }
}

// No bit is left from word `from` on.
fn zero_rest(words: &mut [u64], from: usize)
    requires { from ≤ length words.old }
    ensures { IsMixed bit_and words.old words.new (λ _. 0) from (length words.old) }
{
    for at in from..words.len() {
        words[at] = 0;
    }
}

/// Unsets each bit that is set in `other`.
pub fn remove_words(words: &mut [u64], other: &[u64])
    ensures words { (k : ℕ) → slice_index words.new k ≡ without (slice_index words.old k) (slice_index other.now k) }
    ensures bits { (k : ℕ) → has_bit k words.new ≡ (not (has_bit k other.now) && has_bit k words.old) }
{
    let shared = words.len().min(other.len());
    let beside = &other[..shared];
    let at = remove_blocks(words, beside);
    remove_rest(words, at, beside);
}

// The words that have whole blocks of the others beside them, and how many.
fn remove_blocks(words: &mut [u64], other: &[u64]) -> usize
    requires { length other.now ≤ length words.old }
    ensures count { result ≤ length other.now }
    ensures words { IsMixed without words.old words.new (λ k. slice_index other.now k) 0 result }
{
    let (blocks, _) = other.as_chunks::<4>();
    let mut at: usize = 0;
    for block in blocks {
        remove_block(words, at, block);
        at += 4;
    }
    at
}

// Four words from `at` on.
fn remove_block(words: &mut [u64], at: usize, block: &[u64; 4])
    requires { at + 4 ≤ length words.old }
    ensures { IsMixed without words.old words.new (λ k. slice_index block.now (k - at)) at (at + 4) }
{
    let a = u64x4::from_slice(&words[at..]);
    let b = u64x4::from_array(*block);
    (a & !b).copy_to_slice(&mut words[at..]);
}

// The words from `from` on that have one beside them.
fn remove_rest(words: &mut [u64], from: usize, other: &[u64])
    requires { (from ≤ length other.now) × (length other.now ≤ length words.old) }
    ensures { IsMixed without words.old words.new (λ k. slice_index other.now k) from (length other.now) }
{
    for at in from..other.len() {
        words[at] &= !other[at];
    }
}

/// Sets each bit that is set in `other`, in the words that there are.
pub fn join_words(words: &mut [u64], other: &[u64])
    ensures words { (k : ℕ) → k < length words.old → slice_index words.new k ≡ bit_or (slice_index words.old k) (slice_index other.now k) }
    ensures bits { (k : ℕ) → k / 64 < length words.old → has_bit k words.new ≡ (has_bit k other.now || has_bit k words.old) }
{
    let shared = words.len().min(other.len());
    join_front(words, &other[..shared]);
}

// The words that have others beside them.
fn join_front(words: &mut [u64], other: &[u64])
    requires { length other.now ≤ length words.old }
    ensures { IsMixed bit_or words.old words.new (λ k. slice_index other.now k) 0 (length other.now) }
{
    let at = join_blocks(words, other);
    join_rest(words, at, other);
}

// The words that have whole blocks of the others beside them, and how many.
fn join_blocks(words: &mut [u64], other: &[u64]) -> usize
    requires { length other.now ≤ length words.old }
    ensures count { result ≤ length other.now }
    ensures words { IsMixed bit_or words.old words.new (λ k. slice_index other.now k) 0 result }
{
    let (blocks, _) = other.as_chunks::<4>();
    let mut at: usize = 0;
    for block in blocks {
        join_block(words, at, block);
        at += 4;
    }
    at
}

// Four words from `at` on.
fn join_block(words: &mut [u64], at: usize, block: &[u64; 4])
    requires { at + 4 ≤ length words.old }
    ensures { IsMixed bit_or words.old words.new (λ k. slice_index block.now (k - at)) at (at + 4) }
{
    let a = u64x4::from_slice(&words[at..]);
    let b = u64x4::from_array(*block);
    (a | b).copy_to_slice(&mut words[at..]);
}

// The words from `from` on that have one beside them.
fn join_rest(words: &mut [u64], from: usize, other: &[u64])
    requires { (from ≤ length other.now) × (length other.now ≤ length words.old) }
    ensures { IsMixed bit_or words.old words.new (λ k. slice_index other.now k) from (length other.now) }
{
    for at in from..other.len() {
        words[at] |= other[at];
    }
}

/// Makes the words those of `other`, and zeros past its end.
pub fn copy_words(words: &mut [u64], other: &[u64])
    ensures words { (k : ℕ) → k < length words.old → slice_index words.new k ≡ slice_index other.now k }
    ensures bits { (k : ℕ) → has_bit k words.new ≡ (nat_lt (k / 64) (length words.old) && has_bit k other.now) }
{
    let shared = words.len().min(other.len());
    words[..shared].copy_from_slice(&other[..shared]);
    zero_rest(words, shared);
}

/// Whether each set bit is set in `other`.
pub fn within_words(words: &[u64], other: &[u64]) -> bool
    ensures words { IsTrue result ↔ ((k : ℕ) → without (slice_index words.now k) (slice_index other.now k) ≡ 0) }
    ensures bits { IsTrue result ↔ ((k : ℕ) → has_bit k words.now ≡ true → has_bit k other.now ≡ true) }
{
    let shared = words.len().min(other.len());
    match blocks_within(words, &other[..shared]) {
        Some(at) => is_rest_within(words, at, other),
        None => false,
    }
}

// How many words have whole blocks of the others beside them, if each of these words is within.
fn blocks_within(words: &[u64], other: &[u64]) -> Option<usize>
    requires { length other.now ≤ length words.now }
    ensures some { IfSome result (λ at. AllWithin words.now (λ k. slice_index other.now k) 0 at) }
    ensures count { IfSome result (λ at. at ≤ length other.now) }
    ensures none { IfNone result (¬ (AllWithin words.now (λ k. slice_index other.now k) 0 (length other.now))) }
{
    let (blocks, _) = other.as_chunks::<4>();
    let mut at: usize = 0;
    for block in blocks {
        if is_block_within(words, at, block) {
            at += 4;
        } else {
            return None;
        }
    }
    Some(at)
}

// Whether four words from `at` on are.
fn is_block_within(words: &[u64], at: usize, block: &[u64; 4]) -> bool
    requires { at + 4 ≤ length words.now }
    ensures { IsTrue result ↔ AllWithin words.now (λ k. slice_index block.now (k - at)) at (at + 4) }
{
    let a = u64x4::from_slice(&words[at..]);
    let b = u64x4::from_array(*block);
    (a & !b).reduce_or() == 0
}

// Whether the words from `from` on are.
fn is_rest_within(words: &[u64], from: usize, other: &[u64]) -> bool
    ensures { IsTrue result ↔ AllWithin words.now (λ k. slice_index other.now k) from (length words.now) }
{
    for at in from..words.len() {
        let beside = if at < other.len() { other[at] } else { 0 };
        if words[at] & !beside != 0 {
            return false;
        }
    }
    true
}

/// Unsets each bit that is not set in `other`. Both have 64 words, which are met at once.
pub fn meet_sets(words: &mut [u64], other: &[u64])
    requires { (length words.old ≡ 64) × (length other.now ≡ 64) }
    ensures { (k : ℕ) → has_bit k words.new ≡ (has_bit k other.now && has_bit k words.old) }
{
    let met = u64x64::from_slice(words) & u64x64::from_slice(other);
    met.copy_to_slice(words);
}

/// Unsets each bit that is set in `other`. Both have 64 words.
pub fn remove_sets(words: &mut [u64], other: &[u64])
    requires { (length words.old ≡ 64) × (length other.now ≡ 64) }
    ensures { (k : ℕ) → has_bit k words.new ≡ (not (has_bit k other.now) && has_bit k words.old) }
{
    let left = u64x64::from_slice(words) & !u64x64::from_slice(other);
    left.copy_to_slice(words);
}

/// Whether each set bit is set in `other`. Both have 64 words.
pub fn is_set_within(words: &[u64], other: &[u64]) -> bool
    requires { (length words.now ≡ 64) × (length other.now ≡ 64) }
    ensures { IsTrue result ↔ ((k : ℕ) → has_bit k words.now ≡ true → has_bit k other.now ≡ true) }
{
    let past = u64x64::from_slice(words) & !u64x64::from_slice(other);
    past.reduce_or() == 0
}
