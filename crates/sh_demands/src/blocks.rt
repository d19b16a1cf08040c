//! The names of a script in byte order, in blocks.
ghost use Rattle.std.specs.Prelude.{◌≡◌, ◌<◌, ◌≤◌, ◌↔◌, ℕ, IsTrue, true, length, map};
ghost use Rattle.std.specs.List.{All};
ghost use Rattle.sh_rows.specs.Numbers.{has_number};
ghost use Rattle.sh_tree.specs.declared.limits.TheConstants.{MAX_NAMES};
ghost use Rattle.sh_domain.specs.Certificates as claims;
ghost use Rattle.sh_domain.specs.Knowledge.{AreNumbered};
ghost use Rattle.sh_domain.specs.Numbered.{pair_in};
ghost use Rattle.sh_domain.specs.NumberSets.{numbers_of};
ghost use Rattle.sh_demands.specs.Blocks.{AreHeld, block_of};
ghost use Rattle.sh_demands.specs.declared.blocks.TheConstants.{BLOCKS};

use sh_domain::{Names, NumberSet};

/// How many blocks there are.
pub const BLOCKS: usize = 64;

/// How many numbers a block has at most.
const BLOCK: usize = 64;

/// The numbers of names in the byte order of these, in blocks. Each block has the set of its
/// numbers, so a block without a number that is sought is passed by at once.
#[derive(Drop)]
pub struct Blocks<'a> {
    pub names: &'a Names,
    numbers: &'a [u32],
    sets: [NumberSet; BLOCKS],
    ghost order: { map (pair_in names.now) numbers.now ≡ claims.in_byte_order names.now },
    ghost below: { All (λ number. number < length names.now) numbers.now },
    ghost held: { AreHeld numbers.now sets },
}

// The numbers of a block.
fn block(numbers: &[u32], index: usize) -> &[u32]
    requires { index < BLOCKS }
    ensures { result.now ≡ block_of index numbers.now }
{
    let start = numbers.len().min(BLOCK * index);
    let end = numbers.len().min(start + BLOCK);
    &numbers[start..end]
}

// The numbers of each block as a set.
fn sets_of(numbers: &[u32]) -> [NumberSet; BLOCKS]
    requires { All (λ n. n < MAX_NAMES) numbers.now }
    ensures { AreHeld numbers.now result }
{
    let mut sets = [NumberSet::new(); BLOCKS];
    for index in 0..BLOCKS {
        sets[index] = NumberSet::of(block(numbers, index));
    }
    sets
}

impl<'a> Blocks<'a> {
    /// Names in blocks.
    pub fn new(names: &'a Names) -> Blocks<'a>
        requires { AreNumbered names.now }
        ensures { result.names.now ≡ names.now }
    {
        let numbers = names.in_byte_order();
        Blocks {
            names,
            numbers,
            sets: sets_of(numbers),
        }
    }

    /// The numbers of a block.
    pub fn get(&self, index: usize) -> &'a [u32]
        requires { index < BLOCKS }
        ensures block { result.now ≡ block_of index self.now.numbers.now }
        ensures below { All (λ number. number < length self.now.names.now) result.now }
    {
        block(self.numbers, index)
    }

    /// Whether each number of a block is in a set.
    pub fn is_within(&self, index: usize, set: &NumberSet) -> bool
        requires { index < BLOCKS }
        ensures { IsTrue result ↔ ((k : ℕ) → has_number k (block_of index self.now.numbers.now) ≡ true → numbers_of set.now k ≡ true) }
    {
        let sets = &self.sets;
        sets[index].is_within(set)
    }
}
