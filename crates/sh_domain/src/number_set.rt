//! Sets of the numbers of names, which are on the stack and take no memory.
ghost use Rattle.std.specs.Prelude.{◌≡◌, ◌<◌, ◌≤◌, ◌*◌, ◌&&◌, ◌||◌, ◌==◌, ◌↔◌, ℕ, List, true, false, not, length, map, nat_lt, IsTrue};
ghost use Rattle.std.specs.List.{All, list_all};
ghost use Rattle.std.specs.Str.{bytes_eq};
ghost use Rattle.sh_rows.specs.Numbers.{has_number};
ghost use Rattle.sh_tree.specs.declared.limits.TheConstants.{MAX_NAMES};
ghost use Rattle.sh_tree.specs.standard.program.Syntax.{Text};
ghost use Rattle.sh_runs.specs.standard.runs.Environment.{is_one_of};
ghost use Rattle.sh_domain.specs.Certificates.{in_byte_order, names_at};
ghost use Rattle.sh_domain.specs.KeptRows.{holds_at};
ghost use Rattle.sh_domain.specs.Knowledge.{AreNumbered, contains};
ghost use Rattle.sh_domain.specs.NumberSets.{numbers_of};

use crate::names::Names;
use crate::rows::{RowId, Rows};
use sh_rows::{
    is_set, is_set_within, join_words, meet_sets, remove_sets, remove_words, set, unset,
    within_words,
};

/// Numbers below `MAX_NAMES`: number n is bit n modulo 64 of word n divided by 64.
#[derive(Clone, Copy, Debug, PartialEq, Eq)]
pub struct NumberSet {
    words: [u64; 64],
}

impl NumberSet {
    /// No numbers.
    pub fn new() -> NumberSet
        ensures names { (names : List Text) (t : Text) → contains names result t ≡ false }
        ensures numbers { (k : ℕ) → numbers_of result k ≡ false }
    {
        NumberSet { words: [0; 64] }
    }

    /// These numbers.
    pub fn of(numbers: &[u32]) -> NumberSet
        requires { All (λ n. n < MAX_NAMES) numbers.now }
        ensures { (k : ℕ) → numbers_of result k ≡ has_number k numbers.now }
    {
        let mut set = NumberSet::new();
        set.add_all(numbers);
        set
    }

    /// All numbers below a count.
    pub fn below(count: u32) -> NumberSet
        requires { count ≤ MAX_NAMES }
        ensures { (k : ℕ) → numbers_of result k ≡ nat_lt k count }
    {
        let full = (count / 64) as usize;
        let mut set = NumberSet::of_words(full);
        if full < 64 {
            set.words[full] = (1u64 << (count % 64)) - 1;
        }
        set
    }

    // All numbers of so many words.
    fn of_words(count: usize) -> NumberSet
        requires { count ≤ 64 }
        ensures { (k : ℕ) → numbers_of result k ≡ nat_lt k (64 * count) }
    {
        let mut set = NumberSet::new();
        for at in 0..count {
            set.words[at] = u64::MAX;
        }
        set
    }

    /// The words: number n is bit n modulo 64 of word n divided by 64.
    pub fn words(&self) -> &[u64]
        ensures { result.now ≡ self.now.words }
    {
        &self.words
    }

    /// Whether a number is in the set.
    pub fn has(&self, n: u32) -> bool
        requires { n < MAX_NAMES }
        ensures { result ≡ numbers_of self.now n }
    {
        is_set(&self.words, n)
    }

    /// Adds a number.
    pub fn add(&mut self, n: u32)
        requires { n < MAX_NAMES }
        ensures { (k : ℕ) → numbers_of self.new k ≡ (k == n || numbers_of self.old k) }
    {
        set(&mut self.words, n);
    }

    /// Takes a number out.
    pub fn clear(&mut self, n: u32)
        requires { n < MAX_NAMES }
        ensures { (k : ℕ) → numbers_of self.new k ≡ (not (k == n) && numbers_of self.old k) }
    {
        unset(&mut self.words, n);
    }

    /// Adds these numbers.
    pub fn add_all(&mut self, numbers: &[u32])
        requires { All (λ n. n < MAX_NAMES) numbers.now }
        ensures { (k : ℕ) → numbers_of self.new k ≡ (has_number k numbers.now || numbers_of self.old k) }
    {
        for n in numbers {
            self.add(*n);
        }
    }

    /// Takes these numbers out.
    pub fn remove_all(&mut self, numbers: &[u32])
        requires { All (λ n. n < MAX_NAMES) numbers.now }
        ensures { (k : ℕ) → numbers_of self.new k ≡ (not (has_number k numbers.now) && numbers_of self.old k) }
    {
        for n in numbers {
            self.clear(*n);
        }
    }

    /// Takes out the numbers that are not in another set.
    pub fn meet(&mut self, other: &NumberSet)
        ensures { (k : ℕ) → numbers_of self.new k ≡ (numbers_of other.now k && numbers_of self.old k) }
    {
        meet_sets(&mut self.words, &other.words);
    }

    /// Takes out the numbers of another set.
    pub fn remove(&mut self, other: &NumberSet)
        ensures { (k : ℕ) → numbers_of self.new k ≡ (not (numbers_of other.now k) && numbers_of self.old k) }
    {
        remove_sets(&mut self.words, &other.words);
    }

    /// Whether each number of the set is in another.
    pub fn is_within(&self, other: &NumberSet) -> bool
        ensures { IsTrue result ↔ ((k : ℕ) → numbers_of self.now k ≡ true → numbers_of other.now k ≡ true) }
    {
        is_set_within(&self.words, &other.words)
    }
}

// By names
impl NumberSet {
    /// Whether a name is in the set, which a name without a number never is.
    pub fn has_name(&self, names: &Names, name: &[u8]) -> bool
        ensures { result ≡ contains names.now self.now name.now }
    {
        match names.number(name) {
            Some(number) => self.has(number),
            None => false,
        }
    }

    /// Adds a name, if it has a number.
    pub fn add_name(&mut self, names: &Names, name: &[u8])
        ensures { (t : Text) → contains names.now self.new t ≡ (is_one_of names.now t && (bytes_eq name.now t || contains names.now self.old t)) }
    {
        if let Some(number) = names.number(name) {
            self.add(number);
        }
    }

    /// Takes a name out.
    pub fn remove_name(&mut self, names: &Names, name: &[u8])
        ensures { (t : Text) → contains names.now self.new t ≡ (contains names.now self.old t && not (bytes_eq name.now t)) }
    {
        if let Some(number) = names.number(name) {
            self.clear(number);
        }
    }

    /// Adds those of the texts that have numbers.
    pub fn add_names(&mut self, names: &Names, texts: &[Vec<u8>])
        ensures { (t : Text) → contains names.now self.new t ≡ (is_one_of names.now t && (is_one_of (map (λ v. v.items) texts.now) t || contains names.now self.old t)) }
    {
        for text in texts {
            self.add_name(names, text);
        }
    }
}

// By the rows of a certificate
impl NumberSet {
    /// Takes out the numbers that are not in the row of a place.
    pub fn meet_row(&mut self, rows: &Rows, id: RowId)
        ensures { (k : ℕ) → numbers_of self.new k ≡ (holds_at rows.now.rows id.index k && numbers_of self.old k) }
    {
        let beside = NumberSet::of_row(rows, id);
        self.meet(&beside);
    }

    /// Takes out the numbers of the row of a place.
    pub fn remove_row(&mut self, rows: &Rows, id: RowId)
        ensures { (k : ℕ) → numbers_of self.new k ≡ (not (holds_at rows.now.rows id.index k) && numbers_of self.old k) }
    {
        if let Some(row) = rows.row(id) {
            remove_words(&mut self.words, row.words());
        }
    }

    /// Adds the numbers of the row of a place, of those below `MAX_NAMES`.
    pub fn join_row(&mut self, rows: &Rows, id: RowId)
        ensures below { (k : ℕ) → k < MAX_NAMES → numbers_of self.new k ≡ (holds_at rows.now.rows id.index k || numbers_of self.old k) }
        ensures all { rows.now.count ≤ MAX_NAMES → (k : ℕ) → numbers_of self.new k ≡ (holds_at rows.now.rows id.index k || numbers_of self.old k) }
    {
        if let Some(row) = rows.row(id) {
            join_words(&mut self.words, row.words());
        }
    }

    // The numbers of the row of a place, of those below `MAX_NAMES`.
    fn of_row(rows: &Rows, id: RowId) -> NumberSet
        ensures { (k : ℕ) → k < MAX_NAMES → numbers_of result k ≡ holds_at rows.now.rows id.index k }
    {
        let mut set = NumberSet::new();
        set.join_row(rows, id);
        set
    }

    /// Becomes the set of the numbers of the row of a place, of those below `MAX_NAMES`.
    pub fn set_row(&mut self, rows: &Rows, id: RowId)
        ensures { (k : ℕ) → k < MAX_NAMES → numbers_of self.new k ≡ holds_at rows.now.rows id.index k }
    {
        *self = NumberSet::of_row(rows, id);
    }

    /// Whether each number of the set is in the row of a place.
    pub fn is_in_row(&self, rows: &Rows, id: RowId) -> bool
        ensures { IsTrue result ↔ ((k : ℕ) → numbers_of self.now k ≡ true → holds_at rows.now.rows id.index k ≡ true) }
    {
        let beside = NumberSet::of_row(rows, id);
        self.is_within(&beside)
    }

    /// Whether each number of the row of a place is in the set, and so each of its names.
    pub fn includes(&self, rows: &Rows, id: RowId) -> bool
        ensures numbers { IsTrue result ↔ ((k : ℕ) → holds_at rows.now.rows id.index k ≡ true → numbers_of self.now k ≡ true) }
        ensures names { (names : List Text) → AreNumbered names → rows.now.count ≡ length names
            → result ≡ list_all (contains names self.now) (names_at (in_byte_order names) rows.now id) }
    {
        match rows.row(id) {
            Some(row) => within_words(row.words(), &self.words),
            None => true,
        }
    }
}
