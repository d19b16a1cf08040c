//! The hash of rows.
ghost use Rattle.std.specs.Prelude.{◌≡◌, fold};
ghost use Rattle.std.specs.Hash as fed;
ghost use Rattle.std.specs.Hash.DefaultHasher as whole;
ghost use Rattle.std.specs.Hash.FoldHasher as default;
ghost use Rattle.sh_domain.specs.RowHash as spec;

use sh_hash::NameHash;
use std::hash::{BuildHasher, DefaultHasher, FoldHasher, Hasher};

const MULTIPLIER: u64 = 0x9e37_79b9_7f4a_7c15;

// By how many bits the state turns with each word.
const TURN: u32 = 23;

/// The kit's default hash, a word at a time, and the state that was before. By the default alone a
/// word that equals the state takes it to 0.
#[derive(Clone, Copy)]
pub struct RowHasher {
    state: u64,
}

/// Makes hashers of rows. Each begins with a state that the hash of the names and all bytes of the
/// certificate decide. So whoever writes rows that collide changes the state, and they collide no
/// longer. It is a hint: no answer depends on it.
#[derive(Clone, Copy)]
pub struct RowHash {
    initial: RowHasher,
}

impl RowHash {
    /// For the rows of a certificate with this text, or of one that is sought, which has none.
    pub fn of(names: NameHash, certificate: &[u8]) -> RowHash
        ensures { result.initial.state ≡ whole.finish (whole.write (fold whole.write whole.initial (fed.u64 (default.finish names.initial))) certificate.now) }
    {
        let mut text = DefaultHasher::new();
        text.write_u64(names.build_hasher().finish());
        text.write(certificate);
        RowHash {
            initial: RowHasher {
                state: text.finish(),
            },
        }
    }
}

impl BuildHasher for RowHash {
    type Hasher = RowHasher;

    ghost build_hasher = { λ h. h.initial };

    fn build_hasher(&self) -> RowHasher {
        self.initial
    }
}

// Eight bytes as a word, the lowest first, and the default hash of others.
#[tactic(auto, unfolding(crate::specs::RowHash::word_of))]
#[inline(always)]
fn word_of(bytes: &[u8]) -> u64
    ensures { result ≡ spec.word_of bytes.now }
{
    if bytes.len() == 8 {
        return u64::from_le_bytes([
            bytes[0], bytes[1], bytes[2], bytes[3], bytes[4], bytes[5], bytes[6], bytes[7],
        ]);
    }
    let mut other = FoldHasher::default();
    other.write(bytes);
    other.finish()
}

// The two halves of a product, joined.
#[inline(always)]
fn folded_multiply(a: u64, b: u64) -> u64
    ensures { result ≡ default.folded_multiply a b }
{
    let product = a as u128 * b as u128;
    (product & 0xFFFF_FFFF_FFFF_FFFF) as u64 ^ (product >> 64) as u64
}

#[tactic(auto, unfolding(crate::specs::RowHash::mixed))]
#[inline(always)]
fn mixed(state: u64, word: u64) -> u64
    ensures { result ≡ spec.mixed state word }
{
    folded_multiply(state ^ word, MULTIPLIER) ^ state.rotate_left(TURN)
}

impl Hasher for RowHasher {
    ghost write = { λ h bytes. record { state = spec.mixed h.state (spec.word_of bytes) } };

    ghost finish = { λ h. h.state };

    #[inline(always)]
    fn finish(&self) -> u64 {
        self.state
    }

    #[inline(always)]
    fn write(&mut self, bytes: &[u8]) {
        self.state = mixed(self.state, word_of(bytes));
    }

    // As `write` of its bytes.
    #[inline(always)]
    fn write_u64(&mut self, word: u64) {
        self.state = mixed(self.state, word);
    }
}
