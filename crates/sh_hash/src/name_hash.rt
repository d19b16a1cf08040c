//! The hash of the names of a script.
ghost use Rattle.std.specs.Prelude.{◌≡◌, fold, map};
ghost use Rattle.std.specs.Hash.DefaultHasher as whole;
ghost use Rattle.std.specs.Hash.FoldHasher as folding;
ghost use Rattle.std.specs.Hash as fed;

use std::hash::{BuildHasher, DefaultHasher, FoldHasher, Hasher};

/// Makes hashers of names. Each begins with a state that all bytes of the script decide, and all
/// declared names. So whoever chooses names that collide changes the state, and they collide no
/// longer. It is a hint: no answer depends on it.
#[derive(Clone, Copy)]
pub struct NameHash {
    initial: FoldHasher,
}

// Feeds a hasher each of these names.
fn write_names(texts: &mut DefaultHasher, names: &[Vec<u8>])
    ensures { texts.new ≡ fold whole.write texts.old (map (λ name. name.items) names.now) }
{
    for name in names {
        texts.write(name);
    }
}

impl NameHash {
    /// For the names of a script, and for those that are declared beside it.
    pub fn of(script: &[u8], declared: &[Vec<u8>]) -> NameHash
        ensures { result.initial ≡ fold folding.write folding.initial (fed.u64 (whole.finish (fold whole.write (whole.write whole.initial script.now) (map (λ name. name.items) declared.now)))) }
    {
        let mut texts = DefaultHasher::new();
        texts.write(script);
        write_names(&mut texts, declared);
        let mut initial = FoldHasher::default();
        initial.write_u64(texts.finish());
        NameHash { initial }
    }
}

impl BuildHasher for NameHash {
    type Hasher = FoldHasher;

    ghost build_hasher = { λ h. h.initial };

    fn build_hasher(&self) -> FoldHasher {
        self.initial
    }
}
