//! What is set when a script starts.
ghost use Rattle.std.specs.Prelude.{◌≡◌, ◌<◌, true, not, length, map, position, IfOk, OnErr};
ghost use Rattle.std.specs.List.{list_all};
ghost use Rattle.sh_tree.specs.standard.language.Bytes as bytes;

use sh_tree::is_name;
use std::alloc::{AllocError, AllocFailed, Global};
use std::marker::Model;
use thiserror::Error;

/// Why there is no policy.
#[derive(Clone, Copy, Debug, PartialEq, Eq, Error)]
pub enum PolicyFault {
    /// The text of this index, from 0, is no name.
    #[error("text {0} is no name")]
    BadName(usize),
    /// Memory was refused.
    #[error("out of memory")]
    Memory,
}

impl From<AllocError> for PolicyFault {
    ghost use Rattle.sh_domain.specs.declared.policy.PolicyFault.TheVariants.{Memory};

    ghost from_gives = { λ _ e. e ≡ Memory };

    fn from(_error: AllocError) -> PolicyFault {
        PolicyFault::Memory
    }
}

impl<T: Drop> From<AllocFailed<T>> for PolicyFault {
    ghost use Rattle.sh_domain.specs.declared.policy.PolicyFault.TheVariants.{Memory};

    ghost from_gives = { λ _ e. e ≡ Memory };

    fn from(_error: AllocFailed<T>) -> PolicyFault {
        PolicyFault::Memory
    }
}

/// The names that are set when a script starts, and how many positional parameters it has at least.
#[derive(Debug, Drop)]
pub struct Policy {
    names: Vec<Vec<u8>>,
    args: u16,
}

impl Model for Policy {
    ghost use Rattle.std.specs.Prelude.{◌≡◌, true, map};
    ghost use Rattle.std.specs.List.{list_all};
    ghost use Rattle.sh_tree.specs.standard.language.Bytes as bytes;
    ghost use Rattle.sh_domain.specs.Facts.{Declared};

    ghost Value = { Declared };

    ghost view = { λ p. record { names = map (λ v. v.items) p.names.items; args = p.args } };

    ghost invariant = { λ p. list_all bytes.is_name (map (λ v. v.items) p.names.items) ≡ true };
}

impl Policy {
    ghost use Rattle.sh_domain.specs.Policy.{Makes};

    /// The policy of these names, in their order, and of so many positional parameters.
    ///
    /// # Errors
    ///
    /// `BadName` with the index of the first text that is no name, whatever memory there is.
    /// `Memory` if a growth was refused, which requires a name.
    #[tactic(auto, using(crate::proofs::PolicyLemmas::first_bad_mapped, crate::proofs::PolicyLemmas::copies_named))]
    pub fn new(alloc: Global, names: &[&[u8]], args: u16) -> Result<Policy, PolicyFault>
        ensures { Makes (map (λ s. s.now) names.now) args result }
    {
        match first_bad(names) {
            Some(index) => Err(PolicyFault::BadName(index)),
            None => {
                let names = copies_of(alloc, names)?;
                Ok(Policy { names, args })
            }
        }
    }

    /// The declared names, as they were given. Each is a name (XBD 3.216).
    pub fn names(&self) -> &[Vec<u8>]
        ensures texts { map (λ v. v.items) result.now ≡ self.now.names }
        ensures named { list_all bytes.is_name self.now.names ≡ true }
    {
        &self.names
    }

    /// How many positional parameters there are at least.
    pub fn args(&self) -> u16
        ensures { result ≡ self.now.args }
    {
        self.args
    }
}

fn first_bad(texts: &[&[u8]]) -> Option<usize>
    ensures { result ≡ position (λ s. not (bytes.is_name s.now)) texts.now }
{
    texts.iter().position(|text| !is_name(text))
}

fn copies_of(alloc: Global, texts: &[&[u8]]) -> Result<Vec<Vec<u8>>, AllocError>
    ensures copies { IfOk result (λ v. map (λ t. t.items) v.items ≡ map (λ s. s.now) texts.now) }
    ensures memory { OnErr result (0 < length texts.now) }
{
    let mut copies = Vec::with_capacity(alloc, texts.len())?;
    for text in texts {
        copies.push(Vec::from_slice(alloc, text)?)?;
    }
    Ok(copies)
}
