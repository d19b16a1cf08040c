//! The names of a script, each with a number.
ghost use Rattle.std.specs.Prelude.{◌≡◌, ◌<◌, true, length, map, Some, slice_get, IfSome};
ghost use Rattle.std.specs.List.{All};
ghost use Rattle.sh_domain.specs.Certificates as claims;
ghost use Rattle.sh_domain.specs.Names.{are_distinct, Numbers, number_of};
ghost use Rattle.sh_domain.specs.Numbered.{pair_in};

use crate::name_set::NameSet;
use crate::numbered::in_byte_order;
use crate::policy::Policy;
use sh_hash::NameHash;
use sh_tree::{MAX_NAMES, Refusal, Script};
use std::alloc::Global;
use std::marker::Model;

/// The names of a script: those that every script has, those of its policy and those in its text.
/// They are numbered from 0, in the order in which they are first seen. The number of `!` is kept,
/// since each asynchronous item sets it.
#[derive(Debug, Drop)]
pub struct Names {
    set: NameSet,
    order: Vec<u32>,
    job: Option<u32>,
}

impl Model for Names {
    ghost use Rattle.std.specs.Prelude.{List, ℕ};
    ghost use Rattle.sh_domain.specs.Numbered.{AreKept};

    ghost Value = { List (List ℕ) };

    ghost view = { λ n. n.set };

    ghost invariant = { λ n. AreKept n.set n.order.items n.job };
}

impl Names {
    /// The names of a script, which was read from these bytes. First are IFS, OPTIND, PPID, OPTARG
    /// and `!`, then the policy's, then those in the text, by their offsets. Those in the text are
    /// of parameters, assignments, arithmetic, `for` and definitions, and of the operands of
    /// `export` and `readonly` in assignment form. Operands by which `unset`, `read` and `getopts`
    /// name them count too.
    ///
    /// # Errors
    ///
    /// `TooMany` if there are more than `MAX_NAMES`; `Memory` if a growth was refused.
    pub fn new(
        alloc: Global,
        tree: &Script,
        script: &[u8],
        policy: &Policy,
    ) -> Result<Names, Refusal>
        ensures { Numbers script.now tree.now policy.now result }
    {
        let set = NameSet::new(alloc, tree, script, policy)?;
        let order = in_byte_order(alloc, &set)?;
        let job = set.number(b"!");
        Ok(Names { set, order, job })
    }

    /// What the names hash by. It is a hint: no answer depends on it.
    pub fn hash(&self) -> NameHash {
        self.set.hash()
    }

    /// How many names there are. No name is there twice.
    pub fn count(&self) -> u32
        ensures count { result ≡ length self.now }
        ensures distinct { are_distinct self.now ≡ true }
    {
        self.set.count()
    }

    /// The name of a number.
    pub fn name(&self, number: u32) -> &[u8]
        requires { number < length self.now }
        ensures { slice_get self.now number ≡ Some result.now }
    {
        self.set.name(number)
    }

    /// The number of a name, if it is one of these.
    pub fn number(&self, name: &[u8]) -> Option<u32>
        ensures number { result ≡ number_of self.now name.now }
        ensures below { IfSome result (λ n. n < MAX_NAMES) }
    {
        if name == b"!".as_slice() {
            return self.job;
        }
        self.set.number(name)
    }

    /// The numbers in the rising byte order of their names.
    pub fn in_byte_order(&self) -> &[u32]
        ensures order { map (pair_in self.now) result.now ≡ claims.in_byte_order self.now }
        ensures below { All (λ number. number < length self.now) result.now }
    {
        &self.order
    }
}
