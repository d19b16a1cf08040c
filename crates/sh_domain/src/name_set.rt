//! The names of a script, in the order in which they are first seen.
ghost use Rattle.std.specs.Prelude.{◌≡◌, ◌<◌, ◌∷◌, true, [], length, map, fold, Some, slice_get, OnOk, IfOk, IfErr, IfSome};
ghost use Rattle.sh_domain.specs.Names.{are_distinct, Numbers, IsInTextOrder, Refuses, with_text, number_of};
ghost use Rattle.sh_domain.specs.SightWalks.{seen_in, texts_seen};

use crate::policy::Policy;
use crate::sights::{Seen, names_seen};
use indexmap::IndexSet;
use sh_hash::NameHash;
use sh_tree::{MAX_NAMES, Refusal, Script, commands};
use std::alloc::{AllocError, Global};
use std::marker::Model;

/// The names of a script: those that every script has, those of its policy and those in its text,
/// each once.
#[derive(Debug, Drop)]
pub(crate) struct NameSet {
    set: IndexSet<Vec<u8>, NameHash>,
}

impl Model for NameSet {
    ghost use Rattle.std.specs.Prelude.{◌≤◌, List, ℕ, map, length};
    ghost use Rattle.sh_tree.specs.declared.limits.TheConstants.{MAX_NAMES};

    ghost Value = { List (List ℕ) };

    ghost view = { λ n. map (λ v. v.items) n.set.keys };

    ghost invariant = { λ n. length n.set.keys ≤ MAX_NAMES };
}

impl NameSet {
    /// The names of a script, which was read from these bytes. First are IFS, OPTIND, PPID, OPTARG
    /// and `!`, then the policy's, then those in the text, by their offsets. Those in the text are
    /// of parameters, assignments, arithmetic, `for` and definitions, and of the operands of
    /// `export` and `readonly` in assignment form. Operands by which `unset`, `read` and `getopts`
    /// name them count too.
    ///
    /// # Errors
    ///
    /// `TooMany` if there are more than `MAX_NAMES`; `Memory` if a growth was refused.
    pub fn new(
        alloc: Global,
        tree: &Script,
        script: &[u8],
        policy: &Policy,
    ) -> Result<NameSet, Refusal>
        ensures { Numbers script.now tree.now policy.now result }
    {
        let seen = names_in(alloc, tree, script)?;
        let declared = policy.names();
        let mut names = NameSet {
            set: IndexSet::with_hasher(alloc, NameHash::of(script, declared)),
        };
        names.add_texts(&[b"IFS", b"OPTIND", b"PPID", b"OPTARG", b"!"])?;
        names.add_declared(declared)?;
        names.add_seen(&seen)?;
        Ok(names)
    }

    /// What the names hash by.
    pub fn hash(&self) -> NameHash {
        *self.set.hasher()
    }

    /// How many names there are. No name is there twice.
    pub fn count(&self) -> u32
        ensures count { result ≡ length self.now }
        ensures distinct { are_distinct self.now ≡ true }
    {
        self.set.len() as u32
    }

    /// The name of a number.
    pub fn name(&self, number: u32) -> &[u8]
        requires { number < length self.now }
        ensures { slice_get self.now number ≡ Some result.now }
    {
        self.set.as_slice()[number as usize].as_slice()
    }

    /// The number of a name, if it is one of these.
    pub fn number(&self, name: &[u8]) -> Option<u32>
        ensures number { result ≡ number_of self.now name.now }
        ensures below { IfSome result (λ n. n < MAX_NAMES) }
    {
        let index = self.set.get_index_of(name)?;
        Some(index as u32)
    }

    fn add(&mut self, name: &[u8]) -> Result<(), Refusal>
        ensures names { OnOk result (self.new ≡ with_text self.old name.now) }
        ensures refusal { IfErr result (Refuses (with_text self.old name.now)) }
    {
        if self.set.contains(name) {
            return Ok(());
        }
        if self.set.len() >= MAX_NAMES {
            return Err(Refusal::TooMany);
        }
        let own = Vec::from_slice(*self.set.allocator(), name)?;
        self.set.insert(own)?;
        Ok(())
    }

    fn add_texts(&mut self, texts: &[&[u8]]) -> Result<(), Refusal>
        ensures names { OnOk result (self.new ≡ fold with_text self.old (map (λ t. t.now) texts.now)) }
        ensures refusal { IfErr result (Refuses (fold with_text self.old (map (λ t. t.now) texts.now))) }
    {
        for text in texts {
            self.add(text)?;
        }
        Ok(())
    }

    fn add_declared(&mut self, texts: &[Vec<u8>]) -> Result<(), Refusal>
        ensures names { OnOk result (self.new ≡ fold with_text self.old (map (λ t. t.items) texts.now)) }
        ensures refusal { IfErr result (Refuses (fold with_text self.old (map (λ t. t.items) texts.now))) }
    {
        for text in texts {
            self.add(text)?;
        }
        Ok(())
    }

    fn add_seen(&mut self, seen: &[Seen]) -> Result<(), Refusal>
        ensures names { OnOk result (self.new ≡ fold with_text self.old (texts_seen seen.now)) }
        ensures refusal { IfErr result (Refuses (fold with_text self.old (texts_seen seen.now))) }
    {
        for one in seen {
            self.add(&one.name)?;
        }
        Ok(())
    }
}

fn names_in(alloc: Global, tree: &Script, script: &[u8]) -> Result<Vec<Seen>, AllocError>
    ensures { IfOk result (λ seen. IsInTextOrder script.now tree.now (seen_in seen.items)) }
{
    let commands = commands(alloc, tree)?;
    names_seen(alloc, &commands, script)
}
