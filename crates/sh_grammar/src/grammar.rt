//! The rules of the grammar, over a reader of the sequences that are inside commands (XCU 2.10).
ghost use Rattle.std.specs.Prelude.{◌-◌, ◌≡◌, ◌<◌, ◌≤◌, length};
ghost use Rattle.sh_grammar.specs.Nests.{Nests};
ghost use Rattle.sh_grammar.specs.States.{Stands};
ghost use Rattle.sh_grammar.specs.Readers.{Answers, ListFrom, SequenceFrom};

use super::state::Cursor;
use sh_tree::{MAX_SCRIPT, Refusal, Script};
use std::alloc::Global;

/// The rules that read a sequence.
#[derive(Clone, Copy)]
pub struct Grammar<F> {
    pub alloc: Global,
    /// How many bytes are left where the sequence begins.
    pub left: usize,
    /// Reads a sequence from which fewer bytes are left.
    pub nested: F,
}

impl<F: Fn(Global, &[u8], Cursor) -> Result<(Script, Cursor), Refusal>> Grammar<F> {
    /// A sequence inside a command.
    pub fn inner(&self, script: &[u8], from: Cursor) -> Result<(Script, Cursor), Refusal>
        requires small { length script.now ≤ MAX_SCRIPT }
        requires stands { Stands script.now from }
        requires further { length script.now - from.at < self.now.left }
        requires nests { Nests self.now.left (F.pre self.now.nested) (F.post self.now.nested) }
        ensures { Answers script.now (SequenceFrom script.now from) from.at result }
    {
        (self.nested)(self.alloc, script, from)
    }

    /// A sequence of one item or more.
    #[tactic(auto, using(crate::proofs::CompoundLemmas::list_refused, crate::proofs::CompoundLemmas::list_empty, crate::proofs::CompoundLemmas::list_read, crate::proofs::ReaderLemmas::refused_none))]
    #[inline(always)]
    pub fn list(&self, script: &[u8], from: Cursor) -> Result<(Script, Cursor), Refusal>
        requires small { length script.now ≤ MAX_SCRIPT }
        requires stands { Stands script.now from }
        requires further { length script.now - from.at < self.now.left }
        requires nests { Nests self.now.left (F.pre self.now.nested) (F.post self.now.nested) }
        ensures { Answers script.now (ListFrom script.now from) from.at result }
    {
        let (list, behind) = self.inner(script, from)?;
        if list.items.is_empty() {
            return Err(behind.unexpected(script));
        }
        Ok((list, behind))
    }
}
