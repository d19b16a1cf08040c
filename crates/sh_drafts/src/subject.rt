//! A script whose certificate the search seeks.
ghost use Rattle.std.specs.Prelude.{◌≡◌, true};
ghost use Rattle.sh_tree.specs.declared.limits.TheConstants.{MAX_NAMES};
ghost use Rattle.sh_runs.specs.Calls.{table_of};
ghost use Rattle.sh_domain.specs.Certificates.{in_byte_order};
ghost use Rattle.sh_domain.specs.Compacts.{compact_claims};
ghost use Rattle.sh_domain.specs.Spelling.{is_writable};
ghost use Rattle.sh_drafts.specs.Writable.{HasWritable, IsWritten, sets_in};

use crate::writable::Writable;
use sh_domain::{Compact, Names, Policy};
use sh_table::CallTable;
use sh_tree::{Command, Script};

/// A script, with its policy, its tree, its calls, its names and its commands.
#[derive(Clone, Copy)]
pub struct Subject<'a> {
    pub script: &'a [u8],
    pub policy: &'a Policy,
    pub tree: &'a Script,
    pub table: &'a CallTable<'a>,
    pub names: &'a Names,
    /// The commands in the order of their numbers.
    pub commands: &'a [&'a Command],
    /// The names that a text of its certificates may have.
    pub writable: &'a Writable,
    /// Whether a compact certificate states what is claimed at the start, at the turns of loops and
    /// round functions. Then only what is claimed round commands is lowered.
    pub stated: bool,
    /// What is stated, if anything is.
    pub compact: &'a Compact,
    ghost listed: { table.now ≡ table_of script.now tree.now },
    ghost started: { stated ≡ true → is_writable (compact_claims (in_byte_order names.now) compact.now).start ≡ true },
    ghost written: { IsWritten names.now (sets_in writable.now.vars writable.now.functions) },
    ghost all_writable: { HasWritable names.now MAX_NAMES (sets_in writable.now.vars writable.now.functions) },
}
