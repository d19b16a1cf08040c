//! Scripts that are admitted.
ghost use Rattle.std.specs.Prelude.{◌≡◌, Ok, IfErr, IfOk};
ghost use Rattle.sh_tree.specs.Answers.{Parses};
ghost use Rattle.sh_runs.specs.Calls.{table_of};
ghost use Rattle.sh_domain.specs.Admitted.{IsAdmitted};
ghost use Rattle.sh_accept.specs.Answers.{NoRefusal, Refuses};
ghost use Rattle.sh_judged.specs.Prepared.{IsPrepared};

use sh_domain::{Names, Policy};
use sh_grammar::parse;
use sh_table::{CallTable, admit};
use sh_tree::{Refusal, Script};
use std::alloc::Global;

/// The tree of a script, its call table and its names.
#[derive(Drop)]
pub struct Prepared<'s> {
    pub tree: Script,
    pub table: CallTable<'s>,
    pub names: Names,
}

/// A script that is admitted under a policy.
///
/// # Errors
///
/// The refusal of the text, of its first command that the profile refuses, or of its names, in that
/// order. `Memory` if a growth was refused.
#[tactic(auto, using(crate::proofs::RefusalLemmas::reported, crate::proofs::RefusalLemmas::unread))]
pub fn prepare<'s>(
    alloc: Global,
    script: &'s [u8],
    policy: &Policy,
) -> Result<Prepared<'s>, Refusal>
    ensures admitted { IfOk result (IsPrepared script.entry.now policy.now) }
    ensures refused { IfErr result (Refuses script.entry.now policy.now NoRefusal) }
{
    let tree = parse(alloc, script)?;
    let (table, names) = parts_of(alloc, &tree, script, policy)?;
    Ok(Prepared { tree, table, names })
}

// The call table and the names of a script that is read.
#[tactic(auto, using(crate::proofs::RefusalLemmas::untabled))]
fn parts_of<'s>(
    alloc: Global,
    tree: &Script,
    script: &'s [u8],
    policy: &Policy,
) -> Result<(CallTable<'s>, Names), Refusal>
    requires { Parses script.now (Ok tree.now) }
    ensures table { IfOk result (λ parts. parts.0 ≡ table_of script.entry.now tree.now) }
    ensures admitted { IfOk result (λ parts. IsAdmitted script.entry.now policy.now tree.now parts.1) }
    ensures refused { IfErr result (Refuses script.entry.now policy.now NoRefusal) }
{
    let table = CallTable::new(alloc, tree, script)?;
    let names = names_of(alloc, tree, &table, script, policy)?;
    Ok((table, names))
}

// The names of a script that is read, if no command of it is refused.
#[tactic(auto, using(crate::proofs::RefusalLemmas::refused, crate::proofs::RefusalLemmas::unnumbered))]
fn names_of(
    alloc: Global,
    tree: &Script,
    table: &CallTable,
    script: &[u8],
    policy: &Policy,
) -> Result<Names, Refusal>
    requires reading { Parses script.now (Ok tree.now) }
    requires table { table.now ≡ table_of script.now tree.now }
    ensures admitted { IfOk result (IsAdmitted script.now policy.now tree.now) }
    ensures refused { IfErr result (Refuses script.now policy.now NoRefusal) }
{
    admit(alloc, tree, table, script)?;
    let names = Names::new(alloc, tree, script, policy)?;
    Ok(names)
}
