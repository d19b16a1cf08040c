//! Fills a compact certificate: round commands, the greatest claims that keep the flow rules there,
//! from the start and the claims that are stated.
ghost use Rattle.std.specs.Prelude.{◌≡◌, List, Bool, true, length, map, IfOk};
ghost use Rattle.std.specs.List.Sorted.{IsNonDecreasingBy, IsPermutation};
ghost use Rattle.sh_tree.specs.Commands.{commands_of};
ghost use Rattle.sh_tree.specs.declared.tree.Command.{out-Command};
ghost use Rattle.sh_runs.specs.Calls.{table_of};
ghost use Rattle.sh_domain.specs.Admitted.{IsAdmitted, functions_in};
ghost use Rattle.sh_domain.specs.Certificates.{in_byte_order, sheet_of};
ghost use Rattle.sh_domain.specs.Reading.{AreLoops, fits};
ghost use Rattle.sh_domain.specs.Spelling.{IsSheet, is_writable};
ghost use Rattle.sh_domain.specs.Compacts.{compact_claims, stated_sheet};
ghost use Rattle.sh_domain.specs.Filled.{FillsTo};

use crate::search::{Way, settle};
use sh_domain::{Certificate, Compact, Names, Policy};
use sh_drafts::begun::begun;
use sh_drafts::{Draft, Subject, Writable};
use sh_rows::{BitRow, Row};
use sh_table::CallTable;
use sh_tree::{Script, commands};
use std::alloc::{AllocError, Global};

// The certificate that a compact one of a script is filled to.
fn filled(alloc: Global, subject: &Subject<'_>) -> Result<Certificate, AllocError>
    requires admitted { IsAdmitted subject.now.script.now subject.now.policy.now subject.now.tree.now subject.now.names.now }
    requires commands { IsPermutation (commands_of subject.now.tree.now) (map (λ c. c.now) subject.now.commands.now) }
    requires ordered { IsNonDecreasingBy (λ c. (out-Command c.now).number) subject.now.commands.now }
    requires stated { subject.now.stated ≡ true }
    requires sized { subject.now.compact.now.rows.count ≡ length subject.now.names.now }
    requires fits { (loops : List Bool) → AreLoops subject.now.tree.now loops
        → fits subject.now.names.now loops (length (functions_in subject.now.script.now subject.now.tree.now)) (stated_sheet (compact_claims (in_byte_order subject.now.names.now) subject.now.compact.now)) ≡ true }
    requires spelled { IsSheet (stated_sheet (compact_claims (in_byte_order subject.now.names.now) subject.now.compact.now)) }
    ensures filled { IfOk result (λ c. FillsTo subject.now.script.now subject.now.tree.now subject.now.names.now
        (compact_claims (in_byte_order subject.now.names.now) subject.now.compact.now) (sheet_of (in_byte_order subject.now.names.now) c)) }
    ensures sized { IfOk result (λ c. c.rows.count ≡ length subject.now.names.now) }
{
    // Its clause says that each is a name, so all that is known may be written.
    let _declared = subject.policy.names();
    let commands = subject.commands.len() as u16;
    let functions = subject.table.functions().len() as u16;
    let count = subject.names.count();
    let mut probe = BitRow::empty(alloc, count)?;
    let certificate = begun(alloc, subject, &mut probe, commands, functions)?;
    let mut draft = Draft::new(alloc, certificate, probe, subject)?;
    draft.rest = 0;
    draft.tires = u64::MAX;
    settle(subject, &mut draft, Way::Once)?;
    Ok(draft.certificate)
}

/// The certificate that a compact one of a script that is admitted is filled to. It claims what is
/// stated. Round commands it claims what any other one does that keeps the flow rules there from
/// the stated start. The table and the names are those of the script, which is admitted with the
/// names of the policy.
///
/// # Errors
///
/// `AllocError` if a growth was refused.
pub fn fill(
    alloc: Global,
    tree: &Script,
    script: &[u8],
    calls: &CallTable<'_>,
    names: &Names,
    policy: &Policy,
    compact: &Compact,
) -> Result<Certificate, AllocError>
    requires admitted { IsAdmitted script.now policy.now tree.now names.now }
    requires table { calls.now ≡ table_of script.now tree.now }
    requires sized { compact.now.rows.count ≡ length names.now }
    requires fits { (loops : List Bool) → AreLoops tree.now loops
        → fits names.now loops (length (functions_in script.now tree.now)) (stated_sheet (compact_claims (in_byte_order names.now) compact.now)) ≡ true }
    requires spelled { IsSheet (stated_sheet (compact_claims (in_byte_order names.now) compact.now)) }
    requires started { is_writable (compact_claims (in_byte_order names.now) compact.now).start ≡ true }
    ensures filled { IfOk result (λ c. FillsTo script.now tree.now names.now
        (compact_claims (in_byte_order names.now) compact.now) (sheet_of (in_byte_order names.now) c)) }
    ensures sized { IfOk result (λ c. c.rows.count ≡ length names.now) }
{
    let commands = commands(alloc, tree)?;
    let writable = Writable::of(names);
    let subject = Subject {
        script,
        policy,
        tree,
        table: calls,
        names,
        commands: &commands,
        writable: &writable,
        stated: true,
        compact,
    };
    filled(alloc, &subject)
}
