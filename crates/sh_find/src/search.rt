//! The search for the greatest certificate.
ghost use Rattle.std.specs.Prelude.{◌≡◌, ℕ, List, Bool, true, false, length, map, IfOk, OnOk};
ghost use Rattle.std.specs.List.{list_all};
ghost use Rattle.std.specs.List.Sorted.{IsNonDecreasingBy, IsPermutation};
ghost use Rattle.sh_tree.specs.Commands.{commands_of};
ghost use Rattle.sh_tree.specs.declared.tree.Command.{out-Command};
ghost use Rattle.sh_domain.specs.Forms.{is_variable};
ghost use Rattle.sh_runs.specs.Calls.{table_of};
ghost use Rattle.sh_domain.specs.Admitted.{IsAdmitted, IsGreatest};
ghost use Rattle.sh_domain.specs.Certificates.{in_byte_order, sheet_of};
ghost use Rattle.sh_sweeps.specs.Next.{IsOfScript};
ghost use Rattle.sh_drafts.specs.Ready.{IsReady, IsSettled, IsSwept};
ghost use Rattle.sh_drafts.specs.Turns.{sheet_by};
ghost use Rattle.sh_drafts.specs.Working.{IsWorking};

use indexmap::IndexMap;
use sh_domain::{Certificate, Compact, Facts, Names, Policy, RowHash, Rows, is_loop};
use sh_drafts::{
    Draft, Subject, Target, Writable, patience_after, rest_after, rounds_after, tires_after,
    unreached,
};
use sh_passes::{sweep_by_rounds, sweep_round, sweep_waiting};
use sh_rows::{BitRow, Row};
use sh_table::CallTable;
use sh_tree::{Script, commands};
use sh_turns::{solve_counts, turn};
use sh_worklist::Waiting;
use std::alloc::{AllocError, Global};

/// How a search sweeps over a script between its turns.
#[derive(Clone, Copy, Debug, PartialEq, Eq)]
pub enum Way {
    /// By rounds over all commands until one lowers nothing.
    ByRounds,
    /// Over the commands that wait, since something that they look at fell.
    ByNeed,
    /// Once over all commands.
    Once,
}

// Has all loops wait, since sweeps may have left them while counts fell.
fn wake_loops(subject: &Subject<'_>, waiting: &mut Waiting) -> Result<(), AllocError> {
    for command in subject.commands {
        if is_loop(command) {
            waiting.wait(command.number)?;
        }
    }
    Ok(())
}

// Solves the counts apart, if they fell often, or a loop was left while they fell. Then all loops
// wait. No set of names depends on a count, so other commands do not.
fn rest_counts(subject: &Subject<'_>, draft: &mut Draft) -> Result<(), AllocError>
    requires { IsReady subject.now draft.old.certificate draft.old.probe.count }
    ensures { IfOk result (λ unit. IsSwept subject.now draft.old.certificate draft.new.certificate draft.new.probe.count) }
{
    if draft.is_unsolved() {
        solve_counts(subject, draft)?;
        draft.rest = rest_after(draft.counted, subject.commands.len());
        draft.tires = tires_after(draft.looks, subject.commands.len());
        wake_loops(subject, &mut draft.waiting)?;
    }
    Ok(())
}

// Has all commands wait, if what is known was carried over some.
fn wake_passed(draft: &mut Draft)
    ensures certificate { draft.new.certificate ≡ draft.old.certificate }
    ensures probe { draft.new.probe ≡ draft.old.probe }
{
    if draft.carries() {
        draft.waiting.wait_all();
    }
}

// Sweeps over the commands that wait. If that lowers the certificate often, it solves the counts
// apart, or lowers what it was carried over, and sweeps again.
fn sweep_by_need(subject: &Subject<'_>, draft: &mut Draft) -> Result<(), AllocError>
    requires { IsReady subject.now draft.old.certificate draft.old.probe.count }
    ensures { IfOk result (λ unit. IsSwept subject.now draft.old.certificate draft.new.certificate draft.new.probe.count) }
{
    for time in 0..u32::MAX {
        let before = draft.lowered;
        draft.rounds = rounds_after(time);
        draft.has_left = false;
        draft.patience = patience_after(draft.looks, subject.commands.len());
        sweep_waiting(subject, draft)?;
        if draft.lowered == before || !(draft.is_unsolved() || draft.carries()) {
            return Ok(());
        }
        rest_counts(subject, draft)?;
        wake_passed(draft);
    }
    Ok(())
}

// Sweeps over the commands of a script between two turns.
fn sweep_so(subject: &Subject<'_>, draft: &mut Draft, way: Way) -> Result<(), AllocError>
    requires { IsReady subject.now draft.old.certificate draft.old.probe.count }
    ensures { IfOk result (λ unit. IsSwept subject.now draft.old.certificate draft.new.certificate draft.new.probe.count) }
{
    match way {
        Way::ByRounds => sweep_by_rounds(subject, draft),
        Way::ByNeed => sweep_by_need(subject, draft),
        Way::Once => sweep_round(subject, draft),
    }
}

/// Sweeps over the commands, and takes a turn, until the certificate keeps all flow rules.
///
/// # Errors
///
/// If a growth was refused.
pub fn settle(subject: &Subject<'_>, draft: &mut Draft, way: Way) -> Result<(), AllocError>
    requires ready { IsReady subject.now draft.old.certificate draft.old.probe.count }
    requires variables { list_all is_variable subject.now.names.now ≡ true }
    requires working { IsOfScript subject.now draft.old.certificate }
    ensures { OnOk result ((loops : List Bool) (functions : ℕ) → IsWorking subject.now.names.now loops functions draft.old.certificate
        → IsSettled subject.now loops functions draft.old.certificate draft.new.certificate) }
{
    let mut target = Target::FIRST;
    let mut kept = false;
    let commands = subject.table.rows().len() as u64;
    'turns: while !kept {
        sweep_so(subject, draft, way)?;
        draft.waiting.wait_all();
        draft.looks = draft.looks.saturating_add(commands);
        kept = turn(
            subject,
            &mut draft.certificate,
            &mut draft.probe,
            &mut target,
        )?;
    }
    Ok(())
}

// The greatest certificate of a script that is admitted, and how often the flow rules of a command
// were gone through.
fn settled(alloc: Global, subject: &Subject<'_>, way: Way) -> Result<(Certificate, u64), AllocError>
    requires admitted { IsAdmitted subject.now.script.now subject.now.policy.now subject.now.tree.now subject.now.names.now }
    requires commands { IsPermutation (commands_of subject.now.tree.now) (map (λ c. c.now) subject.now.commands.now) }
    requires ordered { IsNonDecreasingBy (λ c. (out-Command c.now).number) subject.now.commands.now }
    requires unstated { subject.now.stated ≡ false }
    ensures greatest { IfOk result (λ found. IsGreatest subject.now.script.now subject.now.policy.now subject.now.tree.now subject.now.names.now (sheet_by subject.now.names.now found.0)) }
    ensures sized { IfOk result (λ found. found.0.rows.count ≡ length subject.now.names.now) }
{
    // Its clause says that each is a name, so all that is known may be written.
    let _declared = subject.policy.names();
    let count = subject.names.count();
    let functions = subject.table.functions().len();
    let hash = subject.compact.rows.hash();
    let certificate = unreached(alloc, count, hash, subject.commands, functions)?;
    let probe = BitRow::empty(alloc, count)?;
    let mut draft = Draft::new(alloc, certificate, probe, subject)?;
    settle(subject, &mut draft, way)?;
    let looks = draft.looks;
    Ok((draft.certificate, looks))
}

// A compact certificate that states nothing.
fn nothing(alloc: Global, names: &Names) -> Compact {
    Compact {
        commands: 0,
        start: Facts::NotReached,
        rows: Rows::new(alloc, 0, RowHash::of(names.hash(), &[])),
        heads: IndexMap::new(alloc),
        functions: Vec::new(alloc),
    }
}

// As `settled`, of a script by its parts.
fn searched(
    alloc: Global,
    tree: &Script,
    script: &[u8],
    calls: &CallTable<'_>,
    names: &Names,
    policy: &Policy,
    way: Way,
) -> Result<(Certificate, u64), AllocError>
    requires admitted { IsAdmitted script.now policy.now tree.now names.now }
    requires table { calls.now ≡ table_of script.now tree.now }
    ensures greatest { IfOk result (λ found. IsGreatest script.now policy.now tree.now names.now (sheet_of (in_byte_order names.now) found.0)) }
    ensures sized { IfOk result (λ found. found.0.rows.count ≡ length names.now) }
{
    let commands = commands(alloc, tree)?;
    let writable = Writable::of(names);
    let compact = nothing(alloc, names);
    let subject = Subject {
        script,
        policy,
        tree,
        table: calls,
        names,
        commands: &commands,
        writable: &writable,
        stated: false,
        compact: &compact,
    };
    settled(alloc, &subject, way)
}

/// The greatest certificate of a script that is admitted. It keeps all flow rules, and claims at
/// each place what any other one does that keeps them. The table and the names are those of the
/// script.
///
/// # Errors
///
/// `AllocError` if a growth was refused.
pub fn find(
    alloc: Global,
    tree: &Script,
    script: &[u8],
    calls: &CallTable<'_>,
    names: &Names,
    policy: &Policy,
) -> Result<Certificate, AllocError>
    requires admitted { IsAdmitted script.now policy.now tree.now names.now }
    requires table { calls.now ≡ table_of script.now tree.now }
    ensures greatest { IfOk result (λ c. IsGreatest script.now policy.now tree.now names.now (sheet_of (in_byte_order names.now) c)) }
    ensures sized { IfOk result (λ c. c.rows.count ≡ length names.now) }
{
    let (certificate, _looks) = searched(alloc, tree, script, calls, names, policy, Way::ByNeed)?;
    Ok(certificate)
}

/// As `find`, with how often the flow rules of a command or a link were gone through, at most
/// `u64::MAX`.
///
/// # Errors
///
/// As `find`.
pub fn find_counted(
    alloc: Global,
    tree: &Script,
    script: &[u8],
    calls: &CallTable<'_>,
    names: &Names,
    policy: &Policy,
) -> Result<(Certificate, u64), AllocError>
    requires admitted { IsAdmitted script.now policy.now tree.now names.now }
    requires table { calls.now ≡ table_of script.now tree.now }
    ensures greatest { IfOk result (λ found. IsGreatest script.now policy.now tree.now names.now (sheet_of (in_byte_order names.now) found.0)) }
    ensures sized { IfOk result (λ found. found.0.rows.count ≡ length names.now) }
{
    searched(alloc, tree, script, calls, names, policy, Way::ByNeed)
}

/// As `find`, by rounds over the whole script: the plain way, which takes longer if functions call
/// each other.
///
/// # Errors
///
/// As `find`.
pub fn find_by_rounds(
    alloc: Global,
    tree: &Script,
    script: &[u8],
    calls: &CallTable<'_>,
    names: &Names,
    policy: &Policy,
) -> Result<Certificate, AllocError>
    requires admitted { IsAdmitted script.now policy.now tree.now names.now }
    requires table { calls.now ≡ table_of script.now tree.now }
    ensures greatest { IfOk result (λ c. IsGreatest script.now policy.now tree.now names.now (sheet_of (in_byte_order names.now) c)) }
    ensures sized { IfOk result (λ c. c.rows.count ≡ length names.now) }
{
    let (certificate, _looks) = searched(alloc, tree, script, calls, names, policy, Way::ByRounds)?;
    Ok(certificate)
}
