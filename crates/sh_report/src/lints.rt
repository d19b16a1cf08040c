//! What is answered of a script without a certificate, and which certificate is shown.
ghost use Rattle.std.specs.Prelude.{◌≡◌, true, false, Ok, IfOk, length};
ghost use Rattle.sh_answers.specs.declared.verdict.Verdict.TheVariants as verdicts;
ghost use Rattle.sh_accept.specs.Answers.{Certifies, Lints};
ghost use Rattle.sh_domain.specs.Admitted.{IsGreatest};
ghost use Rattle.sh_accept.specs.Theorem.{IsSafe};
ghost use Rattle.sh_judged.specs.Prepared.{IsPrepared, StatesGreatest, sheet_in};

use sh_answers::Verdict;
use sh_domain::{Certificate, Compact, Policy};
use sh_facts::{
    compact_of, is_compact_too_long, is_too_long, start_of, write_certificate, write_compact,
};
use sh_find::find;
use sh_judged::{Prepared, judged_kept, prepare};
use sh_tree::Refusal;
use std::alloc::{AllocError, Global};

// The greatest certificate of a script that is admitted.
fn greatest(
    alloc: Global,
    script: &[u8],
    policy: &Policy,
    prepared: &Prepared,
) -> Result<Certificate, AllocError>
    requires { IsPrepared script.now policy.now prepared.now }
    ensures greatest { IfOk result (λ c. IsGreatest script.now policy.now prepared.now.tree prepared.now.names (sheet_in prepared.now c)) }
    ensures sized { IfOk result (λ c. c.rows.count ≡ length prepared.now.names) }
{
    find(
        alloc,
        &prepared.tree,
        script,
        &prepared.table,
        &prepared.names,
        policy,
    )
}

// What is reported of a script that is admitted. The greatest certificate keeps every flow rule.
fn lint_prepared(
    alloc: Global,
    script: &[u8],
    policy: &Policy,
    prepared: &Prepared,
) -> Result<Verdict, AllocError>
    requires { IsPrepared script.now policy.now prepared.now }
    ensures { IfOk result (λ v. Lints script.now policy.now (Ok v)) }
{
    let certificate = greatest(alloc, script, policy, prepared)?;
    judged_kept(alloc, script, prepared, &certificate)
}

/// The verdict on a script: a pass exactly if some certificate of it is accepted, or the findings
/// of the greatest one, in order. A pass promises what that of a check does.
///
/// # Errors
///
/// The refusal of the script, of its profile or of its names, in that order; `Memory` if a growth
/// was refused.
#[tactic(auto, using(crate::proofs::LintLemmas::exhausted, crate::proofs::PromiseLemmas::linted))]
pub fn lint(alloc: Global, script: &[u8], policy: &Policy) -> Result<Verdict, Refusal>
    ensures answers { Lints script.now policy.now result }
    ensures headline { result ≡ Ok verdicts.Pass → IsSafe script.now policy.now }
{
    // As in `check`.
    let _declared = policy.names();
    let prepared = prepare(alloc, script, policy)?;
    let verdict = lint_prepared(alloc, script, policy, &prepared)?;
    Ok(verdict)
}

// The full text of the greatest certificate of a script that is admitted, if it is no longer than a
// text may be. It is counted before it is made.
#[tactic(auto, using(crate::proofs::LintLemmas::uncertified))]
fn full_text(
    alloc: Global,
    script: &[u8],
    policy: &Policy,
    prepared: &Prepared,
) -> Result<Vec<u8>, Refusal>
    requires { IsPrepared script.now policy.now prepared.now }
    ensures { Certifies true script.now policy.now result }
{
    let certificate = greatest(alloc, script, policy, prepared)?;
    if is_too_long(&certificate, &prepared.names) {
        return Err(Refusal::CertSyntax(0));
    }
    let text = write_certificate(alloc, &certificate, &prepared.names)?;
    Ok(text)
}

// The compact form of the greatest certificate of a script that is admitted.
fn greatest_compact(
    alloc: Global,
    script: &[u8],
    policy: &Policy,
    prepared: &Prepared,
) -> Result<Compact, AllocError>
    requires { IsPrepared script.now policy.now prepared.now }
    ensures { IfOk result (StatesGreatest script.now policy.now prepared.now) }
{
    // As in `check`. The clause of `args` says that a `u16` holds their number.
    let _declared = policy.names();
    let _args = policy.args();
    let certificate = greatest(alloc, script, policy, prepared)?;
    let start = start_of(&prepared.names, policy);
    compact_of(alloc, &certificate, &start)
}

// As `full_text`, of the compact form.
#[tactic(auto, using(crate::proofs::LintLemmas::uncertified))]
fn compact_text(
    alloc: Global,
    script: &[u8],
    policy: &Policy,
    prepared: &Prepared,
) -> Result<Vec<u8>, Refusal>
    requires { IsPrepared script.now policy.now prepared.now }
    ensures { Certifies false script.now policy.now result }
{
    let compact = greatest_compact(alloc, script, policy, prepared)?;
    if is_compact_too_long(&compact, &prepared.names) {
        return Err(Refusal::CertSyntax(0));
    }
    let text = write_compact(alloc, &compact, &prepared.names)?;
    Ok(text)
}

/// The text of the greatest certificate of a script, whether it passes or not: the full one, or
/// that of its compact form.
///
/// # Errors
///
/// As `lint`; and `CertSyntax` with 0 if the text would be longer than `MAX_CERTIFICATE`.
#[tactic(auto, using(sh_judged::proofs::RefusalLemmas::widened))]
pub fn certificate(
    alloc: Global,
    script: &[u8],
    policy: &Policy,
    full: bool,
) -> Result<Vec<u8>, Refusal>
    ensures { Certifies full script.now policy.now result }
{
    let prepared = prepare(alloc, script, policy)?;
    if full {
        full_text(alloc, script, policy, &prepared)
    } else {
        compact_text(alloc, script, policy, &prepared)
    }
}
