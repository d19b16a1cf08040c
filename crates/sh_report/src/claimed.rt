//! The certificate that a text claims.
ghost use Rattle.std.specs.Prelude.{◌≡◌, IfOk, IsErrOf, IsOk, length};
ghost use Rattle.sh_domain.specs.CompactForms.{read_given};
ghost use Rattle.sh_domain.specs.CompactReading.{given_claims, given_rows};
ghost use Rattle.sh_accept.specs.Accepted.{Gives};
ghost use Rattle.sh_judged.specs.Prepared.{AnswersText, IsPrepared, IsRead, sheet_in};

use sh_domain::{Certificate, Given, Policy};
use sh_facts::read_any;
use sh_find::fill;
use sh_judged::Prepared;
use sh_tree::Refusal;
use std::alloc::{AllocError, Global};

/// The certificate that a text of either version claims of a script that is admitted. It is the one
/// that is given in full, or the one to which a compact one is filled.
///
/// # Errors
///
/// `CertSyntax` and `CertShape` as `read_any` reports them. `Memory` if a growth was refused, which
/// requires a text that has the form.
#[tactic(auto, using(crate::proofs::CertificateLemmas::unread, crate::proofs::CertificateLemmas::exhausted, crate::proofs::CertificateLemmas::certifies))]
pub fn certified(
    alloc: Global,
    script: &[u8],
    policy: &Policy,
    prepared: &Prepared,
    text: &[u8],
) -> Result<Certificate, Refusal>
    requires { IsPrepared script.now policy.now prepared.now }
    ensures answers { AnswersText script.now policy.now text.now prepared.now result }
    ensures memory { IsErrOf result Refusal.Memory → IsOk (read_given text.now) }
    ensures sized { IfOk result (λ c. c.rows.count ≡ length prepared.now.names) }
{
    let given = read_any(
        alloc,
        text,
        &prepared.tree,
        &prepared.table,
        &prepared.names,
    )?;
    let certificate = given_certificate(alloc, script, policy, prepared, given)?;
    Ok(certificate)
}

// The certificate that is given, or the one to which a compact one is filled.
fn given_certificate(
    alloc: Global,
    script: &[u8],
    policy: &Policy,
    prepared: &Prepared,
    given: Given,
) -> Result<Certificate, AllocError>
    requires prepared { IsPrepared script.now policy.now prepared.now }
    requires read { IsRead prepared.now given }
    requires sized { (given_rows given).count ≡ length prepared.now.names }
    ensures gives { IfOk result (λ c. Gives script.now prepared.now.tree prepared.now.names (given_claims prepared.now.names given) (sheet_in prepared.now c)) }
    ensures sized { IfOk result (λ c. c.rows.count ≡ length prepared.now.names) }
{
    match given {
        Given::Full(certificate) => Ok(certificate),
        Given::Compact(compact) => fill(
            alloc,
            &prepared.tree,
            script,
            &prepared.table,
            &prepared.names,
            policy,
            &compact,
        ),
    }
}
