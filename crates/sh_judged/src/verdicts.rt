//! What is reported of a certificate: what the rules and the demands say of it.
ghost use Rattle.std.specs.Prelude.{◌≡◌, ◌++◌, ◌<◌, IfErr, IfOk, length};
ghost use Rattle.sh_tree.specs.standard.program.Trees.{script_of};
ghost use Rattle.sh_domain.specs.Admitted.{KeepsRules};
ghost use Rattle.sh_domain.specs.Facts.{Declared};
ghost use Rattle.sh_quote.specs.Places.{unquoted};
ghost use Rattle.sh_accept.specs.Answers.{places};
ghost use Rattle.sh_judged.specs.Judged.{Judges, TellsSome};
ghost use Rattle.sh_judged.specs.Prepared.{IsPrepared, sheet_in};
ghost use Rattle.sh_judged.specs.Told.{TellsPlaces};

use crate::prepared::Prepared;
use crate::told::verdict_of;
use sh_answers::Verdict;
use sh_checks::{Flow, check_flow};
use sh_demands::check_demands;
use sh_domain::{Certificate, Policy};
use sh_quote::check_quotes;
use sh_tree::Place;
use std::alloc::{AllocError, Global};

// The verdict on these unmet demands and on the expansions that are unquoted.
fn verdict_with(
    alloc: Global,
    script: &[u8],
    prepared: &Prepared,
    unmet: Vec<Place>,
) -> Result<Verdict, AllocError>
    requires { (d : Declared) × IsPrepared script.now d prepared.now }
    ensures told { IfOk result (TellsPlaces script.now (unmet.items ++ unquoted (script_of script.now prepared.now.tree))) }
    ensures memory { IfErr result (λ _. 0 < length (unmet.items ++ unquoted (script_of script.now prepared.now.tree))) }
{
    let mut places = unmet;
    let mut unquoted = check_quotes(alloc, &prepared.tree, &prepared.table, script)?;
    places.append(&mut unquoted)?;
    verdict_of(alloc, script, &places)
}

/// What is reported of a certificate of a script that is admitted.
///
/// # Errors
///
/// `AllocError` if a growth was refused. That requires a certificate that keeps every flow rule,
/// and a place to report.
#[tactic(auto, using(crate::proofs::CheckLemmas::forges, crate::proofs::CheckLemmas::keeps, crate::proofs::CheckLemmas::some_told, crate::proofs::CheckLemmas::some_unmet))]
pub fn judged(
    alloc: Global,
    script: &[u8],
    policy: &Policy,
    prepared: &Prepared,
    certificate: &Certificate,
) -> Result<Verdict, AllocError>
    requires prepared { IsPrepared script.now policy.now prepared.now }
    requires sized { certificate.now.rows.count ≡ length prepared.now.names }
    ensures judges { IfOk result (Judges script.now policy.now prepared.now.tree (sheet_in prepared.now certificate.now)) }
    ensures memory { IfErr result (λ _. TellsSome script.now policy.now prepared.now.tree (sheet_in prepared.now certificate.now)) }
{
    let flow = check_flow(
        alloc,
        &prepared.tree,
        script,
        &prepared.table,
        &prepared.names,
        policy,
        certificate,
    )?;
    match flow {
        Flow::Rule(number, rule) => Ok(Verdict::Forged(number, rule)),
        Flow::Holds => verdict_with(alloc, script, prepared, Vec::new(alloc)),
        Flow::Demand(unmet) => verdict_with(alloc, script, prepared, unmet),
    }
}

/// What is reported of a certificate that keeps every flow rule: its unmet demands and the unquoted
/// expansions. The rules are not looked at.
///
/// # Errors
///
/// `AllocError` if a growth was refused. That requires a place to report.
pub fn judged_kept(
    alloc: Global,
    script: &[u8],
    prepared: &Prepared,
    certificate: &Certificate,
) -> Result<Verdict, AllocError>
    requires { (d : Declared) × IsPrepared script.now d prepared.now × KeepsRules script.now d prepared.now.tree (sheet_in prepared.now certificate.now) }
    ensures reports { IfOk result (λ v. (d : Declared) → TellsPlaces script.now (places script.now d prepared.now.tree (sheet_in prepared.now certificate.now)) v) }
    ensures memory { IfErr result (λ _. (d : Declared) → 0 < length (places script.now d prepared.now.tree (sheet_in prepared.now certificate.now))) }
{
    let unmet = check_demands(
        alloc,
        &prepared.tree,
        script,
        &prepared.table,
        &prepared.names,
        certificate,
    )?;
    verdict_with(alloc, script, prepared, unmet)
}
