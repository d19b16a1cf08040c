//! The check of a certificate: the script first, then the text, then what the rules and the demands
//! say of it.
ghost use Rattle.std.specs.Prelude.{◌≡◌, Ok};
ghost use Rattle.sh_answers.specs.declared.verdict.Verdict.TheVariants as verdicts;
ghost use Rattle.sh_accept.specs.Answers.{Checks};
ghost use Rattle.sh_accept.specs.Theorem.{IsSafe};
ghost use Rattle.sh_judged.specs.Prepared.{IsPrepared};

use crate::claimed::certified;
use sh_answers::Verdict;
use sh_domain::Policy;
use sh_judged::{Prepared, judged, prepare};
use sh_tree::Refusal;
use std::alloc::Global;

// What is reported of a certificate's text, of a script that is admitted.
#[tactic(auto, using(sh_judged::proofs::CheckLemmas::exhausted))]
fn check_prepared(
    alloc: Global,
    script: &[u8],
    policy: &Policy,
    prepared: &Prepared,
    text: &[u8],
) -> Result<Verdict, Refusal>
    requires { IsPrepared script.now policy.now prepared.now }
    ensures { Checks script.now policy.now text.now result }
{
    let certificate = certified(alloc, script, policy, prepared, text)?;
    let verdict = judged(alloc, script, policy, prepared, &certificate)?;
    Ok(verdict)
}

/// The verdict on a certificate's text: a pass exactly if it is accepted, the least flow rule that
/// it breaks, or the findings in order. After a pass the script has exactly one reading. No run of
/// it expands an unset parameter without a default. Nor does a run give an expansion's value to
/// field splitting or pathname expansion that could change it (XCU 2.6.2, 2.6.5, 2.6.6). This holds
/// of runs from any start that the policy allows, with any results of the commands, any choice and
/// any order of the processes.
///
/// # Errors
///
/// The refusal of the script, of its profile, of its names or of the text, in that order; `Memory`
/// if a growth was refused.
#[tactic(auto, using(sh_judged::proofs::RefusalLemmas::widened, crate::proofs::PromiseLemmas::checked))]
pub fn check(alloc: Global, script: &[u8], policy: &Policy, text: &[u8]) -> Result<Verdict, Refusal>
    ensures answers { Checks script.now policy.now text.now result }
    ensures headline { result ≡ Ok verdicts.Pass → IsSafe script.now policy.now }
{
    // Its clause says that each is a name. A pass depends on that.
    let _declared = policy.names();
    let prepared = prepare(alloc, script, policy)?;
    check_prepared(alloc, script, policy, &prepared, text)
}
