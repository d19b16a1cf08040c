//! One run: reads what its action reads, and writes the text of the answer.
ghost use Rattle.std.specs.Prelude.{◌≡◌, ◌≤◌, ◌⊎◌, ℕ, List, Err, IfOk, IsErr, OnOk, OnErr, IsErrOf, length};
ghost use Rattle.sh_answers.specs.Ends.{BoreOnly, FailedBetween, HasRoom, RefusedBetween};
ghost use Rattle.sh_answers.specs.Moves.{BoreAll, TookAtMost, TookWhole};
ghost use Rattle.sh_answers.specs.declared.task.Action.TheVariants as actions;
ghost use Rattle.sh_answers.specs.Texts.{answer_text, status_of};
ghost use Rattle.sh_tree.specs.declared.refusal.Refusal.TheVariants as refusals;
ghost use Rattle.sh_accept.specs.Written.{Tells, shown_status, shown_text};
ghost use Rattle.sh_report.specs.Promises.{EndsSafe};
ghost use Rattle.sh_report.specs.Runs as runs;
ghost use Rattle.sh_report.specs.Runs.{IsRead, IsTextRead, WritesAnswer, WritesFront};

use crate::checks::check;
use crate::lints::{certificate, lint};
use crate::prints::canonical_text;
use sh_answers::{Action, Fault, Feed, Outlet, Task, Verdict, read_all, texts, write_all};
use sh_domain::MAX_CERTIFICATE;
use sh_tree::{MAX_SCRIPT, Refusal};
use std::alloc::{AllocError, Global};

// The most bytes that are taken of the script's reader: one more than a script may have.
const SCRIPT_READ: usize = MAX_SCRIPT + 1;

// The most bytes that are taken of the certificate's reader: one more than its text may have.
const CERTIFICATE_READ: usize = MAX_CERTIFICATE + 1;

/// Reads the script, at most 1,048,577 bytes of it. For a check it then reads the certificate, at
/// most 67,108,865 bytes of it. It does the task, and writes the text of the answer on the bytes
/// read, and nothing else. The whole text is made before its first byte is written. The result is
/// the exit status. 0 is for clean or a text that was asked for, 1 for findings or a certificate
/// that breaks a flow rule, 2 for refused. A lint or a check that ends with 0 promises what a pass
/// does. No other action reads `cert`, and none before the script is read whole.
///
/// # Errors
///
/// `Memory` if a growth was refused and `Read` if a reader failed, each with nothing written.
/// `Write` if the writer failed, with a front of the text written. A fault is reported if that end
/// failed, and only then. After a refused growth no reader had failed.
pub fn run<R: Feed, C: Feed, W: Outlet>(
    alloc: Global,
    task: &Task,
    script: &mut R,
    cert: &mut C,
    out: &mut W,
) -> Result<u8, Fault>
    requires script_room { HasRoom (R.tally script.old) }
    requires cert_room { HasRoom (C.tally cert.old) }
    requires out_room { HasRoom (W.tally out.old) }
    ensures text { IfOk result (λ status. (b : List ℕ) × (t : List ℕ) × IsRead (R.remaining script.old) runs.script_read b
        × IsTextRead task.now.action (C.remaining cert.old) runs.certificate_read t × WritesAnswer task.now b t (W.contents out.old) (W.contents out.new) status) }
    ensures headline { IfOk result (λ status. (b : List ℕ) × IsRead (R.remaining script.old) runs.script_read b × EndsSafe task.now b status) }
    ensures script_whole { OnOk result (TookWhole (R.tally script.old) (R.tally script.new) (R.remaining script.old) (R.remaining script.new) runs.script_read) }
    ensures script_written { IsErrOf result Fault.Write → TookWhole (R.tally script.old) (R.tally script.new) (R.remaining script.old) (R.remaining script.new) runs.script_read }
    ensures script_lost { OnErr result (TookAtMost (R.remaining script.old) (R.remaining script.new) runs.script_read) }
    ensures cert_left { (task.now.action ≡ actions.Check → ⊥) → cert.new ≡ cert.old }
    ensures cert_whole { OnOk result (task.now.action ≡ actions.Check → TookWhole (C.tally cert.old) (C.tally cert.new) (C.remaining cert.old) (C.remaining cert.new) runs.certificate_read) }
    ensures cert_written { IsErrOf result Fault.Write → task.now.action ≡ actions.Check → TookWhole (C.tally cert.old) (C.tally cert.new) (C.remaining cert.old) (C.remaining cert.new) runs.certificate_read }
    ensures cert_lost { OnErr result (task.now.action ≡ actions.Check → TookAtMost (C.remaining cert.old) (C.remaining cert.new) runs.certificate_read) }
    ensures front { IsErrOf result Fault.Write → (b : List ℕ) × (t : List ℕ) × IsRead (R.remaining script.old) runs.script_read b
        × IsTextRead task.now.action (C.remaining cert.old) runs.certificate_read t × WritesFront task.now b t (W.contents out.old) (W.contents out.new) }
    ensures memory { IsErrOf result Fault.Memory → out.new ≡ out.old }
    ensures read { IsErrOf result Fault.Read → out.new ≡ out.old }
    ensures order { (cert.new ≡ cert.old) ⊎ TookWhole (R.tally script.old) (R.tally script.new) (R.remaining script.old) (R.remaining script.new) runs.script_read }
    ensures wrote { OnOk result (BoreOnly (W.tally out.old) (W.tally out.new)) }
    ensures memory_read { IsErrOf result Fault.Memory → BoreAll (R.tally script.old) (R.tally script.new) × BoreAll (C.tally cert.old) (C.tally cert.new) }
    ensures read_failed { IsErrOf result Fault.Read → (FailedBetween (R.tally script.old) (R.tally script.new) × (cert.new ≡ cert.old)) ⊎ FailedBetween (C.tally cert.old) (C.tally cert.new) }
    ensures succeeds { R.cannot_fail script.old → (task.now.action ≡ actions.Check → C.cannot_fail cert.old) → IsErrOf result Fault.Read → ⊥ }
    ensures write_failed { IsErrOf result Fault.Write → RefusedBetween (W.tally out.old) (W.tally out.new) }
{
    // As in `check`.
    let _declared = task.policy.names();
    let bytes = read_all(alloc, script, SCRIPT_READ)?;
    let text = read_certificate(alloc, task.action, cert)?;
    let Ok(answer) = answer_of(alloc, task, &bytes, &text) else {
        return Err(Fault::Memory);
    };
    write_all(out, &answer.text)?;
    Ok(answer.status)
}

// The certificate's text, or an empty one for an action that reads none.
fn read_certificate<C: Feed>(alloc: Global, action: Action, cert: &mut C) -> Result<Vec<u8>, Fault>
    requires { HasRoom (C.tally cert.old) }
    ensures taken { IfOk result (λ v. IsTextRead action (C.remaining cert.old) runs.certificate_read v.items) }
    ensures left { (action ≡ actions.Check → ⊥) → cert.new ≡ cert.old }
    ensures whole { OnOk result (action ≡ actions.Check → TookWhole (C.tally cert.old) (C.tally cert.new) (C.remaining cert.old) (C.remaining cert.new) runs.certificate_read) }
    ensures lost { OnErr result (action ≡ actions.Check → TookAtMost (C.remaining cert.old) (C.remaining cert.new) runs.certificate_read) }
    ensures bore { OnOk result (BoreAll (C.tally cert.old) (C.tally cert.new)) }
    ensures memory { IsErrOf result Fault.Memory → BoreAll (C.tally cert.old) (C.tally cert.new) }
    ensures failed { IsErrOf result Fault.Read → FailedBetween (C.tally cert.old) (C.tally cert.new) }
    ensures succeeds { (action ≡ actions.Check → C.cannot_fail cert.old) → IsErrOf result Fault.Read → ⊥ }
    ensures written { IsErrOf result Fault.Write → ⊥ }
{
    match action {
        Action::Lint | Action::Cert { .. } | Action::Print => Ok(Vec::new(alloc)),
        Action::Check => read_all(alloc, cert, CERTIFICATE_READ),
    }
}

/// The text of an answer, and its exit status.
#[derive(Debug, Drop)]
struct Answer {
    text: Vec<u8>,
    status: u8,
}

impl Answer {
    // Of a verdict.
    fn of_verdict(
        alloc: Global,
        script: &[u8],
        answer: &Result<Verdict, Refusal>,
    ) -> Result<Answer, AllocError>
        requires { length script.now ≤ runs.script_read }
        ensures text { IfOk result (λ a. a.text.items ≡ answer_text script.now answer.now) }
        ensures status { IfOk result (λ a. a.status ≡ status_of answer.now) }
        ensures memory { answer.now ≡ Err refusals.Memory → IsErr result }
    {
        let text = texts::answer(alloc, script, answer)?;
        let status = texts::status(answer);
        Ok(Answer { text, status })
    }

    // Of a text that is shown.
    fn of_text(
        alloc: Global,
        script: &[u8],
        shown: Result<Vec<u8>, Refusal>,
    ) -> Result<Answer, AllocError>
        requires { length script.now ≤ runs.script_read }
        ensures text { IfOk result (λ a. a.text.items ≡ shown_text script.now shown) }
        ensures status { IfOk result (λ a. a.status ≡ shown_status shown) }
        ensures memory { shown ≡ Err refusals.Memory → IsErr result }
    {
        match shown {
            Ok(text) => Ok(Answer { text, status: 0 }),
            Err(refusal) => Answer::of_verdict(alloc, script, &Err(refusal)),
        }
    }
}

fn answer_of(alloc: Global, task: &Task, script: &[u8], text: &[u8]) -> Result<Answer, AllocError>
    requires { length script.now ≤ runs.script_read }
    ensures { IfOk result (λ a. Tells task.now.action script.now text.now task.now.policy a.text.items a.status) }
{
    let policy = &task.policy;
    match task.action {
        Action::Lint => Answer::of_verdict(alloc, script, &lint(alloc, script, policy)),
        Action::Cert { full } => {
            Answer::of_text(alloc, script, certificate(alloc, script, policy, full))
        }
        Action::Check => Answer::of_verdict(alloc, script, &check(alloc, script, policy, text)),
        Action::Print => Answer::of_text(alloc, script, canonical_text(alloc, script)),
    }
}
