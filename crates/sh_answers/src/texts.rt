//! The texts of answers.
ghost use Rattle.std.specs.Prelude.{◌≡◌, ◌++◌, ◌<◌, ◌-◌, ◌^◌, length, map, List, ℕ, IfOk, OnOk, IsErr};
ghost use Rattle.std.specs.Option.{option_copied};
ghost use Rattle.sh_tree.specs.declared.refusal.Refusal.TheVariants as refusal_kind;
ghost use Rattle.sh_tree.specs.standard.Texts.{rule_text};
ghost use Rattle.sh_answers.specs.Verdicts.{contents_of};
ghost use Rattle.sh_answers.specs.Texts as text;

use crate::verdict::{Finding, Verdict};
use sh_domain::FlowRule;
use sh_scan::Lines;
use sh_tree::{Code, Refusal, Rule};
use std::alloc::{AllocError, Global};
use std::io::Write;

/// The text of an answer to a script: its findings each on a line and a last line, or one line.
///
/// # Errors
///
/// `AllocError` if a growth was refused, here or in the answer itself.
pub fn answer(
    alloc: Global,
    script: &[u8],
    answer: &Result<Verdict, Refusal>,
) -> Result<Vec<u8>, AllocError>
    requires { length script.now < 2 ^ 32 - 1 }
    ensures text { IfOk result (λ v. v.items ≡ text.answer_text script.now answer.now) }
    ensures memory { answer.now ≡ Err refusal_kind.Memory → IsErr result }
{
    let mut out = Vec::new(alloc);
    match answer {
        Ok(verdict) => push_verdict(&mut out, verdict)?,
        Err(refusal) => push_refusal(alloc, &mut out, script, *refusal)?,
    }
    Ok(out)
}

/// The exit status for an answer: 0 clean, 1 findings or forged, 2 refused, 3 out of memory.
pub fn status(answer: &Result<Verdict, Refusal>) -> u8
    ensures { result ≡ text.status_of answer.now }
{
    match answer {
        Ok(Verdict::Pass) => 0,
        Ok(Verdict::Fail(_) | Verdict::Forged(..)) => 1,
        Err(Refusal::Memory) => 3,
        Err(_) => 2,
    }
}

fn push_text(out: &mut Vec<u8>, text: &str) -> Result<(), AllocError>
    ensures { OnOk result (out.new.items ≡ out.old.items ++ text.now) }
{
    out.extend_from_slice(text.as_bytes())?;
    Ok(())
}

fn push_verdict(out: &mut Vec<u8>, verdict: &Verdict) -> Result<(), AllocError>
    ensures { OnOk result (out.new.items ≡ out.old.items ++ text.verdict_text verdict.now) }
{
    match verdict {
        Verdict::Pass => push_last(out, 0),
        Verdict::Fail(report) => push_report(out, &report.findings),
        Verdict::Forged(command, rule) => push_forged(out, *command, *rule),
    }
}

fn push_report(out: &mut Vec<u8>, findings: &[Finding]) -> Result<(), AllocError>
    ensures { OnOk result (out.new.items ≡ out.old.items ++ text.report_text (map contents_of findings.now)) }
{
    for finding in findings {
        push_finding(out, finding)?;
    }
    push_last(out, findings.len())
}

fn push_finding(out: &mut Vec<u8>, finding: &Finding) -> Result<(), AllocError>
    ensures { OnOk result (out.new.items ≡ out.old.items ++ text.finding_text (contents_of finding.now)) }
{
    push_place(out, finding.line, finding.column)?;
    push_text(out, code_name(finding.code))?;
    push_text(out, " ")?;
    push_message(out, finding.code, &finding.subject)?;
    push_text(out, "\n")
}

fn push_place(out: &mut Vec<u8>, line: u32, column: u32) -> Result<(), AllocError>
    ensures { OnOk result (out.new.items ≡ out.old.items ++ text.place_text line column) }
{
    write!(out, "{line}:{column}: ").map_err(|_error| AllocError)
}

fn push_message(out: &mut Vec<u8>, code: Code, subject: &[u8]) -> Result<(), AllocError>
    ensures { OnOk result (out.new.items ≡ out.old.items ++ text.message_text code subject.now) }
{
    let (before, after) = message_parts(code);
    push_text(out, before)?;
    match after {
        None => Ok(()),
        Some(after) => {
            out.extend_from_slice(subject)?;
            push_text(out, after)
        }
    }
}

// The words before the subject, and those after it if the subject is shown.
fn message_parts(code: Code) -> (&'static str, Option<&'static str>)
    ensures { (s : List ℕ) → text.message_text code s ≡ result.0.now ++ text.subject_shown s (option_copied result.1) }
{
    match code {
        Code::P1 => ("may unset ", Some(" inside a pipeline")),
        Code::P2 => ("changes the positional parameters inside a pipeline", None),
        Code::Q1 => ("unquoted expansion", None),
        Code::U1 => ("parameter ", Some(" may be unset")),
        Code::U2 => ("HOME may be unset", None),
        Code::U3 => ("parameter ", Some(" may be unset in arithmetic")),
    }
}

fn code_name(code: Code) -> &'static str
    ensures { result.now ≡ text.code_text code }
{
    match code {
        Code::P1 => "P1",
        Code::P2 => "P2",
        Code::Q1 => "Q1",
        Code::U1 => "U1",
        Code::U2 => "U2",
        Code::U3 => "U3",
    }
}

fn push_last(out: &mut Vec<u8>, count: usize) -> Result<(), AllocError>
    ensures { OnOk result (out.new.items ≡ out.old.items ++ text.last_line count) }
{
    if count == 0 {
        return push_text(out, "clean\n");
    }
    write!(out, "findings: {count}\n").map_err(|_error| AllocError)
}

fn push_forged(out: &mut Vec<u8>, command: u32, rule: FlowRule) -> Result<(), AllocError>
    ensures { OnOk result (out.new.items ≡ out.old.items ++ text.forged_text command rule) }
{
    write!(
        out,
        "forged: command {command} breaks {}\n",
        rule_name(rule)
    )
    .map_err(|_error| AllocError)
}

fn rule_name(rule: FlowRule) -> &'static str
    ensures { result.now ≡ text.rule_name_text rule }
{
    match rule {
        FlowRule::F1 => "F1",
        FlowRule::F2 => "F2",
        FlowRule::F3 => "F3",
        FlowRule::F4 => "F4",
        FlowRule::F5 => "F5",
        FlowRule::F6 => "F6",
        FlowRule::F7 => "F7",
        FlowRule::F8 => "F8",
        FlowRule::F9 => "F9",
        FlowRule::F10 => "F10",
        FlowRule::F11 => "F11",
        FlowRule::F12 => "F12",
        FlowRule::F13 => "F13",
        FlowRule::F14 => "F14",
        FlowRule::F15 => "F15",
    }
}

fn push_refusal(
    alloc: Global,
    out: &mut Vec<u8>,
    script: &[u8],
    refusal: Refusal,
) -> Result<(), AllocError>
    requires { length script.now < 2 ^ 32 - 1 }
    ensures text { OnOk result (out.new.items ≡ out.old.items ++ text.refusal_text script.now refusal) }
    ensures memory { refusal ≡ refusal_kind.Memory → IsErr result }
{
    match refusal {
        Refusal::TooLong => push_text(out, "refused: the script is longer than 1048576 bytes\n"),
        Refusal::TooMany => push_text(out, "refused: too many commands or names\n"),
        Refusal::Memory => Err(AllocError),
        Refusal::NulByte(at) => push_refused(alloc, out, script, at, "a NUL byte"),
        Refusal::Syntax(fault, at) => push_refused(alloc, out, script, at, fault.text()),
        Refusal::LeftOut(form, at) => push_refused(alloc, out, script, at, form.text()),
        Refusal::TooDeep(at) => push_refused(alloc, out, script, at, "nested too deep"),
        Refusal::Profile(rule, at) => push_outside(alloc, out, script, at, rule),
        Refusal::CertSyntax(line) => push_malformed(out, line),
        Refusal::CertShape => push_text(out, "refused certificate: does not fit the script\n"),
    }
}

fn push_refused(
    alloc: Global,
    out: &mut Vec<u8>,
    script: &[u8],
    at: u32,
    reason: &str,
) -> Result<(), AllocError>
    requires { length script.now < 2 ^ 32 - 1 }
    ensures { OnOk result (out.new.items ≡ out.old.items ++ text.refused_text script.now at reason.now) }
{
    push_refused_place(alloc, out, script, at)?;
    push_text(out, reason)?;
    push_text(out, "\n")
}

fn push_outside(
    alloc: Global,
    out: &mut Vec<u8>,
    script: &[u8],
    at: u32,
    rule: Rule,
) -> Result<(), AllocError>
    requires { length script.now < 2 ^ 32 - 1 }
    ensures { OnOk result (out.new.items ≡ out.old.items ++ text.refused_text script.now at (rule_text rule)) }
{
    push_refused_place(alloc, out, script, at)?;
    rule.push_text(out)?;
    push_text(out, "\n")
}

fn push_refused_place(
    alloc: Global,
    out: &mut Vec<u8>,
    script: &[u8],
    at: u32,
) -> Result<(), AllocError>
    requires { length script.now < 2 ^ 32 - 1 }
    ensures { OnOk result (out.new.items ≡ out.old.items ++ text.refused_place script.now at) }
{
    let (line, column) = Lines::new(alloc, script)?.place(at);
    push_text(out, "refused ")?;
    push_place(out, line, column)
}

fn push_malformed(out: &mut Vec<u8>, line: u32) -> Result<(), AllocError>
    ensures { OnOk result (out.new.items ≡ out.old.items ++ text.malformed_text line) }
{
    write!(out, "refused certificate line {line}: malformed\n").map_err(|_error| AllocError)
}
