//! The lines of every kind of answer.

use sh_answers::texts::{answer, status};
use sh_answers::{Finding, Report, Verdict, in_order};
use sh_domain::FlowRule;
use sh_tree::{Code, Fault, Form, Refusal, Rule};
use std::alloc::{AllocError, Global};
use std::process::Abort;
use std::test::Fail;

const SCRIPT: &[u8] = b"echo a\necho \"$x\n";

/// Holds the text and the status of an answer to the script against those that are wanted.
fn check(
    rt: &(impl Abort + AllocGlobal),
    told: &Result<Verdict, Refusal>,
    wanted: &[u8],
    wanted_status: u8,
) -> Result<(), Fail> {
    let text = answer(rt.alloc(), SCRIPT, told)?;
    let is_wanted = text.as_slice() == wanted && status(told) == wanted_status;
    assert!(rt; is_wanted, "{text:?} {wanted:?}");
    Ok(())
}

/// The line, the column, the code and the subject of a finding.
type Row = (u32, u32, Code, &'static [u8]);

/// A pass, or the report of these findings.
fn verdict_of(findings: Vec<Finding>) -> Verdict {
    if findings.is_empty() {
        Verdict::Pass
    } else {
        Verdict::Fail(Report { findings })
    }
}

/// The verdict of these findings, in order.
fn report_of(alloc: Global, rows: &[Row]) -> Result<Verdict, AllocError> {
    let mut findings = Vec::new(alloc);
    for (line, column, code, subject) in rows {
        findings.push(Finding {
            line: *line,
            column: *column,
            code: *code,
            subject: Vec::from_slice(alloc, *subject)?,
        })?;
    }
    Ok(verdict_of(in_order(findings)?))
}

const FINDINGS: &[Row] = &[
    (10, 1, Code::U2, b""),
    (2, 7, Code::U3, b"n"),
    (2, 7, Code::U1, b"xy"),
    (2, 7, Code::U1, b"x"),
    (2, 7, Code::Q1, b""),
    (2, 1, Code::P2, b""),
    (2, 1, Code::P1, b"x"),
    (1, 12, Code::U1, b"!"),
];

const REPORT: &[u8] = b"1:12: U1 parameter ! may be unset\n\
    2:1: P1 may unset x inside a pipeline\n\
    2:1: P2 changes the positional parameters inside a pipeline\n\
    2:7: Q1 unquoted expansion\n\
    2:7: U1 parameter x may be unset\n\
    2:7: U1 parameter xy may be unset\n\
    2:7: U3 parameter n may be unset in arithmetic\n\
    10:1: U2 HOME may be unset\n\
    findings: 8\n";

#[test]
fn findings_are_shown_in_order(rt: HostRuntime) -> Result<(), Fail> {
    let report = report_of(rt.alloc(), FINDINGS)?;
    check(&rt, &Ok(report), REPORT, 1)
}

const FORGED: &[(FlowRule, &[u8])] = &[
    (FlowRule::F1, b"forged: command 12 breaks F1\n"),
    (FlowRule::F2, b"forged: command 12 breaks F2\n"),
    (FlowRule::F3, b"forged: command 12 breaks F3\n"),
    (FlowRule::F4, b"forged: command 12 breaks F4\n"),
    (FlowRule::F5, b"forged: command 12 breaks F5\n"),
    (FlowRule::F6, b"forged: command 12 breaks F6\n"),
    (FlowRule::F7, b"forged: command 12 breaks F7\n"),
    (FlowRule::F8, b"forged: command 12 breaks F8\n"),
    (FlowRule::F9, b"forged: command 12 breaks F9\n"),
    (FlowRule::F10, b"forged: command 12 breaks F10\n"),
    (FlowRule::F11, b"forged: command 12 breaks F11\n"),
    (FlowRule::F12, b"forged: command 12 breaks F12\n"),
    (FlowRule::F13, b"forged: command 12 breaks F13\n"),
    (FlowRule::F14, b"forged: command 12 breaks F14\n"),
    (FlowRule::F15, b"forged: command 12 breaks F15\n"),
];

#[test]
fn other_verdicts_are_one_line(rt: HostRuntime) -> Result<(), Fail> {
    check(&rt, &Ok(Verdict::Pass), b"clean\n", 0)?;
    for (rule, text) in FORGED {
        check(&rt, &Ok(Verdict::Forged(12, *rule)), text, 1)?;
    }
    Ok(())
}

const REFUSED: &[(Refusal, &[u8])] = &[
    (
        Refusal::TooLong,
        b"refused: the script is longer than 1048576 bytes\n",
    ),
    (Refusal::NulByte(0), b"refused 1:1: a NUL byte\n"),
    (
        Refusal::Syntax(Fault::OpenDouble, 12),
        b"refused 2:6: a double quote is not closed\n",
    ),
    (
        Refusal::LeftOut(Form::Select, 7),
        b"refused 2:1: select is outside the profile\n",
    ),
    (Refusal::TooDeep(16), b"refused 3:1: nested too deep\n"),
    (Refusal::TooMany, b"refused: too many commands or names\n"),
    (
        Refusal::Profile(Rule::CommandUse, 6),
        b"refused 1:7: this use of command is outside the profile\n",
    ),
    (
        Refusal::CertSyntax(3),
        b"refused certificate line 3: malformed\n",
    ),
    (
        Refusal::CertShape,
        b"refused certificate: does not fit the script\n",
    ),
];

#[test]
fn refusals_are_one_line(rt: HostRuntime) -> Result<(), Fail> {
    for (refusal, text) in REFUSED {
        check(&rt, &Err(*refusal), text, 2)?;
    }
    Ok(())
}

#[test]
fn want_of_memory_has_no_text(rt: HostRuntime) {
    let unread: Result<Verdict, Refusal> = Err(Refusal::Memory);
    let is_refused = answer(rt.alloc(), SCRIPT, &unread).is_err() && status(&unread) == 3;
    assert!(rt; is_refused);
}

#[test]
fn long_reports_are_shown(rt: HostRuntime) -> Result<(), Fail> {
    let alloc = rt.alloc();
    let mut findings = Vec::new(alloc);
    for line in 0..60_000u32 {
        findings.push(Finding {
            line,
            column: 1,
            code: Code::U1,
            subject: Vec::from_slice(alloc, b"name")?,
        })?;
    }
    let text = answer(alloc, SCRIPT, &Ok(verdict_of(in_order(findings)?)))?;
    let lines = text.iter().filter(|byte| **byte == b'\n').count();
    assert_eq!(rt; lines, 60_001);
    Ok(())
}
