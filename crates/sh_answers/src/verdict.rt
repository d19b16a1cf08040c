//! Findings, and what is reported of a script.
ghost use Rattle.std.specs.Prelude.{◌<◌, length, IfOk};
ghost use Rattle.std.specs.List.Sorted.{IsPermutation, IsSortedByKey};
ghost use Rattle.sh_answers.specs.Verdicts.{contents_of, contents_cmp};

use sh_domain::FlowRule;
use sh_tree::Code;
use std::alloc::AllocError;

/// What is reported at a place: a demand that is unmet or an unquoted expansion, at its line and
/// column, each from 1. With it comes the name that it is about, or nothing.
#[derive(Debug, Drop, PartialEq, Eq, PartialOrd, Ord)]
pub struct Finding {
    pub line: u32,
    pub column: u32,
    pub code: Code,
    pub subject: Vec<u8>,
}

/// The findings of a script, one or more, in the order in which they are shown.
#[derive(Debug, Drop)]
pub struct Report {
    pub findings: Vec<Finding>,
    ghost some: { 0 < length findings.items },
}

/// What is reported of a script that is not refused.
#[derive(Debug, Drop)]
pub enum Verdict {
    /// Every demand is met, and no expansion is reported as unquoted.
    Pass,
    /// Some demand is unmet, or some expansion is reported as unquoted.
    Fail(Report),
    /// The certificate breaks a flow rule at the command of this number.
    Forged(u32, FlowRule),
}

/// The findings by line, column, code and subject.
///
/// # Errors
///
/// `AllocError` if a growth was refused.
pub fn in_order(mut findings: Vec<Finding>) -> Result<Vec<Finding>, AllocError>
    ensures same { IfOk result (λ v. IsPermutation findings.items v.items) }
    ensures sorted { IfOk result (λ v. IsSortedByKey contents_of contents_cmp v.items) }
{
    findings.sort()?;
    Ok(findings)
}
