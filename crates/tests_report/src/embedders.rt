//! What a program that embeds the library names, at the crates that offer it.
use sh_facts::Policy;
pub use sh_facts::{
    Certificate, Compact, Facts, Given, Names, PolicyFault, compact_of, is_compact_too_long,
    is_too_long, read_any, read_certificate, start_of, write_certificate, write_compact,
};
pub use sh_flow::{Flow, FlowRule, check_flow, fill};
pub use sh_quote::{check_quotes, steady_ifs};
pub use sh_report::{
    Action, Broken, Counted, Counts, Fault, Feed, Finding, Outlet, Report, Task, canonical_text,
    certificate, check, run,
};
use sh_report::{Verdict, lint};
use std::test::Fail;

#[test]
fn a_declared_name_is_set(rt: HostRuntime) -> Result<(), Fail> {
    let policy = Policy::new(rt.alloc(), &[b"x"], 0)?;
    let verdict = lint(rt.alloc(), b"echo \"$x\"\n", &policy)?;
    assert!(rt; matches!(verdict, Verdict::Pass));
    Ok(())
}

#[test]
fn another_name_may_be_unset(rt: HostRuntime) -> Result<(), Fail> {
    let policy = Policy::new(rt.alloc(), &[b"x"], 0)?;
    let verdict = lint(rt.alloc(), b"echo \"$y\"\n", &policy)?;
    assert!(rt; matches!(verdict, Verdict::Fail(_)));
    Ok(())
}
