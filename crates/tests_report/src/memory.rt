//! Runs over texts in memory: no file and no stream is there.
use sh_facts::Policy;
use sh_report::{Action, Counted, Fault, Task, run};
use std::alloc::Global;
use std::test::Fail;

const CLEAN: &[u8] = b"x=1\necho \"$x\"\n";

const UNSET: &[u8] = b"echo \"$x\"\n";

/// What a run of an action writes, and its status.
fn written(
    alloc: Global,
    action: Action,
    script: &[u8],
    certificate: &[u8],
) -> Result<(Result<u8, Fault>, Vec<u8>), Fail> {
    let policy = Policy::new(alloc, &[], 0)?;
    let mut out = Counted::new(Vec::<u8>::new(alloc));
    let status = run(
        alloc,
        &Task { action, policy },
        &mut Counted::new(script),
        &mut Counted::new(certificate),
        &mut out,
    );
    Ok((status, out.inner))
}

#[test]
fn a_clean_script(rt: HostRuntime) -> Result<(), Fail> {
    let (status, text) = written(rt.alloc(), Action::Lint, CLEAN, b"")?;
    assert_eq!(rt; status, Ok(0));
    assert_eq!(rt; text.as_slice(), b"clean\n".as_slice());
    Ok(())
}

#[test]
fn a_script_with_a_finding(rt: HostRuntime) -> Result<(), Fail> {
    let (status, text) = written(rt.alloc(), Action::Lint, UNSET, b"")?;
    assert_eq!(rt; status, Ok(1));
    assert_eq!(rt;
        text.as_slice(),
        b"1:7: U1 parameter x may be unset\nfindings: 1\n".as_slice()
    );
    Ok(())
}

#[test]
fn a_script_and_its_own_certificates(rt: HostRuntime) -> Result<(), Fail> {
    for full in [false, true] {
        let (status, certificate) = written(rt.alloc(), Action::Cert { full }, CLEAN, b"")?;
        assert_eq!(rt; status, Ok(0));
        let (status, text) = written(rt.alloc(), Action::Check, CLEAN, &certificate)?;
        assert_eq!(rt; status, Ok(0));
        assert_eq!(rt; text.as_slice(), b"clean\n".as_slice());
    }
    Ok(())
}

#[test]
fn a_certificate_of_another_script(rt: HostRuntime) -> Result<(), Fail> {
    let (_, certificate) = written(rt.alloc(), Action::Cert { full: true }, CLEAN, b"")?;
    let (status, text) = written(rt.alloc(), Action::Check, UNSET, &certificate)?;
    assert_eq!(rt; status, Ok(2));
    assert_eq!(rt;
        text.as_slice(),
        b"refused certificate: does not fit the script\n".as_slice()
    );
    Ok(())
}

#[test]
fn a_canonical_text(rt: HostRuntime) -> Result<(), Fail> {
    let (status, text) = written(rt.alloc(), Action::Print, b"x=1;echo  \"$x\"", b"")?;
    assert_eq!(rt; status, Ok(0));
    assert_eq!(rt; text.as_slice(), CLEAN);
    Ok(())
}
