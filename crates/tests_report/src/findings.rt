//! What is reported of places.
use sh_answers::texts;
use sh_report::verdict_of;
use sh_tree::{Code, Items, Place};
use std::alloc::Global;
use std::test::Fail;

const SCRIPT: &[u8] = b"y=1 OPTARG=\"$x\" getopts ab y\necho \"$y\"\n";

fn place(alloc: Global, at: u32, name: &[u8]) -> Result<Place, Fail> {
    Ok(Place {
        at,
        code: Code::U1,
        subject: Items::from_slice(alloc, name)?,
    })
}

#[test]
fn none_pass(rt: HostRuntime) -> Result<(), Fail> {
    let verdict = verdict_of(rt.alloc(), SCRIPT, &[])?;
    let text = texts::answer(rt.alloc(), SCRIPT, &Ok(verdict))?;
    assert!(rt; text.as_slice() == b"clean\n".as_slice());
    Ok(())
}

#[test]
fn told_in_order(rt: HostRuntime) -> Result<(), Fail> {
    let alloc = rt.alloc();
    let places = [place(alloc, 35, b"y")?, place(alloc, 12, b"x")?];
    let verdict = verdict_of(alloc, SCRIPT, &places)?;
    let text = texts::answer(alloc, SCRIPT, &Ok(verdict))?;
    assert!(rt;
        text.as_slice()
            == b"1:13: U1 parameter x may be unset\n2:7: U1 parameter y may be unset\nfindings: 2\n".as_slice()
    );
    Ok(())
}
