//! What the checks of all rows share.
ghost use Rattle.std.specs.Prelude.{◌≤◌, length};

use sh_tree::MAX_SCRIPT;
use std::fmt::Debug;
use std::process::Abort;

/// Holds what is found of a subject against what is wanted.
pub fn same<S: Debug, T: Debug + PartialEq>(rt: &impl Abort, subject: &S, found: &T, wanted: &T) {
    assert_eq!(rt; *found, *wanted, "{subject:?}");
}

/// Holds that a text may be a script, and that this is a place in it or its end.
pub fn is_place(rt: &impl Abort, text: &[u8], at: u32)
    ensures small { length text.now ≤ MAX_SCRIPT }
    ensures inside { at ≤ length text.now }
{
    assert!(rt; text.len() <= MAX_SCRIPT, "{text:?}");
    assert!(rt; at as usize <= text.len(), "{text:?}");
}
