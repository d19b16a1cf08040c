//! What is seen, as sets that take no memory.
ghost use Rattle.std.specs.Prelude.{◌≤◌};

use sh_domain::NumberSet;

/// What is seen where a run may come: these variables are set, these functions are defined, and
/// there are so many positional parameters at least.
#[derive(Clone, Copy, Debug, PartialEq, Eq)]
pub struct Sight {
    pub vars: NumberSet,
    pub functions: NumberSet,
    pub args: u16,
    ghost bounded: { args ≤ 65535 },
}
