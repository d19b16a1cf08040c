//! Where a walk is in a list of commands.
ghost use Rattle.std.specs.Prelude.{◌≡◌};
ghost use Rattle.sh_rules.specs.Behind.{both};
ghost use Rattle.sh_rules.specs.Settings.{Setting};
ghost use Rattle.sh_rules.specs.Walks as walks;
ghost use Rattle.sh_rules.specs.Walks.{facts_in};

use crate::behind::Behind;
use sh_domain::{FlowRule, Knowledge};

/// Where a walk is in a list: the rule that enters what comes next, and what is known there.
#[derive(Clone, Copy)]
pub struct Course {
    pub by: FlowRule,
    pub behind: Behind,
}

/// At the start of a list that this rule enters, with this known.
pub fn begun(by: FlowRule, known: &Knowledge) -> Course
    ensures by { result.by ≡ by }
    ensures behind { (x : Setting) → walks.behind_in x result.behind ≡ both (facts_in x known.now) }
{
    Course {
        by,
        behind: Behind::both(known),
    }
}
