//! The least command that breaks a flow rule, with the least of the rules that it breaks.
ghost use Rattle.std.specs.Prelude.{◌≡◌, option_map};
ghost use Rattle.sh_domain.specs.Faults as spec;
ghost use Rattle.sh_rules.specs.LeastFault.{with_test};
ghost use Rattle.sh_rules.specs.Tells.{fault_of, least_of};

use sh_domain::FlowRule;

/// A command, by its number, and a rule that it breaks.
#[derive(Clone, Copy, Debug, PartialEq, Eq)]
pub struct Fault {
    pub number: u32,
    pub rule: FlowRule,
}

impl Fault {
    // By command, then by rule.
    #[tactic(auto, unfolding(sh_domain::specs::Faults::precedes))]
    fn precedes(self, other: Fault) -> bool
        ensures { result ≡ spec.precedes (fault_of self) (fault_of other) }
    {
        self.number < other.number
            || (self.number == other.number && self.rule.rank() < other.rule.rank())
    }
}

#[tactic(auto, unfolding(sh_domain::specs::Faults::lesser))]
fn lesser(first: Option<Fault>, next: Fault) -> Option<Fault>
    ensures { option_map fault_of result ≡ spec.lesser (option_map fault_of first) (fault_of next) }
{
    match first {
        None => Some(next),
        Some(other) => {
            if next.precedes(other) {
                Some(next)
            } else {
                Some(other)
            }
        }
    }
}

/// The least fault so far, if there is one.
#[derive(Clone, Copy, Debug)]
pub struct Least {
    pub fault: Option<Fault>,
}

impl Least {
    /// Reports the fault if the test fails.
    #[tactic(auto, unfolding(crate::specs::LeastFault::with_test))]
    pub fn tell(&mut self, holds: bool, fault: Fault)
        ensures { least_of self.new ≡ with_test holds (fault_of fault) (least_of self.old) }
    {
        if !holds {
            self.fault = lesser(self.fault, fault);
        }
    }
}
