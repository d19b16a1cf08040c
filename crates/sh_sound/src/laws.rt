//! What the rules and the demands that `sh_domain` defines are good for in the runs that `sh_runs`
//! defines.
ghost use Rattle.sh_sound.specs.Theorem.{RulesSuffice, ScriptsExpandNothingUnset, HaveNoEvents, ScriptsHaveNoEvents};

/// Take a program that is admitted and formed as those that are read, and a certificate that breaks
/// no rule and leaves no demand unmet. No step of a run before which nothing was split expands an
/// unset parameter without a default (XCU 2.6.2). The run may have any start that the policy
/// allows, any results of the commands, any choice and any order of the processes. The program of
/// every script that is read is so formed.
pub fn no_unset()
    ensures programs { RulesSuffice }
    ensures scripts { ScriptsExpandNothingUnset }
{}

/// If moreover the rules of quoting report no place, no step of any run has an event. It expands no
/// unset parameter without a default. It gives no expansion's value to field splitting or pathname
/// expansion that could change it (XCU 2.6.2, 2.6.5, 2.6.6). So it is of every script that is read
/// and admitted.
pub fn no_event()
    ensures programs { HaveNoEvents }
    ensures scripts { ScriptsHaveNoEvents }
{}
