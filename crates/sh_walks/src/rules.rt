//! The flow rules of a whole script: at each command what they require of it is done (XCU 2.9).
ghost use Rattle.std.specs.Prelude.{◌≡◌, ◌≤◌, length, option_map, true};
ghost use Rattle.sh_tree.specs.declared.limits.TheConstants.{MAX_COMMANDS};
ghost use Rattle.sh_tree.specs.standard.program.Trees.{script_of};
ghost use Rattle.sh_runs.specs.Calls.{table_of};
ghost use Rattle.sh_runs.specs.Numbering.{is_numbered};
ghost use Rattle.sh_domain.specs.Facts.{start_facts};
ghost use Rattle.sh_domain.specs.Faults.{faults, least};
ghost use Rattle.sh_domain.specs.Names.{IsNumbering};
ghost use Rattle.sh_gains.specs.Claims.{kept_claims};
ghost use Rattle.sh_rules.specs.Tells.{fault_of};
ghost use Rattle.sh_rules.specs.Visits as spec;

use crate::walk::{Visitor, walk};
use sh_domain::{FlowRule, Knowledge, Policy};
use sh_rules::{Around, Asked, Claims, Fault, Least};
use sh_tree::{Command, Script};
use sh_visits::tell_command;

/// A visitor that does at each command what the rules require of it.
pub struct Rules<A> {
    pub asked: A,
}

impl<A: Asked> Visitor for Rules<A> {
    ghost Kept = { A.Kept };

    ghost kept = { λ s. A.kept s.asked };

    ghost with_met = { λ x. spec.command_by A.asked x };

    fn visit(
        &mut self,
        claims: &Claims<'_>,
        by: FlowRule,
        around: &Around<'_>,
        known: &Knowledge,
        command: &Command,
    ) {
        tell_command(claims, by, around, known, command, &mut self.asked);
    }
}

/// The least command that breaks a flow rule, with the least of the rules that it breaks, by what
/// the certificate claims of the script. None if it breaks none. The check takes no memory.
pub fn check_rules(claims: &Claims<'_>, policy: &Policy, tree: &Script) -> Option<Fault>
    requires table { claims.now.calls.now ≡ table_of claims.now.script.now tree.now }
    requires numbered { is_numbered (script_of claims.now.script.now tree.now) ≡ true }
    requires few { length (table_of claims.now.script.now tree.now).rows ≤ MAX_COMMANDS }
    requires names { IsNumbering claims.now.script.now tree.now policy.now claims.now.names.now }
    ensures { option_map fault_of result ≡ least (faults (start_facts policy.now) (kept_claims claims.now.script.now tree.now claims.now.names.now claims.now.certificate.now) (script_of claims.now.script.now tree.now)) }
{
    let start = Knowledge::start(claims.names, policy);
    let mut rules = Rules {
        asked: Least { fault: None },
    };
    walk(claims, &start, tree, &mut rules);
    let Rules { asked } = rules;
    asked.fault
}
