//! A walk over the script gathers all that the flow rules require of a certificate.
ghost use Rattle.std.specs.Prelude.{◌≡◌, length};
ghost use Rattle.sh_tree.specs.standard.program.Trees.{script_of};
ghost use Rattle.sh_domain.specs.Rules.{script_bounds};
ghost use Rattle.sh_domain.specs.Admitted.{IsAdmitted, claims_in, functions_in};
ghost use Rattle.sh_drafts.specs.Gathered.{all_gathered};
ghost use Rattle.sh_drafts.specs.Stated.{asked_bounds};
ghost use Rattle.sh_drafts.specs.Turns.{sheet_by};
ghost use Rattle.sh_drafts.specs.Starts.{start_of};
ghost use Rattle.sh_sweeps.specs.Asked.{gathered_of, gathering, unstated};
ghost use Rattle.sh_rules.specs.Visits.{command_by};
ghost use Rattle.sh_rules.specs.Walked.{script_walked};
ghost use Rattle.sh_rules.specs.Walks.{facts_in, setting};

use sh_domain::{Certificate, Knowledge};
use sh_drafts::Subject;
use sh_rules::Claims;
use sh_sweeps::{Gather, Unstated, claims_of};
use sh_tree::Script;
use sh_walks::Rules;
use sh_walks::walk::walk;

// With all that the flow rules ask.
fn ask_all(claims: &Claims<'_>, start: &Knowledge, tree: &Script, gather: Gather) -> Gather
    ensures { gathered_of result ≡ script_walked (setting claims.now) (command_by gathering (setting claims.now)) (facts_in (setting claims.now) start.now) (gathered_of gather) (script_of (setting claims.now).script tree.now) }
{
    let mut rules = Rules { asked: gather };
    walk(claims, start, tree, &mut rules);
    let Rules { asked } = rules;
    asked
}

// With all that the flow rules ask, except of what is stated.
fn ask_unstated(claims: &Claims<'_>, start: &Knowledge, tree: &Script, gather: Gather) -> Gather
    ensures { gathered_of result ≡ script_walked (setting claims.now) (command_by (unstated gathering) (setting claims.now)) (facts_in (setting claims.now) start.now) (gathered_of gather) (script_of (setting claims.now).script tree.now) }
{
    let asked = Unstated { asked: gather };
    let mut rules = Rules { asked };
    walk(claims, start, tree, &mut rules);
    let Rules { asked } = rules;
    let Unstated { asked } = asked;
    asked
}

/// With all that the flow rules require of a certificate of a script.
pub fn ask(subject: &Subject<'_>, certificate: &Certificate, gather: Gather) -> Gather
    requires sized { certificate.now.rows.count ≡ length subject.now.names.now }
    requires admitted { IsAdmitted subject.now.script.now subject.now.policy.now subject.now.tree.now subject.now.names.now }
    ensures { gathered_of result ≡ all_gathered subject.now.names.now (functions_in subject.now.script.now subject.now.tree.now) (start_of subject.now)
        (claims_in subject.now.script.now subject.now.tree.now (sheet_by subject.now.names.now certificate.now)) (gathered_of gather)
        (asked_bounds subject.now.stated (script_bounds (script_of subject.now.script.now subject.now.tree.now))) }
{
    let claims = claims_of(subject, certificate);
    let start = subject.start();
    if subject.stated {
        return ask_unstated(&claims, &start, subject.tree, gather);
    }
    ask_all(&claims, &start, subject.tree, gather)
}
