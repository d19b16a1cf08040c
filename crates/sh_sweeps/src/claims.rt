//! What the flow rules look at, of a script and a certificate of its names.
ghost use Rattle.std.specs.Prelude.{◌≡◌, length};
ghost use Rattle.sh_rules.specs.Walks.{setting};
ghost use Rattle.sh_domain.specs.Admitted.{IsAdmitted};
ghost use Rattle.sh_sweeps.specs.Sweeps.{setting_by};

use sh_domain::Certificate;
use sh_drafts::Subject;
use sh_rules::Claims;

/// What the flow rules use, of a certificate whose rows are of the script's names.
pub fn claims_of<'a>(subject: &'a Subject<'_>, certificate: &'a Certificate) -> Claims<'a>
    requires sized { certificate.now.rows.count ≡ length subject.now.names.now }
    requires admitted { IsAdmitted subject.now.script.now subject.now.policy.now subject.now.tree.now subject.now.names.now }
    ensures { setting result ≡ setting_by subject.now certificate.now }
{
    Claims {
        script: subject.script,
        names: subject.names,
        calls: subject.table,
        certificate,
    }
}
