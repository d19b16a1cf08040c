//! What is known where a script starts.
ghost use Rattle.std.specs.Prelude.{◌≡◌};
ghost use Rattle.sh_domain.specs.Admitted.{IsAdmitted};
ghost use Rattle.sh_domain.specs.Knowledge.{among, knowledge_facts};
ghost use Rattle.sh_drafts.specs.Starts.{start_of};

use crate::subject::Subject;
use sh_domain::Knowledge;

impl Subject<'_> {
    /// What is known where the script starts: what is stated, if anything is, or what the policy
    /// declares.
    pub fn start(&self) -> Knowledge
        requires admitted { IsAdmitted self.now.script.now self.now.policy.now self.now.tree.now self.now.names.now }
        ensures { knowledge_facts self.now.names.now result ≡ among self.now.names.now (start_of self.now) }
    {
        if self.stated {
            return Knowledge::claimed(&self.compact.rows, &self.compact.start);
        }
        Knowledge::start(self.names, self.policy)
    }
}
