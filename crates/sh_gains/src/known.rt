//! What is known at a place, as a walk over a script asks it.
ghost use Rattle.std.specs.Prelude.{◌≡◌};
ghost use Rattle.sh_domain.specs.Demands as demands;
ghost use Rattle.sh_domain.specs.Facts.{claims, Variable, Parameters};
ghost use Rattle.sh_gains.specs.Knowing.{knowing};

use sh_domain::{Knowledge, Names};

/// What is surely set at a place, of the names of a script. Of a name that has no number it knows
/// nothing.
#[derive(Clone, Copy, Debug)]
pub struct Known<'n> {
    pub names: &'n Names,
    pub knowledge: Knowledge,
}

impl Known<'_> {
    /// Whether some run comes here.
    #[tactic(auto, unfolding(sh_domain::specs::Demands::is_reached))]
    pub fn is_reached(&self) -> bool
        ensures { result ≡ demands.is_reached (knowing self.now).facts }
    {
        self.knowledge.is_reached()
    }

    /// Whether the variable is set; `!` is the parameter of that name.
    pub fn has_variable(&self, name: &[u8]) -> bool
        ensures { result ≡ claims (knowing self.now).facts (Variable name.now) }
    {
        self.knowledge.has_variable(self.names, name)
    }

    /// Whether there are so many positional parameters at least.
    pub fn has_parameters(&self, count: u16) -> bool
        ensures { result ≡ claims (knowing self.now).facts (Parameters count) }
    {
        self.knowledge.has_args(count)
    }
}
