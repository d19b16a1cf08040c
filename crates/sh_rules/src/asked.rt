//! What is done with what the flow rules ask at each command.
ghost use Rattle.std.specs.Prelude.{◌≡◌};
ghost use Rattle.sh_tree.specs.standard.Tree.{text_of};
ghost use Rattle.sh_rules.specs.Asking.{Asking, one_function, one_variable};
ghost use Rattle.sh_rules.specs.LeastFault.{least_told};
ghost use Rattle.sh_rules.specs.Places.{slot_of};
ghost use Rattle.sh_rules.specs.Settings.{certificate};
ghost use Rattle.sh_rules.specs.Tells.{fault_of, least_of};
ghost use Rattle.sh_rules.specs.Walks.{facts_in, setting};

use crate::claims::Claims;
use crate::fault::{Fault, Least};
use crate::place::Place;
use sh_domain::Knowledge;
use sh_tree::Span;

/// What is done with what the flow rules ask at each command. A place has to claim no more than is
/// known there, and a function to drop what its commands drop. Each comes with the command and the
/// rule that are broken if that fails.
pub trait Asked {
    // What is kept.
    ghost Kept: { Type 0 };

    ghost kept: { Self → Kept };

    // What is kept with one thing asked more.
    ghost asked: { Asking Kept };

    /// A place may claim no more than this.
    fn bound(&mut self, claims: &Claims<'_>, place: Place<'_>, fault: Fault, known: &Knowledge)
        ensures { kept self.new ≡ asked.bound (setting claims.now) (slot_of (setting claims.now).script place.entry) (fault_of fault) (facts_in (setting claims.now) known.now) (kept self.old) };

    /// A function drops a variable.
    fn drop_variable(&mut self, claims: &Claims<'_>, function: Span, fault: Fault, name: &[u8])
        ensures { kept self.new ≡ asked.drop (setting claims.now) (text_of (setting claims.now).script function) (fault_of fault) (one_variable name.now) (kept self.old) };

    /// A function drops a function.
    fn drop_function(&mut self, claims: &Claims<'_>, function: Span, fault: Fault, name: &[u8])
        ensures { kept self.new ≡ asked.drop (setting claims.now) (text_of (setting claims.now).script function) (fault_of fault) (one_function name.now) (kept self.old) };

    /// A function drops all that a function drops which it calls.
    fn drop_like(&mut self, claims: &Claims<'_>, function: Span, fault: Fault, callee: &[u8])
        ensures { kept self.new ≡ asked.drop (setting claims.now) (text_of (setting claims.now).script function) (fault_of fault) ((certificate (setting claims.now)).drops callee.now) (kept self.old) };
}

/// The least fault so far, if what is asked fails.
impl Asked for Least {
    ghost use Rattle.std.specs.Prelude.{Option};
    ghost use Rattle.sh_domain.specs.Faults as faults;
    ghost use Rattle.sh_rules.specs.LeastFault.{least_told};
    ghost use Rattle.sh_rules.specs.Tells.{least_of};

    ghost Kept = { Option faults.Fault };

    ghost kept = { least_of };

    ghost asked = { least_told };

    fn bound(&mut self, claims: &Claims<'_>, place: Place<'_>, fault: Fault, known: &Knowledge) {
        let facts = claims.facts_at(place);
        self.tell(claims.is_known(&facts, known), fault);
    }

    fn drop_variable(&mut self, claims: &Claims<'_>, function: Span, fault: Fault, name: &[u8]) {
        self.tell(claims.drops_variable(function, name), fault);
    }

    fn drop_function(&mut self, claims: &Claims<'_>, function: Span, fault: Fault, name: &[u8]) {
        self.tell(claims.drops_function(function, name), fault);
    }

    fn drop_like(&mut self, claims: &Claims<'_>, function: Span, fault: Fault, callee: &[u8]) {
        self.tell(claims.drops_like(function, callee), fault);
    }
}
