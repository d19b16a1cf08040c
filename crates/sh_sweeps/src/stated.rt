//! Passes over what the flow rules require of places whose claims are stated.
ghost use Rattle.std.specs.Prelude.{◌≡◌};
ghost use Rattle.sh_tree.specs.standard.program.Syntax.{Text};
ghost use Rattle.sh_rules.specs.Places.{slot_of};
ghost use Rattle.sh_domain.specs.Filled as spec;

use sh_domain::Knowledge;
use sh_rules::{Asked, Claims, Fault, Place};
use sh_tree::Span;

// Whether a compact certificate states what is claimed at a place.
#[tactic(auto, unfolding(sh_domain::specs::Filled::is_stated))]
fn is_stated(place: Place<'_>) -> bool
    ensures { (b : Text) → result ≡ spec.is_stated (slot_of b place.entry) }
{
    match place {
        Place::Before(_) => false,
        Place::Zero(_) => false,
        Place::Nonzero(_) => false,
        Place::Head(_) => true,
        Place::Entry(_) => true,
        Place::ReturnZero(_) => true,
        Place::ReturnNonzero(_) => true,
    }
}

/// What is asked, except of places whose claims are stated, and of what functions drop.
pub struct Unstated<A> {
    pub asked: A,
}

impl<A: Asked> Asked for Unstated<A> {
    ghost use Rattle.sh_sweeps.specs.Asked.{unstated};

    ghost Kept = { A.Kept };

    ghost kept = { λ u. A.kept u.asked };

    ghost asked = { unstated A.asked };

    fn bound(&mut self, claims: &Claims<'_>, place: Place<'_>, fault: Fault, known: &Knowledge) {
        if !is_stated(place) {
            self.asked.bound(claims, place, fault, known);
        }
    }

    fn drop_variable(
        &mut self,
        _claims: &Claims<'_>,
        _function: Span,
        _fault: Fault,
        _name: &[u8],
    ) {}

    fn drop_function(
        &mut self,
        _claims: &Claims<'_>,
        _function: Span,
        _fault: Fault,
        _name: &[u8],
    ) {}

    fn drop_like(&mut self, _claims: &Claims<'_>, _function: Span, _fault: Fault, _callee: &[u8]) {}
}
