//! What the flow rules require of two places in one visit.
ghost use Rattle.std.specs.Prelude.{◌≡◌};
ghost use Rattle.sh_domain.specs.Knowledge.{AreNumbered, knowledge_facts};
ghost use Rattle.sh_drafts.specs.Facts.{meet};
ghost use Rattle.sh_drafts.specs.Kept.{seen_of};
ghost use Rattle.sh_drafts.specs.Numbers.{by_number};

use crate::gather::{Gather, is_place};
use crate::slots::spot_of;
use sh_domain::{Knowledge, Names};
use sh_drafts::sights::meet_assured;
use sh_drafts::{Place, Sight};
use sh_rules::{Asked, Claims, Fault, Place as Slot};
use sh_tree::Span;

/// What is known at two places where any run comes, and the names that a function has to drop.
#[derive(Clone, Copy, Debug)]
pub struct Sides {
    /// What is gathered for the first place and the function. What is next is neither place.
    pub gather: Gather,
    /// The second place.
    pub place: Place,
    /// What is known there.
    pub known: Option<Sight>,
}

// This is known too.
fn meet_known(seen: &mut Option<Sight>, names: &Names, known: &Knowledge)
    requires { AreNumbered names.now }
    ensures { seen_of seen.new ≡ meet (seen_of seen.old) (by_number names.now (knowledge_facts names.now known.now)) }
{
    match known {
        Knowledge::NotReached => {}
        Knowledge::Known(assured) => meet_assured(seen, names, assured),
    }
}

/// What is known at both places, and what the function has to drop.
impl Asked for Sides {
    ghost use Rattle.sh_sweeps.specs.Sides.{Sided, sided_of, siding};

    ghost Kept = { Sided };

    ghost kept = { sided_of };

    ghost asked = { siding };

    fn bound(&mut self, claims: &Claims<'_>, place: Slot<'_>, _fault: Fault, known: &Knowledge) {
        let next = self.gather.next.place;
        let spot = spot_of(claims, place);
        self.gather.bound_at(claims, place, spot, known);
        if is_place(spot, self.place) {
            self.gather.next.place = next;
            meet_known(&mut self.known, claims.names, known);
        }
    }

    fn drop_variable(&mut self, claims: &Claims<'_>, function: Span, fault: Fault, name: &[u8]) {
        self.gather.drop_variable(claims, function, fault, name);
    }

    fn drop_function(&mut self, claims: &Claims<'_>, function: Span, fault: Fault, name: &[u8]) {
        self.gather.drop_function(claims, function, fault, name);
    }

    fn drop_like(&mut self, claims: &Claims<'_>, function: Span, fault: Fault, callee: &[u8]) {
        self.gather.drop_like(claims, function, fault, callee);
    }
}
