//! Gathers what the flow rules require of a certificate.
ghost use Rattle.std.specs.Prelude.{◌≡◌, option_map};
ghost use Rattle.sh_rules.specs.Places.{slot_of};
ghost use Rattle.sh_rules.specs.Settings.{claimed_at};
ghost use Rattle.sh_rules.specs.Walks.{facts_in, setting};
ghost use Rattle.sh_drafts.specs.Gathered.{Gathered, bounded};
ghost use Rattle.sh_drafts.specs.Places.{place_of};
ghost use Rattle.sh_drafts.specs.Spots.{place_at};
ghost use Rattle.sh_sweeps.specs.Asked.{gathered_of, gathering};

use crate::gather::Gather;
use crate::slots::spot_of;
use sh_domain::Knowledge;
use sh_drafts::Spot;
use sh_rules::{Asked, Claims, Fault, Place};
use sh_tree::Span;

impl Gather {
    /// A place, which is this spot, may claim no more than this.
    pub fn bound_at(
        &mut self,
        claims: &Claims<'_>,
        place: Place<'_>,
        spot: Option<Spot>,
        known: &Knowledge,
    )
        requires { option_map place_at spot ≡ place_of (setting claims.now).functions (slot_of (setting claims.now).script place) }
        ensures { gathered_of self.new ≡ bounded (setting claims.now).names (setting claims.now).functions (slot_of (setting claims.now).script place.entry)
            (claimed_at (setting claims.now) (slot_of (setting claims.now).script place.entry)) (facts_in (setting claims.now) known.now) (gathered_of self.old) }
    {
        let facts = claims.facts_at(place);
        let is_kept = claims.is_known(&facts, known);
        if self.see_place(spot, is_kept) {
            self.meet(claims.names, known);
        }
    }
}

/// What is known at the place that is sought, and what its function has to drop.
impl Asked for Gather {
    ghost use Rattle.sh_drafts.specs.Gathered.{Gathered};
    ghost use Rattle.sh_sweeps.specs.Asked.{gathering};
    ghost use Rattle.sh_sweeps.specs.Asked.{gathered_of};

    ghost Kept = { Gathered };

    ghost kept = { gathered_of };

    ghost asked = { gathering };

    fn bound(&mut self, claims: &Claims<'_>, place: Place<'_>, _fault: Fault, known: &Knowledge) {
        let spot = spot_of(claims, place);
        self.bound_at(claims, place, spot, known);
    }

    fn drop_variable(&mut self, claims: &Claims<'_>, function: Span, _fault: Fault, name: &[u8]) {
        let is_kept = claims.drops_variable(function, name);
        let index = claims.index_at(function);
        if self.see_function(index, is_kept) {
            self.lose_variable(claims.names, name);
        }
    }

    fn drop_function(&mut self, claims: &Claims<'_>, function: Span, _fault: Fault, name: &[u8]) {
        let is_kept = claims.drops_function(function, name);
        let index = claims.index_at(function);
        if self.see_function(index, is_kept) {
            self.lose_function(claims.names, name);
        }
    }

    fn drop_like(&mut self, claims: &Claims<'_>, function: Span, _fault: Fault, callee: &[u8]) {
        let is_kept = claims.drops_like(function, callee);
        let index = claims.index_at(function);
        if self.see_function(index, is_kept) {
            self.lose_like(claims, callee);
        }
    }
}
