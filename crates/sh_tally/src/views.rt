//! The places whose counts of positional parameters bound the count somewhere (XCU 2.5.1).

ghost use Rattle.std.specs.Prelude.{◌≡◌, ℕ, max, List, Some, IfSome};
ghost use Rattle.sh_tree.specs.standard.program.Syntax.{Text};
ghost use Rattle.sh_domain.specs.Entries.{ends, turns};
ghost use Rattle.sh_domain.specs.Views as views;
ghost use Rattle.sh_domain.specs.Views.{Both, Seen, Slot, after_command};
ghost use Rattle.sh_tally.specs.Views.{Raised, RaisedView, See, SeeAfter, Sees, index_of};

use crate::places::{Part, Places};
use sh_counts::{Count, Equations};
use sh_tree::LoopKind;

/// What is known at a place, and then after expansions that leave at least so many parameters.
#[derive(Clone, Copy, Debug, PartialEq, Eq)]
pub struct View {
    pub source: Count,
    pub least: u16,
}

/// At most two views of what is known somewhere: the one that claims the least count, and of the
/// others the one that may fall furthest.
#[derive(Clone, Copy, Debug, PartialEq, Eq)]
pub struct Views {
    pub first: Option<View>,
    pub second: Option<View>,
}

/// What is known after a status of zero, and after another one.
#[derive(Clone, Copy, Debug, PartialEq, Eq)]
pub struct After {
    pub zero: Views,
    pub nonzero: Views,
}

impl View {
    // The view after expansions that leave at least so many parameters.
    fn raised(self, least: u16) -> View
        ensures source { result.source ≡ self.source }
        ensures least { result.least ≡ max self.least least }
    {
        View {
            source: self.source,
            least: self.least.max(least),
        }
    }

    // How many parameters it claims, if any run comes to its place: a hint.
    fn args(self, places: &Places<'_>) -> Option<u16> {
        let args = places.args(self.source)?;
        Some(args.max(self.least))
    }

    // The least to which its count falls if it is in a circle: a hint.
    fn floor(self, equations: &Equations) -> u16 {
        equations.floor(self.source).max(self.least)
    }

    // How far it may fall. If that is no further than another view, what it makes of zero: a hint.
    fn reach(self, equations: &Equations, first: View) -> (bool, u16) {
        let floor = self.floor(equations);
        if floor < first.floor(equations) {
            (false, floor)
        } else {
            (true, equations.least(self.source).max(self.least))
        }
    }
}

// A view after expansions that leave at least so many parameters.
#[tactic(auto, unfolding(crate::specs::Views::RaisedView))]
fn raised(view: Option<View>, least: u16) -> Option<View>
    ensures { RaisedView least view result }
{
    match view {
        Some(view) => Some(view.raised(least)),
        None => None,
    }
}

// Whether a view claims less than another one: a hint. If both claim the same, the one with the
// lower floor may fall further.
fn is_less(places: &Places<'_>, equations: &Equations, view: View, other: View) -> bool {
    let claimed = view.args(places);
    let before = other.args(places);
    if claimed == before {
        view.floor(equations) < other.floor(equations)
    } else {
        claimed < before
    }
}

// The one of two views that may fall further, if this is the first view: a hint. Claims decide only
// if the floors are equal, since a view that falls by more at each turn may have the higher floor.
// If neither may fall further than the first, a `shift` that comes later may lower one.
fn lower(
    places: &Places<'_>,
    equations: &Equations,
    first: View,
    view: Option<View>,
    other: Option<View>,
) -> Option<View>
    ensures { (functions : List Text) (q : Seen) → IfSome view (Sees functions q) → IfSome other (Sees functions q) → IfSome result (Sees functions q) }
{
    let Some(one) = view else {
        return other;
    };
    let Some(two) = other else {
        return view;
    };
    let reach = one.reach(equations, first);
    let last = two.reach(equations, first);
    if last < reach || (last == reach && two.args(places) < one.args(places)) {
        other
    } else {
        view
    }
}

impl Views {
    /// No view.
    pub const NONE: Views = Views {
        first: None,
        second: None,
    };

    /// What is known at a place.
    #[tactic(auto, using(crate::proofs::ViewLemmas::at_sees))]
    pub fn at(source: Count) -> Views
        ensures { (functions : List Text) (slot : Slot) → index_of functions slot ≡ Some source.index → See functions (views.at slot) result }
    {
        Views {
            first: Some(View { source, least: 0 }),
            second: None,
        }
    }

    /// The views after expansions that leave at least so many parameters.
    pub fn raised(self, least: u16) -> Views
        ensures { Raised least self result }
    {
        Views {
            first: raised(self.first, least),
            second: raised(self.second, least),
        }
    }

    // With one view more, if any run comes to its place and it is better than one of these.
    fn with(self, places: &Places<'_>, equations: &Equations, view: Option<View>) -> Views
        ensures { (functions : List Text) (q : Seen) → See functions q self → IfSome view (Sees functions q) → See functions q result }
    {
        let Some(view) = view else {
            return self;
        };
        if view.args(places).is_none() || self.first == Some(view) {
            return self;
        }
        let Some(first) = self.first else {
            return Views {
                first: Some(view),
                second: self.second,
            };
        };
        if is_less(places, equations, view, first) {
            return Views {
                first: Some(view),
                second: lower(places, equations, view, Some(first), self.second),
            };
        }
        Views {
            first: self.first,
            second: lower(places, equations, first, self.second, Some(view)),
        }
    }

    /// What both see.
    pub fn and(self, places: &Places<'_>, equations: &Equations, other: Views) -> Views
        ensures { (functions : List Text) (q : Seen) → See functions q self → See functions q other → See functions q result }
    {
        Views::NONE
            .with(places, equations, self.first)
            .with(places, equations, self.second)
            .with(places, equations, other.first)
            .with(places, equations, other.second)
    }
}

impl After {
    /// Whatever the status is.
    #[tactic(auto, unfolding(sh_domain::specs::Views::if_zero, sh_domain::specs::Views::if_nonzero))]
    pub fn both(views: Views) -> After
        ensures { (functions : List Text) (q : Seen) → See functions q views → SeeAfter functions (Both q) result }
    {
        After {
            zero: views,
            nonzero: views,
        }
    }

    /// After the command of a number.
    pub fn command(number: u32) -> After
        ensures { (functions : List Text) → SeeAfter functions (after_command number) result }
    {
        After {
            zero: Views::at(Part::Zero.of(number)),
            nonzero: Views::at(Part::Nonzero.of(number)),
        }
    }

    /// With the statuses exchanged, if it is negated.
    pub fn swapped(self, is_negated: bool) -> After
        ensures { (functions : List Text) (o : views.After) → SeeAfter functions o self → SeeAfter functions (views.swapped is_negated o) result }
    {
        if is_negated {
            After {
                zero: self.nonzero,
                nonzero: self.zero,
            }
        } else {
            self
        }
    }

    /// What is known after the condition of a loop if it takes its next turn, and if it ends.
    #[tactic(auto, unfolding(sh_domain::specs::Entries::turns, sh_domain::specs::Entries::ends))]
    pub fn turned(self, kind: LoopKind) -> After
        ensures turns { (functions : List Text) (o : views.After) → SeeAfter functions o self → See functions (turns kind o) result.zero }
        ensures ends { (functions : List Text) (o : views.After) → SeeAfter functions o self → See functions (ends kind o) result.nonzero }
    {
        match kind {
            LoopKind::While => self,
            LoopKind::Until => After {
                zero: self.nonzero,
                nonzero: self.zero,
            },
        }
    }

    /// What is known after any status.
    pub fn in_any_case(self, places: &Places<'_>, equations: &Equations) -> Views
        ensures { (functions : List Text) (o : views.After) → SeeAfter functions o self → See functions (views.in_any_case o) result }
    {
        self.zero.and(places, equations, self.nonzero)
    }
}
