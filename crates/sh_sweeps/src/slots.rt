//! The places that the flow rules speak of, by the indices of commands and functions.
ghost use Rattle.std.specs.Prelude.{◌≡◌, option_map};
ghost use Rattle.sh_domain.specs.Names.{number_of};
ghost use Rattle.sh_rules.specs.Places.{slot_of};
ghost use Rattle.sh_rules.specs.Walks.{setting};
ghost use Rattle.sh_drafts.specs.Places as spec;
ghost use Rattle.sh_drafts.specs.Spots.{place_at};

use sh_drafts::{Part, Spot, of_command};
use sh_rules::{Claims, Place as Slot};

/// The index of a function, if it is one of the script.
pub fn index_of(claims: &Claims<'_>, name: &[u8]) -> Option<usize>
    ensures { result ≡ number_of (setting claims.now).functions name.now }
{
    claims.calls.function_place(name)
}

// A part of the function of an index, if there is one.
fn of_function(part: Part, index: Option<usize>) -> Option<Spot>
    ensures { option_map place_at result ≡ option_map (spec.at part) index }
{
    let index = index?;
    Some(Spot { part, index })
}

/// The place that the rules speak of so, if it is one of a command or of a function of the script.
#[tactic(auto, unfolding(sh_drafts::specs::Places::place_of))]
pub fn spot_of(claims: &Claims<'_>, slot: Slot<'_>) -> Option<Spot>
    ensures { option_map place_at result ≡ spec.place_of (setting claims.now).functions (slot_of (setting claims.now).script slot.entry) }
{
    match slot {
        Slot::Before(number) => Some(of_command(Part::Before, number)),
        Slot::Zero(number) => Some(of_command(Part::Zero, number)),
        Slot::Nonzero(number) => Some(of_command(Part::Nonzero, number)),
        Slot::Head(number) => Some(of_command(Part::Head, number)),
        Slot::Entry(name) => of_function(Part::Entered, index_of(claims, name)),
        Slot::ReturnZero(name) => of_function(Part::ReturnZero, claims.index_at(name)),
        Slot::ReturnNonzero(name) => of_function(Part::ReturnNonzero, claims.index_at(name)),
    }
}
