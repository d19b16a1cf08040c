//! A part of a command or of a function by its index, which a script may be too short to have.
ghost use Rattle.std.specs.Prelude.{◌≡◌, ◌-◌};
ghost use Rattle.sh_drafts.specs.Gathered.{fitting, fitting_place};
ghost use Rattle.sh_drafts.specs.Places as spec;
ghost use Rattle.sh_drafts.specs.Spots.{place_at};

use crate::place::{Part, Place};

/// A part of a command or a function of an index, however far that is.
#[derive(Clone, Copy, Debug)]
pub struct Spot {
    pub part: Part,
    pub index: usize,
}

/// The index, if a script may have a command or a function of it.
#[tactic(auto, unfolding(crate::specs::Gathered::fitting))]
pub fn fitting(index: usize) -> Option<u16>
    ensures { result ≡ fitting index }
{
    u16::try_from(index).ok()
}

impl Spot {
    /// Whether this is that place.
    pub fn is(self, place: Place) -> bool
        ensures { result ≡ spec.same (place_at self) place }
    {
        self.index == place.index as usize && self.part.rank() == place.part.rank()
    }

    /// The place, if a script may have a command or a function of its index.
    #[tactic(auto, unfolding(crate::specs::Gathered::fitting_place))]
    pub fn place(self) -> Option<Place>
        ensures { result ≡ fitting_place (place_at self) }
    {
        let index = fitting(self.index)?;
        Some(Place {
            part: self.part,
            index,
        })
    }
}

/// A part of the command of a number.
pub fn of_command(part: Part, number: u32) -> Spot
    ensures { place_at result ≡ spec.at part (number - 1) }
{
    Spot {
        part,
        index: number.saturating_sub(1) as usize,
    }
}
