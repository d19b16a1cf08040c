//! Places that a certificate claims something of.
ghost use Rattle.std.specs.Prelude.{◌≡◌};
ghost use Rattle.sh_drafts.specs.Places as spec;

/// What a claim is of. A command: where it is entered, and after it by its status. A loop: each
/// turn. A function: where it is entered, and where it returns by its status.
#[derive(Clone, Copy, Debug, PartialEq, Eq)]
pub enum Part {
    Before,
    Zero,
    Nonzero,
    Head,
    Entered,
    ReturnZero,
    ReturnNonzero,
}

/// A part of the command or the function of an index, which is its number less one.
#[derive(Clone, Copy, Debug, PartialEq, Eq)]
pub struct Place {
    pub part: Part,
    pub index: u16,
}

impl Part {
    /// Its place in their order.
    #[tactic(auto, unfolding(crate::specs::Places::rank))]
    pub fn rank(self) -> u8
        ensures { result ≡ spec.rank self }
    {
        match self {
            Part::Before => 0,
            Part::Zero => 1,
            Part::Nonzero => 2,
            Part::Head => 3,
            Part::Entered => 4,
            Part::ReturnZero => 5,
            Part::ReturnNonzero => 6,
        }
    }

    /// Whether it is round a command.
    #[tactic(auto, unfolding(crate::specs::Places::is_of_command))]
    pub fn is_of_command(self) -> bool
        ensures { result ≡ spec.is_of_command self }
    {
        match self {
            Part::Before => true,
            Part::Zero => true,
            Part::Nonzero => true,
            Part::Head => false,
            Part::Entered => false,
            Part::ReturnZero => false,
            Part::ReturnNonzero => false,
        }
    }

    /// Whether it is round a function.
    #[tactic(auto, unfolding(crate::specs::Places::is_of_function))]
    pub fn is_of_function(self) -> bool
        ensures { result ≡ spec.is_of_function self }
    {
        match self {
            Part::Before => false,
            Part::Zero => false,
            Part::Nonzero => false,
            Part::Head => false,
            Part::Entered => true,
            Part::ReturnZero => true,
            Part::ReturnNonzero => true,
        }
    }
}
