//! What holds of the walks that `specs/` defines.
ghost use Rattle.sh_demands.specs.Moves.{MovesTell};
ghost use Rattle.sh_demands.specs.Numbered.{NamesReach};
ghost use Rattle.sh_demands.specs.Tellings.{EachIsTold, OwnTells, WordsTell};
ghost use Rattle.sh_demands.specs.Whole.{DemandsAreTold};

/// What is judged of a word is what the demands say of it, and what is gained is what they say is
/// gained. This holds if each name that may be set is one of those that are known. So it is of a
/// command's own words and redirections.
pub fn words()
    ensures words { WordsTell }
    ensures commands { OwnTells }
{}

/// The walk over a program reports each command that the flow rules enter, in their order. So, if
/// each name that a command may set is numbered, the places that it reports of a script are those
/// of the unmet demands.
pub fn demands()
    ensures order { EachIsTold }
    ensures whole { DemandsAreTold }
{}

/// The static texts of the words of a command say whether it changes the positional parameters.
pub fn moves()
    ensures { MovesTell }
{}

/// The names that are numbered of a script are enough for its demands. Each name that a command may
/// set in its words is one of them.
pub fn names()
    ensures { NamesReach }
{}
