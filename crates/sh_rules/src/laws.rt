//! What the walk is good for, and what the rules ask.
ghost use Rattle.sh_rules.specs.Above.{StaysAbove, VisitsDoAsked};
ghost use Rattle.sh_rules.specs.Asked.{AskedOfFacts, LeastOfConstraints, LeastOfScripts, LoopsAreFew, PrefixesAreNumbered, TableDefines};
ghost use Rattle.sh_rules.specs.Meaning.{WalkEnters};
ghost use Rattle.sh_rules.specs.TextTells.{TextsTell};

use crate::asked::Asked;

/// A walk from what is known at the start meets each command as the flow rules enter it, in their
/// order. It has the rule that enters it, what is round it, and what is seen there, of the names
/// that are numbered.
pub fn entered()
    ensures { WalkEnters }
{}

/// What the flow rules ask of several views at a place they ask of what is known there, of the
/// names that are numbered. This holds of whatever is done with it that follows constraints. So it
/// is at each compound command, and where one has redirections. So it is at each simple command, by
/// what its name means, with where it jumps to. So it is at a whole command, with what it drops,
/// and over a script, by a walk that does it at each command.
pub fn asked<A: Asked>()
    ensures { AskedOfFacts A.Kept A.asked }
{}

/// The least fault so far follows constraints: it is the least of those that fail.
pub fn least_by()
    ensures { LeastOfConstraints }
{}

/// Take a walk over a script, from what is known at the start, that reports each command and keeps
/// the least fault. At its end it has the least fault of the certificate. That is the first command
/// that breaks a flow rule, with the first of the rules that it breaks.
pub fn least()
    ensures { LeastOfScripts }
{}

/// The names of a script suffice for its rules: those of prefix assignments are among them. The
/// functions of its call table are those that its commands define. No command is in more loops than
/// there are commands.
pub fn names()
    ensures prefixes { PrefixesAreNumbered }
    ensures functions { TableDefines }
    ensures loops { LoopsAreFew }
{}

/// What simple commands ask and drop by the static texts of their words is what they ask and drop
/// by the words (XCU 2.9.1).
pub fn texts<A: Asked>()
    ensures { TextsTell A.Kept A.asked }
{}

/// More than is seen requires no less of a certificate below. Whatever is known at a command,
/// nothing is asked there but what its rules ask. Take a certificate that breaks none of them. If
/// it claims no more than the one that is asked, and sees no more than is known there, it allows
/// all that is asked. So a certificate may be lowered command by command, and stays above each one
/// that keeps the rules.
pub fn above<A: Asked>()
    ensures { StaysAbove A.Kept A.asked }
{}

/// What a visit does by the call table of a script is what the rules ask at each of its commands,
/// whatever is known there.
pub fn visits<A: Asked>()
    ensures { VisitsDoAsked A.Kept A.asked }
{}
