//! How what is gathered follows constraints, which functions the rules know, and which words hold
//! no command.
ghost use Rattle.sh_drafts.specs.Functions.{RulesDefineNames, RulesKnowNames};
ghost use Rattle.sh_drafts.specs.Inner.{EntersNothing};
ghost use Rattle.sh_drafts.specs.Together.{GatheredTogether};

/// What is gathered of several views at a place is gathered of what is known there, of the names
/// that are numbered. What is gathered of names, or of constraints, together is what is gathered of
/// them one after the other. So whoever asks may ask a place once.
pub fn together()
    ensures { GatheredTogether }
{}

/// The flow rules of a script that is admitted define no function without a name (XBD 3.216), and
/// list none to be lost. So take a certificate that claims only names to be defined functions and
/// to be dropped ones. Then what bounds its claims and what its commands drop has only names too:
/// `!` is known as no function.
pub fn functions()
    ensures defined { RulesDefineNames }
    ensures known { RulesKnowNames }
{}

/// If no command substitution is in a word, in redirections or in the words of a simple command, no
/// command of these is entered. So words without any may be passed over.
pub fn words()
    ensures { EntersNothing }
{}
