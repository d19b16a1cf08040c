//! What holds of the rules and the demands that `specs/` defines.
ghost use Rattle.sh_domain.specs.examples.Answers.{AnswersAsExpected};
ghost use Rattle.sh_domain.specs.Filled.{FilledKeeps};
ghost use Rattle.sh_domain.specs.Inclusions.{RulesGive};
ghost use Rattle.sh_domain.specs.Knowledge.{LostOneByOne, NamesSuffice};
ghost use Rattle.sh_domain.specs.examples.Knowledge.{KnowledgeAsExpected};
ghost use Rattle.sh_domain.specs.LeastFault.{LeastIsTold};
ghost use Rattle.sh_domain.specs.Meets.{SeenIsMeet};
ghost use Rattle.sh_domain.specs.Order.{Monotone, Ordered};
ghost use Rattle.sh_domain.specs.Slots.{EveryCertificateClaims};
ghost use Rattle.sh_domain.specs.RoundTrips.{ReadIsWritten, WrittenReadsBack};
ghost use Rattle.sh_domain.specs.Spelling.{HasOneText};
ghost use Rattle.sh_domain.specs.Places.{PlacesStandOnce, ReadPlacesStandOnce};
ghost use Rattle.sh_domain.specs.Readings.{ReadGivesFields, ReadHasFewCommands, ReadHasRows, ReadIsFormed, ReadIsNumbered, ReadNamesVariables, ReadNumbersDiffer};
ghost use Rattle.sh_domain.specs.examples.Spots.{SpotsAsExpected};
ghost use Rattle.sh_domain.specs.CompactRoundTrips.{GivenIsWritten, WrittenCompactReadsBack};
ghost use Rattle.sh_domain.specs.CompactStates.{CompactsState};
ghost use Rattle.sh_domain.specs.CompactSpelling.{CompactHasOneText};
ghost use Rattle.sh_domain.specs.examples.CompactTexts.{CompactTextsAsExpected};
ghost use Rattle.sh_domain.specs.examples.Texts.{TextsAsExpected};

/// Known certificates of known scripts have the answers that they should have: the first rule that
/// one breaks, or the places of the unmet demands.
pub fn examples()
    ensures { AnswersAsExpected }
{}

/// Facts are ordered by what they claim, with a meet and a greatest, and the test of a claim is
/// that order.
pub fn order()
    ensures { Ordered }
{}

/// If a certificate claims more and has functions drop less, each bound of a rule claims more and
/// each command drops less. So a certificate without a fault stays below whatever a greater one is
/// lowered to.
pub fn monotone()
    ensures { Monotone }
{}

/// If a certificate keeps the flow rules, what its compact form with the start is filled to keeps
/// them too, and claims no less. Two that are filled from the same claim the same.
pub fn filled()
    ensures { FilledKeeps }
{}

/// What is seen at several places is the meet of what each view claims. A fact is within it if it
/// is within each. A step, unless it is a call, may be taken after the meet.
pub fn meets()
    ensures { SeenIsMeet }
{}

/// Of a list of faults the one that is reported is in it, none in it precedes that one, and no
/// other is so.
pub fn least()
    ensures { LeastIsTold }
{}

/// What a certificate without a fault and without an unmet demand gives at each command of an
/// admitted program. It gives which claims are within what is seen there, and which names the
/// command may drop. It gives too that the command's words need no more than is known.
pub fn inclusions()
    ensures { RulesGive }
{}

/// The program of every script that is read is formed. A name is wherever one has to be, a
/// positional parameter has a number from 1, and plain text is not empty. An operand whose text is
/// static gives a field, and a simple command has no redirections after it (XCU 2.10). So its words
/// give fields. If it is admitted, no run of it comes to a utility that no row speaks of.
pub fn formed()
    ensures programs { ReadIsFormed }
    ensures fields { ReadGivesFields }
    ensures rows { ReadHasRows }
{}

/// No two commands of a script that is read have one number, those of its here-documents included.
/// The table of one within the limits has no more commands than a script may have.
pub fn numbered()
    ensures once { ReadNumbersDiffer }
    ensures test { ReadIsNumbered }
    ensures few { ReadHasFewCommands }
{}

/// Take a program in which no two commands start at one offset, and no two expansions, tildes or
/// names of arithmetic are at one. No place of it is reported twice. The program of every script
/// that is read is such (`sh_reads::laws::once`).
pub fn once()
    ensures law { PlacesStandOnce }
    ensures scripts { ReadPlacesStandOnce }
    ensures examples { SpotsAsExpected }
{}

/// Known certificates have the texts that they should have, and these texts claim what they should.
/// Of other texts the first line that has not the form is reported.
pub fn certificate_texts()
    ensures { TextsAsExpected }
{}

/// Known compact certificates are those of known certificates with their start, and state what they
/// should at each place. They have the texts that they should have, and these texts claim what they
/// should. Of other texts the first line that has not the form is reported. The first line says the
/// version.
pub fn compact_texts()
    ensures { CompactTextsAsExpected }
{}

/// Of a certificate's claims there is one text, and it reads as these claims.
pub fn spelling()
    ensures { HasOneText }
{}

/// Of a compact certificate's claims there is one text, and it reads as these claims.
pub fn compact_spelling()
    ensures { CompactHasOneText }
{}

/// Take a kept certificate whose rows name variables and functions, and that has no more of
/// anything than a text may have. It is written with rising names, and what is written is read as a
/// certificate that claims the same. What is read is what is written again.
pub fn round_trips()
    ensures written { WrittenReadsBack }
    ensures read { ReadIsWritten }
{}

/// Take a compact certificate whose rows name variables and functions, whose loops rise, and that
/// has no more of anything than a text may have. It is written with rising names, and what is
/// written is read as one that claims the same. What is read of a text of either version is what is
/// written again.
pub fn compact_round_trips()
    ensures written { WrittenCompactReadsBack }
    ensures read { GivenIsWritten }
{}

/// The compact certificate of a certificate states, at each turn of a loop and round each function,
/// what that certificate claims. Of the start it states what is known. A kept one states what a
/// certificate claims that has its heads and its functions, and nothing round its commands.
pub fn compact_states()
    ensures { CompactsState }
{}

/// The names that are numbered of a script are enough: each has a number of its own, and those of
/// the start have one. What is known of them stays known of them alone if one of them is set or
/// defined. Names that are lost together may be lost one by one. In a script that is read, each is
/// a name or `!` if each declared one is a name, as those of a `Policy` are.
pub fn names()
    ensures law { NamesSuffice }
    ensures losses { LostOneByOne }
    ensures variables { ReadNamesVariables }
    ensures examples { KnowledgeAsExpected }
{}

/// Take the certificate that the rules are asked of. Before and after each command, at each turn of
/// a loop and round each function, it claims what the kept certificate has under that number. If
/// there is none, it claims that no run comes there.
pub fn entries()
    ensures { EveryCertificateClaims }
{}
