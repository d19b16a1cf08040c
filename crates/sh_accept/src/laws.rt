//! What an accepted certificate is good for, and what holds of the answers that `specs/` defines.
ghost use Rattle.sh_accept.specs.Computed.{HasOneAnswer};
ghost use Rattle.sh_accept.specs.examples.Accepted.{KnownIsAccepted};
ghost use Rattle.sh_accept.specs.examples.Answers.{AnswersAsExpected};
ghost use Rattle.sh_accept.specs.Fillable.{ReadIsFillable};
ghost use Rattle.sh_accept.specs.Greatest.{GreatestIsBest};
ghost use Rattle.sh_accept.specs.Inside.{RefusalsStandInside};
ghost use Rattle.sh_accept.specs.Once.{PlacesStandOnce};
ghost use Rattle.sh_accept.specs.Parts.{PartsAlwaysAnswer};
ghost use Rattle.sh_accept.specs.Passed.{LintedIsChecked};
ghost use Rattle.sh_accept.specs.Printed.{PrintedIsRead};
ghost use Rattle.sh_accept.specs.Shown.{ShownIsGreatest};
ghost use Rattle.sh_accept.specs.Single.{HasOneGreatest};
ghost use Rattle.sh_accept.specs.Statics.{StaticsAreTexts};
ghost use Rattle.sh_accept.specs.Theorem.{Headline};
ghost use Rattle.sh_accept.specs.Written.{TellsOneAnswer};

/// If a certificate is accepted, and so if a check or a lint passes, the script has exactly one
/// reading. No run of that reading expands an unset parameter without a default. Nor does a run
/// give an expansion's value to field splitting or pathname expansion that could change it
/// (XCU 2.6.2, 2.6.5, 2.6.6). This holds of runs from any start that the policy allows, with any
/// results of the commands, any choice and any order of the processes.
pub fn headline()
    ensures { Headline }
{}

/// Whatever the parts of a check answer, one after the other, some answer of the check is allowed.
/// It is the refusal of the first that refuses, and otherwise a pass, the least forgery or the
/// findings.
pub fn parts()
    ensures { PartsAlwaysAnswer }
{}

/// Of a script that is read, whatever a check may answer of a certificate's text is the computed
/// answer, unless memory runs out. If the text is compact, it is the answer of the filled
/// certificate. So there is one answer. The refusals come in the order script, profile, names,
/// certificate.
pub fn answers()
    ensures { HasOneAnswer }
{}

/// Known programs, with texts of certificates, are answered as they should be: passes, findings in
/// their order, forgeries, and each refusal before the next.
pub fn examples()
    ensures { AnswersAsExpected }
{}

/// `echo "$x"` is accepted if x is declared. A check of its certificate's full or compact text
/// passes, and so does a lint.
pub fn accepted()
    ensures { KnownIsAccepted }
{}

/// The greatest certificate of a script leaves no place unmet that another one meets. So it is
/// accepted if any one is. If findings are reported of a script without a certificate, none is
/// accepted.
pub fn greatest()
    ensures { GreatestIsBest }
{}

/// A script that is read has at most one greatest certificate. So there is at most one answer if no
/// certificate is given, unless memory runs out. There is at most one text of each version of the
/// certificate that is shown.
pub fn single()
    ensures { HasOneGreatest }
{}

/// If a lint passes, a check of the certificate's text that is shown of the script passes. If a
/// lint has findings, such a check has the same ones. So it is of the full text and of the compact
/// one.
pub fn passed()
    ensures { LintedIsChecked }
{}

/// The text that is shown of a script claims its greatest certificate: whatever it claims is that
/// one. The compact form of it, with what is known at the start, is filled to it.
pub fn shown()
    ensures { ShownIsGreatest }
{}

/// Take a script that is read, one action, one certificate's bytes and one policy. What may be
/// written is one text with one exit status.
pub fn written()
    ensures { TellsOneAnswer }
{}

/// If the text that is printed of a script is no longer than a script may be, it is read as a tree
/// that differs only in offsets and numbers. It is printed as itself, unless memory runs out.
pub fn printed()
    ensures { PrintedIsRead }
{}

/// What is read of a compact certificate's text, for a script that is admitted, meets what `fill`
/// requires.
pub fn fillable()
    ensures { ReadIsFillable }
{}

/// The place that a refusal names is before the end of the script's text. For a fault of syntax and
/// for a level too many it may be at that end.
pub fn inside()
    ensures { RefusalsStandInside }
{}

/// Of a script that is read no place is reported twice, neither of an unmet demand nor of an
/// expansion outside quotes. So no finding is in a report twice.
pub fn once()
    ensures { PlacesStandOnce }
{}

/// What a call table keeps of the words of a simple command is what `sh_tree::static_text` reads
/// off them (XCU 2.2).
pub fn statics()
    ensures { StaticsAreTexts }
{}
