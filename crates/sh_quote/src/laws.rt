//! What holds of the rules of quoting that `specs/` defines, and what they are good for in the runs
//! that `sh_runs` defines.
ghost use Rattle.sh_quote.specs.Once.{ReadUnquotedStandOnce, UnquotedStandOnce};
ghost use Rattle.sh_quote.specs.examples.Quotes.{QuotesAsExpected};
ghost use Rattle.sh_quote.specs.Theorem.{QuotingSuffices, QuotingSufficesForScripts};

pub use sh_runs::laws::fields;

/// In known scripts the known places are reported.
pub fn examples()
    ensures { QuotesAsExpected }
{}

/// Take a program that is admitted, and of which no place is reported. In a run that expands no
/// unset parameter, no step gives an expansion's value to field splitting or pathname expansion
/// that could change it (XCU 2.6.5, 2.6.6). The run may have any start that a policy allows, any
/// results of the commands, any choice and any order of the processes. Of the words of the program
/// it requires what those of every script that is read have.
pub fn no_split()
    ensures programs { QuotingSuffices }
    ensures scripts { QuotingSufficesForScripts }
{}

/// Take a program whose spots are each there once. No expansion of it outside quotes is reported
/// twice. The program of every script that is read is such (`sh_reads::laws::once`).
pub fn once()
    ensures law { UnquotedStandOnce }
    ensures scripts { ReadUnquotedStandOnce }
{}
