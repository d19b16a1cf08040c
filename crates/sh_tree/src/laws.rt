//! Texts that are known trees, and trees that are known programs, as laws of what `specs/` defines.
ghost use Rattle.sh_tree.specs.examples.Commands.{CommandsRead};
ghost use Rattle.sh_tree.specs.examples.Documents.{DocumentsRead};
ghost use Rattle.sh_tree.specs.examples.Language.{LanguageRead};
ghost use Rattle.sh_tree.specs.examples.Limits.{LimitsKept};
ghost use Rattle.sh_tree.specs.examples.Unread.{OthersUnread};
ghost use Rattle.sh_tree.specs.examples.Words.{WordsRead};
ghost use Rattle.sh_tree.specs.examples.Program.{ProgramsRead};

/// Texts with each kind of part, expansion, arithmetic expression and command are the trees that
/// they are meant to be. Texts that are no scripts are none.
pub fn reads_language()
    ensures texts { LanguageRead }
    ensures words { WordsRead }
    ensures commands { CommandsRead }
    ensures documents { DocumentsRead }
    ensures nothing { OthersUnread }
    ensures limits { LimitsKept }
{}

/// The trees of such texts are the programs that they are meant to be: each kind of part,
/// expansion, arithmetic expression, redirection and command.
pub fn reads_programs()
    ensures { ProgramsRead }
{}
