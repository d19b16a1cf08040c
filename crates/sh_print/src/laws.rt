//! What holds of the canonical text.
ghost use Rattle.sh_print.specs.Same.{PrintsAgain, ReadsBack, SamePrintsAlike};
ghost use Rattle.sh_print.specs.examples.Texts.{PrintsAsExpected};

/// Two trees that differ only in offsets and numbers have the same canonical text, whatever the
/// texts are that they are trees of.
pub fn alike()
    ensures { SamePrintsAlike }
{}

/// A tree of the canonical text that differs only in offsets and numbers from the tree that was
/// printed prints as that text again.
pub fn again()
    ensures { PrintsAgain }
{}

/// The canonical text of a tree that a text reads to is read again, with as many commands. Its tree
/// differs only in offsets and numbers, and is nested no deeper.
pub fn reads_back()
    ensures { ReadsBack }
{}

/// Known trees have the canonical texts that they should have: each kind of command, redirection
/// and here-document.
pub fn examples()
    ensures { PrintsAsExpected }
{}
