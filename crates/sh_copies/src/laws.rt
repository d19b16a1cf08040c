//! What holds of the words and here-documents of every text.
ghost use Rattle.sh_copies.specs.Copied.{WordsAreCopied};

/// A whole word that is read in a text is read alike wherever its bytes are, before a blank, a
/// newline or `)`. So is a here-document with the line that ends it, before a newline (XCU 2.3,
/// 2.7.4). As many commands begin in it.
pub fn copies()
    ensures { WordsAreCopied }
{}
