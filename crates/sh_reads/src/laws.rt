//! What holds of the program of every script that is read.
ghost use Rattle.sh_reads.specs.Spots.{ReadSpotsStandInside, ReadSpotsStandOnce};

/// In a script that is read no two commands start at one offset. No two expansions, tildes or names
/// of arithmetic are at one, wherever the bodies of its here-documents are (XCU 2.10).
pub fn once()
    ensures { ReadSpotsStandOnce }
{}

/// The commands of a script that is read, and the expansions, tildes and names of arithmetic in its
/// words, start before its end.
pub fn inside()
    ensures { ReadSpotsStandInside }
{}
