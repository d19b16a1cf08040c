//! Classes of bytes.
ghost use Rattle.std.specs.Prelude.{◌≡◌};
ghost use Rattle.sh_scan.specs.Classes.{class_of};

/// What a byte is, whatever its place makes of it (XCU 2.2, 2.3).
#[derive(Clone, Copy, Debug, PartialEq, Eq)]
pub enum Class {
    /// A space or a tab.
    Blank,
    Newline,
    /// The first byte of an operator.
    Operator,
    /// A letter or an underscore.
    Letter,
    Digit,
    /// `$`, a backquote, a quote or a backslash.
    Quoting,
    Other,
}

/// The class of a byte.
#[tactic(auto, unfolding(crate::specs::Classes::class_of))]
pub fn classify(byte: u8) -> Class
    ensures { result ≡ class_of byte }
{
    match byte {
        b' ' | b'\t' => Class::Blank,
        b'\n' => Class::Newline,
        b'|' | b'&' | b';' | b'<' | b'>' | b'(' | b')' => Class::Operator,
        b'A'..=b'Z' | b'a'..=b'z' | b'_' => Class::Letter,
        b'0'..=b'9' => Class::Digit,
        b'$' | b'`' | b'"' | b'\'' | b'\\' => Class::Quoting,
        _ => Class::Other,
    }
}
