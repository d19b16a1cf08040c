//! Tests of bytes.
ghost use Rattle.std.specs.Prelude.{◌≡◌};
ghost use Rattle.sh_tree.specs.standard.language.Bytes as bytes;

use crate::class::{Class, classify};

/// A space or a tab.
#[tactic(auto, unfolding(crate::specs::Classes::class_of))]
pub fn is_blank(byte: u8) -> bool
    ensures { result ≡ bytes.is_blank byte }
{
    matches!(classify(byte), Class::Blank)
}

/// Whether an operator begins with the byte (XCU 2.10.2).
#[tactic(auto, unfolding(crate::specs::Classes::class_of))]
pub fn is_operator_byte(byte: u8) -> bool
    ensures { result ≡ bytes.is_operator_byte byte }
{
    matches!(classify(byte), Class::Operator)
}

/// Whether the byte delimits the token before it (XCU 2.3).
#[tactic(auto, unfolding(crate::specs::Classes::class_of))]
pub fn ends_token(byte: u8) -> bool
    ensures { result ≡ bytes.ends_token byte }
{
    matches!(
        classify(byte),
        Class::Blank | Class::Newline | Class::Operator
    )
}
