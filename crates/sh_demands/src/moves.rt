//! Commands that change the positional parameters (XCU 2.15, set and shift).
ghost use Rattle.std.specs.Prelude.{◌≡◌, map};
ghost use Rattle.sh_table.specs.WordTexts.{text_in};
ghost use Rattle.sh_demands.specs.Moves as spec;

use sh_operands::positional_at;
use sh_table::{Kind, WordText, kind_of};
use sh_tree::KnownName;

#[tactic(auto, unfolding(crate::specs::Moves::kind_moves_by))]
fn kind_moves(kind: Kind, operands: &[WordText], script: &[u8]) -> bool
    ensures { result ≡ spec.kind_moves_by kind (map (text_in script.now) operands.now) }
{
    match kind {
        Kind::Special(KnownName::Shift) => true,
        Kind::Special(KnownName::Set) => positional_at(operands, script).is_some(),
        _ => false,
    }
}

/// Whether a simple command whose words have these static texts, its name first, changes the
/// positional parameters: `shift`, and `set` with positional words or `--`.
#[tactic(auto, unfolding(crate::specs::Moves::moves_by))]
pub fn moves(texts: &[WordText], script: &[u8]) -> bool
    ensures { result ≡ spec.moves_by (map (text_in script.now) texts.now) }
{
    match texts {
        [] => false,
        [name, operands @ ..] => match name.get(script) {
            None => false,
            Some(text) => kind_moves(kind_of(text), operands, script),
        },
    }
}
