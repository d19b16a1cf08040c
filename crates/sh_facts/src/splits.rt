//! Pieces of a text between bytes.
ghost use Rattle.std.specs.Prelude.{◌≡◌, ◌<◌, ◌∷◌, [], length, option_map, IfSome, IfNone};
ghost use Rattle.sh_facts.specs.Fields.{sides_of, pieces_left};
ghost use Rattle.sh_domain.specs.Forms as form;

use bstr::ByteSlice;

/// What is before the first such byte, and what follows it.
pub fn cut(text: &[u8], byte: u8) -> Option<(&[u8], &[u8])>
    ensures at { option_map sides_of result ≡ form.cut_at byte text.now }
    ensures two { IfSome result (λ x. form.pieces byte text.now ≡ x.0.now ∷ form.pieces byte x.1.now) }
    ensures one { IfNone result (form.pieces byte text.now ≡ text.now ∷ []) }
    ensures less { IfSome result (λ x. length x.1.now < length text.now) }
{
    text.split_once_str(&[byte])
}

/// The piece before the first such byte, and what follows that byte, if it is there.
#[tactic(auto, unfolding(crate::specs::Fields::pieces_left))]
pub fn first_piece(text: &[u8], byte: u8) -> (&[u8], Option<&[u8]>)
    ensures pieces { form.pieces byte text.now ≡ result.0.now ∷ pieces_left byte result.1 }
    ensures less { IfSome result.1 (λ x. length x.now < length text.now) }
{
    match cut(text, byte) {
        None => (text, None),
        Some((piece, left)) => (piece, Some(left)),
    }
}
