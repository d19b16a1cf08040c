//! Numbers that operands write.
ghost use Rattle.std.specs.Prelude.{◌≡◌, fold, option_map};
ghost use Rattle.sh_runs.specs.standard.runs.Numbers as numbers;
ghost use Rattle.sh_table.specs.Numerals.{capped, with_digit};

use crate::operands::is_number;

#[tactic(auto, unfolding(crate::specs::Numerals::with_digit))]
fn with_digit(value: u32, byte: u8) -> u32
    ensures { result ≡ with_digit value byte }
{
    value
        .saturating_mul(10)
        .saturating_add(u32::from(byte.saturating_sub(b'0')))
}

fn value_of(text: &[u8]) -> u32
    ensures { result ≡ fold with_digit 0 text.now }
{
    let mut value = 0;
    for byte in text {
        value = with_digit(value, *byte);
    }
    value
}

/// The number that the text writes in decimal digits, or 4,294,967,295 if that is greater.
#[tactic(auto, using(crate::proofs::NumeralLemmas::written), unfolding(sh_runs::specs::standard::runs::Numbers::number_in))]
pub fn number_in(text: &[u8]) -> Option<u32>
    ensures { result ≡ option_map capped (numbers.number_in text.now) }
{
    if is_number(text) {
        Some(value_of(text))
    } else {
        None
    }
}
