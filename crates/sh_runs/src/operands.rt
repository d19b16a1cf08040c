//! What options and assignments are, among operands (XBD 12.2).
ghost use Rattle.std.specs.Prelude.{◌≡◌, option_map};
ghost use Rattle.sh_runs.specs.ReadOptions as spec;
ghost use Rattle.sh_runs.specs.standard.runs.Operands as operands;

use sh_tree::name_length;

/// Whether the text is `--`, which ends the options (XBD 12.2).
pub fn ends_options(text: &[u8]) -> bool
    ensures { result ≡ operands.ends_options text.now }
{
    matches!(text, b"--")
}

/// Whether the text is `-` and more, as options are (XBD 12.2).
#[tactic(auto, unfolding(crate::specs::standard::runs::Operands::is_dashed))]
pub fn is_dashed(text: &[u8]) -> bool
    ensures { result ≡ operands.is_dashed text.now }
{
    matches!(text, [b'-', _, ..])
}

/// Whether an option of `read` takes the next operand, if it is one of the standard's (XCU 3,
/// read).
pub fn option_takes(text: &[u8]) -> Option<bool>
    ensures { result ≡ spec.option_takes text.now }
{
    match text {
        [] => letters_take(text),
        [_, letters @ ..] => letters_take(letters),
    }
}

#[tactic(auto, unfolding(crate::specs::standard::runs::Operands::read_option, crate::specs::ReadOptions::takes_next))]
fn letters_take(mut letters: &[u8]) -> Option<bool>
    ensures { result ≡ spec.takes_next (operands.read_option letters.entry.now) }
{
    while let [first, rest @ ..] = letters {
        if *first == b'd' {
            return Some(rest.is_empty());
        }
        if *first != b'r' {
            return None;
        }
        letters = rest;
    }
    Some(false)
}

/// The name and the value, if the text is a name, `=` and a value: an assignment in form
/// (XCU 2.10.2, rule 7).
#[tactic(auto, unfolding(crate::specs::standard::runs::Operands::definition_in, sh_tree::specs::standard::language::Commands::is_assignment, sh_tree::specs::standard::language::Bytes::is_first))]
pub fn definition_in(text: &[u8]) -> Option<(&[u8], &[u8])>
    ensures { option_map (λ d. (d.0.now, d.1.now)) result ≡ operands.definition_in text.entry.now }
{
    let length = name_length(text);
    if length > 0 && text[length..].starts_with(b"=") {
        Some((&text[..length], &text[length + 1..]))
    } else {
        None
    }
}
