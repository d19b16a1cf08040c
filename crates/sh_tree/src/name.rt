//! Names (XBD 3.216).
ghost use Rattle.std.specs.Prelude.{◌≡◌, ◌≤◌, length};
ghost use Rattle.std.specs.List.{list_all};
ghost use Rattle.sh_tree.specs.standard.language.Bytes as bytes;

/// Whether a name may begin with the byte: a letter or an underscore.
pub fn is_name_start(byte: u8) -> bool
    ensures { result ≡ bytes.is_name_start byte }
{
    matches!(byte, b'A'..=b'Z' | b'a'..=b'z' | b'_')
}

/// Whether the byte is a decimal digit.
pub fn is_digit(byte: u8) -> bool
    ensures { result ≡ bytes.is_digit byte }
{
    matches!(byte, b'0'..=b'9')
}

/// Whether a name may go on with the byte: a letter, an underscore or a digit.
pub fn is_name_byte(byte: u8) -> bool
    ensures { result ≡ bytes.is_name_byte byte }
{
    is_name_start(byte) || is_digit(byte)
}

fn are_name_bytes(text: &[u8]) -> bool
    ensures { result ≡ list_all bytes.is_name_byte text.now }
{
    text.iter().all(|byte| is_name_byte(*byte))
}

#[tactic(auto, unfolding(crate::specs::standard::language::Bytes::is_first))]
fn begins_name(text: &[u8]) -> bool
    ensures { result ≡ bytes.is_first bytes.is_name_start text.now }
{
    match text {
        [] => false,
        [first, ..] => is_name_start(*first),
    }
}

/// Whether the whole text is a name.
pub fn is_name(text: &[u8]) -> bool
    ensures { result ≡ bytes.is_name text.now }
{
    begins_name(text) && are_name_bytes(text)
}

fn name_bytes(text: &[u8]) -> usize
    ensures value { result ≡ bytes.run bytes.is_name_byte text.now }
    ensures within { result ≤ length text.now }
{
    text.iter().take_while(|byte| is_name_byte(**byte)).count()
}

/// How long the name at the front is; 0 if none is.
#[tactic(auto, unfolding(crate::specs::standard::language::Bytes::name_length))]
pub fn name_length(text: &[u8]) -> usize
    ensures value { result ≡ bytes.name_length text.now }
    ensures within { result ≤ length text.now }
{
    if begins_name(text) {
        name_bytes(text)
    } else {
        0
    }
}
