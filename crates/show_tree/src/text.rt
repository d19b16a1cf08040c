//! Texts on one line.
use std::alloc::{AllocError, Global};

/// What the bytes before one have begun.
#[derive(Clone, Copy)]
enum Begun {
    Nothing,
    Escape,
    Byte,
    HalfByte(u8),
}

fn digit(byte: u8) -> u8 {
    match byte {
        b'0'..=b'9' => byte - b'0',
        b'a'..=b'f' => byte - b'a' + 10,
        _ => 0,
    }
}

/// What is begun after one more byte, which ends nothing.
fn begun_after(begun: Begun, byte: u8) -> Option<Begun> {
    match (begun, byte) {
        (Begun::Nothing, b'\\') => Some(Begun::Escape),
        (Begun::Escape, b'x') => Some(Begun::Byte),
        (Begun::Byte, _) => Some(Begun::HalfByte(digit(byte))),
        _ => None,
    }
}

/// The byte that one more byte ends.
fn ended(begun: Begun, byte: u8) -> u8 {
    match (begun, byte) {
        (Begun::Escape, b'n') => b'\n',
        (Begun::Escape, b't') => b'\t',
        (Begun::HalfByte(high), _) => high << 4 | digit(byte),
        _ => byte,
    }
}

/// The bytes that a line means.
pub fn unescaped(alloc: Global, line: &str) -> Result<Vec<u8>, AllocError> {
    let mut text = Vec::new(alloc);
    let mut begun = Begun::Nothing;
    for byte in line.bytes() {
        match begun_after(begun, byte) {
            Some(more) => begun = more,
            None => {
                text.push(ended(begun, byte))?;
                begun = Begun::Nothing;
            }
        }
    }
    Ok(text)
}
