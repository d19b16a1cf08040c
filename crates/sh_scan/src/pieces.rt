//! Texts in two pieces: a token, and what follows the line continuations that follow it.
ghost use Rattle.std.specs.Prelude.{◌≡◌, ◌++◌, nat_eq};
ghost use Rattle.std.specs.List.{starts_with};

/// Whether the text of both pieces begins so.
pub fn begins_so(front: &[u8], rest: &[u8], text: &[u8]) -> bool
    ensures { result ≡ starts_with nat_eq (front.now ++ rest.now) text.now }
{
    let shared = text.len().min(front.len());
    let first = front.starts_with(&text[..shared]);
    first && rest.starts_with(&text[shared..])
}
