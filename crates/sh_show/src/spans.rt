use sh_tree::Span;
use std::alloc::{AllocError, Global};

/// A span, `start-end`.
pub fn push_span(alloc: Global, span: Span, text: &mut String) -> Result<(), AllocError> {
    let shown = format!(in alloc; "{}-{}", span.start, span.end)?;
    text.push_str(&shown)
}

/// The sign of a thing, and its span.
pub fn push_signed(
    alloc: Global,
    sign: &str,
    span: Span,
    text: &mut String,
) -> Result<(), AllocError> {
    text.push_str(sign)?;
    push_span(alloc, span, text)
}
