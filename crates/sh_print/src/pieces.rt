//! Pieces of the canonical text that hold no command.
ghost use Rattle.std.specs.Prelude.{◌≡◌, ◌+◌, ◌++◌, IfOk, OnOk};
ghost use Rattle.sh_tree.specs.standard.Tree.{text_of};
ghost use Rattle.sh_print.specs.Layout as layout;
ghost use Rattle.sh_print.specs.Trees.{word_of};

use sh_tree::{Span, Word};
use std::alloc::AllocError;

/// The text.
///
/// # Errors
///
/// `AllocError` if a growth was refused.
pub fn push_text(out: &mut Vec<u8>, text: &str) -> Result<(), AllocError>
    ensures { OnOk result (out.new.items ≡ out.old.items ++ text.now) }
{
    out.extend_from_slice(text.as_bytes())?;
    Ok(())
}

/// The script's bytes of the span.
///
/// # Errors
///
/// `AllocError` if a growth was refused.
pub fn push_span(out: &mut Vec<u8>, script: &[u8], span: Span) -> Result<(), AllocError>
    ensures { OnOk result (out.new.items ≡ out.old.items ++ text_of script.now span) }
{
    out.extend_from_slice(span.text(script))?;
    Ok(())
}

/// The bytes of a word.
///
/// # Errors
///
/// `AllocError` if a growth was refused.
pub fn push_word(out: &mut Vec<u8>, script: &[u8], word: &Word) -> Result<(), AllocError>
    ensures { OnOk result (out.new.items ≡ out.old.items ++ word_of script.now word.now) }
{
    push_span(out, script, word.span)
}

/// A tab for each level.
///
/// # Errors
///
/// `AllocError` if a growth was refused.
pub fn push_tabs(out: &mut Vec<u8>, depth: usize) -> Result<(), AllocError>
    ensures { OnOk result (out.new.items ≡ out.old.items ++ layout.tabs depth) }
{
    for _tab in 0..depth {
        out.push(b'\t')?;
    }
    Ok(())
}

/// The depth of what is so many levels deeper.
///
/// # Errors
///
/// `AllocError` if a line at that depth would begin with more tabs than memory can hold.
pub fn deeper(depth: usize, levels: usize) -> Result<usize, AllocError>
    ensures { IfOk result (λ inner. inner ≡ depth + levels) }
{
    depth.checked_add(levels).ok_or(AllocError)
}
