use crate::spans::push_signed;
use crate::words::push_word;
use sh_tree::{Direction, HereDoc, Redirect, Target};
use std::alloc::{AllocError, Global};

fn sign_of_direction(direction: Direction) -> &'static str {
    match direction {
        Direction::Read => "<",
        Direction::Write => ">",
        Direction::Clobber => ">|",
        Direction::Append => ">>",
        Direction::Both => "<>",
        Direction::CopyIn => "<&",
        Direction::CopyOut => ">&",
    }
}

/// A here-document: its operator, the word after it, the body, and the line that ends it.
#[cycle(show)]
fn push_here(alloc: Global, here: &HereDoc, text: &mut String) -> Result<(), AllocError> {
    text.push_str(if here.strip { "<<-" } else { "<<" })?;
    push_word(alloc, &here.delimiter, text)?;
    text.push_str("=")?;
    push_word(alloc, &here.body, text)?;
    push_signed(alloc, "/", here.end, text)
}

/// A redirection: `o` and the offset of its operator, after a slash the IO number's span, if there
/// is one. Then come the operator and what it opens, a word or a here-document.
///
/// # Errors
///
/// `AllocError` if a growth was refused.
#[cycle(show)]
pub fn push_redirect(
    alloc: Global,
    redirect: &Redirect,
    text: &mut String,
) -> Result<(), AllocError> {
    let shown = format!(in alloc; "o{}", redirect.at)?;
    text.push_str(&shown)?;
    if let Some(number) = redirect.number {
        push_signed(alloc, "/", number, text)?;
    }
    match &redirect.target {
        Target::File(direction, word) => {
            text.push_str(sign_of_direction(*direction))?;
            push_word(alloc, word, text)
        }
        Target::Here(here) => push_here(alloc, here, text),
    }
}

/// Redirections after a compound command, each after a blank.
#[cycle(show)]
pub fn push_redirects(
    alloc: Global,
    redirects: &[Redirect],
    text: &mut String,
) -> Result<(), AllocError> {
    for redirect in redirects {
        text.push_str(" ")?;
        push_redirect(alloc, redirect, text)?;
    }
    Ok(())
}
