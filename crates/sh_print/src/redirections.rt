//! The elements of simple commands, redirections among them (XCU 2.7, 2.9.1).
ghost use Rattle.std.specs.Prelude.{◌≡◌, ◌∷◌, ◌++◌, [], codes, map, OnOk};
ghost use Rattle.std.specs.List.{flat_map};
ghost use Rattle.std.specs.Option.{option_map};
ghost use Rattle.sh_tree.specs.standard.Tree.{text_of};
ghost use Rattle.sh_print.specs.Layout as layout;
ghost use Rattle.sh_print.specs.Trees.{element_of, opened_of, opens_of, redirect_of, word_of};

use crate::pieces::{push_span, push_text, push_word};
use sh_tree::{Direction, Element, Redirect, Span, Target, Word};
use std::alloc::AllocError;

fn direction_sign(direction: Direction) -> &'static str
    ensures { result.now ≡ layout.direction_text direction }
{
    match direction {
        Direction::Read => "<",
        Direction::Write => ">",
        Direction::Clobber => ">|",
        Direction::Append => ">>",
        Direction::Both => "<>",
        Direction::CopyIn => "<&",
        Direction::CopyOut => ">&",
    }
}

fn here_sign(strip: bool) -> &'static str
    ensures { result.now ≡ layout.here_text strip }
{
    if strip { "<<-" } else { "<<" }
}

// An operator, one blank and the word after it.
fn push_opened(out: &mut Vec<u8>, script: &[u8], sign: &str, word: &Word) -> Result<(), AllocError>
    ensures { OnOk result (out.new.items ≡ out.old.items ++ (sign.now ++ 32 ∷ word_of script.now word.now)) }
{
    push_text(out, sign)?;
    push_text(out, " ")?;
    push_word(out, script, word)
}

#[tactic(auto, using(crate::proofs::TreeLemmas::targets))]
fn push_target(out: &mut Vec<u8>, script: &[u8], target: &Target) -> Result<(), AllocError>
    ensures { OnOk result (out.new.items ≡ out.old.items ++ (layout.opens_text (opens_of script.now target.now) ++ 32 ∷ opened_of script.now target.now)) }
{
    match target {
        Target::File(direction, word) => {
            push_opened(out, script, direction_sign(*direction), word)
        }
        Target::Here(here) => push_opened(out, script, here_sign(here.strip), &here.delimiter),
    }
}

fn push_number(out: &mut Vec<u8>, script: &[u8], number: Option<Span>) -> Result<(), AllocError>
    ensures { OnOk result (out.new.items ≡ out.old.items ++ layout.number_text (option_map (text_of script.now) number)) }
{
    match number {
        None => Ok(()),
        Some(number) => push_span(out, script, number),
    }
}

// A redirection: its IO number, the operator, one blank and the word.
fn push_redirect(out: &mut Vec<u8>, script: &[u8], redirect: &Redirect) -> Result<(), AllocError>
    ensures { OnOk result (out.new.items ≡ out.old.items ++ layout.redirect_text (redirect_of script.now redirect.now)) }
{
    push_number(out, script, redirect.number)?;
    push_target(out, script, &redirect.target)
}

/// Redirections, each after a blank.
///
/// # Errors
///
/// `AllocError` if a growth was refused.
pub fn push_redirects(
    out: &mut Vec<u8>,
    script: &[u8],
    redirects: &[Redirect],
) -> Result<(), AllocError>
    ensures { OnOk result (out.new.items ≡ out.old.items ++ flat_map (λ r. 32 ∷ layout.redirect_text r) (map (redirect_of script.now) redirects.now)) }
{
    for redirect in redirects {
        push_text(out, " ")?;
        push_redirect(out, script, redirect)?;
    }
    Ok(())
}

#[tactic(auto, using(crate::proofs::TreeLemmas::elements))]
fn push_element(out: &mut Vec<u8>, script: &[u8], element: &Element) -> Result<(), AllocError>
    ensures { OnOk result (out.new.items ≡ out.old.items ++ layout.element_text (element_of script.now element.now)) }
{
    match element {
        Element::Assignment { name, value } => {
            push_span(out, script, *name)?;
            push_text(out, "=")?;
            push_word(out, script, value)
        }
        Element::Word(word) => push_word(out, script, word),
        Element::Redirection(redirect) => push_redirect(out, script, redirect),
    }
}

/// The elements of a simple command in their order, with one blank between two.
///
/// # Errors
///
/// `AllocError` if a growth was refused.
pub fn push_elements(
    out: &mut Vec<u8>,
    script: &[u8],
    elements: &[Element],
) -> Result<(), AllocError>
    ensures { OnOk result (out.new.items ≡ out.old.items ++ layout.separated (32 ∷ []) (map layout.element_text (map (element_of script.now) elements.now))) }
{
    let [first, others @ ..] = elements else {
        return Ok(());
    };
    push_element(out, script, first)?;
    for element in others {
        push_text(out, " ")?;
        push_element(out, script, element)?;
    }
    Ok(())
}

/// Words, each after a blank.
///
/// # Errors
///
/// `AllocError` if a growth was refused.
pub fn push_words(out: &mut Vec<u8>, script: &[u8], words: &[Word]) -> Result<(), AllocError>
    ensures { OnOk result (out.new.items ≡ out.old.items ++ flat_map (λ w. 32 ∷ w) (map (word_of script.now) words.now)) }
{
    for word in words {
        push_text(out, " ")?;
        push_word(out, script, word)?;
    }
    Ok(())
}

/// The patterns of a clause, with ` | ` between two.
///
/// # Errors
///
/// `AllocError` if a growth was refused.
pub fn push_patterns(out: &mut Vec<u8>, script: &[u8], patterns: &[Word]) -> Result<(), AllocError>
    ensures { OnOk result (out.new.items ≡ out.old.items ++ layout.separated (codes " | ") (map (word_of script.now) patterns.now)) }
{
    let [first, others @ ..] = patterns else {
        return Ok(());
    };
    push_word(out, script, first)?;
    for pattern in others {
        push_text(out, " | ")?;
        push_word(out, script, pattern)?;
    }
    Ok(())
}
