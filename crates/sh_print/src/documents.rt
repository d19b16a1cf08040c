//! Here-documents, whose bodies follow the next newline (XCU 2.7.4).
ghost use Rattle.std.specs.Prelude.{◌≡◌, ◌==◌, ◌++◌, length, map, OnOk};
ghost use Rattle.std.specs.List.{flat_map};
ghost use Rattle.sh_print.specs.Layout as layout;
ghost use Rattle.sh_print.specs.Pending.{gap, pending_text};
ghost use Rattle.sh_print.specs.Trees.{command_of, element_of, kind_of, pipeline_of, redirect_of};

use crate::pieces::{push_span, push_tabs, push_text, push_word};
use sh_tree::{Command, Element, Kind, Pipe, Redirect, Target};
use std::alloc::AllocError;

// A newline, and the body with its end line up to the newline of that.
#[tactic(auto, using(crate::proofs::TreeLemmas::targets))]
fn push_document(out: &mut Vec<u8>, script: &[u8], redirect: &Redirect) -> Result<(), AllocError>
    ensures { OnOk result (out.new.items ≡ out.old.items ++ pending_text (layout.redirect_documents (redirect_of script.now redirect.now))) }
{
    match &redirect.target {
        Target::File(..) => Ok(()),
        Target::Here(here) => {
            push_text(out, "\n")?;
            push_word(out, script, &here.body)?;
            push_span(out, script, here.end)
        }
    }
}

#[tactic(auto, using(crate::proofs::TreeLemmas::elements))]
fn push_element_document(
    out: &mut Vec<u8>,
    script: &[u8],
    element: &Element,
) -> Result<(), AllocError>
    ensures { OnOk result (out.new.items ≡ out.old.items ++ pending_text (layout.element_documents (element_of script.now element.now))) }
{
    match element {
        Element::Assignment { .. } => Ok(()),
        Element::Word(_) => Ok(()),
        Element::Redirection(redirect) => push_document(out, script, redirect),
    }
}

fn push_element_documents(
    out: &mut Vec<u8>,
    script: &[u8],
    elements: &[Element],
) -> Result<(), AllocError>
    ensures { OnOk result (out.new.items ≡ out.old.items ++ pending_text (flat_map layout.element_documents (map (element_of script.now) elements.now))) }
{
    for element in elements {
        push_element_document(out, script, element)?;
    }
    Ok(())
}

fn push_redirect_documents(
    out: &mut Vec<u8>,
    script: &[u8],
    redirects: &[Redirect],
) -> Result<(), AllocError>
    ensures { OnOk result (out.new.items ≡ out.old.items ++ pending_text (flat_map layout.redirect_documents (map (redirect_of script.now) redirects.now))) }
{
    for redirect in redirects {
        push_document(out, script, redirect)?;
    }
    Ok(())
}

#[cycle(pending)]
fn push_kind_pending(out: &mut Vec<u8>, script: &[u8], kind: &Kind) -> Result<(), AllocError>
    ensures { OnOk result (out.new.items ≡ out.old.items ++ pending_text (layout.kind_pending (kind_of script.now kind.now))) }
{
    match kind {
        Kind::Simple(elements) => push_element_documents(out, script, elements.as_slice()),
        Kind::Define { body, .. } => push_pending(out, script, body.get()),
        Kind::Group(_) => Ok(()),
        Kind::Subshell(_) => Ok(()),
        Kind::Cond { .. } => Ok(()),
        Kind::Loop { .. } => Ok(()),
        Kind::For { .. } => Ok(()),
        Kind::Branches { .. } => Ok(()),
    }
}

// The here-documents that are pending after a command, each after a newline.
#[cycle(pending)]
fn push_pending(out: &mut Vec<u8>, script: &[u8], command: &Command) -> Result<(), AllocError>
    ensures { OnOk result (out.new.items ≡ out.old.items ++ pending_text (layout.pending (command_of script.now command.now))) }
{
    push_kind_pending(out, script, &command.kind)?;
    push_redirect_documents(out, script, command.redirects.as_slice())
}

// Those that are pending after a pipeline: after its last command.
#[tactic(auto, using(crate::proofs::TextLemmas::pipe_pending_last, crate::proofs::TextLemmas::pipe_pending_none))]
fn push_pipe_pending(out: &mut Vec<u8>, script: &[u8], pipe: &Pipe) -> Result<(), AllocError>
    ensures { OnOk result (out.new.items ≡ out.old.items ++ pending_text (layout.pipeline_pending (pipeline_of script.now pipe.now))) }
{
    match pipe.parts.as_slice().last() {
        None => Ok(()),
        Some(command) => push_pending(out, script, command),
    }
}

// What comes after an operator, if the text was this long before the pending here-documents.
fn push_gap(out: &mut Vec<u8>, depth: usize, before: usize) -> Result<(), AllocError>
    ensures { OnOk result (out.new.items ≡ out.old.items ++ gap depth (length out.old.items == before)) }
{
    if out.len() == before {
        return push_text(out, " ");
    }
    push_text(out, "\n")?;
    push_tabs(out, depth)
}

/// What comes between `|` and the next command. It is one blank; or, if a here-document is pending
/// after the command before, a newline, the bodies and the tabs of the line.
///
/// # Errors
///
/// `AllocError` if a growth was refused.
#[tactic(auto, using(crate::proofs::TextLemmas::gap_after))]
pub fn push_join(
    out: &mut Vec<u8>,
    script: &[u8],
    depth: usize,
    command: &Command,
) -> Result<(), AllocError>
    ensures { OnOk result (out.new.items ≡ out.old.items ++ layout.join depth (layout.pending (command_of script.now command.now))) }
{
    let before = out.len();
    push_pending(out, script, command)?;
    push_gap(out, depth, before)
}

/// The same between `&&` or `||` and the next pipeline.
///
/// # Errors
///
/// `AllocError` if a growth was refused.
#[tactic(auto, using(crate::proofs::TextLemmas::gap_after))]
pub fn push_pipe_join(
    out: &mut Vec<u8>,
    script: &[u8],
    depth: usize,
    pipe: &Pipe,
) -> Result<(), AllocError>
    ensures { OnOk result (out.new.items ≡ out.old.items ++ layout.join depth (layout.pipeline_pending (pipeline_of script.now pipe.now))) }
{
    let before = out.len();
    push_pipe_pending(out, script, pipe)?;
    push_gap(out, depth, before)
}

/// The newline of a line that ends with a pipeline, and the here-documents that are pending then.
///
/// # Errors
///
/// `AllocError` if a growth was refused.
#[tactic(auto, using(crate::proofs::TextLemmas::ended_after))]
pub fn push_line_end(out: &mut Vec<u8>, script: &[u8], pipe: &Pipe) -> Result<(), AllocError>
    ensures { OnOk result (out.new.items ≡ out.old.items ++ layout.line_end (layout.pipeline_pending (pipeline_of script.now pipe.now))) }
{
    push_pipe_pending(out, script, pipe)?;
    push_text(out, "\n")
}
