use crate::redirections::{push_redirect, push_redirects};
use crate::spans::push_signed;
use crate::words::push_word;
use sh_tree::{
    AndOr, Branch, Clause, ClauseEnd, Command, Element, Item, Kind, Link, LoopKind, Pipe, Script,
    Span, Word,
};
use std::alloc::{AllocError, Global};

/// An element of a simple command: `a` and an assignment's name, `=` and the value; `w` and a word;
/// or a redirection.
#[cycle(show)]
fn push_element(alloc: Global, element: &Element, text: &mut String) -> Result<(), AllocError> {
    match element {
        Element::Assignment { name, value } => {
            push_signed(alloc, "a", *name, text)?;
            text.push_str("=")?;
            push_word(alloc, value, text)
        }
        Element::Word(word) => {
            text.push_str("w")?;
            push_word(alloc, word, text)
        }
        Element::Redirection(redirect) => push_redirect(alloc, redirect, text),
    }
}

#[cycle(show)]
fn push_elements(alloc: Global, elements: &[Element], text: &mut String) -> Result<(), AllocError> {
    text.push_str("[")?;
    let mut is_first = true;
    for element in elements {
        if !is_first {
            text.push_str(" ")?;
        }
        is_first = false;
        push_element(alloc, element, text)?;
    }
    text.push_str("]")
}

/// Words in parentheses, with blanks between them.
#[cycle(show)]
fn push_words(alloc: Global, words: &[Word], text: &mut String) -> Result<(), AllocError> {
    text.push_str("(")?;
    let mut is_first = true;
    for word in words {
        if !is_first {
            text.push_str(" ")?;
        }
        is_first = false;
        push_word(alloc, word, text)?;
    }
    text.push_str(")")
}

/// A list in braces, after a sign.
#[cycle(show)]
fn push_body(
    alloc: Global,
    sign: &str,
    body: &Script,
    text: &mut String,
) -> Result<(), AllocError> {
    text.push_str(sign)?;
    text.push_str("{")?;
    push_script(alloc, body, text)?;
    text.push_str("}")
}

/// The conditions of `if` and what follows them, in turn.
#[cycle(show)]
fn push_branches(alloc: Global, branches: &[Branch], text: &mut String) -> Result<(), AllocError> {
    text.push_str("if")?;
    for branch in branches {
        push_body(alloc, "", &branch.condition, text)?;
        push_body(alloc, "", &branch.body, text)?;
    }
    Ok(())
}

fn sign_of_end(end: ClauseEnd) -> &'static str {
    match end {
        ClauseEnd::Break => ";;",
        ClauseEnd::FallThrough => ";&",
    }
}

/// The clauses of `case`: the patterns of each, its list and how it ends.
#[cycle(show)]
fn push_clauses(alloc: Global, clauses: &[Clause], text: &mut String) -> Result<(), AllocError> {
    text.push_str("{")?;
    for clause in clauses {
        push_words(alloc, clause.patterns.as_slice(), text)?;
        push_body(alloc, "", &clause.body, text)?;
        text.push_str(sign_of_end(clause.end))?;
    }
    text.push_str("}")
}

fn sign_of_loop(kind: LoopKind) -> &'static str {
    match kind {
        LoopKind::While => "while",
        LoopKind::Until => "until",
    }
}

/// What a command is: the elements of a simple one in brackets. Of another it is its reserved
/// words, its names and words, and each list in it in braces, that of a subshell in parentheses.
#[cycle(show)]
fn push_kind(alloc: Global, kind: &Kind, text: &mut String) -> Result<(), AllocError> {
    match kind {
        Kind::Simple(elements) => push_elements(alloc, elements.as_slice(), text),
        Kind::Group(body) => push_body(alloc, "", body, text),
        Kind::Subshell(body) => push_subshell(alloc, body, text),
        Kind::Cond {
            branches,
            otherwise,
        } => {
            push_branches(alloc, branches.as_slice(), text)?;
            match otherwise {
                Some(body) => push_body(alloc, "else", body, text),
                None => Ok(()),
            }
        }
        Kind::Loop {
            kind,
            condition,
            body,
        } => {
            push_body(alloc, sign_of_loop(*kind), condition, text)?;
            push_body(alloc, "", body, text)
        }
        Kind::For { name, words, body } => {
            push_signed(alloc, "for", *name, text)?;
            if let Some(words) = words {
                text.push_str("in")?;
                push_words(alloc, words.as_slice(), text)?;
            }
            push_body(alloc, "", body, text)
        }
        Kind::Branches { word, clauses } => {
            push_case(alloc, word, text)?;
            push_clauses(alloc, clauses.as_slice(), text)
        }
        Kind::Define { name, body } => push_definition(alloc, *name, body.get(), text),
    }
}

/// A list in parentheses.
#[cycle(show)]
fn push_subshell(alloc: Global, body: &Script, text: &mut String) -> Result<(), AllocError> {
    text.push_str("(")?;
    push_script(alloc, body, text)?;
    text.push_str(")")
}

/// `case` and its word.
#[cycle(show)]
fn push_case(alloc: Global, word: &Word, text: &mut String) -> Result<(), AllocError> {
    text.push_str("case")?;
    push_word(alloc, word, text)
}

/// A function definition, its body in parentheses.
#[cycle(show)]
fn push_definition(
    alloc: Global,
    name: Span,
    body: &Command,
    text: &mut String,
) -> Result<(), AllocError> {
    push_signed(alloc, "def", name, text)?;
    text.push_str("(")?;
    push_command(alloc, body, text)?;
    text.push_str(")")
}

/// A command: its number, `@` and its offset, what it is, and the redirections after it.
///
/// # Errors
///
/// `AllocError` if a growth was refused.
#[cycle(show)]
pub fn push_command(alloc: Global, command: &Command, text: &mut String) -> Result<(), AllocError> {
    let shown = format!(in alloc; "{}@{}", command.number, command.at)?;
    text.push_str(&shown)?;
    push_kind(alloc, &command.kind, text)?;
    push_redirects(alloc, command.redirects.as_slice(), text)
}

/// A pipeline: `!` before it if it is negated, and `|` between its commands.
#[cycle(show)]
fn push_pipe(alloc: Global, pipe: &Pipe, text: &mut String) -> Result<(), AllocError> {
    if pipe.negated {
        text.push_str("! ")?;
    }
    let mut is_first = true;
    for command in pipe.parts.as_slice() {
        if !is_first {
            text.push_str(" | ")?;
        }
        is_first = false;
        push_command(alloc, command, text)?;
    }
    Ok(())
}

fn sign_of_link(link: Link) -> &'static str {
    match link {
        Link::AndThen => " && ",
        Link::OrElse => " || ",
    }
}

/// An and-or list.
#[cycle(show)]
fn push_list(alloc: Global, list: &AndOr, text: &mut String) -> Result<(), AllocError> {
    push_pipe(alloc, &list.first, text)?;
    for linked in list.rest.as_slice() {
        text.push_str(sign_of_link(linked.0))?;
        push_pipe(alloc, &linked.1, text)?;
    }
    Ok(())
}

/// An item, with `&` after it if it is an asynchronous list.
#[cycle(show)]
fn push_item(alloc: Global, item: &Item, text: &mut String) -> Result<(), AllocError> {
    push_list(alloc, &item.list, text)?;
    text.push_str(if item.background { " &" } else { "" })
}

/// The items of a script, with blanks between them. They are pipelines with `&&` and `||` between
/// them, and a `&` after an asynchronous list. A pipeline is its commands with `|` between them,
/// after a `!` if it is negated.
///
/// # Errors
///
/// `AllocError` if a growth was refused.
#[cycle(show)]
pub fn push_script(alloc: Global, script: &Script, text: &mut String) -> Result<(), AllocError> {
    let mut is_first = true;
    for item in script.items.as_slice() {
        if !is_first {
            text.push_str(" ")?;
        }
        is_first = false;
        push_item(alloc, item, text)?;
    }
    Ok(())
}
