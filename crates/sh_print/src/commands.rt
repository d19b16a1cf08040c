//! Commands, lists and whole scripts (XCU 2.9).
ghost use Rattle.std.specs.Prelude.{◌≡◌, ◌+◌, ◌<◌, ◌∷◌, ◌++◌, [], codes, length, map, IfErr, IfOk, OnErr, OnOk};
ghost use Rattle.sh_tree.specs.declared.tree.Script.{out-Script};
ghost use Rattle.sh_tree.specs.standard.Tree.{text_of};
ghost use Rattle.sh_print.specs.Layout as layout;
ghost use Rattle.sh_print.specs.Layout.{canon};
ghost use Rattle.sh_print.specs.Lists.{branch_text, branches_from, clause_text, clauses_from, item_text, words_from};
ghost use Rattle.sh_print.specs.Same.{IsReadBack};
ghost use Rattle.sh_print.specs.Trees.{command_of, kind_of, pipeline_of, script_of, word_of};

use crate::documents::{push_join, push_line_end, push_pipe_join};
use crate::pieces::{deeper, push_span, push_tabs, push_text, push_word};
use crate::redirections::{push_elements, push_patterns, push_redirects, push_words};
use sh_tree::{
    Branch, Clause, ClauseEnd, Command, Item, Items, Kind, Link, LoopKind, Pipe, Script, Span, Word,
};
use std::alloc::{AllocError, Global};

/// The canonical text of a tree of the script. It has one item a line, one tab for each level,
/// opening and closing words on lines of their own, and no comments. A word is its bytes in the
/// script. The bodies of here-documents follow the next newline outside words (XCU 2.7.4). If the
/// script reads to the tree, the text reads to a tree that differs only in offsets and numbers. As
/// many commands are read, nested no deeper.
///
/// # Errors
///
/// `AllocError` if a growth was refused, which requires a text that is not empty.
#[tactic(auto, using(crate::proofs::SizeLemmas::text_some))]
pub fn print(alloc: Global, script: &[u8], tree: &Script) -> Result<Vec<u8>, AllocError>
    ensures text { IfOk result (λ v. v.items ≡ canon script.now tree.now) }
    ensures reads { IfOk result (λ v. IsReadBack script.now tree.now v.items) }
    ensures memory { IfErr result (λ _. 0 < length (canon script.now tree.now)) }
{
    let mut out = Vec::new(alloc);
    push_script(&mut out, script, 0, tree)?;
    Ok(out)
}

#[cycle(print)]
fn push_script(
    out: &mut Vec<u8>,
    script: &[u8],
    depth: usize,
    list: &Script,
) -> Result<(), AllocError>
    ensures text { OnOk result (out.new.items ≡ out.old.items ++ layout.items_text depth (script_of script.now list.now)) }
    ensures memory { OnErr result (0 < length (out-Script list.now).items) }
{
    let items = list.items.as_slice();
    for item in items {
        push_item(out, script, depth, item)?;
    }
    Ok(())
}

fn negation_sign(negated: bool) -> &'static str
    ensures { result.now ≡ layout.negation negated }
{
    if negated { "! " } else { "" }
}

fn background_sign(background: bool) -> &'static str
    ensures { result.now ≡ layout.background_text background }
{
    if background { " &" } else { "" }
}

fn link_sign(link: Link) -> &'static str
    ensures { result.now ≡ layout.link_text link }
{
    match link {
        Link::AndThen => " &&",
        Link::OrElse => " ||",
    }
}

#[cycle(print)]
fn push_item(out: &mut Vec<u8>, script: &[u8], depth: usize, item: &Item) -> Result<(), AllocError>
    ensures { OnOk result (out.new.items ≡ out.old.items ++ item_text depth script.now item.now) }
{
    push_tabs(out, depth)?;
    push_pipe(out, script, depth, &item.list.first)?;
    let mut before = &item.list.first;
    let links = item.list.rest.as_slice();
    for (link, pipe) in links {
        push_text(out, link_sign(*link))?;
        push_pipe_join(out, script, depth, before)?;
        push_pipe(out, script, depth, pipe)?;
        before = pipe;
    }
    push_text(out, background_sign(item.background))?;
    push_line_end(out, script, before)
}

#[cycle(print)]
fn push_pipe(out: &mut Vec<u8>, script: &[u8], depth: usize, pipe: &Pipe) -> Result<(), AllocError>
    ensures { OnOk result (out.new.items ≡ out.old.items ++ layout.pipeline_text depth (pipeline_of script.now pipe.now)) }
{
    push_text(out, negation_sign(pipe.negated))?;
    let [first, others @ ..] = pipe.parts.as_slice() else {
        return Ok(());
    };
    push_command(out, script, depth, first)?;
    let mut before = first;
    for command in others {
        push_text(out, " |")?;
        push_join(out, script, depth, before)?;
        push_command(out, script, depth, command)?;
        before = command;
    }
    Ok(())
}

#[cycle(print)]
fn push_command(
    out: &mut Vec<u8>,
    script: &[u8],
    depth: usize,
    command: &Command,
) -> Result<(), AllocError>
    ensures { OnOk result (out.new.items ≡ out.old.items ++ layout.command_text depth (command_of script.now command.now)) }
{
    push_kind(out, script, depth, &command.kind)?;
    push_redirects(out, script, command.redirects.as_slice())
}

fn loop_word(kind: LoopKind) -> &'static str
    ensures { result.now ≡ layout.loop_text kind }
{
    match kind {
        LoopKind::While => "while",
        LoopKind::Until => "until",
    }
}

// The words of `for` after ` in`, if there are words.
fn push_for_words(
    out: &mut Vec<u8>,
    script: &[u8],
    words: &Option<Items<Word>>,
) -> Result<(), AllocError>
    ensures { OnOk result (out.new.items ≡ out.old.items ++ layout.for_words_text (words_from script.now words.now)) }
{
    match words {
        None => Ok(()),
        Some(words) => {
            push_text(out, " in")?;
            push_words(out, script, words.as_slice())
        }
    }
}

// The line of `for`, up to the word before its list.
fn push_for(
    out: &mut Vec<u8>,
    script: &[u8],
    depth: usize,
    name: Span,
    words: &Option<Items<Word>>,
) -> Result<(), AllocError>
    ensures { OnOk result (out.new.items ≡ out.old.items ++ (codes "for " ++ (text_of script.now name ++ (layout.for_words_text (words_from script.now words.now) ++ 10 ∷ layout.tabs depth)))) }
{
    push_text(out, "for ")?;
    push_span(out, script, name)?;
    push_for_words(out, script, words)?;
    push_text(out, "\n")?;
    push_tabs(out, depth)
}

// The line of `case`.
fn push_case(out: &mut Vec<u8>, script: &[u8], word: &Word) -> Result<(), AllocError>
    ensures { OnOk result (out.new.items ≡ out.old.items ++ (codes "case " ++ (word_of script.now word.now ++ codes " in" ++ 10 ∷ []))) }
{
    push_text(out, "case ")?;
    push_word(out, script, word)?;
    push_text(out, " in\n")
}

// What follows the clauses of `case`.
fn push_esac(out: &mut Vec<u8>, depth: usize) -> Result<(), AllocError>
    ensures { OnOk result (out.new.items ≡ out.old.items ++ (layout.tabs depth ++ codes "esac")) }
{
    push_tabs(out, depth)?;
    push_text(out, "esac")
}

// The line of a function definition, up to its body.
fn push_name(out: &mut Vec<u8>, script: &[u8], depth: usize, name: Span) -> Result<(), AllocError>
    ensures { OnOk result (out.new.items ≡ out.old.items ++ (text_of script.now name ++ (codes "()" ++ 10 ∷ layout.tabs depth))) }
{
    push_span(out, script, name)?;
    push_text(out, "()\n")?;
    push_tabs(out, depth)
}

#[cycle(print)]
fn push_kind(out: &mut Vec<u8>, script: &[u8], depth: usize, kind: &Kind) -> Result<(), AllocError>
    ensures { OnOk result (out.new.items ≡ out.old.items ++ layout.kind_text depth (kind_of script.now kind.now)) }
{
    match kind {
        Kind::Simple(elements) => push_elements(out, script, elements.as_slice()),
        Kind::Group(list) => push_closed(out, script, depth, "{", list, "}"),
        Kind::Subshell(list) => push_closed(out, script, depth, "(", list, ")"),
        Kind::Cond {
            branches,
            otherwise,
        } => {
            push_branches(out, script, depth, branches.as_slice())?;
            match otherwise {
                None => push_text(out, "fi"),
                Some(list) => push_closed(out, script, depth, "else", list, "fi"),
            }
        }
        Kind::Loop {
            kind,
            condition,
            body,
        } => {
            push_block(out, script, depth, loop_word(*kind), condition)?;
            push_closed(out, script, depth, "do", body, "done")
        }
        Kind::For { name, words, body } => {
            push_for(out, script, depth, *name, words)?;
            push_closed(out, script, depth, "do", body, "done")
        }
        Kind::Branches { word, clauses } => {
            push_case(out, script, word)?;
            push_clauses(out, script, depth, clauses.as_slice())?;
            push_esac(out, depth)
        }
        Kind::Define { name, body } => {
            push_name(out, script, depth, *name)?;
            push_command(out, script, depth, body.get())
        }
    }
}

// An opening word, its list one level deeper, and the tabs before the word after it.
#[cycle(print)]
fn push_block(
    out: &mut Vec<u8>,
    script: &[u8],
    depth: usize,
    opening: &str,
    list: &Script,
) -> Result<(), AllocError>
    ensures { OnOk result (out.new.items ≡ out.old.items ++ layout.block depth opening.now (layout.items_text (depth + 1) (script_of script.now list.now))) }
{
    push_text(out, opening)?;
    push_text(out, "\n")?;
    push_script(out, script, deeper(depth, 1)?, list)?;
    push_tabs(out, depth)
}

// The same, and the closing word.
#[cycle(print)]
fn push_closed(
    out: &mut Vec<u8>,
    script: &[u8],
    depth: usize,
    opening: &str,
    list: &Script,
    closing: &str,
) -> Result<(), AllocError>
    ensures { OnOk result (out.new.items ≡ out.old.items ++ (layout.block depth opening.now (layout.items_text (depth + 1) (script_of script.now list.now)) ++ closing.now)) }
{
    push_block(out, script, depth, opening, list)?;
    push_text(out, closing)
}

#[cycle(print)]
fn push_branch(
    out: &mut Vec<u8>,
    script: &[u8],
    depth: usize,
    opening: &str,
    branch: &Branch,
) -> Result<(), AllocError>
    ensures { OnOk result (out.new.items ≡ out.old.items ++ branch_text depth opening.now script.now branch.now) }
{
    push_block(out, script, depth, opening, &branch.condition)?;
    push_block(out, script, depth, "then", &branch.body)
}

#[cycle(print)]
fn push_branches(
    out: &mut Vec<u8>,
    script: &[u8],
    depth: usize,
    branches: &[Branch],
) -> Result<(), AllocError>
    ensures { OnOk result (out.new.items ≡ out.old.items ++ layout.branches_text depth (codes "if") (branches_from script.now branches.now)) }
{
    let [first, others @ ..] = branches else {
        return Ok(());
    };
    push_branch(out, script, depth, "if", first)?;
    for branch in others {
        push_branch(out, script, depth, "elif", branch)?;
    }
    Ok(())
}

fn end_mark(end: ClauseEnd) -> &'static str
    ensures { result.now ≡ layout.clause_end_text end }
{
    match end {
        ClauseEnd::Break => ";;",
        ClauseEnd::FallThrough => ";&",
    }
}

// The line of a clause's patterns.
fn push_opening(
    out: &mut Vec<u8>,
    script: &[u8],
    depth: usize,
    patterns: &[Word],
) -> Result<(), AllocError>
    ensures { OnOk result (out.new.items ≡ out.old.items ++ (layout.tabs depth ++ (40 ∷ layout.separated (codes " | ") (map (word_of script.now) patterns.now) ++ 41 ∷ 10 ∷ []))) }
{
    push_tabs(out, depth)?;
    push_text(out, "(")?;
    push_patterns(out, script, patterns)?;
    push_text(out, ")\n")
}

// The line of a clause's end mark.
fn push_end(out: &mut Vec<u8>, depth: usize, end: ClauseEnd) -> Result<(), AllocError>
    ensures { OnOk result (out.new.items ≡ out.old.items ++ (layout.tabs depth ++ (layout.clause_end_text end ++ 10 ∷ []))) }
{
    push_tabs(out, depth)?;
    push_text(out, end_mark(end))?;
    push_text(out, "\n")
}

#[cycle(print)]
fn push_clauses(
    out: &mut Vec<u8>,
    script: &[u8],
    depth: usize,
    clauses: &[Clause],
) -> Result<(), AllocError>
    ensures { OnOk result (out.new.items ≡ out.old.items ++ layout.clauses_text depth (clauses_from script.now clauses.now)) }
{
    for clause in clauses {
        push_clause(out, script, depth, clause)?;
    }
    Ok(())
}

#[cycle(print)]
fn push_clause(
    out: &mut Vec<u8>,
    script: &[u8],
    depth: usize,
    clause: &Clause,
) -> Result<(), AllocError>
    ensures { OnOk result (out.new.items ≡ out.old.items ++ clause_text depth script.now clause.now) }
{
    let inner = deeper(depth, 2)?;
    push_opening(out, script, deeper(depth, 1)?, clause.patterns.as_slice())?;
    push_script(out, script, inner, &clause.body)?;
    push_end(out, inner, clause.end)
}
