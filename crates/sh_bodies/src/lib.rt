//! The bodies of here-documents, put where their operators are (XCU 2.7.4).
#![tactic(auto)]

ghost use Rattle.std.specs.Prelude.{◌≡◌, IfOk};
ghost use Rattle.std.specs.Option.{option_map_or};
ghost use Rattle.sh_bodies.specs.Fill as spec;

use sh_tree::{
    AndOr, Boxed, Branch, Clause, Command, Element, HereDoc, Item, Items, Kind, Link, Pipe,
    Redirect, Script, Span, Target, Word,
};
use std::alloc::{AllocError, Global};
use std::collections::VecDeque;

/// The body of a here-document, and the line that ends it, without its newline.
#[derive(Drop)]
pub struct Document {
    pub text: Word,
    pub end: Span,
}

/// A here-document gets the next body.
#[tactic(auto, using(crate::proofs::FillLemmas::targets))]
fn fill_target(target: Target, bodies: &mut VecDeque<Document>) -> Target
    ensures { (result, bodies.new.items) ≡ spec.fill_target bodies.old.items target }
{
    match target {
        Target::File(direction, word) => Target::File(direction, word),
        Target::Here(here) => match bodies.pop_front() {
            Some(body) => Target::Here(HereDoc {
                strip: here.strip,
                delimiter: here.delimiter,
                body: body.text,
                end: body.end,
            }),
            None => Target::Here(here),
        },
    }
}

fn fill_redirect(redirect: Redirect, bodies: &mut VecDeque<Document>) -> Redirect
    ensures { (result, bodies.new.items) ≡ spec.fill_redirect bodies.old.items redirect }
{
    let Redirect { at, number, target } = redirect;
    let target = fill_target(target, bodies);
    Redirect { at, number, target }
}

#[tactic(auto, using(crate::proofs::FillLemmas::thread_none, crate::proofs::FillLemmas::thread_one))]
fn fill_redirects(
    alloc: Global,
    redirects: Items<Redirect>,
    bodies: &mut VecDeque<Document>,
) -> Result<Items<Redirect>, AllocError>
    ensures { IfOk result (λ x. (x, bodies.new.items) ≡ spec.thread spec.fill_redirect bodies.old.items redirects) }
{
    let mut found = Items::new(alloc);
    for redirect in redirects.into_vec() {
        found.push(fill_redirect(redirect, bodies))?;
    }
    Ok(found)
}

#[tactic(auto, using(crate::proofs::FillLemmas::elements))]
fn fill_element(element: Element, bodies: &mut VecDeque<Document>) -> Element
    ensures { (result, bodies.new.items) ≡ spec.fill_element bodies.old.items element }
{
    match element {
        Element::Assignment { name, value } => Element::Assignment { name, value },
        Element::Word(word) => Element::Word(word),
        Element::Redirection(redirect) => Element::Redirection(fill_redirect(redirect, bodies)),
    }
}

#[tactic(auto, using(crate::proofs::FillLemmas::thread_none, crate::proofs::FillLemmas::thread_one))]
fn fill_elements(
    alloc: Global,
    elements: Items<Element>,
    bodies: &mut VecDeque<Document>,
) -> Result<Items<Element>, AllocError>
    ensures { IfOk result (λ x. (x, bodies.new.items) ≡ spec.thread spec.fill_element bodies.old.items elements) }
{
    let mut found = Items::new(alloc);
    for element in elements.into_vec() {
        found.push(fill_element(element, bodies))?;
    }
    Ok(found)
}

#[cycle(fill)]
fn fill_script(
    alloc: Global,
    script: Script,
    bodies: &mut VecDeque<Document>,
) -> Result<Script, AllocError>
    ensures { IfOk result (λ x. (x, bodies.new.items) ≡ spec.fill_script bodies.old.items script) }
{
    let items = fill_items(alloc, script.items, bodies)?;
    Ok(Script { items })
}

#[cycle(fill)]
#[tactic(auto, using(crate::proofs::FillLemmas::thread_none, crate::proofs::FillLemmas::thread_one))]
fn fill_items(
    alloc: Global,
    items: Items<Item>,
    bodies: &mut VecDeque<Document>,
) -> Result<Items<Item>, AllocError>
    ensures { IfOk result (λ x. (x, bodies.new.items) ≡ spec.thread spec.fill_item bodies.old.items items) }
{
    let mut found = Items::new(alloc);
    for item in items.into_vec() {
        found.push(fill_item(alloc, item, bodies)?)?;
    }
    Ok(found)
}

#[cycle(fill)]
fn fill_item(alloc: Global, item: Item, bodies: &mut VecDeque<Document>) -> Result<Item, AllocError>
    ensures { IfOk result (λ x. (x, bodies.new.items) ≡ spec.fill_item bodies.old.items item) }
{
    let Item { list, background } = item;
    let list = fill_and_or(alloc, list, bodies)?;
    Ok(Item { list, background })
}

#[cycle(fill)]
fn fill_and_or(
    alloc: Global,
    list: AndOr,
    bodies: &mut VecDeque<Document>,
) -> Result<AndOr, AllocError>
    ensures { IfOk result (λ x. (x, bodies.new.items) ≡ spec.fill_and_or bodies.old.items list) }
{
    let AndOr { first, rest } = list;
    let first = fill_pipe(alloc, first, bodies)?;
    let rest = fill_links(alloc, rest, bodies)?;
    Ok(AndOr { first, rest })
}

#[cycle(fill)]
#[tactic(auto, using(crate::proofs::FillLemmas::thread_none, crate::proofs::FillLemmas::thread_one))]
fn fill_links(
    alloc: Global,
    links: Items<(Link, Pipe)>,
    bodies: &mut VecDeque<Document>,
) -> Result<Items<(Link, Pipe)>, AllocError>
    ensures { IfOk result (λ x. (x, bodies.new.items) ≡ spec.thread spec.fill_link bodies.old.items links) }
{
    let mut found = Items::new(alloc);
    for (link, pipe) in links.into_vec() {
        found.push((link, fill_pipe(alloc, pipe, bodies)?))?;
    }
    Ok(found)
}

#[cycle(fill)]
fn fill_pipe(alloc: Global, pipe: Pipe, bodies: &mut VecDeque<Document>) -> Result<Pipe, AllocError>
    ensures { IfOk result (λ x. (x, bodies.new.items) ≡ spec.fill_pipe bodies.old.items pipe) }
{
    let Pipe { negated, parts } = pipe;
    let parts = fill_commands(alloc, parts, bodies)?;
    Ok(Pipe { negated, parts })
}

#[cycle(fill)]
#[tactic(auto, using(crate::proofs::FillLemmas::thread_none, crate::proofs::FillLemmas::thread_one))]
fn fill_commands(
    alloc: Global,
    commands: Items<Command>,
    bodies: &mut VecDeque<Document>,
) -> Result<Items<Command>, AllocError>
    ensures { IfOk result (λ x. (x, bodies.new.items) ≡ spec.thread spec.fill_command bodies.old.items commands) }
{
    let mut found = Items::new(alloc);
    for command in commands.into_vec() {
        found.push(fill_command(alloc, command, bodies)?)?;
    }
    Ok(found)
}

#[cycle(fill)]
fn fill_command(
    alloc: Global,
    command: Command,
    bodies: &mut VecDeque<Document>,
) -> Result<Command, AllocError>
    ensures { IfOk result (λ x. (x, bodies.new.items) ≡ spec.fill_command bodies.old.items command) }
{
    let Command {
        number,
        at,
        kind,
        redirects,
    } = command;
    let kind = fill_kind(alloc, kind, bodies)?;
    let redirects = fill_redirects(alloc, redirects, bodies)?;
    Ok(Command {
        number,
        at,
        kind,
        redirects,
    })
}

#[cycle(fill)]
fn fill_kind(alloc: Global, kind: Kind, bodies: &mut VecDeque<Document>) -> Result<Kind, AllocError>
    ensures { IfOk result (λ x. (x, bodies.new.items) ≡ spec.fill_kind bodies.old.items kind) }
{
    match kind {
        Kind::Simple(elements) => Ok(Kind::Simple(fill_elements(alloc, elements, bodies)?)),
        Kind::Group(list) => Ok(Kind::Group(fill_script(alloc, list, bodies)?)),
        Kind::Subshell(list) => Ok(Kind::Subshell(fill_script(alloc, list, bodies)?)),
        Kind::Cond {
            branches,
            otherwise,
        } => Ok(Kind::Cond {
            branches: fill_branches(alloc, branches, bodies)?,
            otherwise: fill_otherwise(alloc, otherwise, bodies)?,
        }),
        Kind::Loop {
            kind,
            condition,
            body,
        } => Ok(Kind::Loop {
            kind,
            condition: fill_script(alloc, condition, bodies)?,
            body: fill_script(alloc, body, bodies)?,
        }),
        Kind::For { name, words, body } => {
            let body = fill_script(alloc, body, bodies)?;
            Ok(Kind::For { name, words, body })
        }
        Kind::Branches { word, clauses } => {
            let clauses = fill_clauses(alloc, clauses, bodies)?;
            Ok(Kind::Branches { word, clauses })
        }
        Kind::Define { name, body } => {
            let body = fill_command(alloc, body.into_inner(), bodies)?;
            let body = Boxed::new(alloc, body)?;
            Ok(Kind::Define { name, body })
        }
    }
}

#[cycle(fill)]
fn fill_otherwise(
    alloc: Global,
    otherwise: Option<Script>,
    bodies: &mut VecDeque<Document>,
) -> Result<Option<Script>, AllocError>
    ensures { IfOk result (λ x. (x, bodies.new.items) ≡ spec.fill_otherwise bodies.old.items otherwise) }
{
    match otherwise {
        Some(list) => Ok(Some(fill_script(alloc, list, bodies)?)),
        None => Ok(None),
    }
}

#[cycle(fill)]
#[tactic(auto, using(crate::proofs::FillLemmas::thread_none, crate::proofs::FillLemmas::thread_one))]
fn fill_branches(
    alloc: Global,
    branches: Items<Branch>,
    bodies: &mut VecDeque<Document>,
) -> Result<Items<Branch>, AllocError>
    ensures { IfOk result (λ x. (x, bodies.new.items) ≡ spec.thread spec.fill_branch bodies.old.items branches) }
{
    let mut found = Items::new(alloc);
    for branch in branches.into_vec() {
        found.push(fill_branch(alloc, branch, bodies)?)?;
    }
    Ok(found)
}

#[cycle(fill)]
fn fill_branch(
    alloc: Global,
    branch: Branch,
    bodies: &mut VecDeque<Document>,
) -> Result<Branch, AllocError>
    ensures { IfOk result (λ x. (x, bodies.new.items) ≡ spec.fill_branch bodies.old.items branch) }
{
    let Branch { condition, body } = branch;
    let condition = fill_script(alloc, condition, bodies)?;
    let body = fill_script(alloc, body, bodies)?;
    Ok(Branch { condition, body })
}

#[cycle(fill)]
#[tactic(auto, using(crate::proofs::FillLemmas::thread_none, crate::proofs::FillLemmas::thread_one))]
fn fill_clauses(
    alloc: Global,
    clauses: Items<Clause>,
    bodies: &mut VecDeque<Document>,
) -> Result<Items<Clause>, AllocError>
    ensures { IfOk result (λ x. (x, bodies.new.items) ≡ spec.thread spec.fill_clause bodies.old.items clauses) }
{
    let mut found = Items::new(alloc);
    for clause in clauses.into_vec() {
        found.push(fill_clause(alloc, clause, bodies)?)?;
    }
    Ok(found)
}

#[cycle(fill)]
fn fill_clause(
    alloc: Global,
    clause: Clause,
    bodies: &mut VecDeque<Document>,
) -> Result<Clause, AllocError>
    ensures { IfOk result (λ x. (x, bodies.new.items) ≡ spec.fill_clause bodies.old.items clause) }
{
    let Clause {
        patterns,
        body,
        end,
    } = clause;
    let body = fill_script(alloc, body, bodies)?;
    Ok(Clause {
        patterns,
        body,
        end,
    })
}

/// The script with these bodies at the operators of its here-documents, in their order (XCU 2.7.4).
/// Those inside words are none of its own.
///
/// # Errors
///
/// `AllocError` if a growth was refused.
pub fn filled(alloc: Global, script: Script, bodies: Items<Document>) -> Result<Script, AllocError>
    ensures { IfOk result (λ t. t ≡ spec.fill bodies script) }
{
    if bodies.is_empty() {
        return Ok(script);
    }
    let mut queue = VecDeque::from(bodies.into_vec());
    fill_script(alloc, script, &mut queue)
}
