//! The demands of a script that a certificate leaves unmet, command by command (XCU 2.6, 2.9,
//! 2.13).
ghost use Rattle.std.specs.Prelude.{◌≡◌, ◌<◌, true, fold, length, IfOk, IfErr};
ghost use Rattle.sh_tree.specs.standard.program.Trees.{command_of, script_of};
ghost use Rattle.sh_runs.specs.Calls.{table_of};
ghost use Rattle.sh_runs.specs.Numbering.{is_numbered};
ghost use Rattle.sh_domain.specs.Demands.{demands};
ghost use Rattle.sh_domain.specs.Facts.{Facts};
ghost use Rattle.sh_demands.specs.Places.{command_places};
ghost use Rattle.sh_demands.specs.Reported.{Adds};
ghost use Rattle.sh_demands.specs.Told.{item_shares};
ghost use Rattle.sh_demands.specs.ToldWalks as walks;
ghost use Rattle.sh_demands.specs.Whole.{AreNamesOf};
ghost use Rattle.sh_gains.specs.Claims.{kept_claims};

use crate::own::judge_own;
use crate::reports::Reports;
use crate::shared::tell_shared;
use crate::source::Source;
use sh_domain::{Certificate, Names};
use sh_table::CallTable;
use sh_tree::{
    AndOr, Binary, Branch, Clause, Command, Element, Expr, Item, Kind, Link, ParameterOperator,
    Part, Pipe, Place, Redirect, Script, Target, Word,
};
use std::alloc::{AllocError, Global};

// The places of the command itself.
#[tactic(auto, using(crate::proofs::ToldLemmas::own_out))]
fn tell_own(
    shares: bool,
    command: &Command,
    script: &[u8],
    source: &Source<'_, '_>,
    reports: &mut Reports,
)
    ensures { Adds reports.old reports.new (λ ps. command_places source.now shares ps (command_of script.now command.now)) }
{
    judge_own(command, script, source.before(command.number), reports);
    tell_shared(
        shares,
        command.number,
        command.at,
        &command.kind,
        script,
        source,
        reports,
    )
}

// Whether more than one part is there, or they share anyway.
fn parts_share(count: usize, shares: bool) -> bool
    ensures { result ≡ walks.parts_share count shares }
{
    count > 1 || shares
}

fn shares_item(background: bool, shares: bool) -> bool
    ensures { result ≡ item_shares background shares }
{
    !background && shares
}

#[cycle(tell)]
#[tactic(auto, using(crate::proofs::ToldLemmas::script_out))]
fn tell_script(
    shares: bool,
    list: &Script,
    script: &[u8],
    source: &Source<'_, '_>,
    reports: &mut Reports,
)
    ensures { Adds reports.old reports.new (λ ps. walks.script_step (command_places source.now) script.now shares ps list.now) }
{
    tell_items(shares, list.items.as_slice(), script, source, reports)
}

#[cycle(tell)]
fn tell_items(
    shares: bool,
    items: &[Item],
    script: &[u8],
    source: &Source<'_, '_>,
    reports: &mut Reports,
)
    ensures { Adds reports.old reports.new (λ ps. fold (walks.item_step (command_places source.now) script.now shares) ps items.now) }
{
    for item in items {
        tell_item(shares, item, script, source, reports);
    }
}

#[cycle(tell)]
#[tactic(auto, unfolding(crate::specs::ToldWalks::item_step))]
fn tell_item(
    shares: bool,
    item: &Item,
    script: &[u8],
    source: &Source<'_, '_>,
    reports: &mut Reports,
)
    ensures { Adds reports.old reports.new (λ ps. walks.item_step (command_places source.now) script.now shares ps item.now) }
{
    let inner = shares_item(item.background, shares);
    tell_list(inner, &item.list, script, source, reports)
}

#[cycle(tell)]
#[tactic(auto, using(crate::proofs::ToldLemmas::list_out))]
fn tell_list(
    shares: bool,
    list: &AndOr,
    script: &[u8],
    source: &Source<'_, '_>,
    reports: &mut Reports,
)
    ensures { Adds reports.old reports.new (λ ps. walks.list_step (command_places source.now) script.now shares ps list.now) }
{
    tell_pipe(shares, &list.first, script, source, reports);
    tell_links(shares, list.rest.as_slice(), script, source, reports)
}

#[cycle(tell)]
fn tell_links(
    shares: bool,
    links: &[(Link, Pipe)],
    script: &[u8],
    source: &Source<'_, '_>,
    reports: &mut Reports,
)
    ensures { Adds reports.old reports.new (λ ps. fold (walks.link_step (command_places source.now) script.now shares) ps links.now) }
{
    for link in links {
        tell_pipe(shares, &link.1, script, source, reports);
    }
}

#[cycle(tell)]
#[tactic(auto, using(crate::proofs::ToldLemmas::pipe_out))]
fn tell_pipe(
    shares: bool,
    pipe: &Pipe,
    script: &[u8],
    source: &Source<'_, '_>,
    reports: &mut Reports,
)
    ensures { Adds reports.old reports.new (λ ps. walks.pipe_step (command_places source.now) script.now shares ps pipe.now) }
{
    let parts = pipe.parts.as_slice();
    tell_commands(
        parts_share(parts.len(), shares),
        parts,
        script,
        source,
        reports,
    )
}

#[cycle(tell)]
fn tell_commands(
    shares: bool,
    commands: &[Command],
    script: &[u8],
    source: &Source<'_, '_>,
    reports: &mut Reports,
)
    ensures { Adds reports.old reports.new (λ ps. fold (walks.command_step (command_places source.now) script.now shares) ps commands.now) }
{
    for command in commands {
        tell_command(shares, command, script, source, reports);
    }
}

#[cycle(tell)]
#[tactic(auto, using(crate::proofs::ToldLemmas::command_out))]
fn tell_command(
    shares: bool,
    command: &Command,
    script: &[u8],
    source: &Source<'_, '_>,
    reports: &mut Reports,
)
    ensures { Adds reports.old reports.new (λ ps. walks.command_step (command_places source.now) script.now shares ps command.now) }
{
    tell_own(shares, command, script, source, reports);
    tell_redirects(command.redirects.as_slice(), script, source, reports);
    tell_kind(shares, &command.kind, script, source, reports)
}

#[cycle(tell)]
fn tell_redirects(
    redirects: &[Redirect],
    script: &[u8],
    source: &Source<'_, '_>,
    reports: &mut Reports,
)
    ensures { Adds reports.old reports.new (λ ps. fold (walks.redirect_step (command_places source.now) script.now) ps redirects.now) }
{
    for redirect in redirects {
        tell_target(&redirect.target, script, source, reports);
    }
}

#[cycle(tell)]
#[tactic(auto, using(crate::proofs::ToldLemmas::kinds), unfolding(crate::specs::ToldWalks::listed_step))]
fn tell_kind(
    shares: bool,
    kind: &Kind,
    script: &[u8],
    source: &Source<'_, '_>,
    reports: &mut Reports,
)
    ensures { Adds reports.old reports.new (λ ps. walks.kind_step (command_places source.now) script.now shares ps kind.now) }
{
    match kind {
        Kind::Simple(elements) => tell_elements(elements.as_slice(), script, source, reports),
        Kind::Group(list) => tell_script(shares, list, script, source, reports),
        Kind::Subshell(list) => tell_script(false, list, script, source, reports),
        Kind::Cond {
            branches,
            otherwise,
        } => {
            tell_branches(shares, branches.as_slice(), script, source, reports);
            tell_otherwise(shares, otherwise, script, source, reports)
        }
        Kind::Loop {
            condition,
            body,
            ..
        } => {
            tell_script(shares, condition, script, source, reports);
            tell_script(shares, body, script, source, reports)
        }
        Kind::For { words, body, .. } => {
            if let Some(words) = words {
                tell_words(words.as_slice(), script, source, reports);
            }
            tell_script(shares, body, script, source, reports)
        }
        Kind::Branches { word, clauses } => {
            tell_word(word, script, source, reports);
            tell_clauses(shares, clauses.as_slice(), script, source, reports)
        }
        Kind::Define { body, .. } => tell_command(false, body.get(), script, source, reports),
    }
}

#[cycle(tell)]
#[tactic(auto, unfolding(crate::specs::ToldWalks::otherwise_step))]
fn tell_otherwise(
    shares: bool,
    otherwise: &Option<Script>,
    script: &[u8],
    source: &Source<'_, '_>,
    reports: &mut Reports,
)
    ensures { Adds reports.old reports.new (λ ps. walks.otherwise_step (command_places source.now) script.now shares ps otherwise.now) }
{
    match otherwise {
        Some(list) => tell_script(shares, list, script, source, reports),
        None => (),
    }
}

#[cycle(tell)]
fn tell_elements(
    elements: &[Element],
    script: &[u8],
    source: &Source<'_, '_>,
    reports: &mut Reports,
)
    ensures { Adds reports.old reports.new (λ ps. fold (walks.element_step (command_places source.now) script.now) ps elements.now) }
{
    for element in elements {
        tell_element(element, script, source, reports);
    }
}

#[cycle(tell)]
#[tactic(auto, using(crate::proofs::ToldLemmas::elements))]
fn tell_element(element: &Element, script: &[u8], source: &Source<'_, '_>, reports: &mut Reports)
    ensures { Adds reports.old reports.new (λ ps. walks.element_step (command_places source.now) script.now ps element.now) }
{
    match element {
        Element::Assignment { value, .. } => tell_word(value, script, source, reports),
        Element::Word(word) => tell_word(word, script, source, reports),
        Element::Redirection(redirect) => tell_target(&redirect.target, script, source, reports),
    }
}

#[cycle(tell)]
fn tell_branches(
    shares: bool,
    branches: &[Branch],
    script: &[u8],
    source: &Source<'_, '_>,
    reports: &mut Reports,
)
    ensures { Adds reports.old reports.new (λ ps. fold (walks.branch_step (command_places source.now) script.now shares) ps branches.now) }
{
    for branch in branches {
        tell_branch(shares, branch, script, source, reports);
    }
}

#[cycle(tell)]
#[tactic(auto, unfolding(crate::specs::ToldWalks::branch_step))]
fn tell_branch(
    shares: bool,
    branch: &Branch,
    script: &[u8],
    source: &Source<'_, '_>,
    reports: &mut Reports,
)
    ensures { Adds reports.old reports.new (λ ps. walks.branch_step (command_places source.now) script.now shares ps branch.now) }
{
    tell_script(shares, &branch.condition, script, source, reports);
    tell_script(shares, &branch.body, script, source, reports)
}

#[cycle(tell)]
fn tell_words(words: &[Word], script: &[u8], source: &Source<'_, '_>, reports: &mut Reports)
    ensures { Adds reports.old reports.new (λ ps. fold (walks.word_step (command_places source.now) script.now) ps words.now) }
{
    for word in words {
        tell_word(word, script, source, reports);
    }
}

#[cycle(tell)]
fn tell_word(word: &Word, script: &[u8], source: &Source<'_, '_>, reports: &mut Reports)
    ensures { Adds reports.old reports.new (λ ps. walks.word_step (command_places source.now) script.now ps word.now) }
{
    tell_parts(word.parts.as_slice(), script, source, reports)
}

#[cycle(tell)]
fn tell_clauses(
    shares: bool,
    clauses: &[Clause],
    script: &[u8],
    source: &Source<'_, '_>,
    reports: &mut Reports,
)
    ensures { Adds reports.old reports.new (λ ps. fold (walks.clause_step (command_places source.now) script.now shares) ps clauses.now) }
{
    for clause in clauses {
        tell_clause(shares, clause, script, source, reports);
    }
}

#[cycle(tell)]
#[tactic(auto, unfolding(crate::specs::ToldWalks::clause_step))]
fn tell_clause(
    shares: bool,
    clause: &Clause,
    script: &[u8],
    source: &Source<'_, '_>,
    reports: &mut Reports,
)
    ensures { Adds reports.old reports.new (λ ps. walks.clause_step (command_places source.now) script.now shares ps clause.now) }
{
    tell_words(clause.patterns.as_slice(), script, source, reports);
    tell_script(shares, &clause.body, script, source, reports)
}

#[cycle(tell)]
#[tactic(auto, using(crate::proofs::ToldLemmas::targets))]
fn tell_target(target: &Target, script: &[u8], source: &Source<'_, '_>, reports: &mut Reports)
    ensures { Adds reports.old reports.new (λ ps. walks.target_step (command_places source.now) script.now ps target.now) }
{
    match target {
        Target::File(_, word) => tell_word(word, script, source, reports),
        Target::Here(here) => tell_word(&here.body, script, source, reports),
    }
}

#[cycle(tell)]
fn tell_parts(parts: &[Part], script: &[u8], source: &Source<'_, '_>, reports: &mut Reports)
    ensures { Adds reports.old reports.new (λ ps. fold (walks.part_step (command_places source.now) script.now) ps parts.now) }
{
    for part in parts {
        tell_part(part, script, source, reports);
    }
}

#[cycle(tell)]
#[tactic(auto, using(crate::proofs::ToldLemmas::parts))]
fn tell_part(part: &Part, script: &[u8], source: &Source<'_, '_>, reports: &mut Reports)
    ensures { Adds reports.old reports.new (λ ps. walks.part_step (command_places source.now) script.now ps part.now) }
{
    match part {
        Part::Double(_, parts) => tell_parts(parts.as_slice(), script, source, reports),
        Part::Param(param) => tell_operator(&param.operator, script, source, reports),
        Part::Arith(_, expression) => tell_expression(expression.get(), script, source, reports),
        Part::Command(_, _, list) => tell_script(false, list, script, source, reports),
        Part::Plain(_) => (),
        Part::Escaped(_) => (),
        Part::Single(_, _) => (),
        Part::Tilde(_) => (),
        Part::Joined(_) => (),
    }
}

#[cycle(tell)]
#[tactic(auto, using(crate::proofs::ToldLemmas::operators))]
fn tell_operator(
    operator: &ParameterOperator,
    script: &[u8],
    source: &Source<'_, '_>,
    reports: &mut Reports,
)
    ensures { Adds reports.old reports.new (λ ps. walks.operator_step (command_places source.now) script.now ps operator.now) }
{
    match operator {
        ParameterOperator::Value => (),
        ParameterOperator::Length => (),
        ParameterOperator::Use { word, .. } => tell_word(word, script, source, reports),
        ParameterOperator::Remove { pattern, .. } => tell_word(pattern, script, source, reports),
    }
}

#[cycle(tell)]
fn tell_chain(
    rest: &[(Binary, Expr)],
    script: &[u8],
    source: &Source<'_, '_>,
    reports: &mut Reports,
)
    ensures { Adds reports.old reports.new (λ ps. fold (walks.operand_step (command_places source.now) script.now) ps rest.now) }
{
    for link in rest {
        tell_expression(&link.1, script, source, reports);
    }
}

#[cycle(tell)]
#[tactic(auto, using(crate::proofs::ToldLemmas::expressions))]
fn tell_expression(expression: &Expr, script: &[u8], source: &Source<'_, '_>, reports: &mut Reports)
    ensures { Adds reports.old reports.new (λ ps. walks.expression_step (command_places source.now) script.now ps expression.now) }
{
    match expression {
        Expr::Constant(_) => (),
        Expr::Variable(_) => (),
        Expr::Expansion(part) => tell_part(part, script, source, reports),
        Expr::Parenthesis(inner) => tell_expression(inner.get(), script, source, reports),
        Expr::Unary { operand, .. } => tell_expression(operand.get(), script, source, reports),
        Expr::Chain { first, rest } => {
            tell_expression(first.get(), script, source, reports);
            tell_chain(rest.as_slice(), script, source, reports)
        }
        Expr::Choice { condition, yes, no } => {
            tell_expression(condition.get(), script, source, reports);
            tell_expression(yes.get(), script, source, reports);
            tell_expression(no.get(), script, source, reports)
        }
        Expr::Assign { value, .. } => tell_expression(value.get(), script, source, reports),
    }
}

/// The places of a script where a certificate leaves a demand unmet, command by command, a command
/// before those in it. One is a parameter that a word expands, a tilde without a login name or a
/// name that arithmetic reads. The certificate does not claim that it is set (XCU 2.6.1, 2.6.2,
/// 2.6.4). In a part of a pipeline one is also a name that a command may drop, each once, or that
/// it moves the positional parameters (XCU 2.9.2, 2.13).
///
/// # Errors
///
/// If memory runs out. That requires an unmet demand.
pub fn check_demands(
    alloc: Global,
    tree: &Script,
    script: &[u8],
    calls: &CallTable<'_>,
    names: &Names,
    certificate: &Certificate,
) -> Result<Vec<Place>, AllocError>
    requires table { calls.now ≡ table_of script.now tree.now }
    requires numbered { is_numbered (script_of script.now tree.now) ≡ true }
    requires names { AreNamesOf script.now tree.now names.now }
    ensures places { IfOk result (λ places. (start : Facts) → places.items ≡ demands start (kept_claims script.now tree.now names.now certificate.now) (script_of script.now tree.now)) }
    ensures memory { IfErr result (λ _. (start : Facts) → 0 < length (demands start (kept_claims script.now tree.now names.now certificate.now) (script_of script.now tree.now))) }
{
    let source = Source::new(names, certificate, calls, script);
    let mut reports = Reports::new(alloc, names.hash());
    tell_script(false, tree, script, &source, &mut reports);
    reports.finish()
}
