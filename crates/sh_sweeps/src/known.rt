//! What is known where the lists of a command are entered, by what the certificate claims.
ghost use Rattle.std.specs.Prelude.{◌∷◌, [], ℕ};
ghost use Rattle.sh_tree.specs.standard.Tree.{text_of};
ghost use Rattle.sh_tree.specs.declared.tree.Command.{out-Command};
ghost use Rattle.sh_tree.specs.Lists.{elements_from, parts_from, redirects_from};
ghost use Rattle.sh_tree.specs.standard.program.Trees as trees;
ghost use Rattle.sh_domain.specs.Entries.{behind_redirects, link_seen, linked, operand_seen, pipeline_after};
ghost use Rattle.sh_domain.specs.Gains.{assigned_in, named, redirects_gains, word_gains};
ghost use Rattle.sh_domain.specs.Knowledge.{knowledge_facts};
ghost use Rattle.sh_domain.specs.Table.{behind_words};
ghost use Rattle.sh_domain.specs.Views as views;
ghost use Rattle.sh_domain.specs.Views.{After, Seen, at, gaining, gaining_names};
ghost use Rattle.sh_gains.specs.Knowing.{action_gains};
ghost use Rattle.sh_sweeps.specs.Sweeps.{ArePassed, IsPassed, Knows, KnowsBehind, known_behind};
ghost use Rattle.sh_drafts.specs.Ready.{IsReady};

use crate::claims::claims_of;
use sh_domain::{Certificate, FlowRule, Knowledge};
use sh_drafts::Subject;
use sh_gains::gain_operands;
use sh_rules::{
    Behind, Course, enter_operator, gain_action, gain_assigned, gain_redirects, gain_variable,
    gain_word, pipe_behind, without_job,
};
use sh_tree::{
    Action, Command, Element, Expr, Item, Link, Pipe, Redirect, Span, Subject as Parameter, Word,
};

/// Where a command is entered.
pub fn before_of(subject: &Subject<'_>, certificate: &Certificate, number: u32) -> Knowledge
    requires { (probed : ℕ) × IsReady subject.now certificate.now probed }
    ensures { Knows subject.now (at (views.Before number)) (knowledge_facts subject.now.names.now result) }
{
    let claims = claims_of(subject, certificate);
    let mut known = Knowledge::NotReached;
    claims.before_into(number, &mut known);
    known
}

/// After a command, if its status is zero.
pub fn zero_of(subject: &Subject<'_>, certificate: &Certificate, number: u32) -> Knowledge
    requires { (probed : ℕ) × IsReady subject.now certificate.now probed }
    ensures { Knows subject.now (at (views.AfterZero number)) (knowledge_facts subject.now.names.now result) }
{
    let claims = claims_of(subject, certificate);
    let mut known = Knowledge::NotReached;
    claims.zero_into(number, &mut known);
    known
}

/// After a command, if its status is another one.
pub fn nonzero_of(subject: &Subject<'_>, certificate: &Certificate, number: u32) -> Knowledge
    requires { (probed : ℕ) × IsReady subject.now certificate.now probed }
    ensures { Knows subject.now (at (views.AfterNonzero number)) (knowledge_facts subject.now.names.now result) }
{
    let claims = claims_of(subject, certificate);
    let mut known = Knowledge::NotReached;
    claims.nonzero_into(number, &mut known);
    known
}

// After redirections too.
fn gain_redirections(
    subject: &Subject<'_>,
    certificate: &Certificate,
    redirects: &[Redirect],
    known: &mut Knowledge,
)
    requires { (probed : ℕ) × IsReady subject.now certificate.now probed }
    ensures { (q : Seen) → Knows subject.now q (knowledge_facts subject.now.names.now known.old)
        → Knows subject.now (gaining (redirects_gains (redirects_from subject.now.script.now redirects.now)) q) (knowledge_facts subject.now.names.now known.new) }
{
    let claims = claims_of(subject, certificate);
    gain_redirects(&claims, redirects, known);
}

/// Inside a command, after its redirections.
pub fn inside_of(subject: &Subject<'_>, certificate: &Certificate, command: &Command) -> Knowledge
    requires { (probed : ℕ) × IsReady subject.now certificate.now probed }
    ensures { Knows subject.now (behind_redirects (out-Command command.now).number (redirects_from subject.now.script.now (out-Command command.now).redirects)) (knowledge_facts subject.now.names.now result) }
{
    let mut inside = before_of(subject, certificate, command.number);
    let redirects = command.redirects.as_slice();
    gain_redirections(subject, certificate, redirects, &mut inside);
    inside
}

/// In the process of a subshell.
pub fn process_of(subject: &Subject<'_>, certificate: &Certificate, number: u32) -> Knowledge
    requires { (probed : ℕ) × IsReady subject.now certificate.now probed }
    ensures { Knows subject.now (views.without_job (at (views.Before number))) (knowledge_facts subject.now.names.now result) }
{
    let outside = before_of(subject, certificate, number);
    started_in(subject, certificate, &outside)
}

/// In a process that is started.
pub fn started_in(subject: &Subject<'_>, certificate: &Certificate, known: &Knowledge) -> Knowledge
    requires { (probed : ℕ) × IsReady subject.now certificate.now probed }
    ensures { (q : Seen) → Knows subject.now q (knowledge_facts subject.now.names.now known.now) → Knows subject.now (views.without_job q) (knowledge_facts subject.now.names.now result) }
{
    let claims = claims_of(subject, certificate);
    without_job(&claims, known)
}

/// After a pipeline.
pub fn behind_pipe(
    subject: &Subject<'_>,
    certificate: &Certificate,
    known: &Knowledge,
    pipe: &Pipe,
) -> Behind
    requires { (probed : ℕ) × IsReady subject.now certificate.now probed }
    ensures { (q : Seen) → Knows subject.now q (knowledge_facts subject.now.names.now known.now)
        → KnowsBehind subject.now (pipeline_after q (trees.pipeline_of subject.now.script.now pipe.now)) (known_behind subject.now result) }
{
    let claims = claims_of(subject, certificate);
    pipe_behind(&claims, known, pipe)
}

/// Goes on after the pipeline that follows `&&` or `||`.
pub fn pass_link(
    subject: &Subject<'_>,
    certificate: &Certificate,
    behind: &mut Behind,
    link: &(Link, Pipe),
)
    requires { (probed : ℕ) × IsReady subject.now certificate.now probed }
    ensures { (o : After) → KnowsBehind subject.now o (known_behind subject.now behind.old)
        → KnowsBehind subject.now (linked link.now.0 o (pipeline_after (link_seen link.now.0 o) (trees.pipeline_of subject.now.script.now link.now.1))) (known_behind subject.now behind.new) }
{
    let claims = claims_of(subject, certificate);
    behind.pass_link(&claims, link.0, &link.1);
}

/// At each turn of a loop.
pub fn head_of(subject: &Subject<'_>, certificate: &Certificate, number: u32) -> Knowledge
    requires { (probed : ℕ) × IsReady subject.now certificate.now probed }
    ensures { Knows subject.now (at (views.Head number)) (knowledge_facts subject.now.names.now result) }
{
    let claims = claims_of(subject, certificate);
    claims.head(number)
}

// Where a variable of this name is set.
fn behind_name(
    subject: &Subject<'_>,
    certificate: &Certificate,
    name: &[u8],
    known: &Knowledge,
) -> Knowledge
    requires { (probed : ℕ) × IsReady subject.now certificate.now probed }
    ensures { (q : Seen) → Knows subject.now q (knowledge_facts subject.now.names.now known.now)
        → Knows subject.now (gaining_names (name.now ∷ []) q) (knowledge_facts subject.now.names.now result) }
{
    let claims = claims_of(subject, certificate);
    let mut behind = *known;
    gain_variable(&claims, name, &mut behind);
    behind
}

/// At each turn of a `for`, which sets its name.
pub fn turn_of(
    subject: &Subject<'_>,
    certificate: &Certificate,
    number: u32,
    name: Span,
) -> Knowledge
    requires { (probed : ℕ) × IsReady subject.now certificate.now probed }
    ensures { Knows subject.now (gaining_names (text_of subject.now.script.now name ∷ []) (at (views.Head number))) (knowledge_facts subject.now.names.now result) }
{
    let head = head_of(subject, certificate, number);
    behind_name(subject, certificate, name.text(subject.script), &head)
}

// Where the function of this name is entered.
fn entry_by(subject: &Subject<'_>, certificate: &Certificate, name: &[u8]) -> Knowledge
    requires { (probed : ℕ) × IsReady subject.now certificate.now probed }
    ensures { Knows subject.now (at (views.Entry name.now)) (knowledge_facts subject.now.names.now result) }
{
    let claims = claims_of(subject, certificate);
    claims.function_entry(name)
}

/// Where a function is entered.
pub fn entry_of(subject: &Subject<'_>, certificate: &Certificate, name: Span) -> Knowledge
    requires { (probed : ℕ) × IsReady subject.now certificate.now probed }
    ensures { Knows subject.now (at (views.Entry (text_of subject.now.script.now name))) (knowledge_facts subject.now.names.now result) }
{
    entry_by(subject, certificate, name.text(subject.script))
}

/// After a word.
pub fn behind_word(
    subject: &Subject<'_>,
    certificate: &Certificate,
    word: &Word,
    known: &Knowledge,
) -> Knowledge
    requires { (probed : ℕ) × IsReady subject.now certificate.now probed }
    ensures { (q : Seen) → Knows subject.now q (knowledge_facts subject.now.names.now known.now)
        → Knows subject.now (gaining (word_gains (parts_from subject.now.script.now word.now.parts)) q) (knowledge_facts subject.now.names.now result) }
{
    if !known.is_reached() {
        return Knowledge::NotReached;
    }
    let claims = claims_of(subject, certificate);
    let mut behind = *known;
    gain_word(&claims, word, &mut behind);
    behind
}

/// After the command name and the operands of a simple command.
pub fn behind_operands(
    subject: &Subject<'_>,
    certificate: &Certificate,
    elements: &[Element],
    known: &Knowledge,
) -> Knowledge
    requires { (probed : ℕ) × IsReady subject.now certificate.now probed }
    ensures { (q : Seen) → Knows subject.now q (knowledge_facts subject.now.names.now known.now)
        → Knows subject.now (behind_words (elements_from subject.now.script.now elements.now) q) (knowledge_facts subject.now.names.now result) }
{
    if !known.is_reached() {
        return Knowledge::NotReached;
    }
    let mut behind = *known;
    gain_operands(elements, subject.script, subject.names, &mut behind);
    behind
}

/// In the word after an operator, where it is expanded.
pub fn operand_of(
    subject: &Subject<'_>,
    certificate: &Certificate,
    parameter: Parameter,
    action: Action,
    known: &Knowledge,
) -> Knowledge
    requires { (probed : ℕ) × IsReady subject.now certificate.now probed }
    ensures { (q : Seen) → Knows subject.now q (knowledge_facts subject.now.names.now known.now)
        → Knows subject.now (operand_seen action (trees.parameter_of subject.now.script.now parameter) q) (knowledge_facts subject.now.names.now result) }
{
    let claims = claims_of(subject, certificate);
    let mut inside = *known;
    enter_operator(&claims, action, parameter, &mut inside);
    inside
}

/// After an expansion with an operator and a word.
pub fn behind_action(
    subject: &Subject<'_>,
    certificate: &Certificate,
    parameter: Parameter,
    action: Action,
    known: &Knowledge,
) -> Knowledge
    requires { (probed : ℕ) × IsReady subject.now certificate.now probed }
    ensures { (q : Seen) → Knows subject.now q (knowledge_facts subject.now.names.now known.now)
        → Knows subject.now (gaining (action_gains (trees.parameter_of subject.now.script.now parameter) action) q) (knowledge_facts subject.now.names.now result) }
{
    let claims = claims_of(subject, certificate);
    let mut behind = *known;
    gain_action(&claims, action, parameter, &mut behind);
    behind
}

/// After arithmetic, by the names that it is sure to assign.
pub fn behind_assigned(
    subject: &Subject<'_>,
    certificate: &Certificate,
    expression: &Expr,
    known: &Knowledge,
) -> Knowledge
    requires { (probed : ℕ) × IsReady subject.now certificate.now probed }
    ensures { (q : Seen) → Knows subject.now q (knowledge_facts subject.now.names.now known.now)
        → Knows subject.now (gaining (named (assigned_in (trees.expression_of subject.now.script.now expression.now))) q) (knowledge_facts subject.now.names.now result) }
{
    if !known.is_reached() {
        return Knowledge::NotReached;
    }
    let claims = claims_of(subject, certificate);
    let mut behind = *known;
    gain_assigned(&claims, expression, &mut behind);
    behind
}

/// Goes on after an item of a list.
pub fn pass_on(subject: &Subject<'_>, certificate: &Certificate, course: &mut Course, item: &Item)
    requires { (probed : ℕ) × IsReady subject.now certificate.now probed }
    ensures { IsPassed subject.now course.old course.new item.now }
{
    let claims = claims_of(subject, certificate);
    course.behind.pass_item(&claims, item);
    course.by = FlowRule::F2;
}

/// Goes on after items of a list.
pub fn pass_all(
    subject: &Subject<'_>,
    certificate: &Certificate,
    course: &mut Course,
    items: &[Item],
)
    requires { (probed : ℕ) × IsReady subject.now certificate.now probed }
    ensures { ArePassed subject.now course.old course.new items.now }
{
    if items.is_empty() {
        return;
    }
    let claims = claims_of(subject, certificate);
    course.behind.pass_all(&claims, items);
    course.by = FlowRule::F2;
}
