//! Where nothing is new, what is known is not needed: what was known there before has lowered what
//! it lowers. A sweep goes on there as where no run comes.
ghost use Rattle.std.specs.Prelude.{◌≡◌, ℕ, List};
ghost use Rattle.sh_tree.specs.Lists.{redirects_from};
ghost use Rattle.sh_tree.specs.declared.tree.Command.{out-Command};
ghost use Rattle.sh_tree.specs.declared.tree.Item as tree;
ghost use Rattle.sh_tree.specs.standard.program.Syntax.{Text};
ghost use Rattle.sh_tree.specs.standard.program.Trees as trees;
ghost use Rattle.sh_domain.specs.Entries.{behind_redirects, link_seen, linked, pipeline_after};
ghost use Rattle.sh_domain.specs.Facts.{NotReached};
ghost use Rattle.sh_domain.specs.Knowledge.{knowledge_facts};
ghost use Rattle.sh_domain.specs.Views as views;
ghost use Rattle.sh_domain.specs.Views.{After, Seen, at};
ghost use Rattle.sh_drafts.specs.Ready.{IsReady};
ghost use Rattle.sh_drafts.specs.declared.subject.Subject as subjects;
ghost use Rattle.sh_sweeps.specs.Sweeps.{ArePassed, IsPassed, Knows, KnowsBehind, known_behind};

use crate::known::{before_of, behind_pipe, inside_of, pass_link};
use sh_domain::{Certificate, FlowRule, Knowledge};
use sh_drafts::Subject;
use sh_rules::{Behind, Course};
use sh_tree::{Command, Item, Link, Pipe};

/// Nothing is known, whatever the status was.
pub fn nothing_behind() -> Behind
    ensures { (s : subjects.Subject) (o : After) → KnowsBehind s o (known_behind s result) }
{
    Behind {
        zero: Knowledge::NotReached,
        nonzero: Knowledge::NotReached,
    }
}

/// Goes on after an item, and keeps nothing of what is known.
pub fn leave_item(course: &mut Course)
    ensures { (s : subjects.Subject) (i : tree.Item) → IsPassed s course.old course.new i }
{
    course.behind = nothing_behind();
    course.by = FlowRule::F2;
}

/// Goes on after items, and keeps nothing of what is known.
pub fn leave_all(course: &mut Course, items: &[Item])
    ensures { (s : subjects.Subject) → ArePassed s course.old course.new items.now }
{
    if items.is_empty() {
        return;
    }
    course.behind = nothing_behind();
    course.by = FlowRule::F2;
}

/// Where a command is entered, if something is new there.
pub fn before_if(
    subject: &Subject<'_>,
    certificate: &Certificate,
    number: u32,
    is_new: bool,
) -> Knowledge
    requires { (probed : ℕ) × IsReady subject.now certificate.now probed }
    ensures { Knows subject.now (at (views.Before number)) (knowledge_facts subject.now.names.now result) }
{
    if is_new {
        before_of(subject, certificate, number)
    } else {
        Knowledge::NotReached
    }
}

/// Inside a command, after its redirections, if something is new there.
pub fn inside_if(
    subject: &Subject<'_>,
    certificate: &Certificate,
    command: &Command,
    is_new: bool,
) -> Knowledge
    requires { (probed : ℕ) × IsReady subject.now certificate.now probed }
    ensures { Knows subject.now (behind_redirects (out-Command command.now).number (redirects_from subject.now.script.now (out-Command command.now).redirects)) (knowledge_facts subject.now.names.now result) }
{
    if is_new {
        inside_of(subject, certificate, command)
    } else {
        Knowledge::NotReached
    }
}

/// After the first pipeline of an and-or list, if something is new there.
pub fn pipe_if(
    subject: &Subject<'_>,
    certificate: &Certificate,
    known: &Knowledge,
    pipe: &Pipe,
    is_new: bool,
) -> Behind
    requires { (probed : ℕ) × IsReady subject.now certificate.now probed }
    ensures { (q : Seen) → Knows subject.now q (knowledge_facts subject.now.names.now known.now)
        → KnowsBehind subject.now (pipeline_after q (trees.pipeline_of subject.now.script.now pipe.now)) (known_behind subject.now result) }
{
    if is_new {
        behind_pipe(subject, certificate, known, pipe)
    } else {
        nothing_behind()
    }
}

// Keeps nothing of what is known. Most often nothing is, and then nothing is written.
#[tactic(auto, using(crate::proofs::KnownLemmas::unreached), unfolding(sh_domain::specs::Knowledge::knowledge_facts))]
fn forget(known: &mut Knowledge)
    ensures { (names : List Text) → knowledge_facts names known.new ≡ NotReached }
{
    if known.is_reached() {
        *known = Knowledge::NotReached;
    }
}

/// Goes on after the pipeline that follows `&&` or `||`. If nothing is new after it, what was known
/// by the status that it gives is not kept.
pub fn link_if(
    subject: &Subject<'_>,
    certificate: &Certificate,
    behind: &mut Behind,
    link: &(Link, Pipe),
    is_new: bool,
)
    requires { (probed : ℕ) × IsReady subject.now certificate.now probed }
    ensures { (o : After) → KnowsBehind subject.now o (known_behind subject.now behind.old)
        → KnowsBehind subject.now (linked link.now.0 o (pipeline_after (link_seen link.now.0 o) (trees.pipeline_of subject.now.script.now link.now.1))) (known_behind subject.now behind.new) }
{
    if is_new {
        pass_link(subject, certificate, behind, link);
        return;
    }
    match link.0 {
        Link::AndThen => forget(&mut behind.zero),
        Link::OrElse => forget(&mut behind.nonzero),
    }
}
