//! What is known after lists, by their status (XCU 2.9.2, 2.9.3).
ghost use Rattle.std.specs.Prelude.{◌≡◌, fold, [], ◌∷◌, List, Some, true, false, IfSome};
ghost use Rattle.sh_tree.specs.declared.tree.AndOr.{out-AndOr};
ghost use Rattle.sh_tree.specs.declared.tree.Item.{out-Item};
ghost use Rattle.sh_tree.specs.declared.tree.Link.TheVariants as link;
ghost use Rattle.sh_tree.specs.declared.tree.Pipe.{out-Pipe};
ghost use Rattle.sh_tree.specs.standard.program.Syntax.{Text};
ghost use Rattle.std.specs.Option.{option_copied};
ghost use Rattle.sh_tree.specs.standard.Words.{lone_part};
ghost use Rattle.sh_domain.specs.Facts.{Facts, NotReached, meet};
ghost use Rattle.sh_domain.specs.Gains.{job, named};
ghost use Rattle.sh_domain.specs.Knowledge.{knowledge_facts};
ghost use Rattle.sh_domain.specs.Views.{AfterNonzero, AfterZero};
ghost use Rattle.sh_rules.specs.Settings.{Setting, gained, known_at, without_job};
ghost use Rattle.sh_rules.specs.Behind as spec;
ghost use Rattle.sh_rules.specs.Bounds as bounds;
ghost use Rattle.sh_rules.specs.Walks as walks;
ghost use Rattle.sh_rules.specs.Walks.{facts_in, setting};

use crate::claims::Claims;
use crate::gains::gain_variable;
use sh_domain::Knowledge;
use sh_tree::{AndOr, ClauseEnd, Command, Item, Link, LoopKind, Pipe, Script};

/// What is known if a status was zero, and if it was another one.
#[derive(Clone, Copy)]
pub struct Behind {
    pub zero: Knowledge,
    pub nonzero: Knowledge,
}

/// Leaves of what is known here what is known there too.
#[tactic(auto, unfolding(crate::specs::Walks::facts_in))]
pub fn meet(known: &mut Knowledge, other: &Knowledge)
    ensures { (x : Setting) → facts_in x known.new ≡ meet (facts_in x known.old) (facts_in x other.now) }
{
    known.meet(other);
}

/// What is known both here and there.
pub fn met(known: &Knowledge, other: &Knowledge) -> Knowledge
    ensures { (x : Setting) → facts_in x result ≡ meet (facts_in x known.now) (facts_in x other.now) }
{
    let mut both = *known;
    meet(&mut both, other);
    both
}

/// What a process knows that is started here: it may have no `!`.
#[tactic(auto, unfolding(crate::specs::Settings::without_job, crate::specs::Walks::facts_in, crate::specs::Walks::setting))]
pub fn without_job(claims: &Claims<'_>, known: &Knowledge) -> Knowledge
    ensures { facts_in (setting claims.now) result ≡ without_job (setting claims.now) (facts_in (setting claims.now) known.now) }
{
    let mut left = *known;
    left.lose_variable(claims.names, b"!");
    left
}

impl Behind {
    /// Where no run comes.
    #[tactic(auto, unfolding(crate::specs::Walks::facts_in, sh_domain::specs::Knowledge::knowledge_facts))]
    pub fn nowhere() -> Behind
        ensures { (x : Setting) → walks.behind_in x result ≡ spec.both NotReached }
    {
        Behind {
            zero: Knowledge::NotReached,
            nonzero: Knowledge::NotReached,
        }
    }

    /// The same after each status.
    pub fn both(known: &Knowledge) -> Behind
        ensures { (x : Setting) → walks.behind_in x result ≡ spec.both (facts_in x known.now) }
    {
        Behind {
            zero: *known,
            nonzero: *known,
        }
    }

    /// Whatever the status was.
    pub fn in_any_case(&self) -> Knowledge
        ensures { (x : Setting) → facts_in x result ≡ spec.in_any_case (walks.behind_in x self.now) }
    {
        met(&self.zero, &self.nonzero)
    }

    /// Has what is known at zero be what is known whatever the status was.
    pub fn join(&mut self)
        ensures zero { (x : Setting) → facts_in x self.new.zero ≡ spec.in_any_case (walks.behind_in x self.old) }
        ensures nonzero { self.new.nonzero ≡ self.old.nonzero }
    {
        meet(&mut self.zero, &self.nonzero);
    }

    /// What the pipeline after `&&` or `||` is entered with.
    #[tactic(auto, unfolding(crate::specs::Behind::link_known))]
    pub fn at_link(&self, link: Link) -> &Knowledge
        ensures { (x : Setting) → facts_in x result.now ≡ spec.link_known link (walks.behind_in x self.now) }
    {
        match link {
            Link::AndThen => &self.zero,
            Link::OrElse => &self.nonzero,
        }
    }

    /// Where the condition of a loop has it take a turn.
    #[tactic(auto, unfolding(crate::specs::Behind::turns))]
    pub fn at_turn(&self, kind: LoopKind) -> &Knowledge
        ensures { (x : Setting) → facts_in x result.now ≡ spec.turns kind (walks.behind_in x self.now) }
    {
        match kind {
            LoopKind::While => &self.zero,
            LoopKind::Until => &self.nonzero,
        }
    }

    /// Where the condition of a loop ends it.
    #[tactic(auto, unfolding(crate::specs::Bounds::ends))]
    pub fn at_end(&self, kind: LoopKind) -> &Knowledge
        ensures { (x : Setting) → facts_in x result.now ≡ bounds.ends kind (walks.behind_in x self.now) }
    {
        match kind {
            LoopKind::While => &self.nonzero,
            LoopKind::Until => &self.zero,
        }
    }

    /// What falls into the next list of a `case`.
    #[tactic(auto, unfolding(crate::specs::Behind::falls, crate::specs::Walks::facts_in, sh_domain::specs::Knowledge::knowledge_facts))]
    pub fn falling(&self, end: ClauseEnd) -> Knowledge
        ensures { (x : Setting) → facts_in x result ≡ spec.falls end (walks.behind_in x self.now) }
    {
        match end {
            ClauseEnd::Break => Knowledge::NotReached,
            ClauseEnd::FallThrough => self.in_any_case(),
        }
    }
}

#[tactic(auto, unfolding(sh_tree::specs::standard::Words::lone_part))]
fn lone_part(parts: &[Command]) -> Option<&Command>
    ensures { option_copied result ≡ lone_part parts.now }
{
    match parts {
        [command] => Some(command),
        _ => None,
    }
}

impl Behind {
    // Goes on after a command alone, whose status `!` turns.
    #[tactic(auto, unfolding(crate::specs::Behind::swapped))]
    fn pass_command(&mut self, claims: &Claims<'_>, number: u32, is_negated: bool)
        ensures { walks.behind_in (setting claims.now) self.new ≡ spec.swapped is_negated (spec.either (known_at (setting claims.now) (AfterZero number)) (known_at (setting claims.now) (AfterNonzero number))) }
    {
        if is_negated {
            claims.nonzero_into(number, &mut self.zero);
            claims.zero_into(number, &mut self.nonzero);
        } else {
            claims.zero_into(number, &mut self.zero);
            claims.nonzero_into(number, &mut self.nonzero);
        }
    }

    // The same after each status.
    fn set_both(&mut self, known: &Knowledge)
        ensures { (x : Setting) → walks.behind_in x self.new ≡ spec.both (facts_in x known.now) }
    {
        self.zero = *known;
        self.nonzero = *known;
    }

    // Goes on after a pipeline, before which this is known.
    #[tactic(auto, using(crate::proofs::BehindLemmas::lone, crate::proofs::BehindLemmas::not_lone))]
    fn pass_pipe(&mut self, claims: &Claims<'_>, known: &Knowledge, pipe: &Pipe)
        ensures { walks.behind_in (setting claims.now) self.new ≡ walks.pipe_behind (setting claims.now) (facts_in (setting claims.now) known.now) pipe.now }
    {
        match lone_part(pipe.parts.as_slice()) {
            Some(command) => self.pass_command(claims, command.number, pipe.negated),
            None => self.set_both(known),
        }
    }

    // Goes on after the pipeline that follows `&&`.
    #[tactic(auto, unfolding(crate::specs::Behind::linked))]
    fn pass_and(&mut self, claims: &Claims<'_>, pipe: &Pipe)
        ensures { walks.behind_in (setting claims.now) self.new ≡ spec.linked link.AndThen (walks.behind_in (setting claims.now) self.old) (walks.pipe_behind (setting claims.now) (facts_in (setting claims.now) self.old.zero) pipe.now) }
    {
        let mut before = *self;
        self.pass_pipe(claims, &before.zero, pipe);
        meet(&mut before.nonzero, &self.nonzero);
        self.nonzero = before.nonzero;
    }

    // Goes on after the pipeline that follows `||`.
    #[tactic(auto, unfolding(crate::specs::Behind::linked))]
    fn pass_or(&mut self, claims: &Claims<'_>, pipe: &Pipe)
        ensures { walks.behind_in (setting claims.now) self.new ≡ spec.linked link.OrElse (walks.behind_in (setting claims.now) self.old) (walks.pipe_behind (setting claims.now) (facts_in (setting claims.now) self.old.nonzero) pipe.now) }
    {
        let mut before = *self;
        self.pass_pipe(claims, &before.nonzero, pipe);
        meet(&mut before.zero, &self.zero);
        self.zero = before.zero;
    }

    /// Goes on after the pipeline that follows `&&` or `||`.
    #[tactic(auto, using(crate::proofs::BehindLemmas::link_out), unfolding(crate::specs::Behind::link_known))]
    pub fn pass_link(&mut self, claims: &Claims<'_>, link: Link, pipe: &Pipe)
        ensures { walks.behind_in (setting claims.now) self.new ≡ walks.link_left (setting claims.now) (walks.behind_in (setting claims.now) self.old) (link, pipe.now) }
    {
        match link {
            Link::AndThen => self.pass_and(claims, pipe),
            Link::OrElse => self.pass_or(claims, pipe),
        }
    }

    fn pass_links(&mut self, claims: &Claims<'_>, links: &[(Link, Pipe)])
        ensures { walks.behind_in (setting claims.now) self.new ≡ fold (walks.link_left (setting claims.now)) (walks.behind_in (setting claims.now) self.old) links.now }
    {
        for link in links {
            self.pass_link(claims, link.0, &link.1);
        }
    }

    // Goes on after an and-or list, before which this is known.
    #[tactic(auto, using(crate::proofs::BehindLemmas::and_or_out))]
    fn pass_and_or(&mut self, claims: &Claims<'_>, known: &Knowledge, list: &AndOr)
        ensures { walks.behind_in (setting claims.now) self.new ≡ walks.and_or_behind (setting claims.now) (facts_in (setting claims.now) known.now) list.now }
    {
        self.pass_pipe(claims, known, &list.first);
        self.pass_links(claims, list.rest.as_slice());
    }

    // An asynchronous item has status zero, and sets `!`.
    #[tactic(auto, using(crate::proofs::BehindLemmas::nothing_known))]
    fn start(&mut self, claims: &Claims<'_>)
        ensures { walks.behind_in (setting claims.now) self.new ≡ spec.either (gained (setting claims.now) (named (job ∷ [])) (facts_in (setting claims.now) self.old.zero)) NotReached }
    {
        gain_variable(claims, b"!", &mut self.zero);
        self.nonzero = Knowledge::NotReached;
    }

    /// Goes on after an item, if what is known at zero is known whatever the status was.
    #[tactic(auto, using(crate::proofs::BehindLemmas::foreground, crate::proofs::BehindLemmas::background))]
    pub fn pass_joined(&mut self, claims: &Claims<'_>, item: &Item)
        ensures { walks.behind_in (setting claims.now) self.new ≡ walks.behind_item (setting claims.now) (facts_in (setting claims.now) self.old.zero) item.now }
    {
        if item.background {
            self.start(claims);
        } else {
            let known = self.zero;
            self.pass_and_or(claims, &known, &item.list);
        }
    }

    // Goes on after an and-or list that begins with a command alone.
    #[tactic(auto, using(crate::proofs::BehindLemmas::lone_out))]
    fn pass_lone(&mut self, claims: &Claims<'_>, command: &Command, list: &AndOr)
        requires { lone_part (out-Pipe (out-AndOr list.now).first).parts ≡ Some command.now }
        ensures { (k : Facts) → walks.behind_in (setting claims.now) self.new ≡ walks.and_or_behind (setting claims.now) k list.now }
    {
        self.pass_command(claims, command.number, list.first.negated);
        self.pass_links(claims, list.rest.as_slice());
    }

    // Goes on after an item by what is known before it.
    #[tactic(auto, using(crate::proofs::BehindLemmas::item_out))]
    fn pass_any(&mut self, claims: &Claims<'_>, item: &Item)
        ensures { walks.behind_in (setting claims.now) self.new ≡ walks.item_left (setting claims.now) (walks.behind_in (setting claims.now) self.old) item.now }
    {
        self.join();
        self.pass_joined(claims, item);
    }

    // Goes on after an item that is no asynchronous one.
    #[tactic(auto, using(crate::proofs::BehindLemmas::foreground_out))]
    fn pass_foreground(&mut self, claims: &Claims<'_>, item: &Item)
        requires { (out-Item item.now).background ≡ false }
        ensures { walks.behind_in (setting claims.now) self.new ≡ walks.item_left (setting claims.now) (walks.behind_in (setting claims.now) self.old) item.now }
    {
        match lone_part(item.list.first.parts.as_slice()) {
            Some(command) => self.pass_lone(claims, command, &item.list),
            None => self.pass_any(claims, item),
        }
    }

    /// Goes on after an item, whatever the status before it.
    pub fn pass_item(&mut self, claims: &Claims<'_>, item: &Item)
        ensures { walks.behind_in (setting claims.now) self.new ≡ walks.item_left (setting claims.now) (walks.behind_in (setting claims.now) self.old) item.now }
    {
        if item.background {
            self.pass_any(claims, item);
        } else {
            self.pass_foreground(claims, item);
        }
    }

    // Goes on after an item, if what is known before it is the same after each status or not.
    // Reports the same of what is known after it. Then a pipeline of more commands changes nothing.
    fn pass_next(&mut self, claims: &Claims<'_>, item: &Item, is_same: bool) -> bool
        requires { is_same ≡ true → spec.IsSame (walks.behind_in (setting claims.now) self.old) }
        ensures passed { walks.behind_in (setting claims.now) self.new ≡ walks.item_left (setting claims.now) (walks.behind_in (setting claims.now) self.old) item.now }
        ensures same { result ≡ true → spec.IsSame (walks.behind_in (setting claims.now) self.new) }
    {
        let keeps = keeps(item);
        if !keeps || !is_same {
            self.pass_item(claims, item);
        }
        keeps
    }

    fn pass_items(&mut self, claims: &Claims<'_>, items: &[Item])
        ensures { walks.behind_in (setting claims.now) self.new ≡ fold (walks.item_left (setting claims.now)) (walks.behind_in (setting claims.now) self.old) items.now }
    {
        let mut is_same = false;
        for item in items {
            is_same = self.pass_next(claims, item, is_same);
        }
    }

    /// Goes on after items, by what the last of them claims that settles what is known after it.
    pub fn pass_all(&mut self, claims: &Claims<'_>, items: &[Item])
        ensures { walks.behind_in (setting claims.now) self.new ≡ fold (walks.item_left (setting claims.now)) (walks.behind_in (setting claims.now) self.old) items.now }
    {
        match settled_from(items) {
            Some(rest) => self.pass_items(claims, rest),
            None => self.pass_items(claims, items),
        }
    }
}

/// After a pipeline.
pub fn pipe_behind(claims: &Claims<'_>, known: &Knowledge, pipe: &Pipe) -> Behind
    ensures { walks.behind_in (setting claims.now) result ≡ walks.pipe_behind (setting claims.now) (facts_in (setting claims.now) known.now) pipe.now }
{
    let mut behind = Behind::nowhere();
    behind.pass_pipe(claims, known, pipe);
    behind
}

/// Whether what is known after an item depends on its own commands alone.
#[tactic(auto, unfolding(crate::specs::Walks::is_settled))]
pub fn is_settled(item: &Item) -> bool
    ensures { result ≡ walks.is_settled item.now }
{
    !item.background && lone_part(item.list.first.parts.as_slice()).is_some()
}

// Whether an item is a pipeline of more commands, and no more. Whatever its status, what is known
// after it is what was known before it.
fn keeps(item: &Item) -> bool
    ensures { result ≡ true → (x : Setting) (o : spec.Behind) → walks.item_left x o item.now ≡ spec.both (spec.in_any_case o) }
{
    if item.background || !item.list.rest.as_slice().is_empty() {
        return false;
    }
    lone_part(item.list.first.parts.as_slice()).is_none()
}

// The items from the last one on that settles what is known after it, if one does.
#[tactic(auto, using(crate::proofs::BehindLemmas::settled_there))]
fn settled_from(items: &[Item]) -> Option<&[Item]>
    ensures { IfSome result (λ rest. (x : Setting) (o p : spec.Behind) → fold (walks.item_left x) o rest.now ≡ fold (walks.item_left x) p items.now) }
{
    let mut from = items.len();
    while from > 0 {
        from -= 1;
        if is_settled(&items[from]) {
            return Some(&items[from..]);
        }
    }
    None
}

impl Behind {
    /// Goes on after a list, at whose start this is known; an empty one passes it on.
    #[tactic(auto, using(crate::proofs::BehindLemmas::script_out))]
    pub fn pass_script(&mut self, claims: &Claims<'_>, known: &Knowledge, list: &Script)
        ensures { walks.behind_in (setting claims.now) self.new ≡ walks.script_behind (setting claims.now) (spec.both (facts_in (setting claims.now) known.now)) list.now }
    {
        let items = list.items.as_slice();
        match settled_from(items) {
            Some(rest) => self.pass_items(claims, rest),
            None => {
                self.set_both(known);
                self.pass_items(claims, items);
            }
        }
    }
}
