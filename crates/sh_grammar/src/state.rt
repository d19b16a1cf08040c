//! Where a reader of commands is (XCU 2.10).
ghost use Rattle.std.specs.Prelude.{◌≡◌, ◌≢◌, ◌≤◌, ◌<◌, ◌+◌, [], ◌∷◌, ◌++◌, length, false, None, IfOk};
ghost use Rattle.std.specs.Option.{option_copied};
ghost use Rattle.sh_grammar.specs.States.{Lies, Stands, in_body, moved, substituted, waiting};
ghost use Rattle.sh_tree.specs.standard.language.Commands as commands;

use super::mark::Mark;
use super::ticks::Ticks;
use sh_bodies::Document;
use sh_scan::{blanks_at, lead_at};
use sh_tree::{Items, Lead, MAX_COMMANDS, MAX_NESTING, MAX_SCRIPT, Stage};
use std::alloc::{AllocError, Global};
use std::marker::Model;
use std::mem;

/// A token's first byte, and what came before it.
#[derive(Drop)]
pub struct State {
    pub at: u32,
    /// How many commands began before.
    pub count: u32,
    /// How many levels are open.
    pub depth: u8,
    /// Whether a compound command without redirections came last, after which a closing word is
    /// recognized (XCU 2.4).
    pub closed: bool,
    /// Whether what is before lets a command begin here.
    pub fresh: bool,
    /// The operator of the first here-document outside that waits for its body, so that no newline
    /// may come.
    pub outer: Option<u32>,
    /// Whether this is in the body of a here-document whose lines are joined.
    pub joins: bool,
    /// Whether tabs are stripped from the lines around.
    pub tabs: bool,
    /// Whether this is in a backquoted substitution, with whose closing backquote the text then
    /// ends.
    pub ticks: Ticks,
    /// The here-documents of this level that wait for their bodies.
    pub pending: Items<Mark>,
    /// The bodies of this level's here-documents, as far as they came.
    pub bodies: Items<Document>,
}

impl State {
    /// The operator of the first here-document of this level that waits.
    pub fn first_pending(&self) -> Option<u32>
        ensures { result ≡ waiting None self.now.pending }
    {
        match self.pending.as_slice() {
            [] => None,
            [mark, ..] => Some(mark.at),
        }
    }

    /// The operator of the first here-document that waits, those outside first.
    fn first_waiting(&self) -> Option<u32>
        ensures { result ≡ waiting self.now.outer self.now.pending }
    {
        match self.outer {
            Some(at) => Some(at),
            None => self.first_pending(),
        }
    }

    /// At the first token of commands that begin at or after `at`. So many levels are open there,
    /// and what came before is as here.
    #[tactic(auto, using(crate::proofs::SubstitutionLemmas::substituted_stands))]
    pub fn within(&self, alloc: Global, script: &[u8], at: u32, depth: u8, ticks: Ticks) -> State
        requires small { length script.now ≤ MAX_SCRIPT }
        requires ordered { self.now.at ≤ at }
        requires inside { at ≤ length script.now }
        requires lies { Lies script.now self.now }
        requires shallow { depth ≤ MAX_NESTING }
        ensures value { result ≡ substituted script.now at depth ticks self.now }
        ensures after { at ≤ result.at }
        ensures stands { Stands script.now result }
    {
        let first = blanks_at(script, at, self.joins);
        State {
            at: first,
            count: self.count,
            depth,
            closed: false,
            fresh: true,
            outer: self.first_waiting(),
            joins: self.joins,
            tabs: self.tabs,
            ticks,
            pending: Items::new(alloc),
            bodies: Items::new(alloc),
        }
    }

    /// Where the body of the here-document is read.
    pub fn in_document(&self, alloc: Global, mark: &Mark) -> State
        ensures { result ≡ in_body mark.now self.now }
    {
        State {
            at: self.at,
            count: self.count,
            depth: mark.depth,
            closed: false,
            fresh: true,
            outer: None,
            joins: !mark.quoted,
            tabs: self.tabs || mark.strip,
            ticks: Ticks::Outside,
            pending: Items::new(alloc),
            bodies: Items::new(alloc),
        }
    }
}

/// A state held by a pointer, so that the readers that are open take little of the stack. Contracts
/// see the state.
pub struct Cursor {
    state: Box<State>,
}

impl Model for Cursor {
    ghost use Rattle.std.specs.Coded.{codes};
    ghost use Rattle.sh_grammar.specs.declared.state.State.{State};
    ghost use Rattle.sh_tree.specs.contracts.tree.Part as part;

    ghost Value = { State };

    ghost coded = { Prim.hlevel (codes, part.the_row.coded) };

    ghost view = { λ c. c.state.value };
}

impl Drop for Cursor {
    // Inlined, it would take room for a state in each reader.
    #[inline(never)]
    fn drop(self) {
        let Cursor { state } = self;
        drop(state);
    }
}

impl Cursor {
    /// Where the state says.
    ///
    /// # Errors
    ///
    /// `AllocError` if a growth was refused.
    pub fn new(alloc: Global, state: State) -> Result<Cursor, AllocError>
        ensures { IfOk result (λ c. c ≡ state) }
    {
        Ok(Cursor {
            state: Box::new(alloc, state)?,
        })
    }

    /// The state.
    pub fn get(&self) -> &State
        ensures { result.now ≡ self.now }
    {
        &self.state
    }

    /// Where the token begins.
    pub fn at(&self) -> u32
        ensures { result ≡ self.now.at }
    {
        self.state.at
    }

    /// How many commands began before.
    pub fn count(&self) -> u32
        ensures { result ≡ self.now.count }
    {
        self.state.count
    }

    /// How many levels are open.
    pub fn depth(&self) -> u8
        ensures { result ≡ self.now.depth }
    {
        self.state.depth
    }

    /// What the token here is at the stage of a simple command.
    pub fn lead(&self, script: &[u8], stage: Stage) -> Lead
        requires small { length script.now ≤ MAX_SCRIPT }
        requires inside { self.now.at ≤ length script.now }
        ensures value { result ≡ commands.lead_at script.now stage self.now.at }
        ensures within { result ≢ Lead.End → self.now.at < length script.now }
    {
        lead_at(script, stage, self.state.at)
    }

    /// At the token at or after this place.
    #[tactic(auto, using(crate::proofs::BreakLemmas::settled_stands))]
    pub fn settled(self, script: &[u8]) -> Cursor
        requires small { length script.now ≤ MAX_SCRIPT }
        requires lies { Lies script.now self }
        ensures value { result ≡ moved script.now self.at self }
        ensures after { self.at ≤ result.at }
        ensures stands { Stands script.now result }
    {
        let here = self.get();
        let at = blanks_at(script, here.at, here.joins);
        let mut token = self;
        let state = token.state.as_mut();
        state.at = at;
        state.fresh = true;
        token
    }

    /// At the token at or after `at`.
    #[tactic(auto, using(crate::proofs::StateLemmas::lies_at))]
    pub fn next_from(self, script: &[u8], at: u32) -> Cursor
        requires small { length script.now ≤ MAX_SCRIPT }
        requires ordered { self.at ≤ at }
        requires inside { at ≤ length script.now }
        requires stands { Stands script.now self }
        ensures value { result ≡ moved script.now at self }
        ensures after { at ≤ result.at }
        ensures stands { Stands script.now result }
    {
        let mut behind = self;
        behind.state.as_mut().at = at;
        behind.settled(script)
    }

    /// At the token after so many bytes.
    pub fn next(self, script: &[u8], width: u32) -> Cursor
        requires small { length script.now ≤ MAX_SCRIPT }
        requires inside { self.at + width ≤ length script.now }
        requires stands { Stands script.now self }
        ensures value { result ≡ moved script.now (self.at + width) self }
        ensures after { self.at + width ≤ result.at }
        ensures stands { Stands script.now result }
    {
        let at = self.state.at + width;
        self.next_from(script, at)
    }

    /// After the first byte of one more command.
    pub fn counted(self) -> Cursor
        requires few { self.count < MAX_COMMANDS }
        ensures { result ≡ record self { count = self.count + 1 } }
    {
        let mut behind = self;
        behind.state.count += 1;
        behind
    }

    /// After an operator of a here-document and its delimiter.
    ///
    /// # Errors
    ///
    /// `AllocError` if a growth was refused.
    pub fn awaiting(self, mark: Mark) -> Result<Cursor, AllocError>
        ensures { IfOk result (λ v. v ≡ record self { pending = self.pending ++ mark ∷ [] }) }
    {
        let mut behind = self;
        behind.state.as_mut().pending.push(mark)?;
        Ok(behind)
    }

    /// After a body that has as many commands before its end, and the line that ends it, at `at`.
    ///
    /// # Errors
    ///
    /// `AllocError` if a growth was refused.
    pub fn with_document(
        self,
        document: Document,
        count: u32,
        at: u32,
    ) -> Result<Cursor, AllocError>
        ensures { IfOk result (λ v. v ≡ record self { at = at; count = count; bodies = self.bodies ++ document ∷ [] }) }
    {
        let mut behind = self;
        let state = behind.state.as_mut();
        state.at = at;
        state.count = count;
        state.bodies.push(document)?;
        Ok(behind)
    }

    /// After a newline, at `at`, and the here-documents whose bodies are there.
    pub fn on_line(self, alloc: Global, at: u32) -> (Items<Mark>, Cursor)
        ensures marks { result.0 ≡ self.pending }
        ensures line { result.1 ≡ record self { at = at; pending = [] } }
    {
        let mut line = self;
        let state = line.state.as_mut();
        state.at = at;
        let pending = mem::replace(&mut state.pending, Items::new(alloc));
        (pending, line)
    }

    /// The end of a level, and the bodies of its here-documents.
    pub fn ended(self, alloc: Global) -> (Items<Document>, Cursor)
        ensures bodies { result.0 ≡ self.bodies }
        ensures level { result.1 ≡ record self { closed = false; bodies = [] } }
    {
        let mut level = self;
        let state = level.state.as_mut();
        state.closed = false;
        let bodies = mem::replace(&mut state.bodies, Items::new(alloc));
        (bodies, level)
    }

    /// After so many commands.
    pub fn counting(self, count: u32) -> Cursor
        ensures { result ≡ record self { count = count } }
    {
        let mut behind = self;
        behind.state.count = count;
        behind
    }

    /// With these backquotes around.
    pub fn with_ticks(self, ticks: Ticks) -> Cursor
        ensures { result ≡ record self { ticks = ticks } }
    {
        let mut behind = self;
        behind.state.ticks = ticks;
        behind
    }

    /// One level deeper.
    pub fn lower(self) -> Cursor
        requires shallow { self.depth < MAX_NESTING }
        ensures { result ≡ record self { depth = self.depth + 1 } }
    {
        let mut inside = self;
        inside.state.depth += 1;
        inside
    }

    /// Where so many levels are open.
    pub fn at_depth(self, depth: u8) -> Cursor
        ensures { result ≡ record self { depth = depth } }
    {
        let mut outside = self;
        outside.state.depth = depth;
        outside
    }

    /// After a command.
    pub fn closing(self, closed: bool) -> Cursor
        ensures { result ≡ record self { closed = closed; fresh = false } }
    {
        let mut behind = self;
        let state = behind.state.as_mut();
        state.closed = closed;
        state.fresh = false;
        behind
    }
}
