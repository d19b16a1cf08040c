//! The builder of a word.
mod arithmetic;
mod faults;
mod operations;
mod parts;
mod signs;
mod state;
mod tokens;

ghost use Rattle.std.specs.Prelude.{◌≡◌, ◌≤◌, ℕ, List, None, Some, Ok, Err, length, IfErr, IfOk, OnOk, MatchResult};
ghost use Rattle.sh_tree.specs.declared.refusal.Refusal as refusal;
ghost use Rattle.sh_tree.specs.declared.tree.CommandStyle as style;
ghost use Rattle.sh_words.specs.Builders.{Goes, IsInside, IsSoundIn, inside_of, refused, text_of};
ghost use Rattle.sh_words.specs.Clauses.{Runs, Steps, Waits};
ghost use Rattle.sh_words.specs.Faults.{IsReported};
ghost use Rattle.sh_words.specs.Rest.{Left};
ghost use Rattle.sh_words.specs.Sound.{IsSound, RunMoves, StepMoves, StepSound, StepWorks, TakesParts, TakesWord};
ghost use Rattle.sh_words.specs.Starts.{IsStart};
ghost use Rattle.sh_words.specs.States.{fed, started};

use self::faults::reported;
use crate::frames::{Focus, Frame, Holder};
use crate::mode::Mode;
use crate::stack::Stack;
use sh_scan::in_word;
use sh_tree::{CommandStyle, Fault, Items, MAX_SCRIPT, Part, Refusal, Script, Span, Word};
use std::alloc::{AllocError, Global};
use std::mem;

/// What a builder answers.
#[derive(Drop)]
pub enum Next {
    /// The word.
    Done(Word),
    /// A command substitution (XCU 2.6.3). Its commands are read from `at` on, and handed back by
    /// `resume`.
    Inner {
        /// The offset after its `$(` or its backquote.
        at: u32,
        /// How many levels are open in it.
        depth: u8,
        /// What closes it: a `)`, or the next backquote, with which the text of its commands ends.
        style: CommandStyle,
        /// Whether it is read as in double quotes.
        quoted: bool,
    },
}

/// A word that is being read (XCU 2.2, 2.6).
#[derive(Drop)]
pub struct WordBuilder {
    alloc: Global,
    mode: Mode,
    /// Where the word begins.
    begin: u32,
    /// How many levels are open there.
    base: u8,
    at: u32,
    depth: u8,
    focus: Focus,
    holder: Holder,
    frames: Stack<Frame>,
    /// As `start` has it.
    inside: Option<bool>,
    failed: Option<Refusal>,
}

impl WordBuilder {
    /// A word of the mode that begins at `at`, with so many levels open.
    ///
    /// `inside` is `Some` in a text that ends with the backquote that closes the commands around
    /// the word. It has whether these are in double quotes. If something is open before that
    /// backquote, `run` reports the backquote.
    ///
    /// # Errors
    ///
    /// None: nothing grows yet.
    pub fn start(
        alloc: Global,
        mode: Mode,
        depth: u8,
        at: u32,
        inside: Option<bool>,
    ) -> Result<WordBuilder, AllocError>
        ensures starts { (w : WordBuilder) × (result ≡ Ok w) × IsStart w mode depth at }
        ensures inside { IfOk result (λ w. inside_of w ≡ inside) }
    {
        Ok(WordBuilder {
            alloc,
            mode,
            begin: at,
            base: depth,
            at,
            depth,
            focus: Focus::Start,
            holder: Holder::Parts {
                context: in_word(at),
                prior: 0,
                parts: Items::new(alloc),
            },
            frames: Stack::new(alloc),
            inside,
            failed: None,
        })
    }

    /// Reads on in the script, up to the word's end or to commands in it.
    ///
    /// # Errors
    ///
    /// `Syntax` and `LeftOut` if no word of the mode is there, whatever the commands in it are.
    /// `TooDeep` if none is within the limit. `Memory` if a growth was refused. After a refusal it
    /// answers the same one again. If something is open before the backquote that closes the
    /// commands around, that backquote is `LeftOut`.
    pub fn run(&mut self, script: &[u8]) -> Result<Next, Refusal>
        requires small { length script.now ≤ MAX_SCRIPT }
        requires inside { Goes self.old → IsInside script.now self.old }
        requires sound { Goes self.old → IsSoundIn script.now self.old }
        ensures runs { Goes self.old → Runs (text_of script.now self.old) (Left (text_of script.now self.old) self.old) self.new result }
        ensures moves { RunMoves (text_of script.now self.old) self.old self.new result }
        ensures takes { TakesWord (text_of script.now self.old) self.old self.new result }
        ensures again { (e : refusal.Refusal) → refused self.old ≡ Some e → (result ≡ Err e) × (self.new ≡ self.old) }
        ensures told { Goes self.old → IfErr result (IsReported (inside_of self.old) (text_of script.now self.old)) }
        ensures fails { IfErr result (λ e. refused self.new ≡ Some e) }
    {
        if let Some(refusal) = self.failed {
            return Err(refusal);
        }
        let inside = self.inside;
        let seen = self.mode.seen(script);
        match self.advance(seen) {
            Ok(next) => Ok(next),
            Err(found) => {
                let refusal = reported(inside, seen, found);
                self.failed = Some(refusal);
                Err(refusal)
            }
        }
    }

    /// Takes the commands that were asked for, which end before the `)` or the backquote that ends
    /// at `end`.
    ///
    /// # Errors
    ///
    /// `Memory` if a growth was refused, and what was refused before.
    pub fn resume(&mut self, inner: Script, end: u32) -> Result<(), Refusal>
        requires asked { Goes self.old → (start : ℕ) × (s : style.CommandStyle) × Waits self.old start s }
        ensures gives { (start : ℕ) (s : style.CommandStyle) → Waits self.old start s → Goes self.old → MatchResult result (λ _. self.new ≡ fed self.old start s inner end) (λ e. e ≡ Refusal.Memory) }
        ensures again { (e : refusal.Refusal) → refused self.old ≡ Some e → (result ≡ Err e) × (self.new ≡ self.old) }
        ensures sound { (b : List ℕ) → end ≤ length b → IsSound b self.old → OnOk result (IsSound b self.new) }
        ensures fails { IfErr result (λ e. refused self.new ≡ Some e) }
    {
        if let Some(refusal) = self.failed {
            return Err(refusal);
        }
        let Focus::Commands(start, style) = &self.focus else {
            unreachable!()
        };
        let span = Span { start: *start, end };
        let part = Part::Command(*style, span, inner);
        match self.give(0, part, end) {
            Ok(()) => Ok(()),
            Err(refusal) => {
                self.failed = Some(refusal);
                Err(refusal)
            }
        }
    }

    fn advance(&mut self, script: &[u8]) -> Result<Next, Refusal>
        requires small { length script.now ≤ MAX_SCRIPT }
        requires inside { self.old.at ≤ length script.now }
        requires sound { IsSound script.now self.old }
        ensures runs { Runs script.now (Left script.now self.old) self.new result }
        ensures moves { RunMoves script.now self.old self.new result }
        ensures takes { TakesWord script.now self.old self.new result }
    {
        loop {
            if let Some(next) = self.step(script)? {
                return Ok(next);
            }
        }
    }

    /// One turn.
    fn step(&mut self, script: &[u8]) -> Result<Option<Next>, Refusal>
        requires small { length script.now ≤ MAX_SCRIPT }
        requires inside { self.old.at ≤ length script.now }
        requires sound { IsSound script.now self.old }
        ensures keeps { Steps script.now (Left script.now self.old) self.new result }
        ensures moves { StepMoves script.now self.old self.new result }
        ensures sound { StepSound script.now result self.new }
        ensures works { StepWorks script.now self.old self.new result }
        ensures starts { self.old.focus ≡ Focus.Start → (result ≡ Ok None) × (self.new ≡ started script.now self.old) }
        ensures takes { self.old.focus ≡ Focus.Parts → TakesParts script.now self.old self.new result }
    {
        match mem::replace(&mut self.focus, Focus::Parts) {
            Focus::Start => {
                self.start_step(script);
                Ok(None)
            }
            Focus::Parts => self.parts_step(script),
            Focus::Expression => self.expression_step(script),
            Focus::Conditional => {
                self.conditional_step()?;
                Ok(None)
            }
            Focus::Level(level) => self.level_step(script, level),
            Focus::Have(expr) => self.have_step(script, expr),
            Focus::Commands(start, _) => Err(Refusal::Syntax(Fault::OpenSubstitution, start)),
        }
    }
}
