//! The counts after a simple command, and at the entry of the function that it calls
//! (XCU 2.9.1, 2.15).
ghost use Rattle.std.specs.Prelude.{◌≡◌, ◌≤◌, ℕ, false, List, None, Some, IfOk, IfSome, map, drop};
ghost use Rattle.sh_tree.specs.Lists.{elements_from};
ghost use Rattle.sh_tree.specs.standard.program.Syntax.{Word};
ghost use Rattle.sh_tree.specs.standard.program.Words.{static_of};
ghost use Rattle.sh_runs.specs.declared.kind.Kind.TheVariants as kind;
ghost use Rattle.sh_tree.specs.declared.known.KnownName.TheVariants as known;
ghost use Rattle.sh_table.specs.WordTexts.{text_in};
ghost use Rattle.sh_domain.specs.Operands.{first_number, total};
ghost use Rattle.sh_domain.specs.Table.{manner_of_name};
ghost use Rattle.sh_domain.specs.Table as table;
ghost use Rattle.sh_domain.specs.Views.{counted_by};
ghost use Rattle.sh_counts.specs.Equations.{made};
ghost use Rattle.sh_rules.specs.TextBounds.{behind_name};
ghost use Rattle.sh_rules.specs.Walks as walks;
ghost use Rattle.sh_tally.specs.Counts.{made_by, shift_step};
ghost use Rattle.sh_tally.specs.Walks.{AddsFailed, AddsManner, AddsSimple, names};

use crate::bounds::Tally;
use crate::places::{End, Part};
use crate::views::{After, Views};
use sh_counts::{Change, Equations};
use sh_operands::{count_behind, positional_at};
use sh_rules::Around;
use sh_rules::elements::is_redirected;
use sh_table::{Kind, WordText, kind_of};
use sh_tree::{Element, KnownName};
use sh_visits::{behind_name, first_number};
use std::alloc::AllocError;

// The words after the name of a simple command become the parameters, except the first so many.
#[tactic(auto, using(crate::proofs::SimpleLemmas::words_counted))]
fn words_of(elements: &[Element], skipped: usize, script: &[u8]) -> Change
    ensures { (m n : ℕ) → m ≤ n → counted_by (total (drop skipped (behind_name (elements_from script.now elements.now)))) m ≤ made result n }
{
    let total = count_behind(behind_name(elements), script, skipped);
    Change::Words {
        ones: total.ones,
        parameters: total.parameters,
    }
}

// So many parameters are gone. If it is not known how many, all may be.
#[tactic(auto, using(crate::proofs::SimpleLemmas::shift_counted))]
fn shift_of(texts: &[WordText], script: &[u8]) -> Change
    ensures { (ws : List Word) → map static_of ws ≡ map (text_in script.now) texts.now → (m n : ℕ) → m ≤ n → made_by (shift_step (first_number ws)) m ≤ made result n }
{
    match first_number(texts, script) {
        Some(gone) => Change::Shift(gone),
        None => Change::Words {
            ones: 0,
            parameters: 0,
        },
    }
}

// The name of a special built-in utility.
#[tactic(auto, unfolding(sh_domain::specs::Table::is_special))]
fn special_of(of: Kind) -> Option<KnownName>
    ensures some { IfSome result (λ name. of ≡ kind.Special name) }
    ensures none { result ≡ None → table.is_special of ≡ false }
{
    match of {
        Kind::Special(name) => Some(name),
        Kind::Cd => None,
        Kind::Command => None,
        Kind::False => None,
        Kind::Getopts => None,
        Kind::Read => None,
        Kind::Refused(_) => None,
        Kind::True => None,
        Kind::Utility => None,
    }
}

impl Tally<'_> {
    /// Adds bounds of the counts after a simple command, if this is known after its words, its
    /// values and its redirections.
    ///
    /// # Errors
    ///
    /// If a growth was refused.
    pub fn simple_bounds(
        &self,
        equations: &mut Equations,
        around: &Around<'_>,
        number: u32,
        elements: &[Element],
        left: Views,
    ) -> Result<(), AllocError>
        ensures { IfOk result (λ unit. AddsSimple self.now (walks.around self.now.script.now around.now) number (elements_from self.now.script.now elements.now) left equations.old equations.new) }
    {
        match self.table.texts(number) {
            [] => self.leaves(equations, number, After::both(left)),
            [name, operands @ ..] => match name.get(self.script) {
                Some(name) => self.named(equations, around, number, name, operands, elements, left),
                None => self.leaves(equations, number, After::both(left)),
            },
        }
    }

    // By the meaning of a name: a special built-in utility, a function of the script, or another
    // utility.
    fn named(
        &self,
        equations: &mut Equations,
        around: &Around<'_>,
        number: u32,
        name: &[u8],
        texts: &[WordText],
        elements: &[Element],
        left: Views,
    ) -> Result<(), AllocError>
        ensures { IfOk result (λ unit. (ws : List Word) → ws ≡ behind_name (elements_from self.now.script.now elements.now) → map static_of ws ≡ map (text_in self.now.script.now) texts.now
            → AddsManner self.now (walks.around self.now.script.now around.now) number (elements_from self.now.script.now elements.now) left (manner_of_name (names self.now) (Some name.now) ws) equations.old equations.new) }
    {
        let kind = kind_of(name);
        match special_of(kind) {
            Some(special) => {
                self.special(equations, around, number, special, texts, elements, left)
            }
            None => {
                if self.table.is_function(name) {
                    self.call(equations, around, number, name, elements, left)
                } else {
                    self.utility(equations, around, number, kind, elements, left)
                }
            }
        }
    }

    // If a redirection fails, what is known before it may be left.
    fn failed(
        &self,
        equations: &mut Equations,
        number: u32,
        elements: &[Element],
        known: Views,
    ) -> Result<(), AllocError>
        ensures { IfOk result (λ unit. AddsFailed self.now number (elements_from self.now.script.now elements.now) known equations.old equations.new) }
    {
        if is_redirected(elements) {
            self.bound(equations, Part::Nonzero.of(number), known, Change::NONE)
        } else {
            Ok(())
        }
    }

    // A call leaves the caller its parameters, if the function returns, if a utility may run in
    // place of it, or if a redirection fails.
    fn call(
        &self,
        equations: &mut Equations,
        around: &Around<'_>,
        number: u32,
        name: &[u8],
        elements: &[Element],
        left: Views,
    ) -> Result<(), AllocError>
        ensures { IfOk result (λ unit. AddsManner self.now (walks.around self.now.script.now around.now) number (elements_from self.now.script.now elements.now) left (table.Call name.now (behind_name (elements_from self.now.script.now elements.now))) equations.old equations.new) }
    {
        let change = words_of(elements, 0, self.script);
        self.bound_function(equations, End::Entered, name, left, change)?;
        let zero = Part::Zero.of(number);
        self.returned(equations, number, zero, End::Zero, name, left)?;
        let nonzero = Part::Nonzero.of(number);
        self.returned(equations, number, nonzero, End::Nonzero, name, left)?;
        self.failed(equations, number, elements, left)?;
        Ok(())
    }

    // `true` fails only if a redirection does.
    fn done(
        &self,
        equations: &mut Equations,
        around: &Around<'_>,
        number: u32,
        elements: &[Element],
        left: Views,
    ) -> Result<(), AllocError>
        ensures { IfOk result (λ unit. (ws : List Word) → AddsManner self.now (walks.around self.now.script.now around.now) number (elements_from self.now.script.now elements.now) left (table.Utility kind.True ws) equations.old equations.new) }
    {
        self.bound(equations, Part::Zero.of(number), left, Change::NONE)?;
        self.failed(equations, number, elements, left)?;
        Ok(())
    }

    // Adds bounds of the counts after a utility of a kind.
    fn utility(
        &self,
        equations: &mut Equations,
        around: &Around<'_>,
        number: u32,
        kind: Kind,
        elements: &[Element],
        left: Views,
    ) -> Result<(), AllocError>
        ensures { IfOk result (λ unit. (ws : List Word) → AddsManner self.now (walks.around self.now.script.now around.now) number (elements_from self.now.script.now elements.now) left (table.Utility kind ws) equations.old equations.new) }
    {
        match kind {
            Kind::Cd => self.leaves(equations, number, After::both(left)),
            Kind::Command => self.leaves(equations, number, After::both(left)),
            Kind::Refused(_) => self.leaves(equations, number, After::both(left)),
            Kind::Utility => self.leaves(equations, number, After::both(left)),
            Kind::True => self.done(equations, around, number, elements, left),
            Kind::False => self.bound(equations, Part::Nonzero.of(number), left, Change::NONE),
            Kind::Read => self.leaves(equations, number, After::both(left)),
            Kind::Getopts => self.leaves(equations, number, After::both(left)),
            Kind::Special(_) => Ok(()),
        }
    }

    // Adds bounds of the counts after a special built-in utility. Nothing runs after `return` and
    // `exit`, and a script with `.` or `eval` is refused. Sweeps lower what a `return` hands on.
    fn special(
        &self,
        equations: &mut Equations,
        around: &Around<'_>,
        number: u32,
        name: KnownName,
        texts: &[WordText],
        elements: &[Element],
        left: Views,
    ) -> Result<(), AllocError>
        ensures { IfOk result (λ unit. (ws : List Word) → ws ≡ behind_name (elements_from self.now.script.now elements.now) → map static_of ws ≡ map (text_in self.now.script.now) texts.now
            → AddsManner self.now (walks.around self.now.script.now around.now) number (elements_from self.now.script.now elements.now) left (table.Utility (kind.Special name) ws) equations.old equations.new) }
    {
        match name {
            KnownName::Colon => self.bound(equations, Part::Zero.of(number), left, Change::NONE),
            KnownName::Continue => self.continued(equations, around, number, texts, elements, left),
            KnownName::Break => self.broken(equations, around, number, texts, elements, left),
            KnownName::Set => self.set(equations, around, number, texts, elements, left),
            KnownName::Shift => self.shift(equations, around, number, texts, elements, left),
            KnownName::Exec => self.exec(equations, around, number, texts, elements, left),
            KnownName::Export => self.leaves(equations, number, After::both(left)),
            KnownName::Readonly => self.leaves(equations, number, After::both(left)),
            KnownName::Unset => self.leaves(equations, number, After::both(left)),
            KnownName::Times => self.leaves(equations, number, After::both(left)),
            KnownName::Trap => self.leaves(equations, number, After::both(left)),
            _ => Ok(()),
        }
    }

    // With an operand it may run a command in place of the shell, and then nothing comes after it.
    fn exec(
        &self,
        equations: &mut Equations,
        around: &Around<'_>,
        number: u32,
        texts: &[WordText],
        elements: &[Element],
        left: Views,
    ) -> Result<(), AllocError>
        ensures { IfOk result (λ unit. (ws : List Word) → map static_of ws ≡ map (text_in self.now.script.now) texts.now
            → AddsManner self.now (walks.around self.now.script.now around.now) number (elements_from self.now.script.now elements.now) left (table.Utility (kind.Special known.Exec) ws) equations.old equations.new) }
    {
        match texts {
            [] => self.leaves(equations, number, After::both(left)),
            [first, ..] => match first.get(self.script) {
                Some(_) => self.bound(equations, Part::Nonzero.of(number), left, Change::NONE),
                None => self.leaves(equations, number, After::both(left)),
            },
        }
    }

    fn shift(
        &self,
        equations: &mut Equations,
        around: &Around<'_>,
        number: u32,
        texts: &[WordText],
        elements: &[Element],
        left: Views,
    ) -> Result<(), AllocError>
        ensures { IfOk result (λ unit. (ws : List Word) → map static_of ws ≡ map (text_in self.now.script.now) texts.now
            → AddsManner self.now (walks.around self.now.script.now around.now) number (elements_from self.now.script.now elements.now) left (table.Utility (kind.Special known.Shift) ws) equations.old equations.new) }
    {
        let change = shift_of(texts, self.script);
        self.bound(equations, Part::Zero.of(number), left, change)?;
        self.bound(equations, Part::Nonzero.of(number), left, change)?;
        Ok(())
    }

    // If `set` fails, it may have set none of its words.
    fn set(
        &self,
        equations: &mut Equations,
        around: &Around<'_>,
        number: u32,
        texts: &[WordText],
        elements: &[Element],
        left: Views,
    ) -> Result<(), AllocError>
        ensures { IfOk result (λ unit. (ws : List Word) → ws ≡ behind_name (elements_from self.now.script.now elements.now) → map static_of ws ≡ map (text_in self.now.script.now) texts.now
            → AddsManner self.now (walks.around self.now.script.now around.now) number (elements_from self.now.script.now elements.now) left (table.Utility (kind.Special known.Set) ws) equations.old equations.new) }
    {
        match positional_at(texts, self.script) {
            None => self.leaves(equations, number, After::both(left)),
            Some(skipped) => {
                let change = words_of(elements, skipped, self.script);
                self.bound(equations, Part::Zero.of(number), left, change)?;
                self.bound(equations, Part::Nonzero.of(number), left, change)?;
                self.bound(equations, Part::Nonzero.of(number), left, Change::NONE)?;
                Ok(())
            }
        }
    }
}
