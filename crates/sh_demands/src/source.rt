//! A certificate, as the demands ask it.
ghost use Rattle.std.specs.Prelude.{◌≡◌, ℕ, List, ◌-◌, ◌++◌, length, map, option_map, slice_get, unwrap_or};
ghost use Rattle.sh_tree.specs.Lists.{elements_from};
ghost use Rattle.sh_tree.specs.standard.program.Syntax.{Text};
ghost use Rattle.sh_runs.specs.Calls as table;
ghost use Rattle.sh_table.specs.WordTexts.{text_in};
ghost use Rattle.sh_domain.specs.Certificates as claims;
ghost use Rattle.sh_domain.specs.Certificates.{claim_of};
ghost use Rattle.sh_domain.specs.Knowledge.{AreNumbered};
ghost use Rattle.sh_domain.specs.Operands.{no_names};
ghost use Rattle.sh_domain.specs.Slots.{entry_claim};
ghost use Rattle.sh_demands.specs.Drops.{all_told};
ghost use Rattle.sh_gains.specs.Knowing.{knowing};
ghost use Rattle.sh_demands.specs.Places.{function_drops, known_before, known_behind, source_of};
ghost use Rattle.sh_demands.specs.Reported.{AddsFirst};

use crate::blocks::Blocks;
use crate::drops::tell_dropped;
use crate::reports::Reports;
use sh_domain::{Certificate, Drops, Facts, Knowledge, Names};
use sh_gains::{Known, gain_operands};
use sh_table::{CallTable, WordText};
use sh_tree::Element;
use std::marker::Model;

/// A certificate, the names that it has numbers for, each with a number of its own, and the call
/// table of the script.
#[derive(Drop)]
pub struct Source<'a, 's> {
    blocks: Blocks<'a>,
    certificate: &'a Certificate,
    calls: &'a CallTable<'s>,
    script: &'a [u8],
}

impl<'a, 's> Model for Source<'a, 's> {
    ghost use Rattle.sh_demands.specs.Places as places;

    ghost Value = { places.Source };

    ghost view = { λ s. places.source_of s.blocks.names.now s.certificate.now s.calls.now };

    ghost invariant = { λ s. places.IsSource s.blocks.names.now s.calls.now s.script.now };
}

impl<'a, 's> Source<'a, 's> {
    /// A certificate over these names, of the script with this call table.
    pub fn new(
        names: &'a Names,
        certificate: &'a Certificate,
        calls: &'a CallTable<'s>,
        script: &'a [u8],
    ) -> Source<'a, 's>
        requires numbered { AreNumbered names.now }
        requires text { calls.now.script ≡ script.now }
        ensures { result ≡ source_of names.now certificate.now calls.now }
    {
        Source {
            blocks: Blocks::new(names),
            certificate,
            calls,
            script,
        }
    }

    /// What is known before the command of a number, from 1. No run comes to a command that there
    /// is not.
    pub fn before(&self, number: u32) -> Known<'a>
        ensures { knowing result ≡ known_before self.now number }
    {
        let facts = facts_before(self.certificate, number);
        Known {
            names: self.blocks.names,
            knowledge: Knowledge::claimed(&self.certificate.rows, &facts),
        }
    }

    /// What is known after the words of a simple command.
    pub fn behind(&self, number: u32, elements: &[Element], script: &[u8]) -> Known<'a>
        ensures { knowing result ≡ known_behind self.now number (elements_from script.now elements.now) }
    {
        let mut known = self.before(number);
        gain_operands(elements, script, known.names, &mut known.knowledge);
        known
    }

    /// The bytes of the script.
    pub fn script(&self) -> &'a [u8]
        ensures { result.now ≡ self.now.table.script }
    {
        self.script
    }

    /// The static texts of the words of a simple command, its name first.
    pub fn texts(&self, number: u32) -> &'a [WordText]
        ensures { map (text_in self.now.table.script) result.now ≡ table.texts_with number self.now.table.rows }
    {
        self.calls.texts(number)
    }

    /// The function that a command calls, by its number from 1.
    pub fn callee(&self, number: u32) -> Option<u32>
        ensures { result ≡ table.callee_at self.now.table number }
    {
        self.calls.callee(number)
    }

    /// The call table of the script.
    pub fn calls(&self) -> &'a CallTable<'s>
        ensures { result.now ≡ self.now.table }
    {
        self.calls
    }

    /// The names that the function of a number may drop, from 1.
    pub fn tell_function(&self, function: u32, at: u32, reports: &mut Reports)
        ensures { (start : ℕ) → AddsFirst start reports.old reports.new (λ ps. all_told (length ps) at ps ((function_drops self.now function).vars ++ (function_drops self.now function).functions)) }
    {
        match drops_at(self.certificate, function) {
            Some(drops) => {
                tell_dropped(&self.blocks, &self.certificate.rows, drops, at, reports)
            }
            None => (),
        }
    }
}

// What is claimed before the command of a number.
#[tactic(auto, unfolding(sh_domain::specs::Certificates::claim_of))]
fn facts_before(certificate: &Certificate, number: u32) -> Facts
    ensures { (order : List (ℕ × Text)) → claim_of order certificate.now.rows result ≡ entry_claim order certificate.now (λ e. e.before) number }
{
    match certificate.entries.get(number.saturating_sub(1) as usize) {
        Some(entry) => entry.before,
        None => Facts::NotReached,
    }
}

// What the function of a number may drop, if it is there.
fn drops_at(certificate: &Certificate, function: u32) -> Option<Drops>
    ensures { result ≡ option_map (λ e. e.drops) (slice_get certificate.now.functions.items (function - 1)) }
{
    match certificate
        .functions
        .get(function.saturating_sub(1) as usize)
    {
        Some(entry) => Some(entry.drops),
        None => None,
    }
}
