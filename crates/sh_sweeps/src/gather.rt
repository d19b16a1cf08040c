//! What is gathered of all that the flow rules require of a certificate.
ghost use Rattle.std.specs.Prelude.{◌≡◌, option_and_then, option_map};
ghost use Rattle.std.specs.Option.{option_copied};
ghost use Rattle.sh_domain.specs.Certificates.{drops_of, in_byte_order};
ghost use Rattle.sh_domain.specs.Knowledge.{AreNumbered, knowledge_facts};
ghost use Rattle.sh_domain.specs.Slots.{entry_of};
ghost use Rattle.sh_rules.specs.Asking.{one_function, one_variable};
ghost use Rattle.sh_rules.specs.Settings.{certificate};
ghost use Rattle.sh_rules.specs.Walks.{setting};
ghost use Rattle.sh_drafts.specs.Gathered.{fitting, fitting_place, is_at, is_number, next_of};
ghost use Rattle.sh_drafts.specs.Gathering as gathering;
ghost use Rattle.sh_drafts.specs.Numbers.{by_number, numbers_in};
ghost use Rattle.sh_drafts.specs.Spots.{place_at};
ghost use Rattle.sh_sweeps.specs.Asked.{IsNew, gathered_of};

use crate::slots::index_of;
use sh_domain::{Drops, FunctionEntry, Knowledge, Names, NumberSet};
use sh_drafts::sights::{add_name, add_row, meet_assured};
use sh_drafts::{Place, Sight, Spot, Target, fitting};
use sh_rules::Claims;

/// Whether a certificate keeps all that is asked, and the names that a function has to drop. Of a
/// place it has what is known there, if any run comes.
#[derive(Clone, Copy, Debug)]
pub struct Gather {
    pub kept: bool,
    pub target: Target,
    pub known: Option<Sight>,
    pub vars: NumberSet,
    pub functions: NumberSet,
    /// Of these others something was asked that is not kept.
    pub next: Target,
}

// The place, if there is one that a script may have.
fn fitting_place(spot: Option<Spot>) -> Option<Place>
    ensures { result ≡ option_and_then fitting_place (option_map place_at spot) }
{
    spot?.place()
}

// The index, if there is one that a script may have.
fn fitting_index(index: Option<usize>) -> Option<u16>
    ensures { result ≡ option_and_then fitting index }
{
    fitting(index?)
}

// The other place that is sought: this one, if it is one, unless it is passed over.
#[tactic(auto, unfolding(sh_drafts::specs::Gathered::next_of))]
fn other_place(is_passed: bool, spot: Option<Spot>, next: Place) -> Place
    ensures { result ≡ next_of is_passed (option_and_then fitting_place (option_map place_at spot)) next }
{
    if is_passed {
        return next;
    }
    fitting_place(spot).unwrap_or(next)
}

// The index of the other function that is sought: this one, if it is one, unless it is passed over.
#[tactic(auto, unfolding(sh_drafts::specs::Gathered::next_of))]
fn other_function(is_passed: bool, index: Option<usize>, next: u16) -> u16
    ensures { result ≡ next_of is_passed (option_and_then fitting index) next }
{
    if is_passed {
        return next;
    }
    fitting_index(index).unwrap_or(next)
}

/// Whether this is the place.
#[tactic(auto, unfolding(sh_drafts::specs::Gathered::is_at))]
pub fn is_place(spot: Option<Spot>, place: Place) -> bool
    ensures { result ≡ is_at (option_map place_at spot) place }
{
    match spot {
        Some(spot) => spot.is(place),
        None => false,
    }
}

// Whether this is the index.
#[tactic(auto, unfolding(sh_drafts::specs::Gathered::is_number))]
fn is_index(found: Option<usize>, index: u16) -> bool
    ensures { result ≡ is_number found index }
{
    match found {
        Some(found) => found == index as usize,
        None => false,
    }
}

// The facts round a function, if it is one of the script.
#[tactic(auto, unfolding(sh_rules::specs::Walks::setting))]
fn entry_in<'a>(claims: &'a Claims<'_>, name: &[u8]) -> Option<&'a FunctionEntry>
    ensures { option_copied result ≡ entry_of (setting claims.entry.now).kept (setting claims.entry.now).functions name.now }
{
    let index = index_of(claims, name)?;
    claims.certificate.functions.get(index)
}

impl Gather {
    /// Nothing was asked yet.
    #[tactic(auto, unfolding(sh_drafts::specs::Kept::seen_of))]
    pub fn new(target: Target) -> Gather
        ensures { IsNew target result }
    {
        Gather {
            kept: true,
            target,
            known: None,
            vars: NumberSet::new(),
            functions: NumberSet::new(),
            next: target,
        }
    }

    /// Something is asked of a place, which is kept or not; says whether this is the one that is
    /// sought.
    #[tactic(auto, unfolding(crate::specs::Asked::gathered_of))]
    pub fn see_place(&mut self, spot: Option<Spot>, is_kept: bool) -> bool
        ensures kept { gathered_of self.new ≡ gathering.tested_at (option_map place_at spot) is_kept (gathered_of self.old) }
        ensures here { result ≡ is_at (option_map place_at spot) (gathered_of self.old).place }
    {
        let is_here = is_place(spot, self.target.place);
        self.kept &= is_kept;
        self.next.place = other_place(is_kept | is_here, spot, self.next.place);
        is_here
    }

    /// Something is asked of the function of an index, which is kept or not; says whether this is
    /// the one that is sought.
    #[tactic(auto, unfolding(crate::specs::Asked::gathered_of))]
    pub fn see_function(&mut self, index: Option<usize>, is_kept: bool) -> bool
        ensures kept { gathered_of self.new ≡ gathering.tested_by index is_kept (gathered_of self.old) }
        ensures here { result ≡ is_number index (gathered_of self.old).function }
    {
        let is_here = is_index(index, self.target.function);
        self.kept &= is_kept;
        self.next.function = other_function(is_kept | is_here, index, self.next.function);
        is_here
    }

    /// This is known at the place too.
    pub fn meet(&mut self, names: &Names, known: &Knowledge)
        requires { AreNumbered names.now }
        ensures { gathered_of self.new ≡ gathering.met (by_number names.now (knowledge_facts names.now known.now)) (gathered_of self.old) }
    {
        match known {
            Knowledge::NotReached => {}
            Knowledge::Known(assured) => {
                meet_assured(&mut self.known, names, assured);
            }
        }
    }

    /// The function has to drop a variable.
    pub fn lose_variable(&mut self, names: &Names, name: &[u8])
        requires { AreNumbered names.now }
        ensures { gathered_of self.new ≡ gathering.with_sets (numbers_in names.now (one_variable name.now)) (gathered_of self.old) }
    {
        add_name(&mut self.vars, names, name);
    }

    /// The function has to drop a function.
    pub fn lose_function(&mut self, names: &Names, name: &[u8])
        requires { AreNumbered names.now }
        ensures { gathered_of self.new ≡ gathering.with_sets (numbers_in names.now (one_function name.now)) (gathered_of self.old) }
    {
        add_name(&mut self.functions, names, name);
    }

    // The function has to drop the names of these rows.
    fn lose(&mut self, claims: &Claims<'_>, drops: Drops)
        ensures { gathered_of self.new ≡ gathering.with_sets (numbers_in (setting claims.now).names (drops_of (in_byte_order (setting claims.now).names) (setting claims.now).kept.rows drops)) (gathered_of self.old) }
    {
        add_row(&mut self.vars, &claims.certificate.rows, drops.vars);
        add_row(
            &mut self.functions,
            &claims.certificate.rows,
            drops.functions,
        );
    }

    /// The function has to drop all that a function drops which it calls.
    pub fn lose_like(&mut self, claims: &Claims<'_>, callee: &[u8])
        ensures { gathered_of self.new ≡ gathering.with_sets (numbers_in (setting claims.now).names ((certificate (setting claims.now)).drops callee.now)) (gathered_of self.old) }
    {
        match entry_in(claims, callee) {
            Some(entry) => self.lose(claims, entry.drops),
            None => {}
        }
    }
}
