//! What a certificate claims at each place of a script.
ghost use Rattle.std.specs.Prelude.{◌≡◌, ◌<◌, ◌-◌, ℕ, List, [], true, false, length, slice_get, map, position};
ghost use Rattle.std.specs.List.{list_all};
ghost use Rattle.std.specs.Option.{option_copied};
ghost use Rattle.std.specs.Str.{bytes_eq};
ghost use Rattle.sh_tree.specs.standard.Tree.{text_of};
ghost use Rattle.sh_runs.specs.Calls.{texts_with};
ghost use Rattle.sh_table.specs.WordTexts.{text_in};
ghost use Rattle.sh_domain.specs.Names.{number_of};
ghost use Rattle.sh_domain.specs.Slots as slots;
ghost use Rattle.sh_domain.specs.Views as views;
ghost use Rattle.sh_rules.specs.Settings.{known_at};
ghost use Rattle.sh_rules.specs.Walks.{facts_in, head_of, setting};
ghost use Rattle.sh_domain.specs.Facts.{within};
ghost use Rattle.sh_rules.specs.Settings.{certificate, claimed_at};
ghost use Rattle.sh_rules.specs.Places.{slot_of};
ghost use Rattle.sh_rules.specs.Tells.{claim_in};
ghost use Rattle.sh_runs.specs.standard.runs.Environment.{is_one_of};
ghost use Rattle.sh_domain.specs.Certificates.{in_byte_order, names_at};
ghost use Rattle.sh_domain.specs.Faults.{are_among};
ghost use Rattle.sh_domain.specs.KeptRows.{holds_at};
ghost use Rattle.sh_domain.specs.Knowledge.{AreNumbered};
ghost use Rattle.sh_tree.specs.standard.program.Syntax.{Text};
ghost use Rattle.sh_rules.specs.Asking.{one_function, one_variable};
ghost use Rattle.sh_rules.specs.Calls.{Returns};
ghost use Rattle.sh_rules.specs.Visits as visits;

use crate::claims::Claims;
use crate::place::Place;
use sh_domain::{Entry, Facts, FunctionEntry, Knowledge, Return, RowId, Rows};
use sh_table::WordText;
use sh_tree::Span;

impl Claims<'_> {
    /// The bytes of a span of the script.
    #[tactic(auto, unfolding(crate::specs::Walks::setting))]
    pub fn text(&self, span: Span) -> &[u8]
        ensures { result.now ≡ text_of (setting self.now).script span }
    {
        span.text(self.script)
    }

    /// The index of the function whose name is at a span, if it is one of the script.
    pub fn index_at(&self, name: Span) -> Option<usize>
        ensures { result ≡ number_of (setting self.now).functions (text_of (setting self.now).script name) }
    {
        self.calls.function_at(name)
    }

    // The facts round the command of a number.
    #[tactic(auto, unfolding(crate::specs::Walks::setting))]
    fn entry(&self, number: u32) -> Option<&Entry>
        ensures { option_copied result ≡ slice_get (setting self.now).kept.entries.items (number - 1) }
    {
        self.certificate
            .entries
            .get(number.saturating_sub(1) as usize)
    }

    // The facts at the head of the loop of a number.
    #[tactic(auto, unfolding(crate::specs::Walks::head_where, crate::specs::Walks::setting))]
    fn head_facts(&self, number: u32) -> Option<&Facts>
        ensures { option_copied result ≡ head_of (setting self.now).kept number }
    {
        match self.entry(number) {
            Some(_) => self.certificate.heads.get(&number.max(1)),
            None => None,
        }
    }

    // The facts round the function of a name.
    #[tactic(auto, unfolding(crate::specs::Walks::setting))]
    fn function(&self, name: &[u8]) -> Option<&FunctionEntry>
        ensures { option_copied result ≡ slots.entry_of (setting self.now).kept (setting self.now).functions name.now }
    {
        let place = self.calls.function_place(name)?;
        self.certificate.functions.get(place)
    }

    // The facts round the function whose name is at a span.
    #[tactic(auto, unfolding(crate::specs::Walks::setting))]
    fn function_at(&self, name: Span) -> Option<&FunctionEntry>
        ensures { option_copied result ≡ slots.entry_of (setting self.now).kept (setting self.now).functions (text_of (setting self.now).script name) }
    {
        let index = self.index_at(name)?;
        self.certificate.functions.get(index)
    }
}

impl Claims<'_> {
    /// The static texts of the words of a command, the command name's first.
    #[tactic(auto, using(crate::proofs::VisitLemmas::texts_read))]
    pub fn texts(&self, number: u32) -> &[WordText]
        ensures { map (text_in (setting self.now).script) result.now ≡ texts_with number (setting self.now).rows }
    {
        self.calls.texts(number)
    }

    /// Whether a command calls a function.
    #[tactic(auto, using(crate::proofs::VisitLemmas::call_read))]
    pub fn is_call(&self, number: u32) -> bool
        ensures { result ≡ visits.calls_at (setting self.now) number }
    {
        self.calls.callee(number).is_some()
    }
}

// What is claimed at each place, as the certificate keeps it.
impl Claims<'_> {
    // Before a command.
    #[tactic(auto, using(crate::proofs::ClaimLemmas::before_there, crate::proofs::ClaimLemmas::before_away))]
    fn before_facts(&self, number: u32) -> Facts
        ensures { claim_in (setting self.now) result ≡ claimed_at (setting self.now) (views.Before number) }
    {
        match self.entry(number) {
            Some(entry) => entry.before,
            None => Facts::NotReached,
        }
    }

    // After a command, if its status is zero.
    #[tactic(auto, using(crate::proofs::ClaimLemmas::zero_there, crate::proofs::ClaimLemmas::zero_away))]
    fn zero_facts(&self, number: u32) -> Facts
        ensures { claim_in (setting self.now) result ≡ claimed_at (setting self.now) (views.AfterZero number) }
    {
        match self.entry(number) {
            Some(entry) => entry.zero,
            None => Facts::NotReached,
        }
    }

    // After a command, if its status is another one.
    #[tactic(auto, using(crate::proofs::ClaimLemmas::nonzero_there, crate::proofs::ClaimLemmas::nonzero_away))]
    fn nonzero_facts(&self, number: u32) -> Facts
        ensures { claim_in (setting self.now) result ≡ claimed_at (setting self.now) (views.AfterNonzero number) }
    {
        match self.entry(number) {
            Some(entry) => entry.nonzero,
            None => Facts::NotReached,
        }
    }

    // At each turn of a loop.
    #[tactic(auto, using(crate::proofs::ClaimLemmas::head_there, crate::proofs::ClaimLemmas::head_away))]
    fn turn_facts(&self, number: u32) -> Facts
        ensures { claim_in (setting self.now) result ≡ claimed_at (setting self.now) (views.Head number) }
    {
        match self.head_facts(number) {
            Some(facts) => *facts,
            None => Facts::NotReached,
        }
    }

    // Where a function is entered.
    #[tactic(auto, using(crate::proofs::ClaimLemmas::entry_there, crate::proofs::ClaimLemmas::entry_away))]
    fn entry_facts(&self, name: &[u8]) -> Facts
        ensures { claim_in (setting self.now) result ≡ claimed_at (setting self.now) (views.Entry name.now) }
    {
        match self.function(name) {
            Some(entry) => entry.before,
            None => Facts::NotReached,
        }
    }

    // Where a function returns with status zero.
    #[tactic(auto, using(crate::proofs::ClaimLemmas::return_zero_there, crate::proofs::ClaimLemmas::return_zero_away))]
    fn return_zero_facts(&self, name: Span) -> Facts
        ensures { claim_in (setting self.now) result ≡ claimed_at (setting self.now) (views.ReturnsZero (text_of (setting self.now).script name)) }
    {
        match self.function_at(name) {
            Some(entry) => entry.zero,
            None => Facts::NotReached,
        }
    }

    // Where a function returns with another status.
    #[tactic(auto, using(crate::proofs::ClaimLemmas::return_nonzero_there, crate::proofs::ClaimLemmas::return_nonzero_away))]
    fn return_nonzero_facts(&self, name: Span) -> Facts
        ensures { claim_in (setting self.now) result ≡ claimed_at (setting self.now) (views.ReturnsNonzero (text_of (setting self.now).script name)) }
    {
        match self.function_at(name) {
            Some(entry) => entry.nonzero,
            None => Facts::NotReached,
        }
    }

    /// What is claimed at a place, as the certificate keeps it.
    pub fn facts_at(&self, place: Place<'_>) -> Facts
        ensures { claim_in (setting self.now) result ≡ claimed_at (setting self.now) (slot_of (setting self.now).script place.entry) }
    {
        match place {
            Place::Before(number) => self.before_facts(number),
            Place::Zero(number) => self.zero_facts(number),
            Place::Nonzero(number) => self.nonzero_facts(number),
            Place::Head(number) => self.turn_facts(number),
            Place::Entry(name) => self.entry_facts(name),
            Place::ReturnZero(name) => self.return_zero_facts(name),
            Place::ReturnNonzero(name) => self.return_nonzero_facts(name),
        }
    }
}

// What is known where a run comes to a place, by what is claimed there.
impl Claims<'_> {
    /// Has this be what is claimed before a command.
    #[tactic(auto, using(crate::proofs::ClaimLemmas::claim_known))]
    pub fn before_into(&self, number: u32, known: &mut Knowledge)
        ensures { facts_in (setting self.now) known.new ≡ known_at (setting self.now) (views.Before number) }
    {
        let facts = self.before_facts(number);
        known.claim(&self.certificate.rows, &facts);
    }

    /// Has this be what is claimed after a command, if its status is zero.
    #[tactic(auto, using(crate::proofs::ClaimLemmas::claim_known))]
    pub fn zero_into(&self, number: u32, known: &mut Knowledge)
        ensures { facts_in (setting self.now) known.new ≡ known_at (setting self.now) (views.AfterZero number) }
    {
        let facts = self.zero_facts(number);
        known.claim(&self.certificate.rows, &facts);
    }

    /// Has this be what is claimed after a command, if its status is another one.
    #[tactic(auto, using(crate::proofs::ClaimLemmas::claim_known))]
    pub fn nonzero_into(&self, number: u32, known: &mut Knowledge)
        ensures { facts_in (setting self.now) known.new ≡ known_at (setting self.now) (views.AfterNonzero number) }
    {
        let facts = self.nonzero_facts(number);
        known.claim(&self.certificate.rows, &facts);
    }

    /// What is claimed at each turn of a loop.
    #[tactic(auto, using(crate::proofs::ClaimLemmas::claim_known))]
    pub fn head(&self, number: u32) -> Knowledge
        ensures { facts_in (setting self.now) result ≡ known_at (setting self.now) (views.Head number) }
    {
        let facts = self.turn_facts(number);
        Knowledge::claimed(&self.certificate.rows, &facts)
    }

    /// What is claimed where a function is entered.
    #[tactic(auto, using(crate::proofs::ClaimLemmas::claim_known))]
    pub fn function_entry(&self, name: &[u8]) -> Knowledge
        ensures { facts_in (setting self.now) result ≡ known_at (setting self.now) (views.Entry name.now) }
    {
        let facts = self.entry_facts(name);
        Knowledge::claimed(&self.certificate.rows, &facts)
    }

    /// Whether all that is claimed by this fact is known.
    #[tactic(auto, using(crate::proofs::ClaimLemmas::claim_tested))]
    pub fn is_known(&self, facts: &Facts, known: &Knowledge) -> bool
        ensures { result ≡ within (claim_in (setting self.now) facts.now) (facts_in (setting self.now) known.now) }
    {
        known.includes(&self.certificate.rows, facts)
    }
}

// What a function drops.
impl Claims<'_> {
    /// Whether a function drops a variable.
    #[tactic(auto, using(crate::proofs::DropLemmas::variable_away))]
    pub fn drops_variable(&self, function: Span, name: &[u8]) -> bool
        ensures { result ≡ are_among (one_variable name.now) ((certificate (setting self.now)).drops (text_of (setting self.now).script function)) }
    {
        match self.function_at(function) {
            Some(entry) => entry
                .drops
                .has_variable(self.names, &self.certificate.rows, name),
            None => false,
        }
    }

    /// Whether a function drops a function.
    #[tactic(auto, using(crate::proofs::DropLemmas::function_away))]
    pub fn drops_function(&self, function: Span, name: &[u8]) -> bool
        ensures { result ≡ are_among (one_function name.now) ((certificate (setting self.now)).drops (text_of (setting self.now).script function)) }
    {
        match self.function_at(function) {
            Some(entry) => entry
                .drops
                .has_function(self.names, &self.certificate.rows, name),
            None => false,
        }
    }

    /// Whether a function drops all that another one drops.
    pub fn drops_like(&self, function: Span, callee: &[u8]) -> bool
        ensures { result ≡ are_among ((certificate (setting self.now)).drops callee.now) ((certificate (setting self.now)).drops (text_of (setting self.now).script function)) }
    {
        let rows = &self.certificate.rows;
        match self.function(callee) {
            Some(called) => match self.function_at(function) {
                Some(entry) => entry.drops.includes(rows, &called.drops),
                None => {
                    is_row_empty(rows, called.drops.vars)
                        && is_row_empty(rows, called.drops.functions)
                }
            },
            None => true,
        }
    }
}

// What a call of a function leaves.
impl Claims<'_> {
    /// What a call drops, and what is claimed where it returns with status zero, if the certificate
    /// has the function.
    #[tactic(auto, using(crate::proofs::ReturnLemmas::zero))]
    pub fn return_zero(&self, name: &[u8]) -> Option<Return>
        ensures { Returns (setting self.now) name.now (views.ReturnsZero name.now) result }
    {
        match self.function(name) {
            Some(entry) => Some(Return {
                drops: entry.drops,
                facts: entry.zero,
            }),
            None => None,
        }
    }

    /// What a call drops, and what is claimed where it returns with another status, if the
    /// certificate has the function.
    #[tactic(auto, using(crate::proofs::ReturnLemmas::nonzero))]
    pub fn return_nonzero(&self, name: &[u8]) -> Option<Return>
        ensures { Returns (setting self.now) name.now (views.ReturnsNonzero name.now) result }
    {
        match self.function(name) {
            Some(entry) => Some(Return {
                drops: entry.drops,
                facts: entry.nonzero,
            }),
            None => None,
        }
    }
}

// Whether no number below the count is in a row.
fn holds_none(rows: &Rows, id: RowId) -> bool
    ensures none { result ≡ true → (k : ℕ) → k < rows.now.count → holds_at rows.now.rows id.index k ≡ false }
    ensures some { result ≡ false → (k : ℕ) × (k < rows.now.count) × (holds_at rows.now.rows id.index k ≡ true) }
{
    for number in 0..rows.count() {
        if rows.has(id, number) {
            return false;
        }
    }
    true
}

// Whether a row has no names.
fn is_row_empty(rows: &Rows, id: RowId) -> bool
    ensures { (names : List Text) → AreNumbered names → rows.now.count ≡ length names → result ≡ list_all (is_one_of []) (names_at (in_byte_order names) rows.now id) }
{
    holds_none(rows, id)
}
