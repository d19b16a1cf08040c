//! What is known at a place of a script: sets of names that are on the stack and take no memory.
ghost use Rattle.std.specs.Prelude.{◌≡◌, ◌≤◌, ◌-◌, ℕ, List, [], ◌∷◌, true, false, not, length, codes};
ghost use Rattle.std.specs.List.{list_all};
ghost use Rattle.std.specs.Str.{bytes_eq};
ghost use Rattle.sh_tree.specs.standard.program.Syntax.{Text};
ghost use Rattle.sh_runs.specs.standard.runs.Environment.{is_one_of};
ghost use Rattle.sh_runs.specs.standard.runs.Worlds.{start_names};
ghost use Rattle.sh_domain.specs.declared.certificate.Facts.TheVariants as fact;
ghost use Rattle.sh_domain.specs.Facts as spec;
ghost use Rattle.sh_domain.specs.Faults.{are_among};
ghost use Rattle.sh_domain.specs.Gains.{with_gains, named};
ghost use Rattle.sh_domain.specs.Views as views;
ghost use Rattle.sh_domain.specs.Certificates.{claim_of, drops_of, in_byte_order, names_at};
ghost use Rattle.sh_domain.specs.Knowledge.{AreNumbered, among, assured_facts, contains, knowledge_facts};
ghost use Rattle.sh_domain.specs.NumberSets.{numbers_of};
ghost use Rattle.sh_domain.specs.Parameters.{with_parameters_of};

use crate::certificate::{Drops, Facts};
use crate::names::Names;
use crate::number_set::NumberSet;
use crate::policy::Policy;
use crate::rows::{RowId, Rows};

/// What is surely there: variables that are set, functions that are defined, and so many positional
/// parameters at least.
#[derive(Clone, Copy, Debug, PartialEq, Eq)]
pub struct Assured {
    vars: NumberSet,
    functions: NumberSet,
    args: u16,
}

/// What is known at a place of a script.
#[derive(Clone, Copy, Debug, PartialEq, Eq)]
pub enum Knowledge {
    /// No run comes there, so anything may be claimed.
    NotReached,
    /// What each run has that comes there.
    Known(Assured),
}

/// What a certificate claims of a call: the names that it may drop, and what is known where the
/// function returns.
#[derive(Clone, Copy, Debug, PartialEq, Eq)]
pub struct Return {
    pub drops: Drops,
    pub facts: Facts,
}

impl Assured {
    /// The variables that are set.
    pub fn vars(&self) -> &NumberSet
        ensures { result.now ≡ self.now.vars }
    {
        &self.vars
    }

    /// The functions that are defined.
    pub fn functions(&self) -> &NumberSet
        ensures { result.now ≡ self.now.functions }
    {
        &self.functions
    }

    /// So many positional parameters at least.
    pub fn args(&self) -> u16
        ensures { result ≡ self.now.args }
    {
        self.args
    }

    /// Whether all that a certificate claims by a fact is assured.
    pub fn includes(&self, rows: &Rows, facts: &Facts) -> bool
        ensures { (names : List Text) → AreNumbered names → rows.now.count ≡ length names
            → result ≡ spec.within (claim_of (in_byte_order names) rows.now facts.now) (assured_facts names self.now) }
    {
        match facts {
            Facts::NotReached => false,
            Facts::Known {
                vars,
                functions,
                args,
            } => {
                self.vars.includes(rows, *vars)
                    && self.functions.includes(rows, *functions)
                    && *args <= self.args
            }
        }
    }

    // Nothing.
    fn none() -> Assured
        ensures vars { (k : ℕ) → numbers_of result.vars k ≡ false }
        ensures functions { (k : ℕ) → numbers_of result.functions k ≡ false }
    {
        Assured {
            vars: NumberSet::new(),
            functions: NumberSet::new(),
            args: 0,
        }
    }

    // Nothing becomes the variables and the functions of these rows, and so many positional
    // parameters.
    fn add_rows(&mut self, rows: &Rows, vars: RowId, functions: RowId, args: u16)
        requires vars { (k : ℕ) → numbers_of self.old.vars k ≡ false }
        requires functions { (k : ℕ) → numbers_of self.old.functions k ≡ false }
        ensures { (names : List Text) → AreNumbered names → assured_facts names self.new ≡ spec.facts (claim_of (in_byte_order names) rows.now (fact.Known vars functions args)) }
    {
        self.vars.join_row(rows, vars);
        self.functions.join_row(rows, functions);
        self.args = args;
    }

    // What both assure.
    fn meet(&mut self, other: &Assured)
        ensures { (names : List Text) → assured_facts names self.new ≡ spec.meet (assured_facts names self.old) (assured_facts names other.now) }
    {
        self.vars.meet(&other.vars);
        self.functions.meet(&other.functions);
        self.args = self.args.min(other.args);
    }

    // Becomes what a function leaves that was surely called: what it does not drop, and what is
    // claimed of its return. It is without the prefix names that were not set before.
    fn pass_return(
        &mut self,
        rows: &Rows,
        drops: &Drops,
        vars: RowId,
        functions: RowId,
        prefixes: &NumberSet,
    )
        ensures { (names before : List Text) (args : ℕ) → AreNumbered names
            → ((t : Text) → is_one_of names t ≡ true → contains names prefixes.now t ≡ is_one_of before t)
            → assured_facts names self.new
            ≡ views.returned (drops_of (in_byte_order names) rows.now drops.now) before
            (spec.facts (claim_of (in_byte_order names) rows.now (fact.Known vars functions args)))
            (contains names self.old.vars) (contains names self.old.functions) self.old.args }
    {
        let mut lost = *prefixes;
        lost.remove(&self.vars);
        self.vars.remove_row(rows, drops.vars);
        self.vars.join_row(rows, vars);
        self.vars.remove(&lost);
        self.functions.remove_row(rows, drops.functions);
        self.functions.join_row(rows, functions);
    }

    // Becomes what is left if a function or a utility of its name was called: what the function
    // does not drop. If the name is `getopts`, OPTARG is not left.
    fn pass_either(&mut self, names: &Names, function: &[u8], rows: &Rows, drops: &Drops)
        ensures { AreNumbered names.now
            → assured_facts names.now self.new
            ≡ views.left (drops_of (in_byte_order names.now) rows.now drops.now) function.now
            (contains names.now self.old.vars) (contains names.now self.old.functions) self.old.args }
    {
        let mut vars = self.vars;
        vars.remove_row(rows, drops.vars);
        if is_getopts(function) {
            vars.remove_name(names, b"OPTARG");
        }
        self.vars = vars;
        self.functions.remove_row(rows, drops.functions);
    }
}

impl Knowledge {
    /// What is known where a script starts, of its names.
    pub fn start(names: &Names, policy: &Policy) -> Knowledge
        ensures { knowledge_facts names.now result ≡ among names.now (spec.start_facts policy.now) }
    {
        let mut vars = NumberSet::new();
        vars.add_name(names, b"IFS");
        vars.add_name(names, b"OPTIND");
        vars.add_name(names, b"PPID");
        vars.add_names(names, policy.names());
        Knowledge::Known(Assured {
            vars,
            functions: NumberSet::new(),
            args: policy.args(),
        })
    }

    /// What a certificate claims by a fact.
    pub fn claimed(rows: &Rows, facts: &Facts) -> Knowledge
        ensures { (names : List Text) → AreNumbered names → knowledge_facts names result ≡ spec.facts (claim_of (in_byte_order names) rows.now facts.now) }
    {
        let mut known = Knowledge::NotReached;
        known.claim(rows, facts);
        known
    }

    /// Becomes what a certificate claims by a fact.
    pub fn claim(&mut self, rows: &Rows, facts: &Facts)
        ensures { (names : List Text) → AreNumbered names → knowledge_facts names self.new ≡ spec.facts (claim_of (in_byte_order names) rows.now facts.now) }
    {
        match facts {
            Facts::NotReached => *self = Knowledge::NotReached,
            Facts::Known {
                vars,
                functions,
                args,
            } => self.set_rows(rows, *vars, *functions, *args),
        }
    }

    // Becomes the variables and the functions of these rows, and so many positional parameters. It
    // is filled in place, since a copy takes longer.
    #[tactic(auto, unfolding(crate::specs::Knowledge::knowledge_facts))]
    fn set_rows(&mut self, rows: &Rows, vars: RowId, functions: RowId, args: u16)
        ensures { (names : List Text) → AreNumbered names → knowledge_facts names self.new ≡ spec.facts (claim_of (in_byte_order names) rows.now (fact.Known vars functions args)) }
    {
        *self = Knowledge::Known(Assured::none());
        match self {
            Knowledge::NotReached => {}
            Knowledge::Known(assured) => assured.add_rows(rows, vars, functions, args),
        }
    }

    /// Whether all that a certificate claims by a fact is known.
    #[tactic(auto, unfolding(crate::specs::Knowledge::knowledge_facts, crate::specs::Facts::within))]
    pub fn includes(&self, rows: &Rows, facts: &Facts) -> bool
        ensures { (names : List Text) → AreNumbered names → rows.now.count ≡ length names
            → result ≡ spec.within (claim_of (in_byte_order names) rows.now facts.now) (knowledge_facts names self.now) }
    {
        match self {
            Knowledge::NotReached => true,
            Knowledge::Known(assured) => assured.includes(rows, facts),
        }
    }

    /// Whether some run comes here.
    #[tactic(auto, unfolding(crate::specs::Knowledge::knowledge_facts, crate::specs::Facts::claims))]
    pub fn is_reached(&self) -> bool
        ensures { (names : List Text) → result ≡ not (spec.claims (knowledge_facts names self.now) spec.Nowhere) }
    {
        match self {
            Knowledge::NotReached => false,
            Knowledge::Known(_) => true,
        }
    }

    /// Whether a variable is surely set. If no run comes, each is.
    #[tactic(auto, unfolding(crate::specs::Knowledge::knowledge_facts, crate::specs::Facts::claims))]
    pub fn has_variable(&self, names: &Names, name: &[u8]) -> bool
        ensures { result ≡ spec.claims (knowledge_facts names.now self.now) (spec.Variable name.now) }
    {
        match self {
            Knowledge::NotReached => true,
            Knowledge::Known(assured) => assured.vars.has_name(names, name),
        }
    }

    /// Whether a function is surely defined.
    #[tactic(auto, unfolding(crate::specs::Knowledge::knowledge_facts, crate::specs::Facts::claims))]
    pub fn has_function(&self, names: &Names, name: &[u8]) -> bool
        ensures { result ≡ spec.claims (knowledge_facts names.now self.now) (spec.Function name.now) }
    {
        match self {
            Knowledge::NotReached => true,
            Knowledge::Known(assured) => assured.functions.has_name(names, name),
        }
    }

    /// Whether there are so many positional parameters.
    #[tactic(auto, unfolding(crate::specs::Knowledge::knowledge_facts, crate::specs::Facts::claims))]
    pub fn has_args(&self, count: u16) -> bool
        ensures { (names : List Text) → result ≡ spec.claims (knowledge_facts names self.now) (spec.Parameters count) }
    {
        match self {
            Knowledge::NotReached => true,
            Knowledge::Known(assured) => count <= assured.args,
        }
    }

    /// A variable was set.
    #[tactic(auto, unfolding(crate::specs::Knowledge::knowledge_facts, crate::specs::Knowledge::among, crate::specs::Gains::with_gains))]
    pub fn gain(&mut self, names: &Names, name: &[u8])
        ensures { knowledge_facts names.now self.new ≡ among names.now (with_gains (named (name.now ∷ [])) (knowledge_facts names.now self.old)) }
    {
        match self {
            Knowledge::NotReached => {}
            Knowledge::Known(assured) => assured.vars.add_name(names, name),
        }
    }

    /// There are so many positional parameters at least.
    #[tactic(auto, unfolding(crate::specs::Knowledge::knowledge_facts, crate::specs::Gains::with_gains))]
    pub fn gain_args(&mut self, count: u16)
        ensures { (names : List Text) → knowledge_facts names self.new ≡ with_gains (record { names = []; args = count }) (knowledge_facts names self.old) }
    {
        match self {
            Knowledge::NotReached => {}
            Knowledge::Known(assured) => assured.args = assured.args.max(count),
        }
    }

    /// A function was defined.
    #[tactic(auto, unfolding(crate::specs::Knowledge::knowledge_facts, crate::specs::Knowledge::among, crate::specs::Views::step, crate::specs::Views::where_known))]
    pub fn define(&mut self, names: &Names, function: &[u8])
        ensures { (c : views.Certificate) → knowledge_facts names.now self.new ≡ among names.now (views.step c (views.Define function.now) (knowledge_facts names.now self.old)) }
    {
        match self {
            Knowledge::NotReached => {}
            Knowledge::Known(assured) => assured.functions.add_name(names, function),
        }
    }

    /// A variable may be gone.
    #[tactic(auto, unfolding(crate::specs::Knowledge::knowledge_facts, crate::specs::Views::step, crate::specs::Views::where_known))]
    pub fn lose_variable(&mut self, names: &Names, name: &[u8])
        ensures { (c : views.Certificate) → knowledge_facts names.now self.new
            ≡ views.step c (views.Lose (record { vars = name.now ∷ []; functions = [] })) (knowledge_facts names.now self.old) }
    {
        match self {
            Knowledge::NotReached => {}
            Knowledge::Known(assured) => assured.vars.remove_name(names, name),
        }
    }

    /// A function may be gone.
    #[tactic(auto, unfolding(crate::specs::Knowledge::knowledge_facts, crate::specs::Views::step, crate::specs::Views::where_known))]
    pub fn lose_function(&mut self, names: &Names, name: &[u8])
        ensures { (c : views.Certificate) → knowledge_facts names.now self.new
            ≡ views.step c (views.Lose (record { vars = []; functions = name.now ∷ [] })) (knowledge_facts names.now self.old) }
    {
        match self {
            Knowledge::NotReached => {}
            Knowledge::Known(assured) => assured.functions.remove_name(names, name),
        }
    }

    /// The positional parameters are now these words: so many that each give one field, and so many
    /// that give each of the parameters so far. Up to 65,535 are counted.
    #[tactic(auto, unfolding(crate::specs::Knowledge::knowledge_facts, crate::specs::Views::step, crate::specs::Views::where_known))]
    pub fn count(&mut self, ones: u32, parameters: u32)
        ensures { (c : views.Certificate) (names : List Text) → knowledge_facts names self.new
            ≡ views.step c (views.Count (record { ones = ones; parameters = parameters })) (knowledge_facts names self.old) }
    {
        match self {
            Knowledge::NotReached => {}
            Knowledge::Known(assured) => assured.args = counted(ones, parameters, assured.args),
        }
    }

    /// So many positional parameters are gone.
    #[tactic(auto, unfolding(crate::specs::Knowledge::knowledge_facts, crate::specs::Views::step, crate::specs::Views::where_known))]
    pub fn shift(&mut self, count: u32)
        ensures { (c : views.Certificate) (names : List Text) → knowledge_facts names self.new ≡ views.step c (views.Shift count) (knowledge_facts names self.old) }
    {
        match self {
            Knowledge::NotReached => {}
            Knowledge::Known(assured) => assured.args = shifted(assured.args, count),
        }
    }

    /// As many positional parameters are gone as may be counted, or more.
    #[tactic(auto, unfolding(crate::specs::Knowledge::knowledge_facts, crate::specs::Views::step, crate::specs::Views::where_known))]
    pub fn shift_all(&mut self)
        ensures { (c : views.Certificate) (names : List Text) (count : ℕ) → views.most_fields ≤ count
            → knowledge_facts names self.new ≡ views.step c (views.Shift count) (knowledge_facts names self.old) }
    {
        match self {
            Knowledge::NotReached => {}
            Knowledge::Known(assured) => assured.args = without_most(assured.args),
        }
    }

    /// There are as many positional parameters as there, whatever there were.
    #[tactic(auto, unfolding(crate::specs::Knowledge::knowledge_facts, crate::specs::Parameters::with_parameters_of))]
    pub fn take_parameters(&mut self, other: &Knowledge)
        ensures { (names : List Text) → knowledge_facts names self.new ≡ with_parameters_of (knowledge_facts names self.old) (knowledge_facts names other.now) }
    {
        match self {
            Knowledge::NotReached => {}
            Knowledge::Known(assured) => {
                if let Knowledge::Known(others) = other {
                    assured.args = others.args;
                }
            }
        }
    }

    /// A function was called, with prefix assignments of these names, and has returned. If it is
    /// surely defined, it leaves what the certificate says of its return. Otherwise a utility may
    /// have run.
    #[tactic(auto, unfolding(crate::specs::Knowledge::knowledge_facts, crate::specs::Views::step, crate::specs::Views::called, crate::specs::Views::where_known))]
    pub fn call(
        &mut self,
        names: &Names,
        function: &[u8],
        rows: &Rows,
        returned: &Return,
        prefixes: &NumberSet,
    )
        ensures { (c : views.Certificate) (r : views.Slot) (before : List Text) → AreNumbered names.now
            → c.drops function.now ≡ drops_of (in_byte_order names.now) rows.now returned.now.drops
            → c.claim r ≡ claim_of (in_byte_order names.now) rows.now returned.now.facts
            → ((t : Text) → is_one_of names.now t ≡ true → contains names.now prefixes.now t ≡ is_one_of before t)
            → knowledge_facts names.now self.new ≡ views.step c (views.Call function.now r before) (knowledge_facts names.now self.old) }
    {
        let Knowledge::Known(assured) = self else {
            return;
        };
        if !assured.functions.has_name(names, function) {
            assured.pass_either(names, function, rows, &returned.drops);
            return;
        }
        match returned.facts {
            Facts::NotReached => *self = Knowledge::NotReached,
            Facts::Known {
                vars,
                functions,
                ..
            } => assured.pass_return(rows, &returned.drops, vars, functions, prefixes),
        }
    }

    /// What is known where runs come from here and from there.
    #[tactic(auto, unfolding(crate::specs::Knowledge::knowledge_facts, crate::specs::Facts::meet))]
    pub fn meet(&mut self, other: &Knowledge)
        ensures { (names : List Text) → knowledge_facts names self.new ≡ spec.meet (knowledge_facts names self.old) (knowledge_facts names other.now) }
    {
        match self {
            Knowledge::NotReached => *self = *other,
            Knowledge::Known(assured) => {
                if let Knowledge::Known(others) = other {
                    assured.meet(others);
                }
            }
        }
    }
}

impl Drops {
    /// Whether a function that may drop these may drop all that the other may.
    #[tactic(auto, unfolding(crate::specs::Faults::are_among))]
    pub fn includes(&self, rows: &Rows, other: &Drops) -> bool
        ensures { (names : List Text) → AreNumbered names → rows.now.count ≡ length names
            → result ≡ are_among (drops_of (in_byte_order names) rows.now other.now) (drops_of (in_byte_order names) rows.now self.now) }
    {
        is_row_within(rows, other.vars, self.vars)
            && is_row_within(rows, other.functions, self.functions)
    }

    /// Whether a variable may be dropped.
    pub fn has_variable(&self, names: &Names, rows: &Rows, name: &[u8]) -> bool
        ensures { AreNumbered names.now → result ≡ is_one_of (drops_of (in_byte_order names.now) rows.now self.now).vars name.now }
    {
        is_in_row(names, rows, self.vars, name)
    }

    /// Whether a function may be dropped.
    pub fn has_function(&self, names: &Names, rows: &Rows, name: &[u8]) -> bool
        ensures { AreNumbered names.now → result ≡ is_one_of (drops_of (in_byte_order names.now) rows.now self.now).functions name.now }
    {
        is_in_row(names, rows, self.functions, name)
    }
}

// Whether each name of a row is in another one.
fn is_row_within(rows: &Rows, part: RowId, whole: RowId) -> bool
    ensures { (names : List Text) → AreNumbered names → rows.now.count ≡ length names
        → result ≡ list_all (is_one_of (names_at (in_byte_order names) rows.now whole)) (names_at (in_byte_order names) rows.now part) }
{
    if part.index == whole.index {
        return true;
    }
    let mut names = NumberSet::new();
    names.set_row(rows, whole);
    names.includes(rows, part)
}

fn is_in_row(names: &Names, rows: &Rows, id: RowId, name: &[u8]) -> bool
    ensures { AreNumbered names.now → result ≡ is_one_of (names_at (in_byte_order names.now) rows.now id) name.now }
{
    match names.number(name) {
        Some(number) => rows.has(id, number),
        None => false,
    }
}

// Up to 65,535 positional parameters, from words: so many give one, and so many give each that
// there is.
fn counted(ones: u32, parameters: u32, args: u16) -> u16
    ensures { result ≡ views.counted_by (record { ones = ones; parameters = parameters }) args }
{
    let total = u64::from(ones) + u64::from(parameters) * u64::from(args);
    total.min(65_535) as u16
}

fn shifted(args: u16, count: u32) -> u16
    ensures { result ≡ args - count }
{
    u32::from(args).saturating_sub(count) as u16
}

// Without as many as may be counted, none is left.
fn without_most(args: u16) -> u16
    ensures { (count : ℕ) → views.most_fields ≤ count → result ≡ args - count }
{
    args.saturating_sub(65_535)
}

fn is_getopts(function: &[u8]) -> bool
    ensures { result ≡ bytes_eq function.now (codes "getopts") }
{
    function == b"getopts".as_slice()
}
