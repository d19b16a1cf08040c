//! What is known and what is dropped, as sets of the numbers of names.
ghost use Rattle.std.specs.Prelude.{◌≡◌, ◌≤◌, ◌||◌, [], ◌∷◌, ℕ, List, length, slice_get};
ghost use Rattle.sh_tree.specs.declared.limits.TheConstants.{MAX_NAMES};
ghost use Rattle.sh_tree.specs.standard.program.Syntax.{Text};
ghost use Rattle.sh_runs.specs.standard.runs.Environment.{is_one_of};
ghost use Rattle.sh_domain.specs.Certificates.{in_byte_order, names_at};
ghost use Rattle.sh_domain.specs.Knowledge.{AreNumbered, assured_facts};
ghost use Rattle.sh_domain.specs.NumberSets.{numbers_of};
ghost use Rattle.sh_drafts.specs.Facts.{meet};
ghost use Rattle.sh_drafts.specs.Kept.{seen_of, sight_facts};
ghost use Rattle.sh_drafts.specs.Numbers.{by_number, name_passes};

use crate::sight::Sight;
use sh_domain::{Assured, Names, NumberSet, RowId, Rows};

/// What is assured of these names.
pub fn sight_of(names: &Names, assured: &Assured) -> Sight
    requires { AreNumbered names.now }
    ensures { sight_facts result ≡ by_number names.now (assured_facts names.now assured.now) }
{
    let all = NumberSet::below(names.count());
    let mut sight = Sight {
        vars: all,
        functions: all,
        args: assured.args(),
    };
    sight.vars.meet(assured.vars());
    sight.functions.meet(assured.functions());
    sight
}

// Leaves of what is known what is assured too.
#[tactic(auto, unfolding(crate::specs::Facts::meet))]
fn meet(known: &mut Sight, sight: &Sight)
    ensures { sight_facts known.new ≡ meet (sight_facts known.old) (sight_facts sight.now) }
{
    known.vars.meet(&sight.vars);
    known.functions.meet(&sight.functions);
    known.args = known.args.min(sight.args);
}

/// Leaves of what is known what is assured of these names too. If nothing was known, no run came,
/// and all was claimed.
#[inline(never)]
#[tactic(auto, unfolding(crate::specs::Kept::seen_of, crate::specs::Facts::meet))]
pub fn meet_assured(known: &mut Option<Sight>, names: &Names, assured: &Assured)
    requires { AreNumbered names.now }
    ensures { seen_of known.new ≡ meet (seen_of known.old) (by_number names.now (assured_facts names.now assured.now)) }
{
    let sight = sight_of(names, assured);
    match known {
        Some(known) => meet(known, &sight),
        None => *known = Some(sight),
    }
}

/// Adds a name, if it is one of these.
pub fn add_name(set: &mut NumberSet, names: &Names, name: &[u8])
    requires { AreNumbered names.now }
    ensures { (k : ℕ) → numbers_of set.new k ≡ (numbers_of set.old k || name_passes (is_one_of (name.now ∷ [])) (slice_get names.now k)) }
{
    match names.number(name) {
        Some(number) => set.add(number),
        None => {}
    }
}

/// Adds the names of a row.
pub fn add_row(set: &mut NumberSet, rows: &Rows, id: RowId)
    requires { rows.now.count ≤ MAX_NAMES }
    ensures { (names : List Text) → AreNumbered names → rows.now.count ≡ length names
        → (k : ℕ) → numbers_of set.new k ≡ (numbers_of set.old k || name_passes (is_one_of (names_at (in_byte_order names) rows.now id)) (slice_get names k)) }
{
    match rows.row(id) {
        Some(_row) => set.join_row(rows, id),
        None => {}
    }
}
