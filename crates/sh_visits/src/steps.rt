//! What the steps of a simple command do to what is known: words are counted, parameters are
//! shifted, names are lost (XCU 2.15).
ghost use Rattle.std.specs.Prelude.{◌≡◌, ℕ, drop, [], ◌∷◌};
ghost use Rattle.sh_tree.specs.Lists.{elements_from};
ghost use Rattle.sh_domain.specs.Operands.{total};
ghost use Rattle.sh_domain.specs.Parameters.{with_parameters_of};
ghost use Rattle.sh_domain.specs.Table.{operands};
ghost use Rattle.sh_domain.specs.Views as views;
ghost use Rattle.sh_table.specs.Numerals.{capped};
ghost use Rattle.sh_rules.specs.Losses.{function_lost, variable_lost};
ghost use Rattle.sh_rules.specs.Settings.{Setting};
ghost use Rattle.sh_rules.specs.SimpleBounds.{stepped};
ghost use Rattle.sh_rules.specs.Walks.{facts_in, setting};

use sh_domain::Knowledge;
use sh_operands::count_behind;
use sh_rules::Claims;
use sh_tree::Element;

/// The positional parameters are now the words of a simple command after the first so many.
pub fn count_words(claims: &Claims<'_>, elements: &[Element], skipped: usize, known: &mut Knowledge)
    ensures { facts_in (setting claims.now) known.new ≡ stepped (setting claims.now) (views.Count (total (drop skipped (operands (elements_from (setting claims.now).script elements.now))))) (facts_in (setting claims.now) known.old) }
{
    let total = count_behind(elements, claims.script, skipped);
    known.count(total.ones, total.parameters);
}

/// There are no positional parameters.
#[tactic(auto, unfolding(sh_rules::specs::SimpleBounds::stepped, sh_rules::specs::Walks::facts_in, sh_domain::specs::Operands::total))]
pub fn count_none(known: &mut Knowledge)
    ensures { (x : Setting) → facts_in x known.new ≡ stepped x (views.Count (total [])) (facts_in x known.old) }
{
    known.count(0, 0);
}

/// So many positional parameters are gone, or more if the count is the greatest.
pub fn shift(count: u32, known: &mut Knowledge)
    ensures { (x : Setting) (n : ℕ) → count ≡ capped n → facts_in x known.new ≡ stepped x (views.Shift n) (facts_in x known.old) }
{
    if count == u32::MAX {
        known.shift_all();
    } else {
        known.shift(count);
    }
}

/// There are as many positional parameters as there.
#[tactic(auto, unfolding(sh_rules::specs::Walks::facts_in))]
pub fn take_parameters(other: &Knowledge, known: &mut Knowledge)
    ensures { (x : Setting) → facts_in x known.new ≡ with_parameters_of (facts_in x known.old) (facts_in x other.now) }
{
    known.take_parameters(other);
}

/// A variable may be gone.
#[tactic(auto, unfolding(sh_rules::specs::Losses::variable_lost, sh_rules::specs::SimpleBounds::stepped, sh_rules::specs::Walks::facts_in, sh_rules::specs::Walks::setting))]
pub fn lose_variable(claims: &Claims<'_>, name: &[u8], known: &mut Knowledge)
    ensures { facts_in (setting claims.now) known.new ≡ variable_lost (setting claims.now) (facts_in (setting claims.now) known.old) name.now }
{
    known.lose_variable(claims.names, name);
}

/// A function may be gone.
#[tactic(auto, unfolding(sh_rules::specs::Losses::function_lost, sh_rules::specs::SimpleBounds::stepped, sh_rules::specs::Walks::facts_in, sh_rules::specs::Walks::setting))]
pub fn lose_function(claims: &Claims<'_>, name: &[u8], known: &mut Knowledge)
    ensures { facts_in (setting claims.now) known.new ≡ function_lost (setting claims.now) (facts_in (setting claims.now) known.old) name.now }
{
    known.lose_function(claims.names, name);
}
