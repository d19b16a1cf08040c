//! What the elements of a simple command leave known, and the names of its prefix assignments
//! (XCU 2.9.1).
ghost use Rattle.std.specs.Prelude.{◌≡◌, ℕ, List, true, false, fold};
ghost use Rattle.std.specs.List.{list_any};
ghost use Rattle.sh_tree.specs.Lists.{elements_from};
ghost use Rattle.sh_tree.specs.standard.program.Syntax.{Text};
ghost use Rattle.sh_tree.specs.standard.program.Trees.{target_of};
ghost use Rattle.sh_tree.specs.standard.program.Words.{redirects_in};
ghost use Rattle.sh_runs.specs.standard.runs.Environment.{is_one_of};
ghost use Rattle.sh_domain.specs.Gains.{named, redirect_gains};
ghost use Rattle.sh_domain.specs.Knowledge.{contains};
ghost use Rattle.sh_domain.specs.Table as table;
ghost use Rattle.sh_domain.specs.Table.{prefixes};
ghost use Rattle.sh_rules.specs.Elements as spec;
ghost use Rattle.sh_rules.specs.Settings.{gained};
ghost use Rattle.sh_rules.specs.SimpleBounds as simple;
ghost use Rattle.sh_rules.specs.Walks.{facts_in, setting};

use crate::claims::Claims;
use crate::gains::{gain_variable, gain_word};
use sh_domain::{Knowledge, NumberSet};
use sh_gains::{gain_operands, gain_target};
use sh_tree::{Element, Target};

/// Has this be what is known after the words of a simple command. Its redirections and its values
/// are judged there.
#[tactic(auto, using(crate::proofs::ElementLemmas::words_known))]
pub fn behind_into(claims: &Claims<'_>, number: u32, elements: &[Element], known: &mut Knowledge)
    ensures { facts_in (setting claims.now) known.new ≡ simple.behind (setting claims.now) number (elements_from (setting claims.now).script elements.now) }
{
    claims.before_into(number, known);
    gain_operands(elements, claims.script, claims.names, known);
}

// What the word that a redirection opens leaves known, or the body of a here-document.
#[tactic(auto, using(crate::proofs::ElementLemmas::target_known))]
fn gain_redirection(claims: &Claims<'_>, target: &Target, known: &mut Knowledge)
    ensures { facts_in (setting claims.now) known.new ≡ gained (setting claims.now) (redirect_gains (target_of (setting claims.now).script target.now)) (facts_in (setting claims.now) known.old) }
{
    gain_target(target, claims.script, claims.names, known);
}

#[tactic(auto, using(crate::proofs::ElementLemmas::values))]
fn gain_value(claims: &Claims<'_>, element: &Element, known: &mut Knowledge)
    ensures { facts_in (setting claims.now) known.new ≡ spec.value_gained (setting claims.now) (facts_in (setting claims.now) known.old) element.now }
{
    match element {
        Element::Assignment { value, .. } => gain_word(claims, value, known),
        Element::Word(_) => (),
        Element::Redirection(_) => (),
    }
}

fn gain_values(claims: &Claims<'_>, elements: &[Element], known: &mut Knowledge)
    ensures { facts_in (setting claims.now) known.new ≡ fold (spec.value_gained (setting claims.now)) (facts_in (setting claims.now) known.old) elements.now }
{
    for element in elements {
        gain_value(claims, element, known);
    }
}

#[tactic(auto, using(crate::proofs::ElementLemmas::names))]
fn gain_prefix(claims: &Claims<'_>, element: &Element, known: &mut Knowledge)
    ensures { facts_in (setting claims.now) known.new ≡ spec.prefix_gained (setting claims.now) (facts_in (setting claims.now) known.old) element.now }
{
    match element {
        Element::Assignment { name, .. } => { gain_variable(claims, (&*claims).text(*name), known) }
        Element::Word(_) => (),
        Element::Redirection(_) => (),
    }
}

fn gain_each_prefix(claims: &Claims<'_>, elements: &[Element], known: &mut Knowledge)
    ensures { facts_in (setting claims.now) known.new ≡ fold (spec.prefix_gained (setting claims.now)) (facts_in (setting claims.now) known.old) elements.now }
{
    for element in elements {
        gain_prefix(claims, element, known);
    }
}

#[tactic(auto, using(crate::proofs::ElementLemmas::targets))]
fn gain_opened(claims: &Claims<'_>, element: &Element, known: &mut Knowledge)
    ensures { facts_in (setting claims.now) known.new ≡ spec.target_gained (setting claims.now) (facts_in (setting claims.now) known.old) element.now }
{
    match element {
        Element::Assignment { .. } => (),
        Element::Word(_) => (),
        Element::Redirection(redirect) => gain_redirection(claims, &redirect.target, known),
    }
}

fn gain_redirections(claims: &Claims<'_>, elements: &[Element], known: &mut Knowledge)
    ensures { facts_in (setting claims.now) known.new ≡ fold (spec.target_gained (setting claims.now)) (facts_in (setting claims.now) known.old) elements.now }
{
    for element in elements {
        gain_opened(claims, element, known);
    }
}

/// The names of the prefix assignments are set.
#[tactic(auto, using(crate::proofs::ElementLemmas::names_folded))]
pub fn gain_prefixes(claims: &Claims<'_>, elements: &[Element], known: &mut Knowledge)
    ensures { facts_in (setting claims.now) known.new ≡ gained (setting claims.now) (named (prefixes (elements_from (setting claims.now).script elements.now))) (facts_in (setting claims.now) known.old) }
{
    gain_each_prefix(claims, elements, known);
}

/// What the assignments leave set: what their values do, and their names.
#[tactic(auto, using(crate::proofs::ElementLemmas::assignments_folded))]
pub fn gain_assignments(claims: &Claims<'_>, elements: &[Element], known: &mut Knowledge)
    ensures { facts_in (setting claims.now) known.new ≡ gained (setting claims.now) (table.assignments_gains (elements_from (setting claims.now).script elements.now)) (facts_in (setting claims.now) known.old) }
{
    gain_values(claims, elements, known);
    gain_each_prefix(claims, elements, known);
}

/// What the assignments and the redirections leave set.
#[tactic(auto, using(crate::proofs::ElementLemmas::all_folded))]
pub fn gain_left(claims: &Claims<'_>, elements: &[Element], known: &mut Knowledge)
    ensures { facts_in (setting claims.now) known.new ≡ gained (setting claims.now) (simple.left (elements_from (setting claims.now).script elements.now)) (facts_in (setting claims.now) known.old) }
{
    gain_assignments(claims, elements, known);
    gain_redirections(claims, elements, known);
}

// Redirections

#[tactic(auto, unfolding(crate::specs::Elements::redirects))]
fn redirects(element: &Element) -> bool
    ensures { result ≡ spec.redirects element.now }
{
    match element {
        Element::Assignment { .. } => false,
        Element::Word(_) => false,
        Element::Redirection(_) => true,
    }
}

fn any_redirects(elements: &[Element]) -> bool
    ensures { result ≡ list_any spec.redirects elements.now }
{
    elements.iter().any(|element| redirects(element))
}

/// Whether a simple command has redirections.
#[tactic(auto, using(crate::proofs::ElementLemmas::redirected))]
pub fn is_redirected(elements: &[Element]) -> bool
    ensures { (b : List ℕ) → result ≡ table.is_redirected (redirects_in (elements_from b elements.now)) }
{
    any_redirects(elements)
}

// Prefix assignments

#[tactic(auto, using(crate::proofs::ElementLemmas::added), unfolding(crate::specs::Walks::setting))]
fn add_prefix(claims: &Claims<'_>, element: &Element, names: &mut NumberSet)
    ensures { (t : Text) → contains (setting claims.now).names names.new t ≡ spec.prefix_added (setting claims.now) t (contains (setting claims.now).names names.old t) element.now }
{
    match element {
        Element::Assignment { name, .. } => names.add_name(claims.names, name.text(claims.script)),
        Element::Word(_) => (),
        Element::Redirection(_) => (),
    }
}

fn add_prefixes(claims: &Claims<'_>, elements: &[Element]) -> NumberSet
    ensures { (t : Text) → contains (setting claims.now).names result t ≡ fold (spec.prefix_added (setting claims.now) t) false elements.now }
{
    let mut names = NumberSet::new();
    for element in elements {
        add_prefix(claims, element, &mut names);
    }
    names
}

/// The names of the prefix assignments, of those that are numbered.
#[tactic(auto, using(crate::proofs::ElementLemmas::all_added))]
pub fn prefix_set(claims: &Claims<'_>, elements: &[Element]) -> NumberSet
    ensures { (t : Text) → is_one_of (setting claims.now).names t ≡ true → contains (setting claims.now).names result t ≡ is_one_of (prefixes (elements_from (setting claims.now).script elements.now)) t }
{
    add_prefixes(claims, elements)
}
