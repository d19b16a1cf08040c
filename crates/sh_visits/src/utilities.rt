//! What is known after a utility, by its kind and its operands (XCU 2.9.1, 2.15, 3).
ghost use Rattle.std.specs.Prelude.{◌≡◌, ℕ, List, drop, false, fold, map, not, option_map, if◌then◌else◌};
ghost use Rattle.std.specs.Prelude.{Option};
ghost use Rattle.sh_tree.specs.Lists.{elements_from};
ghost use Rattle.sh_tree.specs.standard.program.Syntax.{Elements, Text};
ghost use Rattle.sh_table.specs.WordTexts.{text_in};
ghost use Rattle.sh_domain.specs.Facts.{NotReached};
ghost use Rattle.sh_domain.specs.Gains.{named};
ghost use Rattle.sh_domain.specs.Operands.{declared_names};
ghost use Rattle.sh_domain.specs.Table as table;
ghost use Rattle.sh_domain.specs.Views as views;
ghost use Rattle.sh_rules.specs.Elements as pieces;
ghost use Rattle.sh_rules.specs.Losses as losses;
ghost use Rattle.sh_table.specs.Numerals.{capped};
ghost use Rattle.sh_rules.specs.Behind.{both, either};
ghost use Rattle.sh_rules.specs.Settings.{Setting, gained};
ghost use Rattle.sh_rules.specs.SimpleBounds as simple;
ghost use Rattle.sh_rules.specs.SimpleBounds.{stepped};
ghost use Rattle.sh_rules.specs.TextBounds as spec;
ghost use Rattle.sh_rules.specs.Texts as reads;
ghost use Rattle.sh_runs.specs.ReadOptions.{read_operands};
ghost use Rattle.sh_rules.specs.Walks.{behind_in, facts_in, setting};

use crate::steps::{count_none, count_words, lose_variable, shift, take_parameters};
use crate::texts::{first_number, getopts_name, lose_unset, runs_command};
use sh_domain::{Knowledge, NumberSet};
use sh_operands::{positional_at, read_operands};
use sh_rules::elements::{gain_left, is_redirected, prefix_set};
use sh_rules::{Behind, Claims, gain_variable, met};
use sh_table::{Kind, WordText, are_static, definition_in};
use sh_tree::{Element, KnownName, Part, Word, is_name};

// Names that utilities set

// The name, unless it is one of the prefix assignments' names.
fn gain_free(claims: &Claims<'_>, prefixes: &NumberSet, name: &[u8], known: &mut Knowledge)
    ensures { (es : Elements) → losses.ArePrefixes (setting claims.now) es prefixes.now
        → facts_in (setting claims.now) known.new ≡ losses.free_gained (setting claims.now) es (facts_in (setting claims.now) known.old) name.now }
{
    if !prefixes.has_name(claims.names, name) {
        gain_variable(claims, name, known);
    }
}

#[tactic(auto, unfolding(sh_rules::specs::Losses::by_name, sh_rules::specs::Walks::setting))]
fn gain_text(claims: &Claims<'_>, prefixes: &NumberSet, text: &WordText, known: &mut Knowledge)
    ensures { (es : Elements) → losses.ArePrefixes (setting claims.now) es prefixes.now
        → facts_in (setting claims.now) known.new ≡ losses.by_name (losses.free_gained (setting claims.now) es) (facts_in (setting claims.now) known.old) (text_in (setting claims.now).script text.now) }
{
    if let Some(name) = text.get(claims.script) {
        if is_name(name) {
            gain_free(claims, prefixes, name, known);
        }
    }
}

fn gain_texts(claims: &Claims<'_>, prefixes: &NumberSet, texts: &[WordText], known: &mut Knowledge)
    ensures { (es : Elements) → losses.ArePrefixes (setting claims.now) es prefixes.now
        → facts_in (setting claims.now) known.new ≡ fold (losses.texts_with (setting claims.now) (losses.free_gained (setting claims.now) es)) (facts_in (setting claims.now) known.old) texts.now }
{
    for text in texts {
        gain_text(claims, prefixes, text, known);
    }
}

// The names among the operands of `read` after its options, if these are known.
fn gain_behind(
    claims: &Claims<'_>,
    elements: &[Element],
    operands: &[WordText],
    known: &mut Knowledge,
)
    ensures { facts_in (setting claims.now) known.new ≡ losses.free_names (setting claims.now) (elements_from (setting claims.now).script elements.now) (reads.names_behind (read_operands false (map (text_in (setting claims.now).script) operands.now))) (facts_in (setting claims.now) known.old) }
{
    if let Some(names) = read_operands(operands, claims.script) {
        let prefixes = prefix_set(claims, elements);
        gain_texts(claims, &prefixes, names, known);
    }
}

// The names that `read` sets.
fn gain_read(
    claims: &Claims<'_>,
    elements: &[Element],
    operands: &[WordText],
    known: &mut Knowledge,
)
    ensures { facts_in (setting claims.now) known.new ≡ losses.free_names (setting claims.now) (elements_from (setting claims.now).script elements.now) (reads.read_by (map (text_in (setting claims.now).script) operands.now)) (facts_in (setting claims.now) known.old) }
{
    if are_static(operands, claims.script) {
        gain_behind(claims, elements, operands, known);
    }
}

// The names that `getopts` sets.
fn gain_getopts(
    claims: &Claims<'_>,
    elements: &[Element],
    operands: &[WordText],
    known: &mut Knowledge,
)
    ensures { facts_in (setting claims.now) known.new ≡ losses.free_names (setting claims.now) (elements_from (setting claims.now).script elements.now) (reads.and_optind (reads.getopts_name (map (text_in (setting claims.now).script) operands.now))) (facts_in (setting claims.now) known.old) }
{
    if let Some(name) = getopts_name(operands, claims.script) {
        let prefixes = prefix_set(claims, elements);
        gain_free(claims, &prefixes, name, known);
        gain_free(claims, &prefixes, b"OPTIND", known);
    }
}

// Declaration utilities

#[tactic(auto, unfolding(sh_rules::specs::Elements::front_name, sh_runs::specs::standard::runs::Operands::definition_in))]
fn front_name(text: &[u8]) -> Option<&[u8]>
    ensures { option_map (λ t. t.now) result ≡ pieces.front_name text.entry.now }
{
    let (name, _) = definition_in(text)?;
    Some(name)
}

#[tactic(auto, unfolding(sh_rules::specs::Elements::declared_name))]
fn declared_name<'a>(parts: &[Part], script: &'a [u8]) -> Option<&'a [u8]>
    ensures { option_map (λ t. t.now) result ≡ pieces.declared_name script.entry.now parts.now }
{
    match parts {
        [Part::Plain(span), ..] => front_name(span.text(script)),
        _ => None,
    }
}

#[tactic(auto, unfolding(sh_rules::specs::Elements::declared_by, sh_rules::specs::Walks::setting))]
fn gain_word_declared(claims: &Claims<'_>, word: &Word, known: &mut Knowledge)
    ensures { facts_in (setting claims.now) known.new ≡ pieces.declared_by (setting claims.now) (pieces.declared_name (setting claims.now).script word.now.parts) (facts_in (setting claims.now) known.old) }
{
    if let Some(name) = declared_name(word.parts.as_slice(), claims.script) {
        gain_variable(claims, name, known);
    }
}

#[tactic(auto, using(sh_rules::proofs::UtilityLemmas::declaring))]
fn gain_declared(claims: &Claims<'_>, element: &Element, known: &mut Knowledge)
    ensures { facts_in (setting claims.now) known.new ≡ pieces.declared_gained (setting claims.now) (facts_in (setting claims.now) known.old) element.now }
{
    match element {
        Element::Assignment { .. } => (),
        Element::Word(word) => gain_word_declared(claims, word, known),
        Element::Redirection(_) => (),
    }
}

fn gain_each_declared(claims: &Claims<'_>, elements: &[Element], known: &mut Knowledge)
    ensures { facts_in (setting claims.now) known.new ≡ fold (pieces.declared_gained (setting claims.now)) (facts_in (setting claims.now) known.old) elements.now }
{
    for element in elements {
        gain_declared(claims, element, known);
    }
}

#[tactic(auto, unfolding(sh_rules::specs::Elements::is_word))]
fn is_word(element: &Element) -> bool
    ensures { result ≡ pieces.is_word element.now }
{
    match element {
        Element::Assignment { .. } => false,
        Element::Word(_) => true,
        Element::Redirection(_) => false,
    }
}

/// The elements after the command name.
#[tactic(auto, using(sh_rules::proofs::UtilityLemmas::name_passed))]
pub fn behind_name(elements: &[Element]) -> &[Element]
    ensures { (b : List ℕ) → table.operands (elements_from b result.now) ≡ spec.behind_name (elements_from b elements.entry.now) }
{
    let mut rest = elements;
    while let [first, others @ ..] = rest {
        if is_word(first) {
            return others;
        }
        rest = others;
    }
    rest
}

// The names that operands assign in form.
fn gain_assigned_operands(claims: &Claims<'_>, elements: &[Element], known: &mut Knowledge)
    ensures { facts_in (setting claims.now) known.new ≡ gained (setting claims.now) (named (declared_names (spec.behind_name (elements_from (setting claims.now).script elements.now)))) (facts_in (setting claims.now) known.old) }
{
    gain_each_declared(claims, behind_name(elements), known);
}

// After each utility

/// After the assignments and redirections too, which stay at a special built-in utility.
pub fn settled(claims: &Claims<'_>, elements: &[Element], known: &Knowledge) -> Knowledge
    ensures { facts_in (setting claims.now) result ≡ gained (setting claims.now) (simple.left (elements_from (setting claims.now).script elements.now)) (facts_in (setting claims.now) known.now) }
{
    let mut settled = *known;
    gain_left(claims, elements, &mut settled);
    settled
}

// With the words of `set` after the first so many. It takes no more of these than the first ones if
// it fails.
fn set_words(claims: &Claims<'_>, elements: &[Element], skipped: usize, known: &Knowledge) -> Behind
    ensures { behind_in (setting claims.now) result ≡ spec.words_set (setting claims.now) (facts_in (setting claims.now) known.now) (elements_from (setting claims.now).script elements.now) (drop skipped (spec.behind_name (elements_from (setting claims.now).script elements.now))) }
{
    let mut counted = *known;
    count_words(claims, behind_name(elements), skipped, &mut counted);
    let all = settled(claims, elements, known);
    let mut zero = all;
    take_parameters(&counted, &mut zero);
    Behind {
        zero,
        nonzero: met(&zero, &all),
    }
}

fn set_behind(
    claims: &Claims<'_>,
    elements: &[Element],
    operands: &[WordText],
    known: &Knowledge,
) -> Behind
    ensures { behind_in (setting claims.now) result ≡ spec.set_by (setting claims.now) (facts_in (setting claims.now) known.now) (elements_from (setting claims.now).script elements.now) (reads.positional_by (map (text_in (setting claims.now).script) operands.now) (spec.behind_name (elements_from (setting claims.now).script elements.now))) }
{
    match positional_at(operands, claims.script) {
        Some(skipped) => set_words(claims, elements, skipped, known),
        None => Behind::both(&settled(claims, elements, known)),
    }
}

// Without so many positional parameters. If their number is not known, without any.
#[tactic(auto, using(sh_rules::proofs::UtilityLemmas::shifts))]
fn shift_by(count: Option<u32>, known: &mut Knowledge)
    ensures { (x : Setting) (n : Option ℕ) → count ≡ option_map capped n → facts_in x known.new ≡ spec.shifted_by x n (facts_in x known.old) }
{
    match count {
        Some(count) => shift(count, known),
        None => count_none(known),
    }
}

#[tactic(auto, unfolding(sh_rules::specs::Walks::setting))]
fn count_of(claims: &Claims<'_>, operands: &[WordText]) -> Option<u32>
    ensures { result ≡ option_map capped (reads.first_by (map (text_in (setting claims.now).script) operands.now)) }
{
    first_number(operands, claims.script)
}

fn shift_behind(
    claims: &Claims<'_>,
    elements: &[Element],
    operands: &[WordText],
    known: &Knowledge,
) -> Behind
    ensures { behind_in (setting claims.now) result ≡ both (spec.shifted_by (setting claims.now) (reads.first_by (map (text_in (setting claims.now).script) operands.now)) (spec.settled (setting claims.now) (facts_in (setting claims.now) known.now) (elements_from (setting claims.now).script elements.now))) }
{
    let mut behind = settled(claims, elements, known);
    let count = count_of(claims, operands);
    shift_by(count, &mut behind);
    Behind::both(&behind)
}

fn unset_behind(
    claims: &Claims<'_>,
    elements: &[Element],
    operands: &[WordText],
    known: &Knowledge,
) -> Behind
    ensures { behind_in (setting claims.now) result ≡ both (stepped (setting claims.now) (views.Lose (reads.unset_by (map (text_in (setting claims.now).script) operands.now))) (spec.settled (setting claims.now) (facts_in (setting claims.now) known.now) (elements_from (setting claims.now).script elements.now))) }
{
    let mut behind = settled(claims, elements, known);
    lose_unset(claims, operands, &mut behind);
    Behind::both(&behind)
}

fn declared_behind(claims: &Claims<'_>, elements: &[Element], known: &Knowledge) -> Behind
    ensures { behind_in (setting claims.now) result ≡ both (gained (setting claims.now) (named (declared_names (spec.behind_name (elements_from (setting claims.now).script elements.now)))) (spec.settled (setting claims.now) (facts_in (setting claims.now) known.now) (elements_from (setting claims.now).script elements.now))) }
{
    let mut behind = settled(claims, elements, known);
    gain_assigned_operands(claims, elements, &mut behind);
    Behind::both(&behind)
}

#[tactic(auto, unfolding(sh_rules::specs::Walks::setting))]
fn is_sure_to_run(claims: &Claims<'_>, operands: &[WordText]) -> bool
    ensures { result ≡ reads.runs_by (map (text_in (setting claims.now).script) operands.now) }
{
    runs_command(operands, claims.script)
}

#[tactic(auto, unfolding(sh_rules::specs::TextBounds::exec_by, sh_rules::specs::Walks::facts_in, sh_domain::specs::Knowledge::knowledge_facts))]
fn exec_behind(is_sure: bool, settled: &Knowledge) -> Behind
    ensures { (x : Setting) → behind_in x result ≡ spec.exec_by is_sure (facts_in x settled.now) }
{
    Behind {
        zero: if is_sure {
            Knowledge::NotReached
        } else {
            *settled
        },
        nonzero: *settled,
    }
}

#[tactic(auto, unfolding(sh_rules::specs::Walks::facts_in, sh_domain::specs::Knowledge::knowledge_facts))]
fn colon_behind(settled: &Knowledge) -> Behind
    ensures { (x : Setting) → behind_in x result ≡ either (facts_in x settled.now) NotReached }
{
    Behind {
        zero: *settled,
        nonzero: Knowledge::NotReached,
    }
}

// After a special built-in utility.
#[tactic(auto, unfolding(sh_rules::specs::TextBounds::special_by))]
fn special_behind(
    claims: &Claims<'_>,
    name: KnownName,
    elements: &[Element],
    operands: &[WordText],
    known: &Knowledge,
) -> Behind
    ensures { behind_in (setting claims.now) result ≡ spec.special_by (setting claims.now) (facts_in (setting claims.now) known.now) (map (text_in (setting claims.now).script) operands.now) (elements_from (setting claims.now).script elements.now) name }
{
    match name {
        KnownName::Colon => colon_behind(&settled(claims, elements, known)),
        KnownName::Export => declared_behind(claims, elements, known),
        KnownName::Readonly => declared_behind(claims, elements, known),
        KnownName::Unset => unset_behind(claims, elements, operands, known),
        KnownName::Set => set_behind(claims, elements, operands, known),
        KnownName::Shift => shift_behind(claims, elements, operands, known),
        KnownName::Exit => Behind::nowhere(),
        KnownName::Break => Behind::nowhere(),
        KnownName::Continue => Behind::nowhere(),
        KnownName::Return => Behind::nowhere(),
        KnownName::Exec => {
            let is_sure = is_sure_to_run(claims, operands);
            exec_behind(is_sure, &settled(claims, elements, known))
        }
        KnownName::Times => Behind::both(&settled(claims, elements, known)),
        KnownName::Trap => Behind::both(&settled(claims, elements, known)),
        _ => Behind::both(known),
    }
}

#[tactic(auto, unfolding(sh_rules::specs::TextBounds::true_by, sh_rules::specs::Walks::facts_in, sh_domain::specs::Knowledge::knowledge_facts))]
fn true_behind(is_redirected: bool, known: &Knowledge) -> Behind
    ensures { (x : Setting) → behind_in x result ≡ spec.true_by (facts_in x known.now) is_redirected }
{
    Behind {
        zero: *known,
        nonzero: if is_redirected {
            *known
        } else {
            Knowledge::NotReached
        },
    }
}

#[tactic(auto, unfolding(sh_rules::specs::Walks::facts_in, sh_domain::specs::Knowledge::knowledge_facts))]
fn false_behind(known: &Knowledge) -> Behind
    ensures { (x : Setting) → behind_in x result ≡ either NotReached (facts_in x known.now) }
{
    Behind {
        zero: Knowledge::NotReached,
        nonzero: *known,
    }
}

fn read_names_behind(
    claims: &Claims<'_>,
    elements: &[Element],
    operands: &[WordText],
    known: &Knowledge,
) -> Behind
    ensures { behind_in (setting claims.now) result ≡ either (losses.free_names (setting claims.now) (elements_from (setting claims.now).script elements.now) (reads.read_by (map (text_in (setting claims.now).script) operands.now)) (facts_in (setting claims.now) known.now)) (facts_in (setting claims.now) known.now) }
{
    let mut zero = *known;
    gain_read(claims, elements, operands, &mut zero);
    Behind {
        zero,
        nonzero: *known,
    }
}

fn getopts_behind(
    claims: &Claims<'_>,
    elements: &[Element],
    operands: &[WordText],
    known: &Knowledge,
) -> Behind
    ensures { behind_in (setting claims.now) result ≡ spec.options_by (setting claims.now) (losses.free_names (setting claims.now) (elements_from (setting claims.now).script elements.now) (reads.and_optind (reads.getopts_name (map (text_in (setting claims.now).script) operands.now))) (facts_in (setting claims.now) known.now)) (facts_in (setting claims.now) known.now) }
{
    let mut zero = *known;
    gain_getopts(claims, elements, operands, &mut zero);
    lose_variable(claims, b"OPTARG", &mut zero);
    let mut nonzero = *known;
    lose_variable(claims, b"OPTARG", &mut nonzero);
    Behind { zero, nonzero }
}

/// After a utility of this kind, with this known after its words: the standard's status, and what
/// it sets, removes or counts.
#[tactic(auto, unfolding(sh_rules::specs::TextBounds::utility_by))]
pub fn utility_behind(
    claims: &Claims<'_>,
    kind: Kind,
    elements: &[Element],
    operands: &[WordText],
    known: &Knowledge,
) -> Behind
    ensures { behind_in (setting claims.now) result ≡ spec.utility_by (setting claims.now) (facts_in (setting claims.now) known.now) (map (text_in (setting claims.now).script) operands.now) (elements_from (setting claims.now).script elements.now) kind }
{
    match kind {
        Kind::Special(name) => special_behind(claims, name, elements, operands, known),
        Kind::True => true_behind(is_redirected(elements), known),
        Kind::False => false_behind(known),
        Kind::Read => read_names_behind(claims, elements, operands, known),
        Kind::Getopts => getopts_behind(claims, elements, operands, known),
        Kind::Cd => Behind::both(known),
        Kind::Command => Behind::both(known),
        Kind::Refused(_) => Behind::both(known),
        Kind::Utility => Behind::both(known),
    }
}
