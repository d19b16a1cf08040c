//! What a call of a function asks: what it is entered with, and what is known where it has returned
//! (XCU 2.9.1, 2.9.5).
ghost use Rattle.std.specs.Prelude.{◌≡◌, List};
ghost use Rattle.sh_tree.specs.Lists.{elements_from};
ghost use Rattle.sh_tree.specs.standard.program.Syntax.{Text};
ghost use Rattle.sh_domain.specs.Table.{prefixes};
ghost use Rattle.sh_domain.specs.Views as views;
ghost use Rattle.sh_rules.specs.SimpleBounds as simple;
ghost use Rattle.sh_rules.specs.TextBounds.{behind_name};
ghost use Rattle.sh_rules.specs.Calls as spec;
ghost use Rattle.sh_rules.specs.Calls.{IsReturn, IsUnknown, Returns};
ghost use Rattle.sh_rules.specs.Walks.{facts_in, setting};

use crate::steps::{count_words, lose_variable};
use crate::utilities::behind_name;
use sh_domain::{FlowRule, Knowledge, Return};
use sh_rules::elements::{behind_into, gain_prefixes, is_redirected, prefix_set};
use sh_rules::{Asked, Claims, Fault, Place};
use sh_tree::Element;

// Leaves out OPTARG, if a utility may have run that unsets it.
#[tactic(auto, unfolding(sh_rules::specs::Calls::passed))]
fn pass(claims: &Claims<'_>, function: &[u8], known: &mut Knowledge)
    ensures { facts_in (setting claims.now) known.new ≡ spec.passed (setting claims.now) function.now (facts_in (setting claims.now) known.old) }
{
    if function == b"getopts".as_slice() {
        lose_variable(claims, b"OPTARG", known);
    }
}

// Goes on after a call of a function that the certificate does not have.
fn call_unknown(claims: &Claims<'_>, function: &[u8], known: &mut Knowledge)
    ensures { (r : views.Slot) (before : List Text) → IsUnknown (setting claims.now) function.now r → facts_in (setting claims.now) known.new ≡ simple.called (setting claims.now) function.now r before (facts_in (setting claims.now) known.old) }
{
    if known.has_function(claims.names, function) {
        *known = Knowledge::NotReached;
    } else {
        pass(claims, function, known);
    }
}

// Goes on after a call of a function that has these prefix assignments.
fn call_known(
    claims: &Claims<'_>,
    function: &[u8],
    returned: &Return,
    elements: &[Element],
    known: &mut Knowledge,
)
    ensures { (r : views.Slot) → IsReturn (setting claims.now) function.now r returned.now → facts_in (setting claims.now) known.new ≡ simple.called (setting claims.now) function.now r (prefixes (elements_from (setting claims.now).script elements.now)) (facts_in (setting claims.now) known.old) }
{
    let prefixes = prefix_set(claims, elements);
    known.call(
        claims.names,
        function,
        &claims.certificate.rows,
        returned,
        &prefixes,
    );
}

// Goes on to where a function has returned.
fn call(
    claims: &Claims<'_>,
    function: &[u8],
    returned: Option<Return>,
    elements: &[Element],
    known: &mut Knowledge,
)
    ensures { (r : views.Slot) → Returns (setting claims.now) function.now r returned → facts_in (setting claims.now) known.new ≡ simple.called (setting claims.now) function.now r (prefixes (elements_from (setting claims.now).script elements.now)) (facts_in (setting claims.now) known.old) }
{
    match returned {
        Some(returned) => call_known(claims, function, &returned, elements, known),
        None => call_unknown(claims, function, known),
    }
}

fn call_zero(claims: &Claims<'_>, function: &[u8], elements: &[Element], known: &mut Knowledge)
    ensures { facts_in (setting claims.now) known.new ≡ simple.called (setting claims.now) function.now (views.ReturnsZero function.now) (prefixes (elements_from (setting claims.now).script elements.now)) (facts_in (setting claims.now) known.old) }
{
    let returned = claims.return_zero(function);
    call(claims, function, returned, elements, known);
}

fn call_nonzero(claims: &Claims<'_>, function: &[u8], elements: &[Element], known: &mut Knowledge)
    ensures { facts_in (setting claims.now) known.new ≡ simple.called (setting claims.now) function.now (views.ReturnsNonzero function.now) (prefixes (elements_from (setting claims.now).script elements.now)) (facts_in (setting claims.now) known.old) }
{
    let returned = claims.return_nonzero(function);
    call(claims, function, returned, elements, known);
}

// Becomes what a function is entered with: the names of the prefix assignments, and the operands.
fn enter(claims: &Claims<'_>, elements: &[Element], known: &mut Knowledge)
    ensures { facts_in (setting claims.now) known.new ≡ spec.entered (setting claims.now) (elements_from (setting claims.now).script elements.now) (facts_in (setting claims.now) known.old) }
{
    count_words(claims, behind_name(elements), 0, known);
    gain_prefixes(claims, elements, known);
}

// A failed redirection of a call leaves what was known before it.
#[tactic(auto, unfolding(sh_rules::specs::SimpleBounds::redirection_told))]
fn tell_redirection<A: Asked>(
    claims: &Claims<'_>,
    number: u32,
    is_redirected: bool,
    known: &Knowledge,
    asked: &mut A,
)
    ensures { A.kept asked.new ≡ simple.redirection_told A.asked (setting claims.now) number is_redirected (facts_in (setting claims.now) known.now) (A.kept asked.old) }
{
    if is_redirected {
        let rule = FlowRule::F14;
        asked.bound(
            claims,
            Place::Nonzero(number),
            Fault { number, rule },
            known,
        );
    }
}

/// Of a call of the function of this name.
#[tactic(auto, unfolding(sh_rules::specs::SimpleBounds::call_told, sh_rules::specs::Calls::entered))]
pub fn tell_call<A: Asked>(
    claims: &Claims<'_>,
    number: u32,
    function: &[u8],
    elements: &[Element],
    asked: &mut A,
)
    ensures { A.kept asked.new ≡ simple.call_told A.asked (setting claims.now) number (elements_from (setting claims.now).script elements.now) function.now (behind_name (elements_from (setting claims.now).script elements.now)) (A.kept asked.old) }
{
    let rule = FlowRule::F14;
    let fault = Fault { number, rule };
    let mut known = Knowledge::NotReached;
    behind_into(claims, number, elements, &mut known);
    let mut inside = known;
    enter(claims, elements, &mut inside);
    asked.bound(claims, Place::Entry(function), fault, &inside);
    let mut zero = known;
    call_zero(claims, function, elements, &mut zero);
    asked.bound(claims, Place::Zero(number), fault, &zero);
    let mut nonzero = known;
    call_nonzero(claims, function, elements, &mut nonzero);
    asked.bound(claims, Place::Nonzero(number), fault, &nonzero);
    tell_redirection(claims, number, is_redirected(elements), &known, asked);
}
