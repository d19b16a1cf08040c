//! What the flow rules require of a simple command: of what it claims after it, and of where it
//! jumps to (XCU 2.9.1, 2.15, 3).
ghost use Rattle.std.specs.Prelude.{◌≡◌, map};
ghost use Rattle.sh_tree.specs.Lists.{elements_from};
ghost use Rattle.sh_table.specs.WordTexts.{text_in};
ghost use Rattle.sh_domain.specs.declared.rule.FlowRule.TheVariants.{F4};
ghost use Rattle.sh_rules.specs.Bounds.{fault, leaves_told};
ghost use Rattle.sh_rules.specs.Settings.{Setting};
ghost use Rattle.sh_rules.specs.TextBounds.{settled, unless_failed, utility_by};
ghost use Rattle.sh_rules.specs.TextTells as spec;
ghost use Rattle.sh_rules.specs.Walks as walks;
ghost use Rattle.sh_rules.specs.Walks.{facts_in, setting};

use crate::bounds::{tell_both, tell_leaves};
use crate::calls::tell_call;
use crate::jumps::tell_jumps;
use crate::utilities::{settled, utility_behind};
use sh_domain::{FlowRule, Knowledge};
use sh_rules::elements::{behind_into, gain_assignments, is_redirected};
use sh_rules::{Around, Asked, Claims, Fault, Place};
use sh_table::{Kind, WordText, kind_of};
use sh_tree::Element;

// Whether a utility of this kind leaves what is known after its words, and does not jump.
#[tactic(auto, unfolding(sh_rules::specs::TextTells::is_neutral))]
fn is_neutral(kind: Kind) -> bool
    ensures { result ≡ spec.is_neutral kind }
{
    match kind {
        Kind::Special(_) => false,
        Kind::True => false,
        Kind::False => false,
        Kind::Read => false,
        Kind::Getopts => false,
        Kind::Cd => true,
        Kind::Command => true,
        Kind::Refused(_) => true,
        Kind::Utility => true,
    }
}

// Of a utility of this kind after whose words this is known.
fn tell_kind<A: Asked>(
    claims: &Claims<'_>,
    around: &Around<'_>,
    number: u32,
    kind: Kind,
    operands: &[WordText],
    elements: &[Element],
    known: &Knowledge,
    asked: &mut A,
)
    ensures { A.kept asked.new ≡ spec.jumps_by A.asked (setting claims.now) number (settled (setting claims.now) (facts_in (setting claims.now) known.now) (elements_from (setting claims.now).script elements.now))
        (walks.around (setting claims.now).script around.now) kind (map (text_in (setting claims.now).script) operands.now)
        (leaves_told A.asked (setting claims.now) (fault number F4) (utility_by (setting claims.now) (facts_in (setting claims.now) known.now) (map (text_in (setting claims.now).script) operands.now) (elements_from (setting claims.now).script elements.now) kind) (A.kept asked.old)) }
{
    let rule = FlowRule::F4;
    let left = utility_behind(claims, kind, elements, operands, known);
    tell_leaves(claims, Fault { number, rule }, &left, asked);
    let jumps = settled(claims, elements, known);
    tell_jumps(claims, around, number, kind, operands, &jumps, asked);
}

#[tactic(auto, using(sh_rules::proofs::NeutralLemmas::neutral_told), unfolding(sh_rules::specs::TextTells::told_by))]
fn tell_utility<A: Asked>(
    claims: &Claims<'_>,
    around: &Around<'_>,
    number: u32,
    kind: Kind,
    operands: &[WordText],
    elements: &[Element],
    asked: &mut A,
)
    ensures { A.kept asked.new ≡ spec.told_by A.asked (setting claims.now) number (walks.around (setting claims.now).script around.now) (elements_from (setting claims.now).script elements.now) kind (map (text_in (setting claims.now).script) operands.now) (A.kept asked.old) }
{
    let mut known = Knowledge::NotReached;
    behind_into(claims, number, elements, &mut known);
    if is_neutral(kind) {
        let rule = FlowRule::F4;
        tell_both(claims, Fault { number, rule }, &known, asked);
    } else {
        tell_kind(
            claims, around, number, kind, operands, elements, &known, asked,
        );
    }
}

#[tactic(auto, unfolding(sh_rules::specs::TextBounds::unless_failed))]
fn unless_failed<'a>(
    is_redirected: bool,
    known: &'a Knowledge,
    settled: &'a Knowledge,
) -> &'a Knowledge
    ensures { (x : Setting) → facts_in x result.now ≡ unless_failed is_redirected (facts_in x known.entry.now) (facts_in x settled.entry.now) }
{
    if is_redirected { known } else { settled }
}

// Of a simple command without a name. If it fails, a redirection may have failed, and no
// assignment need be done.
#[tactic(auto, unfolding(sh_rules::specs::Bounds::leaves_told, sh_rules::specs::TextBounds::nameless_by))]
fn tell_nameless<A: Asked>(claims: &Claims<'_>, number: u32, elements: &[Element], asked: &mut A)
    ensures { A.kept asked.new ≡ spec.nameless_told A.asked (setting claims.now) number (elements_from (setting claims.now).script elements.now) (A.kept asked.old) }
{
    let rule = FlowRule::F5;
    let fault = Fault { number, rule };
    let mut known = Knowledge::NotReached;
    behind_into(claims, number, elements, &mut known);
    let mut zero = known;
    gain_assignments(claims, elements, &mut zero);
    let nonzero = unless_failed(is_redirected(elements), &known, &zero);
    asked.bound(claims, Place::Zero(number), fault, &zero);
    asked.bound(claims, Place::Nonzero(number), fault, nonzero);
}

#[tactic(auto, unfolding(sh_rules::specs::TextTells::named_by))]
fn tell_named<A: Asked>(
    claims: &Claims<'_>,
    around: &Around<'_>,
    number: u32,
    is_call: bool,
    name: &[u8],
    operands: &[WordText],
    elements: &[Element],
    asked: &mut A,
)
    ensures { A.kept asked.new ≡ spec.named_by A.asked (setting claims.now) number (walks.around (setting claims.now).script around.now) (elements_from (setting claims.now).script elements.now) is_call name.now (map (text_in (setting claims.now).script) operands.now) (A.kept asked.old) }
{
    if is_call {
        tell_call(claims, number, name, elements, asked);
    } else {
        tell_utility(
            claims,
            around,
            number,
            kind_of(name),
            operands,
            elements,
            asked,
        );
    }
}

/// Of a simple command that calls a function or is a utility. Its words have these static texts,
/// its name first. It claims no more than is known after it by what its name means, and no more
/// where it jumps to.
#[tactic(auto, unfolding(sh_rules::specs::TextTells::simple_by, sh_rules::specs::Walks::setting))]
pub fn tell_simple<A: Asked>(
    claims: &Claims<'_>,
    around: &Around<'_>,
    number: u32,
    texts: &[WordText],
    is_call: bool,
    elements: &[Element],
    asked: &mut A,
)
    ensures { A.kept asked.new ≡ spec.simple_by A.asked (setting claims.now) number (walks.around (setting claims.now).script around.now) (elements_from (setting claims.now).script elements.now) is_call (map (text_in (setting claims.now).script) texts.now) (A.kept asked.old) }
{
    match texts {
        [] => tell_nameless(claims, number, elements, asked),
        [name, operands @ ..] => match name.get(claims.script) {
            Some(name) => tell_named(
                claims, around, number, is_call, name, operands, elements, asked,
            ),
            None => tell_utility(
                claims,
                around,
                number,
                Kind::Utility,
                operands,
                elements,
                asked,
            ),
        },
    }
}
