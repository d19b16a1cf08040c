//! Where a simple command jumps to: after a loop, to its next turn, or out of a function (XCU 2.15,
//! break, continue and return).
ghost use Rattle.std.specs.Prelude.{◌≡◌, map, option_map, Some, None};
ghost use Rattle.sh_tree.specs.standard.Tree.{text_of};
ghost use Rattle.sh_table.specs.WordTexts.{text_in};
ghost use Rattle.sh_domain.specs.Rules as rules;
ghost use Rattle.sh_rules.specs.SimpleBounds as simple;
ghost use Rattle.sh_rules.specs.TextTells as spec;
ghost use Rattle.sh_rules.specs.Walks as walks;
ghost use Rattle.sh_rules.specs.Walks.{facts_in, loops_of, setting};

use crate::texts::{first_number, return_status};
use sh_domain::{FlowRule, Knowledge};
use sh_rules::{Around, Asked, Claims, Fault, Loops, Place};
use sh_table::{Kind, WordText};
use sh_tree::{KnownName, Span};

// The loop of a jump over so many loops: counted from inside, or the outermost.
#[tactic(auto, unfolding(sh_rules::specs::Walks::loops_of, sh_domain::specs::Rules::loop_at))]
fn loop_at(count: u32, loops: &Loops<'_>) -> Option<u32>
    ensures { result ≡ rules.loop_at count (loops_of loops.now) }
{
    match loops {
        Loops::Outside => None,
        Loops::Inside(number, outer) => match outer {
            Loops::Outside => Some(*number),
            Loops::Inside(_, _) => {
                if count <= 1 {
                    Some(*number)
                } else {
                    loop_at(count - 1, outer)
                }
            }
        },
    }
}

/// The loop of a jump over so many loops, if their number is known.
#[tactic(auto, unfolding(sh_domain::specs::Rules::jump_loop))]
pub fn jump_loop(count: Option<u32>, loops: &Loops<'_>) -> Option<u32>
    ensures { result ≡ rules.jump_loop count (loops_of loops.now) }
{
    match count {
        Some(count) => loop_at(count, loops),
        None => None,
    }
}

// Of a `break` by the command of this number, after this loop.
#[tactic(auto, unfolding(sh_rules::specs::SimpleBounds::breaks_told))]
fn tell_break<A: Asked>(
    claims: &Claims<'_>,
    number: u32,
    jumped: Option<u32>,
    known: &Knowledge,
    asked: &mut A,
)
    ensures { A.kept asked.new ≡ simple.breaks_told A.asked (setting claims.now) number (facts_in (setting claims.now) known.now) jumped (A.kept asked.old) }
{
    let rule = FlowRule::F15;
    if let Some(left) = jumped {
        asked.bound(claims, Place::Zero(left), Fault { number, rule }, known);
        asked.bound(claims, Place::Nonzero(left), Fault { number, rule }, known);
    }
}

// Of a `continue`, to the next turn of this loop.
#[tactic(auto, unfolding(sh_rules::specs::SimpleBounds::continues_told))]
fn tell_continue<A: Asked>(
    claims: &Claims<'_>,
    number: u32,
    jumped: Option<u32>,
    known: &Knowledge,
    asked: &mut A,
)
    ensures { A.kept asked.new ≡ simple.continues_told A.asked (setting claims.now) number (facts_in (setting claims.now) known.now) jumped (A.kept asked.old) }
{
    let rule = FlowRule::F15;
    if let Some(turned) = jumped {
        asked.bound(claims, Place::Head(turned), Fault { number, rule }, known);
    }
}

// Of a `return` with status zero, or with another one.
#[tactic(auto, unfolding(sh_rules::specs::SimpleBounds::returns_with_told))]
fn tell_return_with<A: Asked>(
    claims: &Claims<'_>,
    number: u32,
    name: Span,
    status: u32,
    known: &Knowledge,
    asked: &mut A,
)
    ensures { A.kept asked.new ≡ simple.returns_with_told A.asked (setting claims.now) number (facts_in (setting claims.now) known.now) (Some status) (text_of (setting claims.now).script name) (A.kept asked.old) }
{
    let rule = FlowRule::F15;
    let fault = Fault { number, rule };
    if status == 0 {
        asked.bound(claims, Place::ReturnZero(name), fault, known);
    } else {
        asked.bound(claims, Place::ReturnNonzero(name), fault, known);
    }
}

// Of a `return` with any status.
#[tactic(auto, unfolding(sh_rules::specs::SimpleBounds::returns_with_told))]
fn tell_any_return<A: Asked>(
    claims: &Claims<'_>,
    number: u32,
    name: Span,
    known: &Knowledge,
    asked: &mut A,
)
    ensures { A.kept asked.new ≡ simple.returns_with_told A.asked (setting claims.now) number (facts_in (setting claims.now) known.now) None (text_of (setting claims.now).script name) (A.kept asked.old) }
{
    let rule = FlowRule::F15;
    let fault = Fault { number, rule };
    asked.bound(claims, Place::ReturnZero(name), fault, known);
    asked.bound(claims, Place::ReturnNonzero(name), fault, known);
}

// Of a `return` out of the function of this name, with this status, or with any.
fn tell_return<A: Asked>(
    claims: &Claims<'_>,
    number: u32,
    name: Span,
    status: Option<u32>,
    known: &Knowledge,
    asked: &mut A,
)
    ensures { A.kept asked.new ≡ simple.returns_with_told A.asked (setting claims.now) number (facts_in (setting claims.now) known.now) status (text_of (setting claims.now).script name) (A.kept asked.old) }
{
    match status {
        Some(status) => tell_return_with(claims, number, name, status, known, asked),
        None => tell_any_return(claims, number, name, known, asked),
    }
}

// Out of the function that it is in, if it is in one.
#[tactic(auto, unfolding(sh_rules::specs::SimpleBounds::returns_told))]
fn tell_returning<A: Asked>(
    claims: &Claims<'_>,
    number: u32,
    function: Option<Span>,
    status: Option<u32>,
    known: &Knowledge,
    asked: &mut A,
)
    ensures { A.kept asked.new ≡ simple.returns_told A.asked (setting claims.now) number (facts_in (setting claims.now) known.now) status (option_map (text_of (setting claims.now).script) function) (A.kept asked.old) }
{
    if let Some(name) = function {
        tell_return(claims, number, name, status, known, asked);
    }
}

/// Of a jump by a utility of this kind, with this known.
#[tactic(auto, unfolding(sh_rules::specs::TextTells::jumps_by, sh_rules::specs::Walks::setting))]
pub fn tell_jumps<A: Asked>(
    claims: &Claims<'_>,
    around: &Around<'_>,
    number: u32,
    kind: Kind,
    operands: &[WordText],
    known: &Knowledge,
    asked: &mut A,
)
    ensures { A.kept asked.new ≡ spec.jumps_by A.asked (setting claims.now) number (facts_in (setting claims.now) known.now) (walks.around (setting claims.now).script around.now) kind (map (text_in (setting claims.now).script) operands.now) (A.kept asked.old) }
{
    match kind {
        Kind::Special(KnownName::Break) => {
            let count = first_number(operands, claims.script);
            tell_break(
                claims,
                number,
                jump_loop(count, &around.loops),
                known,
                asked,
            );
        }
        Kind::Special(KnownName::Continue) => {
            let count = first_number(operands, claims.script);
            tell_continue(
                claims,
                number,
                jump_loop(count, &around.loops),
                known,
                asked,
            );
        }
        Kind::Special(KnownName::Return) => {
            let status = return_status(operands, claims.script);
            tell_returning(claims, number, around.function, status, known, asked);
        }
        _ => (),
    }
}
