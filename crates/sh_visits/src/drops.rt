//! What a simple command drops; the function that it is in drops that too (XCU 2.9.1, 2.9.5, 2.15,
//! unset).
ghost use Rattle.std.specs.Prelude.{◌≡◌, fold, map, codes, if◌then◌else◌};
ghost use Rattle.std.specs.List.{list_any};
ghost use Rattle.std.specs.Str.{bytes_eq};
ghost use Rattle.sh_tree.specs.Lists.{elements_from};
ghost use Rattle.sh_tree.specs.standard.Tree.{text_of};
ghost use Rattle.sh_table.specs.WordTexts.{text_in};
ghost use Rattle.sh_runs.specs.standard.runs.Environment.{is_one_of};
ghost use Rattle.sh_domain.specs.Table.{prefixes};
ghost use Rattle.sh_rules.specs.Bounds as bounds;
ghost use Rattle.sh_rules.specs.CommandBounds as commands;
ghost use Rattle.sh_rules.specs.Losses as losses;
ghost use Rattle.sh_rules.specs.Reached as spec;
ghost use Rattle.sh_rules.specs.Settings.{certificate};
ghost use Rattle.sh_rules.specs.SimpleBounds as simple;
ghost use Rattle.sh_rules.specs.TextTells as tells;
ghost use Rattle.sh_rules.specs.Texts.{unset_by};
ghost use Rattle.sh_rules.specs.Walks.{facts_in, setting};

use sh_domain::{FlowRule, Knowledge};
use sh_operands::unset_operands;
use sh_rules::elements::behind_into;
use sh_rules::{Asked, Claims, Fault};
use sh_table::{Kind, WordText, kind_of};
use sh_tree::{Element, KnownName, Span, is_name};

// Whether some run comes to the command.
fn is_reached(claims: &Claims<'_>, number: u32) -> bool
    ensures { result ≡ spec.is_reached (setting claims.now) number }
{
    let mut known = Knowledge::NotReached;
    claims.before_into(number, &mut known);
    known.is_reached()
}

// Names

#[tactic(auto, unfolding(sh_rules::specs::Reached::variable_dropped))]
fn drop_variable<A: Asked>(
    claims: &Claims<'_>,
    number: u32,
    function: Span,
    name: &[u8],
    asked: &mut A,
)
    ensures { A.kept asked.new ≡ spec.variable_dropped A.asked (setting claims.now) number (text_of (setting claims.now).script function) (A.kept asked.old) name.now }
{
    let rule = FlowRule::F13;
    asked.drop_variable(claims, function, Fault { number, rule }, name);
}

#[tactic(auto, unfolding(sh_rules::specs::Reached::function_dropped))]
fn drop_function<A: Asked>(
    claims: &Claims<'_>,
    number: u32,
    function: Span,
    name: &[u8],
    asked: &mut A,
)
    ensures { A.kept asked.new ≡ spec.function_dropped A.asked (setting claims.now) number (text_of (setting claims.now).script function) (A.kept asked.old) name.now }
{
    let rule = FlowRule::F13;
    asked.drop_function(claims, function, Fault { number, rule }, name);
}

// A function of the script.
#[tactic(auto, unfolding(sh_rules::specs::Reached::defined_dropped, sh_rules::specs::Walks::setting))]
fn drop_defined<A: Asked>(
    claims: &Claims<'_>,
    number: u32,
    function: Span,
    name: &[u8],
    asked: &mut A,
)
    ensures { A.kept asked.new ≡ spec.defined_dropped A.asked (setting claims.now) number (text_of (setting claims.now).script function) (A.kept asked.old) name.now }
{
    if claims.calls.is_function(name) {
        drop_function(claims, number, function, name, asked);
    }
}

// `unset`

#[tactic(auto, unfolding(sh_rules::specs::Losses::by_name, sh_rules::specs::Walks::setting))]
fn drop_variable_text<A: Asked>(
    claims: &Claims<'_>,
    number: u32,
    function: Span,
    text: &WordText,
    asked: &mut A,
)
    ensures { A.kept asked.new ≡ losses.by_name (spec.variable_dropped A.asked (setting claims.now) number (text_of (setting claims.now).script function)) (A.kept asked.old) (text_in (setting claims.now).script text.now) }
{
    if let Some(name) = text.get(claims.script) {
        if is_name(name) {
            drop_variable(claims, number, function, name, asked);
        }
    }
}

fn drop_variables<A: Asked>(
    claims: &Claims<'_>,
    number: u32,
    function: Span,
    texts: &[WordText],
    asked: &mut A,
)
    ensures { A.kept asked.new ≡ fold (losses.texts_with (setting claims.now) (spec.variable_dropped A.asked (setting claims.now) number (text_of (setting claims.now).script function))) (A.kept asked.old) texts.now }
{
    for text in texts {
        drop_variable_text(claims, number, function, text, asked);
    }
}

#[tactic(auto, unfolding(sh_rules::specs::Losses::by_name, sh_rules::specs::Walks::setting))]
fn drop_function_text<A: Asked>(
    claims: &Claims<'_>,
    number: u32,
    function: Span,
    text: &WordText,
    asked: &mut A,
)
    ensures { A.kept asked.new ≡ losses.by_name (spec.defined_dropped A.asked (setting claims.now) number (text_of (setting claims.now).script function)) (A.kept asked.old) (text_in (setting claims.now).script text.now) }
{
    if let Some(name) = text.get(claims.script) {
        if is_name(name) {
            drop_defined(claims, number, function, name, asked);
        }
    }
}

fn drop_functions<A: Asked>(
    claims: &Claims<'_>,
    number: u32,
    function: Span,
    texts: &[WordText],
    asked: &mut A,
)
    ensures { A.kept asked.new ≡ fold (losses.texts_with (setting claims.now) (spec.defined_dropped A.asked (setting claims.now) number (text_of (setting claims.now).script function))) (A.kept asked.old) texts.now }
{
    for text in texts {
        drop_function_text(claims, number, function, text, asked);
    }
}

#[tactic(auto, unfolding(sh_rules::specs::Losses::where_taken))]
fn drop_variables_where<A: Asked>(
    takes: bool,
    claims: &Claims<'_>,
    number: u32,
    function: Span,
    texts: &[WordText],
    asked: &mut A,
)
    ensures { A.kept asked.new ≡ losses.where_taken takes (setting claims.now) (spec.variable_dropped A.asked (setting claims.now) number (text_of (setting claims.now).script function)) (A.kept asked.old) texts.now }
{
    if takes {
        drop_variables(claims, number, function, texts, asked);
    }
}

#[tactic(auto, unfolding(sh_rules::specs::Losses::where_taken))]
fn drop_functions_where<A: Asked>(
    takes: bool,
    claims: &Claims<'_>,
    number: u32,
    function: Span,
    texts: &[WordText],
    asked: &mut A,
)
    ensures { A.kept asked.new ≡ losses.where_taken takes (setting claims.now) (spec.defined_dropped A.asked (setting claims.now) number (text_of (setting claims.now).script function)) (A.kept asked.old) texts.now }
{
    if takes {
        drop_functions(claims, number, function, texts, asked);
    }
}

// The names that `unset` takes, of functions those that the script defines.
fn drop_unset<A: Asked>(
    claims: &Claims<'_>,
    number: u32,
    function: Span,
    operands: &[WordText],
    asked: &mut A,
)
    ensures { A.kept asked.new ≡ commands.drops_told A.asked (setting claims.now) number (text_of (setting claims.now).script function) (spec.unset_dropped (setting claims.now) (map (text_in (setting claims.now).script) operands.now)) (A.kept asked.old) }
{
    let (letters, names) = unset_operands(operands, claims.script);
    drop_variables_where(
        letters.takes_variables(),
        claims,
        number,
        function,
        names,
        asked,
    );
    drop_functions_where(
        letters.takes_functions(),
        claims,
        number,
        function,
        names,
        asked,
    );
}

#[tactic(auto, using(sh_rules::proofs::ReachedLemmas::where_there))]
fn tell_unset<A: Asked>(
    claims: &Claims<'_>,
    number: u32,
    function: Span,
    operands: &[WordText],
    asked: &mut A,
)
    ensures { A.kept asked.new ≡ commands.loses_told A.asked (setting claims.now) number (text_of (setting claims.now).script function) (spec.unset_dropped (setting claims.now) (map (text_in (setting claims.now).script) operands.now)) (A.kept asked.old) }
{
    if is_reached(claims, number) {
        drop_unset(claims, number, function, operands, asked);
    }
}

// OPTARG, which `getopts` may unset.
#[tactic(auto, using(sh_rules::proofs::ReachedLemmas::optarg_there))]
fn tell_optarg<A: Asked>(claims: &Claims<'_>, number: u32, function: Span, asked: &mut A)
    ensures { A.kept asked.new ≡ commands.loses_told A.asked (setting claims.now) number (text_of (setting claims.now).script function) commands.option_argument (A.kept asked.old) }
{
    if is_reached(claims, number) {
        drop_variable(claims, number, function, b"OPTARG", asked);
    }
}

#[tactic(auto, unfolding(sh_rules::specs::TextTells::utility_drops_by))]
fn tell_utility<A: Asked>(
    claims: &Claims<'_>,
    number: u32,
    function: Span,
    kind: Kind,
    operands: &[WordText],
    asked: &mut A,
)
    ensures { A.kept asked.new ≡ tells.utility_drops_by A.asked (setting claims.now) number (text_of (setting claims.now).script function) kind (map (text_in (setting claims.now).script) operands.now) (A.kept asked.old) }
{
    match kind {
        Kind::Special(KnownName::Unset) => tell_unset(claims, number, function, operands, asked),
        Kind::Getopts => tell_optarg(claims, number, function, asked),
        _ => (),
    }
}

// Calls

// What the function that is called drops.
#[tactic(auto, using(sh_rules::proofs::ReachedLemmas::where_there))]
fn tell_callee<A: Asked>(
    claims: &Claims<'_>,
    number: u32,
    function: Span,
    callee: &[u8],
    asked: &mut A,
)
    ensures { A.kept asked.new ≡ commands.loses_told A.asked (setting claims.now) number (text_of (setting claims.now).script function) ((certificate (setting claims.now)).drops callee.now) (A.kept asked.old) }
{
    if is_reached(claims, number) {
        let rule = FlowRule::F13;
        asked.drop_like(claims, function, Fault { number, rule }, callee);
    }
}

// The built-in utility `getopts` runs if no function of the name is defined.
#[tactic(auto, unfolding(sh_rules::specs::CommandBounds::builtin_drops_told))]
fn tell_builtin<A: Asked>(
    claims: &Claims<'_>,
    number: u32,
    function: Span,
    callee: &[u8],
    asked: &mut A,
)
    ensures { A.kept asked.new ≡ commands.builtin_drops_told A.asked (setting claims.now) number (text_of (setting claims.now).script function) (bytes_eq callee.now (codes "getopts")) (A.kept asked.old) }
{
    if callee == b"getopts".as_slice() {
        tell_optarg(claims, number, function, asked);
    }
}

#[tactic(auto, unfolding(sh_rules::specs::Reached::unknown_dropped, sh_rules::specs::Walks::facts_in, sh_rules::specs::Walks::setting))]
fn drop_unknown<A: Asked>(
    claims: &Claims<'_>,
    number: u32,
    function: Span,
    name: &[u8],
    known: &Knowledge,
    asked: &mut A,
)
    ensures { A.kept asked.new ≡ spec.unknown_dropped A.asked (setting claims.now) number (text_of (setting claims.now).script function) (facts_in (setting claims.now) known.now) (A.kept asked.old) name.now }
{
    if !known.has_variable(claims.names, name) {
        drop_variable(claims, number, function, name, asked);
    }
}

#[tactic(auto, using(sh_rules::proofs::ReachedLemmas::prefixed))]
fn drop_prefix<A: Asked>(
    claims: &Claims<'_>,
    number: u32,
    function: Span,
    element: &Element,
    known: &Knowledge,
    asked: &mut A,
)
    ensures { A.kept asked.new ≡ spec.prefix_dropped A.asked (setting claims.now) number (text_of (setting claims.now).script function) (facts_in (setting claims.now) known.now) (A.kept asked.old) element.now }
{
    match element {
        Element::Assignment { name, .. } => {
            drop_unknown(
                claims,
                number,
                function,
                (&*claims).text(*name),
                known,
                asked,
            )
        }
        Element::Word(_) => (),
        Element::Redirection(_) => (),
    }
}

fn drop_prefixes<A: Asked>(
    claims: &Claims<'_>,
    number: u32,
    function: Span,
    elements: &[Element],
    known: &Knowledge,
    asked: &mut A,
)
    ensures { A.kept asked.new ≡ fold (spec.prefix_dropped A.asked (setting claims.now) number (text_of (setting claims.now).script function) (facts_in (setting claims.now) known.now)) (A.kept asked.old) elements.now }
{
    for element in elements {
        drop_prefix(claims, number, function, element, known, asked);
    }
}

// The names of prefix assignments that are not known to be set.
#[tactic(auto, using(sh_rules::proofs::ReachedLemmas::prefixes_dropped))]
fn tell_prefixes<A: Asked>(
    claims: &Claims<'_>,
    number: u32,
    function: Span,
    elements: &[Element],
    known: &Knowledge,
    asked: &mut A,
)
    ensures { A.kept asked.new ≡ commands.drops_told A.asked (setting claims.now) number (text_of (setting claims.now).script function) (commands.unknown (facts_in (setting claims.now) known.now) (prefixes (elements_from (setting claims.now).script elements.now))) (A.kept asked.old) }
{
    drop_prefixes(claims, number, function, elements, known, asked);
}

#[tactic(auto, unfolding(sh_rules::specs::TextTells::call_drops_by))]
fn tell_call<A: Asked>(
    claims: &Claims<'_>,
    number: u32,
    function: Span,
    callee: &[u8],
    elements: &[Element],
    asked: &mut A,
)
    ensures { A.kept asked.new ≡ tells.call_drops_by A.asked (setting claims.now) number (text_of (setting claims.now).script function) (elements_from (setting claims.now).script elements.now) callee.now (A.kept asked.old) }
{
    tell_callee(claims, number, function, callee, asked);
    tell_builtin(claims, number, function, callee, asked);
    let mut known = Knowledge::NotReached;
    behind_into(claims, number, elements, &mut known);
    tell_prefixes(claims, number, function, elements, &known, asked);
}

#[tactic(auto, unfolding(sh_rules::specs::TextTells::named_drops_by))]
fn tell_named<A: Asked>(
    claims: &Claims<'_>,
    number: u32,
    function: Span,
    is_call: bool,
    name: &[u8],
    operands: &[WordText],
    elements: &[Element],
    asked: &mut A,
)
    ensures { A.kept asked.new ≡ tells.named_drops_by A.asked (setting claims.now) number (text_of (setting claims.now).script function) (elements_from (setting claims.now).script elements.now) is_call name.now (map (text_in (setting claims.now).script) operands.now) (A.kept asked.old) }
{
    if is_call {
        tell_call(claims, number, function, name, elements, asked);
    } else {
        tell_utility(claims, number, function, kind_of(name), operands, asked);
    }
}

/// What a simple command drops whose words have these static texts, its name first: by `unset` and
/// `getopts`, and what a call drops and assigns. This function drops it.
#[tactic(auto, unfolding(sh_rules::specs::TextTells::drops_by, sh_rules::specs::Walks::setting))]
pub fn tell_drops<A: Asked>(
    claims: &Claims<'_>,
    function: Span,
    number: u32,
    texts: &[WordText],
    is_call: bool,
    elements: &[Element],
    asked: &mut A,
)
    ensures { A.kept asked.new ≡ tells.drops_by A.asked (setting claims.now) number (text_of (setting claims.now).script function) (elements_from (setting claims.now).script elements.now) is_call (map (text_in (setting claims.now).script) texts.now) (A.kept asked.old) }
{
    if let [name, operands @ ..] = texts {
        if let Some(name) = name.get(claims.script) {
            tell_named(
                claims, number, function, is_call, name, operands, elements, asked,
            );
        }
    }
}
