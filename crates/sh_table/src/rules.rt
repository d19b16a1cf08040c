//! The rule of the profile that a command breaks.
ghost use Rattle.std.specs.Prelude.{◌≡◌, Bool, not, map};
ghost use Rattle.sh_table.specs.Admits as admits;
ghost use Rattle.sh_runs.specs.standard.Kinds as kinds;
ghost use Rattle.sh_runs.specs.Profile as profile;
ghost use Rattle.sh_table.specs.Walks as walks;
ghost use Rattle.sh_table.specs.WordTexts.{text_in};
ghost use Rattle.sh_runs.specs.standard.runs.Numbers as numbers;
ghost use Rattle.sh_runs.specs.standard.runs.Rows as rows;
ghost use Rattle.sh_runs.specs.declared.kind.Kind.TheVariants as kind;

use crate::numbers::number_in;
use crate::operands::{
    are_counts, are_static, commands_utility, is_append, sets_known, traps_nothing,
};
use crate::site::{Around, Form, Site};
use crate::word_text::WordText;
use sh_runs::{Kind, kind_of};
use sh_tree::{Declaration, KnownName, Rule};

/// The rule, unless the test holds.
#[tactic(auto, unfolding(sh_runs::specs::Profile::unless))]
fn unless(holds: bool, rule: Rule) -> Option<Rule>
    ensures { result ≡ profile.unless holds rule }
{
    if holds { None } else { Some(rule) }
}

/// Whether other shells reserve the word, which is a utility if it is quoted.
#[tactic(auto, unfolding(sh_runs::specs::standard::runs::Rows::is_reserved_elsewhere))]
fn is_reserved_elsewhere(name: KnownName) -> bool
    ensures { result ≡ rows.is_reserved_elsewhere name }
{
    match name {
        KnownName::LeftBrackets => true,
        KnownName::RightBrackets => true,
        KnownName::Function => true,
        KnownName::Select => true,
        KnownName::Time => true,
        KnownName::Namespace => true,
        _ => false,
    }
}

// Whether a text writes no number, or one that is no greater than this.
fn is_at_most(text: &[u8], most: u8) -> bool
    ensures { result ≡ profile.is_at_most most (numbers.number_in text.now) }
{
    match number_in(text) {
        None => true,
        Some(number) => number <= u32::from(most),
    }
}

// Whether there are as many loops as the first operand of a jump says, or it says no number.
#[tactic(auto, unfolding(sh_runs::specs::Profile::are_enough))]
fn are_enough(loops: u8, operands: &[WordText], script: &[u8]) -> bool
    ensures { result ≡ profile.are_enough loops (map (text_in script.now) operands.now) }
{
    match operands {
        [] => true,
        [first, ..] => match first.get(script) {
            None => true,
            Some(text) => is_at_most(text, loops),
        },
    }
}

// Whether a jump is in a loop, and in a part of a pipeline stays there.
fn jumps_inside(around: Around, operands: &[WordText], script: &[u8]) -> bool
    ensures { result ≡ profile.jumps_inside (walks.around around) (map (text_in script.now) operands.now) }
{
    around.loops > 0 && (!around.beyond || are_enough(around.loops, operands, script))
}

#[tactic(auto, unfolding(sh_runs::specs::Profile::or_rule))]
fn count_rule(counts: bool, operand: Rule, inside: bool, outside: Rule) -> Option<Rule>
    ensures { result ≡ profile.or_rule (profile.unless counts operand) (profile.unless inside outside) }
{
    match unless(counts, operand) {
        Some(rule) => Some(rule),
        None => unless(inside, outside),
    }
}

#[tactic(auto, unfolding(sh_runs::specs::Profile::kind_rule))]
fn special_rule(
    around: Around,
    quoted: bool,
    name: KnownName,
    operands: &[WordText],
    script: &[u8],
) -> Option<Rule>
    ensures { result ≡ profile.kind_rule (walks.around around) quoted (kind.Special name) (map (text_in script.now) operands.now) }
{
    match name {
        KnownName::Dot => Some(Rule::Refused(KnownName::Dot)),
        KnownName::Eval => Some(Rule::Refused(KnownName::Eval)),
        KnownName::Export => unless(!quoted, Rule::Quoted(Declaration::Export)),
        KnownName::Readonly => unless(!quoted, Rule::Quoted(Declaration::Readonly)),
        KnownName::Trap => unless(traps_nothing(operands, script), Rule::TrapAction),
        KnownName::Unset => unless(are_static(operands, script), Rule::UnsetOperand),
        KnownName::Set => unless(sets_known(operands, script), Rule::SetOperand),
        KnownName::Break => count_rule(
            are_counts(operands, script),
            Rule::BreakOperand,
            jumps_inside(around, operands, script),
            Rule::BreakOutside,
        ),
        KnownName::Continue => count_rule(
            are_counts(operands, script),
            Rule::ContinueOperand,
            jumps_inside(around, operands, script),
            Rule::ContinueOutside,
        ),
        KnownName::Return => unless(around.in_function, Rule::ReturnOutside),
        _ => None,
    }
}

#[tactic(auto, unfolding(sh_runs::specs::Profile::kind_rule))]
fn kind_rule(
    around: Around,
    quoted: bool,
    kind: Kind,
    operands: &[WordText],
    script: &[u8],
) -> Option<Rule>
    ensures { result ≡ profile.kind_rule (walks.around around) quoted kind (map (text_in script.now) operands.now) }
{
    match kind {
        Kind::Special(name) => special_rule(around, quoted, name, operands, script),
        Kind::Refused(name) => unless(is_reserved_elsewhere(name), Rule::Refused(name)),
        Kind::Command => unless(commands_utility(operands, script), Rule::CommandUse),
        Kind::Cd => None,
        Kind::False => None,
        Kind::Getopts => None,
        Kind::Read => None,
        Kind::True => None,
        Kind::Utility => None,
    }
}

#[tactic(auto, unfolding(sh_runs::specs::Profile::or_rule))]
fn named_rule(
    around: Around,
    quoted: bool,
    name: &[u8],
    operands: &[WordText],
    script: &[u8],
) -> Option<Rule>
    ensures { result ≡ admits.static_rule (walks.around around) quoted name.now (map (text_in script.now) operands.now) }
{
    match kind_rule(around, quoted, kind_of(name), operands, script) {
        Some(rule) => Some(rule),
        None => unless(!is_append(name), Rule::Append),
    }
}

#[tactic(auto, unfolding(crate::specs::Admits::text_rule))]
fn text_rule(around: Around, quoted: bool, texts: &[WordText], script: &[u8]) -> Option<Rule>
    ensures { result ≡ admits.text_rule (walks.around around) quoted (map (text_in script.now) texts.now) }
{
    match texts {
        [] => None,
        [first, operands @ ..] => match first.get(script) {
            None => Some(Rule::ComputedName),
            Some(name) => named_rule(around, quoted, name, operands, script),
        },
    }
}

#[tactic(auto, unfolding(sh_runs::specs::Profile::function_rule, sh_runs::specs::Profile::told_name))]
fn function_rule(name: &[u8]) -> Option<Rule>
    ensures { result ≡ profile.function_rule (profile.told_name (kinds.kind_of name.now)) }
{
    match kind_of(name) {
        Kind::Special(known) => Some(Rule::FunctionNamed(known)),
        Kind::Refused(known) => Some(Rule::FunctionNamed(known)),
        Kind::Cd => None,
        Kind::Command => None,
        Kind::False => None,
        Kind::Getopts => None,
        Kind::Read => None,
        Kind::True => None,
        Kind::Utility => None,
    }
}

/// The first rule that the command whose words have these texts breaks.
#[tactic(auto, unfolding(crate::specs::Admits::rule_of, crate::specs::Walks::seen_form))]
pub fn site_rule(site: &Site, texts: &[WordText], script: &[u8]) -> Option<Rule>
    ensures { result ≡ admits.rule_of (walks.around site.now.around) (walks.seen_form script.now site.now.form) (map (text_in script.now) texts.now) }
{
    match site.form {
        Form::Simple { quoted } => text_rule(site.around, quoted, texts, script),
        Form::Defines(name) => function_rule(name.text(script)),
        Form::Other => None,
    }
}
