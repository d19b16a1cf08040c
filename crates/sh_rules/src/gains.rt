//! What is known after words and names, of the names that are numbered (XCU 2.6).
ghost use Rattle.std.specs.Prelude.{◌≡◌, [], ◌∷◌};
ghost use Rattle.sh_tree.specs.Lists.{parts_from, redirects_from};
ghost use Rattle.sh_tree.specs.standard.program.Trees.{expression_of, parameter_of};
ghost use Rattle.sh_domain.specs.Gains.{assigned_in, named, redirects_gains, sure, word_gains};
ghost use Rattle.sh_gains.specs.Knowing.{inner_gains, action_gains};
ghost use Rattle.sh_rules.specs.Settings.{gained};
ghost use Rattle.sh_rules.specs.Walks.{facts_in, setting};

use crate::claims::Claims;
use sh_domain::Knowledge;
use sh_gains::gains as words;
use sh_tree::{Action, Expr, Redirect, Subject, Word};

/// A variable is set from here on.
#[tactic(auto, using(crate::proofs::GainLemmas::name_gained))]
pub fn gain_variable(claims: &Claims<'_>, name: &[u8], known: &mut Knowledge)
    ensures { facts_in (setting claims.now) known.new ≡ gained (setting claims.now) (named (name.now ∷ [])) (facts_in (setting claims.now) known.old) }
{
    known.gain(claims.names, name);
}

/// What is known after a word.
#[tactic(auto, using(crate::proofs::GainLemmas::word_known))]
pub fn gain_word(claims: &Claims<'_>, word: &Word, known: &mut Knowledge)
    ensures { facts_in (setting claims.now) known.new ≡ gained (setting claims.now) (word_gains (parts_from (setting claims.now).script word.now.parts)) (facts_in (setting claims.now) known.old) }
{
    words::gain_word(word, claims.script, claims.names, known);
}

// What is known after redirections.
#[tactic(auto, using(crate::proofs::GainLemmas::redirects_known))]
fn gain_all(claims: &Claims<'_>, redirects: &[Redirect], known: &mut Knowledge)
    ensures { facts_in (setting claims.now) known.new ≡ gained (setting claims.now) (redirects_gains (redirects_from (setting claims.now).script redirects.now)) (facts_in (setting claims.now) known.old) }
{
    words::gain_redirects(redirects, claims.script, claims.names, known);
}

/// What is known after redirections.
#[tactic(auto, using(crate::proofs::GainLemmas::no_redirects))]
pub fn gain_redirects(claims: &Claims<'_>, redirects: &[Redirect], known: &mut Knowledge)
    ensures { facts_in (setting claims.now) known.new ≡ gained (setting claims.now) (redirects_gains (redirects_from (setting claims.now).script redirects.now)) (facts_in (setting claims.now) known.old) }
{
    match redirects {
        [] => (),
        [_, ..] => gain_all(claims, redirects, known),
    }
}

/// The parameter is set.
#[tactic(auto, using(crate::proofs::GainLemmas::subject_known))]
fn gain_subject(claims: &Claims<'_>, subject: Subject, known: &mut Knowledge)
    ensures { facts_in (setting claims.now) known.new ≡ gained (setting claims.now) (sure (parameter_of (setting claims.now).script subject)) (facts_in (setting claims.now) known.old) }
{
    words::gain_subject(subject, claims.script, claims.names, known);
}

/// What an expansion with an operator and a word leaves set.
#[tactic(auto, using(crate::proofs::GainLemmas::action_known))]
pub fn gain_action(claims: &Claims<'_>, action: Action, subject: Subject, known: &mut Knowledge)
    ensures { facts_in (setting claims.now) known.new ≡ gained (setting claims.now) (action_gains (parameter_of (setting claims.now).script subject) action) (facts_in (setting claims.now) known.old) }
{
    words::gain_action(action, subject, claims.script, claims.names, known);
}

/// The names that arithmetic is sure to assign are set.
#[tactic(auto, using(crate::proofs::GainLemmas::assigned_known))]
pub fn gain_assigned(claims: &Claims<'_>, expression: &Expr, known: &mut Knowledge)
    ensures { facts_in (setting claims.now) known.new ≡ gained (setting claims.now) (named (assigned_in (expression_of (setting claims.now).script expression.now))) (facts_in (setting claims.now) known.old) }
{
    words::gain_assigned(expression, claims.script, claims.names, known);
}

/// If the word of `+` is expanded, its parameter is set.
#[tactic(auto, using(crate::proofs::GainLemmas::actions))]
pub fn enter_operator(claims: &Claims<'_>, action: Action, subject: Subject, known: &mut Knowledge)
    ensures { facts_in (setting claims.now) known.new ≡ gained (setting claims.now) (inner_gains (parameter_of (setting claims.now).script subject) action) (facts_in (setting claims.now) known.old) }
{
    match action {
        Action::Default => (),
        Action::Assign => (),
        Action::Fault => (),
        Action::Alternative => gain_subject(claims, subject, known),
    }
}
