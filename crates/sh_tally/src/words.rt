//! The counts at the entries of commands in words. After an expansion with `?` its parameter is set
//! (XCU 2.6.2).
ghost use Rattle.std.specs.Prelude.{◌≡◌, ℕ, Bool, false, List, IfOk};
ghost use Rattle.sh_tree.specs.Lists.{operands_from, parts_from};
ghost use Rattle.sh_tree.specs.standard.program.Syntax.{Text};
ghost use Rattle.sh_tree.specs.standard.program.Syntax as p;
ghost use Rattle.sh_tree.specs.standard.program.Trees as trees;
ghost use Rattle.sh_domain.specs.Entries as entries;
ghost use Rattle.sh_domain.specs.Gains as gains;
ghost use Rattle.sh_domain.specs.Views.{Seen};
ghost use Rattle.sh_tally.specs.Views.{Raised, See};
ghost use Rattle.sh_tally.specs.Walks.{Passes};

use crate::bounds::Tally;
use crate::views::Views;
use sh_counts::Equations;
use sh_rules::alone;
use sh_tree::{Action, Binary, Expr, ParameterOperator, Part, Subject as Parameter, Target, Word};
use std::alloc::AllocError;

// Whether an expansion assigns its parameter or ends the shell, if that is not set.
#[tactic(auto, unfolding(sh_domain::specs::Gains::operator_gains))]
fn sets(action: Action) -> bool
    ensures { result ≡ false → (x : p.Parameter) (colon : Bool) (w : p.Word) → gains.operator_gains x (p.Use action colon w) ≡ gains.no_gains }
{
    match action {
        Action::Default => false,
        Action::Assign => true,
        Action::Fault => true,
        Action::Alternative => false,
    }
}

// Where the parameter is set.
fn set(known: Views, parameter: Parameter) -> Views
    ensures { (b : List ℕ) → Raised (gains.sure (trees.parameter_of b parameter)).args known result }
{
    match parameter {
        Parameter::Name(_) => known,
        Parameter::Positional(number, _) => known.raised(number),
        Parameter::Special(_, _) => known,
    }
}

// After an expansion that assigns its parameter or ends the shell, the parameter is set.
fn set_after(known: Views, parameter: Parameter, action: Action) -> Views
    ensures { (b : List ℕ) (colon : Bool) (w : p.Word) → Raised (gains.operator_gains (trees.parameter_of b parameter) (p.Use action colon w)).args known result }
{
    if sets(action) {
        set(known, parameter)
    } else {
        known
    }
}

// In the word after an operator. That of `+` is expanded only if the parameter is set.
fn in_word(known: Views, parameter: Parameter, action: Action) -> Views
    ensures { (functions : List Text) (b : List ℕ) (q : Seen) → See functions q known → See functions (entries.operand_seen action (trees.parameter_of b parameter) q) result }
{
    if action.is_alternative() {
        set(known, parameter)
    } else {
        known
    }
}

impl Tally<'_> {
    /// Goes over the word that a redirection opens, or the body of a here-document.
    ///
    /// # Errors
    ///
    /// If a growth was refused.
    #[cycle(tally)]
    pub fn target(
        &self,
        equations: &mut Equations,
        known: Views,
        target: &Target,
    ) -> Result<Views, AllocError>
        ensures { IfOk result (λ left. Passes self.now (λ q. entries.redirect_entered q (trees.target_of self.now.script.now target.now)) (gains.redirect_gains (trees.target_of self.now.script.now target.now)) known left equations.old equations.new) }
    {
        match target {
            Target::File(_, word) => self.word(equations, known, word),
            Target::Here(here) => self.word(equations, known, &here.body),
        }
    }

    /// Goes over a word. Returns what is known after it.
    ///
    /// # Errors
    ///
    /// If a growth was refused.
    #[cycle(tally)]
    pub fn word(
        &self,
        equations: &mut Equations,
        known: Views,
        word: &Word,
    ) -> Result<Views, AllocError>
        ensures { IfOk result (λ left. Passes self.now (λ q. entries.word_entered q (parts_from self.now.script.now word.now.parts)) (gains.word_gains (parts_from self.now.script.now word.now.parts)) known left equations.old equations.new) }
    {
        self.word_parts(equations, known, word.parts.as_slice())
    }

    #[cycle(tally)]
    fn word_parts(
        &self,
        equations: &mut Equations,
        known: Views,
        parts: &[Part],
    ) -> Result<Views, AllocError>
        ensures { IfOk result (λ left. Passes self.now (λ q. entries.word_entered q (parts_from self.now.script.now parts.now)) (gains.word_gains (parts_from self.now.script.now parts.now)) known left equations.old equations.new) }
    {
        let mut left = known;
        for part in parts {
            left = self.part(equations, left, part)?;
        }
        Ok(left)
    }

    #[cycle(tally)]
    fn part(
        &self,
        equations: &mut Equations,
        known: Views,
        part: &Part,
    ) -> Result<Views, AllocError>
        ensures { IfOk result (λ left. Passes self.now (λ q. entries.part_entered q (trees.part_of self.now.script.now part.now)) (gains.part_gains (trees.part_of self.now.script.now part.now)) known left equations.old equations.new) }
    {
        match part {
            Part::Plain(_) => Ok(known),
            Part::Escaped(_) => Ok(known),
            Part::Single(_, _) => Ok(known),
            Part::Tilde(_) => Ok(known),
            Part::Joined(_) => Ok(known),
            Part::Double(_, parts) => self.word_parts(equations, known, parts.as_slice()),
            Part::Param(param) => self.operator(equations, known, param.subject, &param.operator),
            Part::Arith(_, expression) => self.arithmetic(equations, known, expression.get()),
            Part::Command(_, _, list) => {
                self.list(equations, &alone(), known, list)?;
                Ok(known)
            }
        }
    }

    // What the word of an operator would set is not counted, since it may not be expanded.
    #[cycle(tally)]
    fn operator(
        &self,
        equations: &mut Equations,
        known: Views,
        parameter: Parameter,
        operator: &ParameterOperator,
    ) -> Result<Views, AllocError>
        ensures { IfOk result (λ left. Passes self.now (λ q. entries.operator_entered q (trees.parameter_of self.now.script.now parameter) (trees.operator_of self.now.script.now operator.now)) (gains.operator_gains (trees.parameter_of self.now.script.now parameter) (trees.operator_of self.now.script.now operator.now)) known left equations.old equations.new) }
    {
        match operator {
            ParameterOperator::Value => Ok(known),
            ParameterOperator::Length => Ok(known),
            ParameterOperator::Remove { pattern, .. } => {
                self.word(equations, known, pattern)?;
                Ok(known)
            }
            ParameterOperator::Use { action, word, .. } => {
                self.word(equations, in_word(known, parameter, *action), word)?;
                Ok(set_after(known, parameter, *action))
            }
        }
    }

    // All expansions in arithmetic come before it is computed. It sets no positional parameter.
    #[cycle(tally)]
    fn arithmetic(
        &self,
        equations: &mut Equations,
        known: Views,
        expression: &Expr,
    ) -> Result<Views, AllocError>
        ensures { IfOk result (λ left. Passes self.now (λ q. entries.expression_entered q (trees.expression_of self.now.script.now expression.now)) (gains.expanded_gains (trees.expression_of self.now.script.now expression.now)) known left equations.old equations.new) }
    {
        match expression {
            Expr::Constant(_) => Ok(known),
            Expr::Variable(_) => Ok(known),
            Expr::Expansion(part) => self.part(equations, known, part),
            Expr::Parenthesis(inner) => self.arithmetic(equations, known, inner.get()),
            Expr::Unary { operand, .. } => self.arithmetic(equations, known, operand.get()),
            Expr::Chain { first, rest } => {
                let left = self.arithmetic(equations, known, first.get())?;
                self.chain(equations, left, rest.as_slice())
            }
            Expr::Choice { condition, yes, no } => {
                let tested = self.arithmetic(equations, known, condition.get())?;
                let left = self.arithmetic(equations, tested, yes.get())?;
                self.arithmetic(equations, left, no.get())
            }
            Expr::Assign { value, .. } => self.arithmetic(equations, known, value.get()),
        }
    }

    #[cycle(tally)]
    fn chain(
        &self,
        equations: &mut Equations,
        known: Views,
        rest: &[(Binary, Expr)],
    ) -> Result<Views, AllocError>
        ensures { IfOk result (λ left. Passes self.now (λ q. entries.operands_entered q (operands_from self.now.script.now rest.now)) (gains.operands_gains (operands_from self.now.script.now rest.now)) known left equations.old equations.new) }
    {
        let mut left = known;
        for link in rest {
            left = self.arithmetic(equations, left, &link.1)?;
        }
        Ok(left)
    }
}
