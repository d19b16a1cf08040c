//! Arithmetic (XCU 2.6.4).
ghost use Rattle.std.specs.Prelude.{◌≡◌, ◌≤◌, length, MatchResult};
ghost use Rattle.sh_tree.specs.declared.token.arithmetic.Figure.TheVariants as figure;
ghost use Rattle.sh_tree.specs.standard.language.Arithmetic as arithmetic;
ghost use Rattle.sh_tree.specs.standard.language.Arithmetic.{unary_level};
ghost use Rattle.sh_words.specs.Clauses.{Steps};
ghost use Rattle.sh_words.specs.Rest.{Left};
ghost use Rattle.sh_words.specs.Sound.{IsSound, StepMoves, StepSound, StepWorks};
ghost use Rattle.sh_words.specs.States.{focused, operating};

use super::signs::is_expansion;
use super::tokens::{assigned, lexeme, operand_of, span_of};
use super::{Next, WordBuilder};
use crate::frames::{Focus, Holder, Operation};
use sh_scan::{token_at, unary_of};
use sh_tree::{Fault, Figure, MAX_SCRIPT, Refusal};

/// The level of unary operators and operands, after those of binary operators.
const UNARY_LEVEL: u8 = 10;

impl WordBuilder {
    /// An expression begins.
    pub(crate) fn expression_step(&mut self, script: &[u8]) -> Result<Option<Next>, Refusal>
        requires small { length script.now ≤ MAX_SCRIPT }
        requires inside { self.old.at ≤ length script.now }
        requires sound { IsSound script.now (focused self.old Focus.Expression) }
        ensures keeps { Steps script.now (Left script.now (focused self.old Focus.Expression)) self.new result }
        ensures moves { StepMoves script.now self.old self.new result }
        ensures sound { StepSound script.now result self.new }
        ensures works { StepWorks script.now (focused self.old Focus.Expression) self.new result }
    {
        let first = lexeme(script, self.at);
        let second = lexeme(script, first.end);
        match assigned(first.figure, second.figure) {
            None => {
                self.focus = Focus::Conditional;
                Ok(None)
            }
            Some(operator) => {
                let operation = Operation::Assign {
                    depth: self.depth,
                    name: span_of(first),
                    operator,
                };
                let value = lexeme(script, second.end);
                self.enter(operation, Focus::Expression, second.end, value.start)
            }
        }
    }

    /// An expression begins that is no assignment.
    pub(crate) fn conditional_step(&mut self) -> Result<(), Refusal>
        ensures { MatchResult result (λ _. self.new ≡ operating self.old Operation.Condition self.old.depth (Focus.Level 0) self.old.at) (λ e. e ≡ Refusal.Memory) }
    {
        self.operate(Operation::Condition, self.depth, Focus::Level(0), self.at)
    }

    /// An expression of a level begins.
    pub(crate) fn level_step(&mut self, script: &[u8], level: u8) -> Result<Option<Next>, Refusal>
        requires small { length script.now ≤ MAX_SCRIPT }
        requires inside { self.old.at ≤ length script.now }
        requires sound { IsSound script.now (focused self.old (Focus.Level level)) }
        ensures keeps { Steps script.now (Left script.now (focused self.old (Focus.Level level))) self.new result }
        ensures moves { StepMoves script.now self.old self.new result }
        ensures sound { StepSound script.now result self.new }
        ensures works { StepWorks script.now (focused self.old (Focus.Level level)) self.new result }
    {
        if level == UNARY_LEVEL {
            return self.operand_step(script);
        }
        let operation = Operation::First { level };
        self.operate(operation, self.depth, Focus::Level(level + 1), self.at)?;
        Ok(None)
    }

    /// A unary expression or an operand begins.
    fn operand_step(&mut self, script: &[u8]) -> Result<Option<Next>, Refusal>
        requires small { length script.now ≤ MAX_SCRIPT }
        requires inside { self.old.at ≤ length script.now }
        requires sound { IsSound script.now (focused self.old (Focus.Level unary_level)) }
        ensures keeps { Steps script.now (Left script.now (focused self.old (Focus.Level unary_level))) self.new result }
        ensures moves { StepMoves script.now self.old self.new result }
        ensures sound { StepSound script.now result self.new }
        ensures works { StepWorks script.now (focused self.old (Focus.Level unary_level)) self.new result }
    {
        let token = lexeme(script, self.at);
        if let Some(operator) = unary_of(token.figure) {
            let operation = Operation::Unary {
                depth: self.depth,
                operator,
            };
            return self.enter(operation, Focus::Level(UNARY_LEVEL), token.end, token.start);
        }
        if let Some(expr) = operand_of(token) {
            self.have(self.depth, expr, token.end);
            return Ok(None);
        }
        if token.figure == Figure::Open {
            let operation = Operation::Parenthesis { depth: self.depth };
            return self.enter(operation, Focus::Expression, token.end, token.start);
        }
        if token.figure == Figure::Dollar {
            return self.expansion_step(script, token.start);
        }
        Err(self.bad(token))
    }

    /// An operand begins with the `$` at `start`.
    fn expansion_step(&mut self, script: &[u8], start: u32) -> Result<Option<Next>, Refusal>
        requires small { length script.now ≤ MAX_SCRIPT }
        requires after { self.old.at ≤ start }
        requires inside { start ≤ length script.now }
        requires sound { IsSound script.now (focused self.old (Focus.Level unary_level)) }
        requires dollar { (arithmetic.lexeme script.now self.old.at).figure ≡ figure.Dollar }
        requires here { start ≡ (arithmetic.lexeme script.now self.old.at).start }
        ensures keeps { Steps script.now (Left script.now (focused self.old (Focus.Level unary_level))) self.new result }
        ensures moves { StepMoves script.now self.old self.new result }
        ensures sound { StepSound script.now result self.new }
        ensures works { StepWorks script.now (focused self.old (Focus.Level unary_level)) self.new result }
    {
        let Holder::Operand { context, .. } = &self.holder else {
            return Err(Refusal::Syntax(Fault::BadArith, start));
        };
        let token = token_at(script, *context, 0, start);
        if is_expansion(token.sign) {
            return self.part_step(script, token, start);
        }
        Err(self.no_part(token, start))
    }
}
