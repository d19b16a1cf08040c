//! What follows an operand of arithmetic (XCU 2.6.4).
ghost use Rattle.std.specs.Prelude.{◌≡◌, ◌<◌, ◌≤◌, length, MatchResult};
ghost use Rattle.sh_words.specs.Clauses.{Steps};
ghost use Rattle.sh_words.specs.Faults as faults;
ghost use Rattle.sh_words.specs.Faults.{IsFault};
ghost use Rattle.sh_words.specs.Lexemes as lexemes;
ghost use Rattle.sh_words.specs.Lexemes.{IsLexeme};
ghost use Rattle.sh_words.specs.Operations.{ClosesArithmetic, Reaches, first_read, is_left, is_level_left, leaving, more_read};
ghost use Rattle.sh_words.specs.Steps.{Enters};
ghost use Rattle.sh_tree.specs.standard.language.Arithmetic as arithmetic;
ghost use Rattle.sh_tree.specs.standard.language.Arithmetic.{unary_level};
ghost use Rattle.sh_words.specs.Rest.{Left};
ghost use Rattle.sh_words.specs.Sound.{Began, Deep, IsSound, StepMoves, StepSound, StepWorks};
ghost use Rattle.sh_words.specs.States.{focused, framed, had, operating};

use super::signs::is_expansion;
use super::tokens::{begins_operand, follows, lexeme};
use super::{Next, WordBuilder};
use crate::frames::{Focus, Frame, Holder, Opening, Operation};
use sh_scan::{behind_joined, binary_of, is_closed, token_at};
use sh_tree::{
    Binary, Boxed, Expr, Fault, Figure, Form, Items, Lexeme, MAX_SCRIPT, Part, Refusal, Span, Unary,
};

impl Operation {
    /// Whether it is a level that does not have such a token as an operator.
    #[tactic(auto, unfolding(crate::specs::Operations::is_level_left))]
    fn is_left(&self, figure: Figure) -> bool
        ensures { result ≡ is_level_left figure self.now }
    {
        match self {
            Operation::First { level } => binary_of(*level, figure).is_none(),
            Operation::More { .. }
            | Operation::Parenthesis { .. }
            | Operation::Unary { .. }
            | Operation::Condition
            | Operation::Yes { .. }
            | Operation::No { .. }
            | Operation::Assign { .. } => false,
        }
    }
}

impl Frame {
    /// Whether it is a level that does not have such a token as an operator.
    #[tactic(auto, unfolding(crate::specs::Operations::is_left))]
    fn is_left(&self, figure: Figure) -> bool
        ensures { result ≡ is_left figure self.now }
    {
        match self {
            Frame::Operation(operation) => operation.is_left(figure),
            Frame::Opened { .. } => false,
        }
    }
}

impl WordBuilder {
    /// An expression was read.
    pub(crate) fn have_step(&mut self, script: &[u8], expr: Expr) -> Result<Option<Next>, Refusal>
        requires small { length script.now ≤ MAX_SCRIPT }
        requires inside { self.old.at ≤ length script.now }
        requires sound { IsSound script.now (focused self.old (Focus.Have expr)) }
        ensures keeps { Steps script.now (Left script.now (focused self.old (Focus.Have expr))) self.new result }
        ensures moves { StepMoves script.now self.old self.new result }
        ensures sound { StepSound script.now result self.new }
        ensures works { StepWorks script.now (focused self.old (Focus.Have expr)) self.new result }
    {
        let token = lexeme(script, self.at);
        self.leave_levels(token.figure);
        self.expression_read(script, expr, token)
    }

    /// Leaves the levels that do not have the token as an operator: no more operands of theirs
    /// follow.
    #[tactic(auto, unfolding(crate::specs::Operations::levels_left))]
    fn leave_levels(&mut self, figure: Figure)
        ensures { self.new ≡ leaving self.old figure }
    {
        while let Some(frame) = self.frames.top() {
            if !frame.is_left(figure) {
                return;
            }
            self.frames.drop_top();
        }
    }

    /// An expression was read, before the token.
    fn expression_read(
        &mut self,
        script: &[u8],
        expr: Expr,
        token: Lexeme,
    ) -> Result<Option<Next>, Refusal>
        requires small { length script.now ≤ MAX_SCRIPT }
        requires inside { self.old.at ≤ length script.now }
        requires token { IsLexeme script.now self.old.at token }
        requires sound { IsSound script.now (focused self.old (Focus.Have expr)) }
        ensures keeps { Steps script.now (Left script.now (focused self.old (Focus.Have expr))) self.new result }
        ensures moves { StepMoves script.now self.old self.new result }
        ensures sound { StepSound script.now result self.new }
        ensures works { StepWorks script.now (focused self.old (Focus.Have expr)) self.new result }
    {
        let Holder::Operand { .. } = &self.holder else {
            return Err(Refusal::Syntax(Fault::BadArith, self.at));
        };
        if !follows(token.figure) {
            return Err(self.misplaced(script, &expr, token));
        }
        match self.frames.pop() {
            None => Err(self.bad(token)),
            Some(
                Frame::Opened {
                    holder,
                    depth,
                    start,
                    opening,
                    ..
                },
            ) => self.close_arithmetic(script, holder, depth, start, opening, expr, token),
            Some(Frame::Operation(operation)) => self.operand_read(script, operation, expr, token),
        }
    }

    /// A token that cannot come after the expression. An expansion that touches another operand is
    /// no whole one.
    fn misplaced(&self, script: &[u8], expr: &Expr, token: Lexeme) -> Refusal
        requires small { length script.now ≤ MAX_SCRIPT }
        requires token { IsLexeme script.now self.now.at token }
        requires began { Began script.now self.now.holder }
        requires frames { Deep script.now self.now.base self.now.frames }
        ensures { IsFault script.now result }
    {
        if token.start != self.at || !begins_operand(token.figure) {
            return self.bad(token);
        }
        let Some(start) = operand_start(expr, token.start) else {
            return self.bad(token);
        };
        let place = start.min(token.start);
        if token.figure == Figure::Dollar {
            return self.touching(script, token.start, place);
        }
        if matches!(expr, Expr::Constant(_) | Expr::Variable(_)) {
            return self.bad(token);
        }
        Refusal::LeftOut(Form::Arithmetic, place)
    }

    /// What the `$` at `start` begins touches an operand. Of two expansions the first is reported,
    /// at `place`.
    fn touching(&self, script: &[u8], start: u32, place: u32) -> Refusal
        requires small { length script.now ≤ MAX_SCRIPT }
        requires inside { start < length script.now }
        requires before { place ≤ start }
        requires frames { Deep script.now self.now.base self.now.frames }
        ensures { IsFault script.now result }
    {
        let token = token_at(script, self.holder.context(), 0, start);
        if is_expansion(token.sign) {
            Refusal::LeftOut(Form::Arithmetic, place)
        } else {
            self.no_part(token, start)
        }
    }

    /// An operand of the operation was read.
    fn operand_read(
        &mut self,
        script: &[u8],
        operation: Operation,
        expr: Expr,
        token: Lexeme,
    ) -> Result<Option<Next>, Refusal>
        requires small { length script.now ≤ MAX_SCRIPT }
        requires inside { self.old.at ≤ length script.now }
        requires token { IsLexeme script.now self.old.at token }
        requires sound { IsSound script.now (framed self.old (Frame.Operation operation) (Focus.Have expr)) }
        ensures keeps { Steps script.now (Left script.now (framed self.old (Frame.Operation operation) (Focus.Have expr))) self.new result }
        ensures moves { StepMoves script.now self.old self.new result }
        ensures sound { StepSound script.now result self.new }
        ensures works { StepWorks script.now (framed self.old (Frame.Operation operation) (Focus.Have expr)) self.new result }
    {
        match operation {
            Operation::Parenthesis { depth } => self.parenthesis_read(depth, expr, token)?,
            Operation::Unary { depth, operator } => self.unary_read(depth, operator, expr)?,
            Operation::First { level } => self.first_read(level, expr, token)?,
            Operation::More {
                level,
                first,
                rest,
                operator,
            } => self.more_read(level, first, rest, operator, expr, token)?,
            Operation::Condition => return self.condition_read(script, expr, token),
            Operation::Yes { depth, condition } => self.yes_read(depth, condition, expr, token)?,
            Operation::No {
                depth,
                condition,
                yes,
            } => self.choice_read(depth, condition, yes, expr)?,
            Operation::Assign {
                depth,
                name,
                operator,
            } => self.value_read(depth, name, operator, expr)?,
        }
        Ok(None)
    }

    /// What may be a condition was read, before the token.
    fn condition_read(
        &mut self,
        script: &[u8],
        expr: Expr,
        token: Lexeme,
    ) -> Result<Option<Next>, Refusal>
        requires small { length script.now ≤ MAX_SCRIPT }
        requires inside { self.old.at ≤ length script.now }
        requires token { IsLexeme script.now self.old.at token }
        requires sound { IsSound script.now (framed self.old (Frame.Operation Operation.Condition) (Focus.Have expr)) }
        ensures keeps { Steps script.now (Left script.now (framed self.old (Frame.Operation Operation.Condition) (Focus.Have expr))) self.new result }
        ensures moves { StepMoves script.now self.old self.new result }
        ensures sound { StepSound script.now result self.new }
        ensures works { StepWorks script.now (framed self.old (Frame.Operation Operation.Condition) (Focus.Have expr)) self.new result }
    {
        if token.figure == Figure::Question {
            return self.enter_choice(script, expr, token);
        }
        self.have(self.depth, expr, self.at);
        Ok(None)
    }

    /// What is in parentheses was read, before the token.
    fn parenthesis_read(&mut self, depth: u8, inner: Expr, token: Lexeme) -> Result<(), Refusal>
        ensures { Reaches (lexemes.is_close token.figure) (faults.bad self.old.holder token.figure token.start) (had self.old depth (Expr.Parenthesis inner) token.end) self.new result }
    {
        if token.figure != Figure::Close {
            return Err(self.bad(token));
        }
        let whole = Expr::Parenthesis(Boxed::new(self.alloc, inner)?);
        self.have(depth, whole, token.end);
        Ok(())
    }

    fn unary_read(&mut self, depth: u8, operator: Unary, operand: Expr) -> Result<(), Refusal>
        ensures { MatchResult result (λ _. self.new ≡ had self.old depth (Expr.Unary operator operand) self.old.at) (λ e. e ≡ Refusal.Memory) }
    {
        let operand = Boxed::new(self.alloc, operand)?;
        self.have(depth, Expr::Unary { operator, operand }, self.at);
        Ok(())
    }

    /// The first operand of a level was read, before the token.
    fn first_read(&mut self, level: u8, expr: Expr, token: Lexeme) -> Result<(), Refusal>
        requires level { level < unary_level }
        ensures { MatchResult result (λ _. self.new ≡ first_read self.old level expr token) (λ e. e ≡ Refusal.Memory) }
    {
        match binary_of(level, token.figure) {
            None => self.have(self.depth, expr, self.at),
            Some(operator) => {
                let operation = Operation::More {
                    level,
                    first: expr,
                    rest: Items::new(self.alloc),
                    operator,
                };
                self.operate(operation, self.depth, Focus::Level(level + 1), token.end)?;
            }
        }
        Ok(())
    }

    /// One more operand of a level was read, before the token.
    fn more_read(
        &mut self,
        level: u8,
        first: Expr,
        mut rest: Items<(Binary, Expr)>,
        operator: Binary,
        expr: Expr,
        token: Lexeme,
    ) -> Result<(), Refusal>
        requires level { level < unary_level }
        ensures { MatchResult result (λ _. self.new ≡ more_read self.old level first rest operator expr token) (λ e. e ≡ Refusal.Memory) }
    {
        rest.push((operator, expr))?;
        match binary_of(level, token.figure) {
            None => {
                let first = Boxed::new(self.alloc, first)?;
                self.have(self.depth, Expr::Chain { first, rest }, self.at);
            }
            Some(operator) => {
                let operation = Operation::More {
                    level,
                    first,
                    rest,
                    operator,
                };
                self.operate(operation, self.depth, Focus::Level(level + 1), token.end)?;
            }
        }
        Ok(())
    }

    /// A choice by the condition follows the `?` of the token.
    fn enter_choice(
        &mut self,
        script: &[u8],
        condition: Expr,
        token: Lexeme,
    ) -> Result<Option<Next>, Refusal>
        requires small { length script.now ≤ MAX_SCRIPT }
        requires within { token.end ≤ length script.now }
        ensures enters { Enters self.old (Operation.Yes self.old.depth condition) Focus.Expression token.end (arithmetic.lexeme script.now token.end).start self.new result }
        ensures inside { (arithmetic.lexeme script.now token.end).start ≤ length script.now }
    {
        let operation = Operation::Yes {
            depth: self.depth,
            condition,
        };
        let first = lexeme(script, token.end);
        self.enter(operation, Focus::Expression, token.end, first.start)
    }

    /// What is between `?` and `:` was read, before the token.
    fn yes_read(
        &mut self,
        depth: u8,
        condition: Expr,
        yes: Expr,
        token: Lexeme,
    ) -> Result<(), Refusal>
        ensures { Reaches (lexemes.is_colon token.figure) (faults.bad self.old.holder token.figure token.start) (operating self.old (Operation.No depth condition yes) self.old.depth Focus.Conditional token.end) self.new result }
    {
        if token.figure != Figure::Colon {
            return Err(self.bad(token));
        }
        let operation = Operation::No {
            depth,
            condition,
            yes,
        };
        self.operate(operation, self.depth, Focus::Conditional, token.end)
    }

    fn choice_read(
        &mut self,
        depth: u8,
        condition: Expr,
        yes: Expr,
        no: Expr,
    ) -> Result<(), Refusal>
        ensures { MatchResult result (λ _. self.new ≡ had self.old depth (Expr.Choice condition yes no) self.old.at) (λ e. e ≡ Refusal.Memory) }
    {
        let condition = Boxed::new(self.alloc, condition)?;
        let yes = Boxed::new(self.alloc, yes)?;
        let no = Boxed::new(self.alloc, no)?;
        self.have(depth, Expr::Choice { condition, yes, no }, self.at);
        Ok(())
    }

    fn value_read(
        &mut self,
        depth: u8,
        name: Span,
        operator: Option<Binary>,
        value: Expr,
    ) -> Result<(), Refusal>
        ensures { MatchResult result (λ _. self.new ≡ had self.old depth (Expr.Assign name operator value) self.old.at) (λ e. e ≡ Refusal.Memory) }
    {
        let value = Boxed::new(self.alloc, value)?;
        let whole = Expr::Assign {
            name,
            operator,
            value,
        };
        self.have(depth, whole, self.at);
        Ok(())
    }

    /// The expression of the arithmetic expansion at `start` was read, before the token.
    fn close_arithmetic(
        &mut self,
        script: &[u8],
        holder: Holder,
        depth: u8,
        start: u32,
        opening: Opening,
        expr: Expr,
        token: Lexeme,
    ) -> Result<Option<Next>, Refusal>
        requires small { length script.now ≤ MAX_SCRIPT }
        requires token { IsLexeme script.now self.old.at token }
        requires begun { start ≤ length script.now }
        requires began { Began script.now self.old.holder }
        ensures { ClosesArithmetic script.now self.old holder depth start opening expr token self.new result }
    {
        if !opening.is_arithmetic() || token.figure != Figure::Close {
            return Err(self.bad(token));
        }
        if !is_closed(script, token.end) {
            return Err(unclosed(script, start, token));
        }
        let end = token.end + 1;
        let part = Part::Arith(Span { start, end }, Boxed::new(self.alloc, expr)?);
        self.holder = holder;
        self.depth = depth;
        self.give(0, part, end)?;
        Ok(None)
    }
}

/// A closing parenthesis of the expansion at `start` with no second one after it. The text ends, a
/// line continuation hides the second one, or something else is there.
fn unclosed(script: &[u8], start: u32, token: Lexeme) -> Refusal
    requires ordered { token.start ≤ token.end }
    requires within { token.end ≤ length script.now }
    requires begun { start ≤ length script.now }
    ensures { IsFault script.now result }
{
    let rest = &script[token.end as usize..];
    if rest.is_empty() {
        return Refusal::Syntax(Fault::OpenArith, start);
    }
    match behind_joined(rest) {
        [] => Refusal::Syntax(Fault::OpenArith, start),
        [b')', ..] => Refusal::LeftOut(Form::Continuation, token.end),
        _ => Refusal::Syntax(Fault::BadArith, token.start),
    }
}

/// Where the expansion begins that the expression is, or `at` if it is a number or a name.
fn operand_start(expr: &Expr, at: u32) -> Option<u32> {
    match expr {
        Expr::Constant(_) | Expr::Variable(_) => Some(at),
        Expr::Expansion(Part::Param(param)) => Some(param.span.start),
        Expr::Expansion(Part::Arith(span, _) | Part::Command(_, span, _)) => Some(span.start),
        _ => None,
    }
}
