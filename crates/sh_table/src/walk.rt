//! A walk over the commands of a script, those in its words included.
ghost use Rattle.std.specs.Prelude.{◌≡◌, ◌++◌, ℕ, List, fold, flat_map, OnOk};
ghost use Rattle.sh_tree.specs.standard.program.Trees.{script_of};
ghost use Rattle.sh_runs.specs.Surroundings.{Located, outside, items_located};
ghost use Rattle.sh_table.specs.Walks as walks;

use crate::site::Around;
use sh_tree::{
    AndOr, Binary, Branch, Clause, Command, Element, Expr, Kind, ParameterOperator, Part, Pipe,
    Script, Target, Word,
};

/// What is done at each command of a script.
pub trait Visitor {
    // What is kept of the commands of a text that were visited.
    ghost Kept: { Type 0 };

    // Whether the visitor keeps it.
    ghost keeps: { List ℕ → Self → Kept → Type 0 };

    // The same with one command more.
    ghost with_command: { Kept → Located → Kept };

    /// Why a walk may end before its last command.
    type Error;

    /// Visits a command, with what is round it.
    ///
    /// # Errors
    ///
    /// Those of the visitor; the walk ends with them.
    fn visit(&mut self, around: Around, command: &Command, script: &[u8]) -> Result<(), Self::Error>
        ensures { (k : Kept) → keeps script.now self.old k → OnOk result (keeps script.now self.new (with_command k (walks.located script.now around command.now))) };
}

/// Round the list of a started process, and round the script.
const OUTSIDE: Around = Around {
    loops: 0,
    in_function: false,
    beyond: false,
};

/// Round the body of a function.
const IN_FUNCTION: Around = Around {
    loops: 0,
    in_function: true,
    beyond: false,
};

impl Around {
    /// Round the condition and the body of a loop.
    fn inside_loop(self) -> Around
        ensures { result ≡ walks.inside_loop self }
    {
        Around {
            loops: self.loops.saturating_add(1),
            ..self
        }
    }

    /// Round the parts of a pipeline: two or more are processes of their own.
    fn round_parts(self, count: usize) -> Around
        ensures { result ≡ walks.round_parts self count }
    {
        if count > 1 {
            Around {
                beyond: self.loops > 0 || self.beyond,
                ..OUTSIDE
            }
        } else {
            self
        }
    }

    /// Round an item: an asynchronous one is a process of its own.
    fn round_item(self, background: bool) -> Around
        ensures { result ≡ walks.round_item self background }
    {
        if background { OUTSIDE } else { self }
    }
}

#[cycle(walk)]
fn walk_script<V: Visitor>(
    around: Around,
    list: &Script,
    script: &[u8],
    visitor: &mut V,
) -> Result<(), V::Error>
    ensures { (k : V.Kept) → V.keeps script.now visitor.old k → OnOk result (V.keeps script.now visitor.new (fold V.with_command k (walks.of_script script.now around list.now))) }
{
    for item in list.items.as_slice() {
        walk_and_or(
            around.round_item(item.background),
            &item.list,
            script,
            visitor,
        )?;
    }
    Ok(())
}

#[cycle(walk)]
fn walk_and_or<V: Visitor>(
    around: Around,
    list: &AndOr,
    script: &[u8],
    visitor: &mut V,
) -> Result<(), V::Error>
    ensures { (k : V.Kept) → V.keeps script.now visitor.old k → OnOk result (V.keeps script.now visitor.new (fold V.with_command k (walks.of_and_or script.now around list.now))) }
{
    walk_pipe(around, &list.first, script, visitor)?;
    for link in list.rest.as_slice() {
        walk_pipe(around, &link.1, script, visitor)?;
    }
    Ok(())
}

#[cycle(walk)]
fn walk_pipe<V: Visitor>(
    around: Around,
    pipe: &Pipe,
    script: &[u8],
    visitor: &mut V,
) -> Result<(), V::Error>
    ensures { (k : V.Kept) → V.keeps script.now visitor.old k → OnOk result (V.keeps script.now visitor.new (fold V.with_command k (walks.of_pipe script.now around pipe.now))) }
{
    let parts = pipe.parts.as_slice();
    let inner = around.round_parts(parts.len());
    for command in parts {
        walk_command(inner, command, script, visitor)?;
    }
    Ok(())
}

#[cycle(walk)]
fn walk_command<V: Visitor>(
    around: Around,
    command: &Command,
    script: &[u8],
    visitor: &mut V,
) -> Result<(), V::Error>
    ensures { (k : V.Kept) → V.keeps script.now visitor.old k → OnOk result (V.keeps script.now visitor.new (fold V.with_command k (walks.of_command script.now around command.now))) }
{
    visitor.visit(around, command, script)?;
    walk_kind(around, &command.kind, script, visitor)?;
    for redirect in command.redirects.as_slice() {
        walk_target(&redirect.target, script, visitor)?;
    }
    Ok(())
}

#[cycle(walk)]
#[tactic(auto, using(crate::proofs::WalkLemmas::kinds))]
fn walk_kind<V: Visitor>(
    around: Around,
    kind: &Kind,
    script: &[u8],
    visitor: &mut V,
) -> Result<(), V::Error>
    ensures { (k : V.Kept) → V.keeps script.now visitor.old k → OnOk result (V.keeps script.now visitor.new (fold V.with_command k (walks.of_kind script.now around kind.now))) }
{
    match kind {
        Kind::Simple(elements) => walk_elements(elements.as_slice(), script, visitor),
        Kind::Group(list) => walk_script(around, list, script, visitor),
        Kind::Subshell(list) => walk_script(OUTSIDE, list, script, visitor),
        Kind::Cond {
            branches,
            otherwise,
        } => {
            walk_branches(around, branches.as_slice(), script, visitor)?;
            walk_otherwise(around, otherwise, script, visitor)
        }
        Kind::Loop {
            condition,
            body,
            ..
        } => {
            walk_script(around.inside_loop(), condition, script, visitor)?;
            walk_script(around.inside_loop(), body, script, visitor)
        }
        Kind::For { words, body, .. } => match words {
            Some(words) => {
                walk_words(words.as_slice(), script, visitor)?;
                walk_script(around.inside_loop(), body, script, visitor)
            }
            None => walk_script(around.inside_loop(), body, script, visitor),
        },
        Kind::Branches { word, clauses } => {
            walk_word(word, script, visitor)?;
            walk_clauses(around, clauses.as_slice(), script, visitor)
        }
        Kind::Define { body, .. } => walk_command(IN_FUNCTION, body.get(), script, visitor),
    }
}

#[cycle(walk)]
fn walk_otherwise<V: Visitor>(
    around: Around,
    otherwise: &Option<Script>,
    script: &[u8],
    visitor: &mut V,
) -> Result<(), V::Error>
    ensures { (k : V.Kept) → V.keeps script.now visitor.old k → OnOk result (V.keeps script.now visitor.new (fold V.with_command k (walks.of_option (walks.of_script script.now around) otherwise.now))) }
{
    match otherwise {
        Some(list) => walk_script(around, list, script, visitor),
        None => Ok(()),
    }
}

#[cycle(walk)]
fn walk_elements<V: Visitor>(
    elements: &[Element],
    script: &[u8],
    visitor: &mut V,
) -> Result<(), V::Error>
    ensures { (k : V.Kept) → V.keeps script.now visitor.old k → OnOk result (V.keeps script.now visitor.new (fold V.with_command k (flat_map (walks.of_element script.now) elements.now))) }
{
    for element in elements {
        walk_element(element, script, visitor)?;
    }
    Ok(())
}

#[cycle(walk)]
#[tactic(auto, using(crate::proofs::WalkLemmas::elements))]
fn walk_element<V: Visitor>(
    element: &Element,
    script: &[u8],
    visitor: &mut V,
) -> Result<(), V::Error>
    ensures { (k : V.Kept) → V.keeps script.now visitor.old k → OnOk result (V.keeps script.now visitor.new (fold V.with_command k (walks.of_element script.now element.now))) }
{
    match element {
        Element::Assignment { value, .. } => walk_word(value, script, visitor),
        Element::Word(word) => walk_word(word, script, visitor),
        Element::Redirection(redirect) => walk_target(&redirect.target, script, visitor),
    }
}

#[cycle(walk)]
fn walk_branches<V: Visitor>(
    around: Around,
    branches: &[Branch],
    script: &[u8],
    visitor: &mut V,
) -> Result<(), V::Error>
    ensures { (k : V.Kept) → V.keeps script.now visitor.old k → OnOk result (V.keeps script.now visitor.new (fold V.with_command k (flat_map (walks.of_branch script.now around) branches.now))) }
{
    for branch in branches {
        walk_script(around, &branch.condition, script, visitor)?;
        walk_script(around, &branch.body, script, visitor)?;
    }
    Ok(())
}

#[cycle(walk)]
fn walk_words<V: Visitor>(words: &[Word], script: &[u8], visitor: &mut V) -> Result<(), V::Error>
    ensures { (k : V.Kept) → V.keeps script.now visitor.old k → OnOk result (V.keeps script.now visitor.new (fold V.with_command k (flat_map (walks.of_word script.now) words.now))) }
{
    for word in words {
        walk_word(word, script, visitor)?;
    }
    Ok(())
}

#[cycle(walk)]
fn walk_word<V: Visitor>(word: &Word, script: &[u8], visitor: &mut V) -> Result<(), V::Error>
    ensures { (k : V.Kept) → V.keeps script.now visitor.old k → OnOk result (V.keeps script.now visitor.new (fold V.with_command k (walks.of_word script.now word.now))) }
{
    walk_parts(word.parts.as_slice(), script, visitor)
}

#[cycle(walk)]
fn walk_clauses<V: Visitor>(
    around: Around,
    clauses: &[Clause],
    script: &[u8],
    visitor: &mut V,
) -> Result<(), V::Error>
    ensures { (k : V.Kept) → V.keeps script.now visitor.old k → OnOk result (V.keeps script.now visitor.new (fold V.with_command k (flat_map (walks.of_clause script.now around) clauses.now))) }
{
    for clause in clauses {
        walk_words(clause.patterns.as_slice(), script, visitor)?;
        walk_script(around, &clause.body, script, visitor)?;
    }
    Ok(())
}

#[cycle(walk)]
#[tactic(auto, using(crate::proofs::WalkLemmas::targets))]
fn walk_target<V: Visitor>(target: &Target, script: &[u8], visitor: &mut V) -> Result<(), V::Error>
    ensures { (k : V.Kept) → V.keeps script.now visitor.old k → OnOk result (V.keeps script.now visitor.new (fold V.with_command k (walks.of_target script.now target.now))) }
{
    match target {
        Target::File(_, word) => walk_word(word, script, visitor),
        Target::Here(here) => walk_word(&here.body, script, visitor),
    }
}

#[cycle(walk)]
fn walk_parts<V: Visitor>(parts: &[Part], script: &[u8], visitor: &mut V) -> Result<(), V::Error>
    ensures { (k : V.Kept) → V.keeps script.now visitor.old k → OnOk result (V.keeps script.now visitor.new (fold V.with_command k (flat_map (walks.of_part script.now) parts.now))) }
{
    for part in parts {
        walk_part(part, script, visitor)?;
    }
    Ok(())
}

#[cycle(walk)]
#[tactic(auto, using(crate::proofs::WalkLemmas::parts))]
fn walk_part<V: Visitor>(part: &Part, script: &[u8], visitor: &mut V) -> Result<(), V::Error>
    ensures { (k : V.Kept) → V.keeps script.now visitor.old k → OnOk result (V.keeps script.now visitor.new (fold V.with_command k (walks.of_part script.now part.now))) }
{
    match part {
        Part::Double(_, parts) => walk_parts(parts.as_slice(), script, visitor),
        Part::Param(param) => walk_operator(&param.operator, script, visitor),
        Part::Arith(_, expression) => walk_expression(expression.get(), script, visitor),
        Part::Command(_, _, list) => walk_script(OUTSIDE, list, script, visitor),
        Part::Plain(_) => Ok(()),
        Part::Escaped(_) => Ok(()),
        Part::Single(_, _) => Ok(()),
        Part::Tilde(_) => Ok(()),
        Part::Joined(_) => Ok(()),
    }
}

#[cycle(walk)]
#[tactic(auto, using(crate::proofs::WalkLemmas::operators))]
fn walk_operator<V: Visitor>(
    operator: &ParameterOperator,
    script: &[u8],
    visitor: &mut V,
) -> Result<(), V::Error>
    ensures { (k : V.Kept) → V.keeps script.now visitor.old k → OnOk result (V.keeps script.now visitor.new (fold V.with_command k (walks.of_operator script.now operator.now))) }
{
    match operator {
        ParameterOperator::Value => Ok(()),
        ParameterOperator::Length => Ok(()),
        ParameterOperator::Use { word, .. } => walk_word(word, script, visitor),
        ParameterOperator::Remove { pattern, .. } => walk_word(pattern, script, visitor),
    }
}

#[cycle(walk)]
fn walk_chain<V: Visitor>(
    rest: &[(Binary, Expr)],
    script: &[u8],
    visitor: &mut V,
) -> Result<(), V::Error>
    ensures { (k : V.Kept) → V.keeps script.now visitor.old k → OnOk result (V.keeps script.now visitor.new (fold V.with_command k (flat_map (walks.of_step script.now) rest.now))) }
{
    for link in rest {
        walk_expression(&link.1, script, visitor)?;
    }
    Ok(())
}

#[cycle(walk)]
#[tactic(auto, using(crate::proofs::WalkLemmas::expressions))]
fn walk_expression<V: Visitor>(
    expression: &Expr,
    script: &[u8],
    visitor: &mut V,
) -> Result<(), V::Error>
    ensures { (k : V.Kept) → V.keeps script.now visitor.old k → OnOk result (V.keeps script.now visitor.new (fold V.with_command k (walks.of_expression script.now expression.now))) }
{
    match expression {
        Expr::Constant(_) => Ok(()),
        Expr::Variable(_) => Ok(()),
        Expr::Expansion(part) => walk_part(part, script, visitor),
        Expr::Parenthesis(inner) => walk_expression(inner.get(), script, visitor),
        Expr::Unary { operand, .. } => walk_expression(operand.get(), script, visitor),
        Expr::Chain { first, rest } => {
            walk_expression(first.get(), script, visitor)?;
            walk_chain(rest.as_slice(), script, visitor)
        }
        Expr::Choice { condition, yes, no } => {
            walk_expression(condition.get(), script, visitor)?;
            walk_expression(yes.get(), script, visitor)?;
            walk_expression(no.get(), script, visitor)
        }
        Expr::Assign { value, .. } => walk_expression(value.get(), script, visitor),
    }
}

/// Visits each command of a script, those in its words included: a command before those in it.
/// Those in the elements of a simple command come in their order. Those in the redirections of a
/// compound command come after all else in it. The walk takes no memory.
///
/// # Errors
///
/// The first one of the visitor.
#[tactic(auto, unfolding(crate::specs::Walks::of_script))]
pub fn walk<V: Visitor>(list: &Script, script: &[u8], visitor: &mut V) -> Result<(), V::Error>
    ensures { (k : V.Kept) → V.keeps script.now visitor.old k → OnOk result (V.keeps script.now visitor.new (fold V.with_command k (items_located outside (script_of script.now list.now)))) }
{
    walk_script(OUTSIDE, list, script, visitor)
}
