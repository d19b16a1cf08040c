//! What is around the place where a word is read.
use sh_tree::{
    Action, Binary, CommandStyle, Context, Expr, Items, Part, Removal, Span, Subject, Unary,
};

/// What takes the next part.
#[derive(Drop)]
pub enum Holder {
    /// The parts of a context, after the plain byte `prior`, or 0.
    Parts {
        context: Context,
        prior: u8,
        parts: Items<Part>,
    },
    /// An operand of the arithmetic expansion that begins at `start`; the context is that of its
    /// expansions.
    Operand {
        context: Context,
        start: u32,
    },
}

/// What was opened.
#[derive(Clone, Copy, PartialEq, Eq)]
pub enum Opening {
    /// Double quotes (XCU 2.2.3).
    Double,
    /// A braced expansion with a word, and whether a colon is before its operator (XCU 2.6.2).
    Use(Subject, Action, bool),
    /// A braced expansion with a pattern.
    Remove(Subject, Removal),
    /// An arithmetic expansion (XCU 2.6.4).
    Arith,
}

/// An operation of arithmetic while one of its operands is read. The depth is the one around it.
#[derive(Drop)]
pub enum Operation {
    Parenthesis {
        depth: u8,
    },
    Unary {
        depth: u8,
        operator: Unary,
    },
    /// The first operand of a level.
    First {
        level: u8,
    },
    /// The operand after `operator`.
    More {
        level: u8,
        first: Expr,
        rest: Items<(Binary, Expr)>,
        operator: Binary,
    },
    /// What may be the condition of `?`.
    Condition,
    /// What is between `?` and `:`.
    Yes {
        depth: u8,
        condition: Expr,
    },
    /// What follows `:`.
    No {
        depth: u8,
        condition: Expr,
        yes: Expr,
    },
    /// The right side of an assignment.
    Assign {
        depth: u8,
        name: Span,
        operator: Option<Binary>,
    },
}

/// What is around.
#[derive(Drop)]
pub enum Frame {
    /// A part that begins at `start` and whose inside begins at `inside`; what takes the part, and
    /// the depth there.
    Opened {
        holder: Holder,
        depth: u8,
        start: u32,
        inside: u32,
        opening: Opening,
    },
    Operation(Operation),
}

/// What is done next.
#[derive(Drop)]
pub enum Focus {
    /// The word begins.
    Start,
    /// The next part of a context is read.
    Parts,
    /// An expression is read.
    Expression,
    /// One that is no assignment.
    Conditional,
    /// One of binary operators of the level or of tighter ones.
    Level(u8),
    /// An expression was read.
    Have(Expr),
    /// The commands of the substitution at an offset come back.
    Commands(u32, CommandStyle),
}
