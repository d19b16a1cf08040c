//! The tree. Literal text is a span of the script.
ghost use Rattle.std.specs.Prelude.{◌≡◌};
ghost use Rattle.sh_tree.specs.standard.Tree.{text_of};
ghost use Rattle.sh_tree.specs.standard.Words.{elements_of};
ghost use Rattle.sh_tree.specs.standard.language.Parts as parts;
ghost use Rattle.sh_tree.specs.standard.language.Words as words;
ghost use Rattle.sh_tree.specs.declared.tree.Command.{out-Command};

use crate::boxed::Boxed;
use crate::items::Items;

/// A range of the script's bytes: from `start`, up to and without `end`.
#[derive(Clone, Copy, Debug, PartialEq, Eq)]
pub struct Span {
    pub start: u32,
    pub end: u32,
}

impl Span {
    /// The bytes of the span. Of a text that is shorter than the span, those that are there.
    pub fn text(self, script: &[u8]) -> &[u8]
        ensures { result.now ≡ text_of script.entry.now self }
    {
        let end = script.len().min(self.end as usize);
        let start = end.min(self.start as usize);
        &script[start..end]
    }
}

/// The items of a list, in order (XCU 2.9.3).
#[cycle(tree)]
#[derive(Drop)]
pub struct Script {
    pub items: Items<Item>,
}

/// One and-or list, and whether it is an asynchronous one.
#[cycle(tree)]
#[derive(Drop)]
pub struct Item {
    pub list: AndOr,
    pub background: bool,
}

/// What joins two pipelines: `&&` or `||`.
#[derive(Clone, Copy, Debug, PartialEq, Eq)]
pub enum Link {
    AndThen,
    OrElse,
}

/// An and-or list.
#[cycle(tree)]
#[derive(Drop)]
pub struct AndOr {
    pub first: Pipe,
    pub rest: Items<(Link, Pipe)>,
}

/// A pipeline, and whether `!` is before it (XCU 2.9.2).
#[cycle(tree)]
#[derive(Drop)]
pub struct Pipe {
    pub negated: bool,
    pub parts: Items<Command>,
}

/// A command: its number from 1 in the order of starts, the offset at which it starts, and what it
/// is. Last are the redirections after a compound command.
#[cycle(tree)]
#[derive(Drop)]
pub struct Command {
    pub number: u32,
    pub at: u32,
    pub kind: Kind,
    pub redirects: Items<Redirect>,
}

impl Command {
    /// The elements of a simple command. Other commands have none.
    #[tactic(auto, using(crate::specs::standard::Words::elements_of_simple), unfolding(crate::specs::standard::Words::elements_of))]
    pub fn elements(&self) -> &[Element]
        ensures { result.now ≡ elements_of (out-Command self.now).kind }
    {
        match &self.kind {
            Kind::Simple(elements) => elements.as_slice(),
            Kind::Group(_)
            | Kind::Subshell(_)
            | Kind::Cond { .. }
            | Kind::Loop { .. }
            | Kind::For { .. }
            | Kind::Branches { .. }
            | Kind::Define { .. } => &[],
        }
    }
}

/// What a command is (XCU 2.9).
#[cycle(tree)]
#[derive(Drop)]
pub enum Kind {
    /// A simple command, its elements in the order of the source (XCU 2.9.1).
    Simple(Items<Element>),
    /// `{ list }`
    Group(Script),
    /// `( list )`
    Subshell(Script),
    /// `if`, with its `elif`s and its `else`.
    Cond {
        branches: Items<Branch>,
        otherwise: Option<Script>,
    },
    /// `while` and `until`.
    Loop {
        kind: LoopKind,
        condition: Script,
        body: Script,
    },
    /// `for`, whose words are those after `in`; without `in` there are none, not even an empty
    /// list.
    For {
        name: Span,
        words: Option<Items<Word>>,
        body: Script,
    },
    /// `case`.
    Branches {
        word: Word,
        clauses: Items<Clause>,
    },
    /// A function definition. Its body is a compound command (XCU 2.9.5).
    Define {
        name: Span,
        body: Boxed<Command>,
    },
}

/// When a loop takes a turn: while its condition holds, or until it does.
#[derive(Clone, Copy, Debug, PartialEq, Eq)]
pub enum LoopKind {
    While,
    Until,
}

/// A condition of `if` or `elif`, and the list after its `then`.
#[cycle(tree)]
#[derive(Drop)]
pub struct Branch {
    pub condition: Script,
    pub body: Script,
}

/// A clause of `case`: its patterns, its list, which may be empty, and how it ends.
#[cycle(tree)]
#[derive(Drop)]
pub struct Clause {
    pub patterns: Items<Word>,
    pub body: Script,
    pub end: ClauseEnd,
}

/// How a clause of `case` ends.
#[derive(Clone, Copy, Debug, PartialEq, Eq)]
pub enum ClauseEnd {
    /// `;;`, or no mark at the last clause.
    Break,
    /// `;&`: the next clause's list is done too.
    FallThrough,
}

/// An element of a simple command.
#[cycle(tree)]
#[derive(Drop)]
pub enum Element {
    /// A name, `=` and a value, before the command name.
    Assignment { name: Span, value: Word },
    /// The command name, or an operand.
    Word(Word),
    /// A redirection.
    Redirection(Redirect),
}

/// How a redirection opens its target (XCU 2.7).
#[derive(Clone, Copy, Debug, PartialEq, Eq)]
pub enum Direction {
    /// `<`
    Read,
    /// `>`
    Write,
    /// `>|`
    Clobber,
    /// `>>`
    Append,
    /// `<>`
    Both,
    /// `<&`
    CopyIn,
    /// `>&`
    CopyOut,
}

/// A redirection: the offset of its operator, its IO number, and what it opens (XCU 2.7).
#[cycle(tree)]
#[derive(Drop)]
pub struct Redirect {
    pub at: u32,
    pub number: Option<Span>,
    pub target: Target,
}

/// What a redirection opens.
#[cycle(tree)]
#[derive(Drop)]
pub enum Target {
    File(Direction, Word),
    Here(HereDoc),
}

/// A here-document: whether its operator is `<<-`, the word after the operator, the body, and the
/// line that ends it, without its newline (XCU 2.7.4).
#[cycle(tree)]
#[derive(Drop)]
pub struct HereDoc {
    pub strip: bool,
    pub delimiter: Word,
    pub body: Word,
    pub end: Span,
}

/// A word: its bytes and its parts. That after the operator of a braced expansion, a value and a
/// body may have none.
#[cycle(tree)]
#[derive(Drop)]
pub struct Word {
    pub span: Span,
    pub parts: Items<Part>,
}

/// A part of a word. Each span holds all bytes of the part, those of its quoting too.
#[cycle(tree)]
#[derive(Drop)]
pub enum Part {
    /// Bytes that mean themselves.
    Plain(Span),
    /// A backslash and the byte that it keeps (XCU 2.2.1).
    Escaped(Span),
    /// Single quotes (XCU 2.2.2), or `$'` (XCU 2.2.4).
    Single(SingleStyle, Span),
    /// Double quotes, and the parts between them (XCU 2.2.3).
    Double(Span, Items<Part>),
    /// A parameter expansion (XCU 2.6.2).
    Param(Param),
    /// An arithmetic expansion (XCU 2.6.4).
    Arith(Span, Boxed<Expr>),
    /// A command substitution (XCU 2.6.3).
    Command(CommandStyle, Span, Script),
    /// A tilde-prefix: a tilde, and the login name after it, if there is one (XCU 2.6.1).
    Tilde(Span),
    /// A line continuation (XCU 2.2.1).
    Joined(Span),
}

impl Part {
    /// Whether the part is a quotation: a backslash with its byte, single quotes or double quotes.
    #[tactic(auto, unfolding(crate::specs::standard::language::Parts::is_quotation))]
    pub fn is_quotation(&self) -> bool
        ensures { result ≡ parts.is_quotation self.now }
    {
        matches!(
            self,
            Part::Escaped(_) | Part::Single(_, _) | Part::Double(_, _)
        )
    }
}

/// How a quotation in single quotes is written.
#[derive(Clone, Copy, Debug, PartialEq, Eq)]
pub enum SingleStyle {
    /// `'..'`
    Plain,
    /// `$'..'`
    Dollar,
}

/// How a command substitution is written.
#[derive(Clone, Copy, Debug, PartialEq, Eq)]
pub enum CommandStyle {
    /// `$(..)`
    Paren,
    /// Between backquotes.
    Backquote,
}

/// A parameter expansion: its bytes, the parameter, and what is done with its value (XCU 2.6.2).
#[cycle(tree)]
#[derive(Drop)]
pub struct Param {
    pub span: Span,
    pub subject: Subject,
    pub operator: ParameterOperator,
}

/// The parameter that an expansion names (XCU 2.5).
#[derive(Clone, Copy, Debug, PartialEq, Eq)]
pub enum Subject {
    /// A variable, by the bytes of its name.
    Name(Span),
    /// A positional parameter, by its number, and the digits of that number.
    Positional(u16, Span),
    /// A special parameter, and its byte.
    Special(Special, Span),
}

/// The special parameters (XCU 2.5.2).
#[derive(Clone, Copy, Debug, PartialEq, Eq)]
pub enum Special {
    /// `@`
    At,
    /// `*`
    Asterisk,
    /// `#`
    NumberSign,
    /// `?`
    QuestionMark,
    /// `-`
    Hyphen,
    /// `$`
    Dollar,
    /// `!`
    Exclamation,
    /// `0`
    Zero,
}

/// What an expansion does with the parameter's value (XCU 2.6.2).
#[cycle(tree)]
#[derive(Drop)]
pub enum ParameterOperator {
    /// It gives the value.
    Value,
    /// `#`: it gives the value's length.
    Length,
    /// `-`, `=`, `?` or `+`, and the word. An empty value counts as unset if a colon is before the
    /// sign.
    Use {
        action: Action,
        colon: bool,
        word: Word,
    },
    /// `%`, `%%`, `#` or `##`, and the pattern.
    Remove {
        removal: Removal,
        pattern: Word,
    },
}

/// What an expansion does by whether its parameter is set.
#[derive(Clone, Copy, Debug, PartialEq, Eq)]
pub enum Action {
    /// `-`: the word replaces an unset parameter.
    Default,
    /// `=`: the word is assigned to an unset parameter.
    Assign,
    /// `?`: an unset parameter is an error.
    Fault,
    /// `+`: the word replaces a set parameter.
    Alternative,
}

impl Action {
    /// Whether the word replaces a set parameter.
    pub fn is_alternative(self) -> bool
        ensures { result ≡ words.is_alternative self }
    {
        match self {
            Action::Alternative => true,
            Action::Default | Action::Assign | Action::Fault => false,
        }
    }
}

/// What an expansion removes from the value.
#[derive(Clone, Copy, Debug, PartialEq, Eq)]
pub enum Removal {
    /// `%`
    ShortSuffix,
    /// `%%`
    LongSuffix,
    /// `#`
    ShortPrefix,
    /// `##`
    LongPrefix,
}

/// An arithmetic expression (XCU 1.1.2.1, 2.6.4). Operators of one level that group from the left
/// are a list.
#[cycle(tree)]
#[derive(Drop)]
pub enum Expr {
    /// A decimal, octal or hexadecimal constant.
    Constant(Span),
    /// A name.
    Variable(Span),
    /// A whole expansion.
    Expansion(Part),
    /// An expression in parentheses.
    Parenthesis(Boxed<Expr>),
    Unary {
        operator: Unary,
        operand: Boxed<Expr>,
    },
    /// An operand, and at least one more of the same level.
    Chain {
        first: Boxed<Expr>,
        rest: Items<(Binary, Expr)>,
    },
    /// `condition ? yes : no`
    Choice {
        condition: Boxed<Expr>,
        yes: Boxed<Expr>,
        no: Boxed<Expr>,
    },
    /// `=`, or an operator and `=`.
    Assign {
        name: Span,
        operator: Option<Binary>,
        value: Boxed<Expr>,
    },
}

/// A unary operator of arithmetic.
#[derive(Clone, Copy, Debug, PartialEq, Eq)]
pub enum Unary {
    /// `+`
    Plus,
    /// `-`
    Minus,
    /// `~`
    Complement,
    /// `!`
    Not,
}

/// A binary operator of arithmetic, from tight to loose.
#[derive(Clone, Copy, Debug, PartialEq, Eq)]
pub enum Binary {
    /// `*`
    Multiply,
    /// `/`
    Divide,
    /// `%`
    Remainder,
    /// `+`
    Add,
    /// `-`
    Subtract,
    /// `<<`
    ShiftLeft,
    /// `>>`
    ShiftRight,
    /// `<`
    Less,
    /// `<=`
    LessEqual,
    /// `>`
    Greater,
    /// `>=`
    GreaterEqual,
    /// `==`
    Equal,
    /// `!=`
    Unequal,
    /// `&`
    BitAnd,
    /// `^`
    BitXor,
    /// `|`
    BitOr,
    /// `&&`
    And,
    /// `||`
    Or,
}
